ghost use Rattle.std.specs.Prelude.{◌≡◌, ◌<◌, [], IfOk, OnOk};
ghost use Rattle.std.specs.FinMap as map;
ghost use Rattle.nuc_base.specs.Kinds.{FitsKind};
ghost use Rattle.nuc_base.specs.Legal.{LegalPut};

use crate::UndoTree;
use nuc_base::{Kind, Name, NameFault, Node, NodeId, Place, TreeLike, Ver};
use nuc_tree::Tree;
use std::alloc::{AllocError, Global};
use std::process::Abort;
use std::test::Fail;

/// A parent, a name and a version: a folder for version 0, else a file.
type Shape = (u64, &'static [u8], u64);

/// `/a` is 1, a folder, and `/a/b` is 2, with version 5.
const SETTLED: [(u64, Shape); 2] = [(1, (0, b"a", 0)), (2, (1, b"b", 5))];

fn node(alloc: Global, shape: Shape) -> Result<Node, NameFault>
    ensures { IfOk result FitsKind }
{
    let (parent, name, ver) = shape;
    let name = Name::new(alloc, name)?;
    let parent = NodeId(parent);
    let kind = if ver == 0 { Kind::Folder } else { Kind::File };
    Ok(Node {
        place: Place { parent, name },
        kind,
        ver: Ver(ver),
        bit: false,
    })
}

fn put(rt: &impl Abort, tree: &mut UndoTree<Tree>, id: u64, node: Node) -> Result<(), Fail>
    requires { FitsKind node }
{
    assert!(rt; id > 0);
    assert_eq!(rt; tree.tree().check_put(NodeId(id), &node), Ok(()));
    tree.put(NodeId(id), node)?;
    Ok(())
}

fn cut(rt: &impl Abort, tree: &mut UndoTree<Tree>, id: u64) -> Result<(), Fail> {
    let id = NodeId(id);
    assert!(rt; tree.tree().get(id).is_some() && !tree.tree().has_child(id));
    tree.cut(id)?;
    Ok(())
}

/// `/a/b` is written, moved to `/c` and cut, and all others come and go.
fn changes(rt: &impl Abort, alloc: Global, tree: &mut UndoTree<Tree>) -> Result<(), Fail> {
    for (id, shape) in [
        (2, (1, b"b".as_slice(), 6)),
        (2, (0, b"c".as_slice(), 6)),
        (3, (1, b"d".as_slice(), 0)),
    ] {
        put(rt, tree, id, node(alloc, shape)?)?;
    }
    for id in [2, 3, 1] {
        cut(rt, tree, id)?;
    }
    Ok(())
}

fn settled(rt: &impl Abort, alloc: Global) -> Result<UndoTree<Tree>, Fail>
    ensures { IfOk result (λ tree. tree.past ≡ []) }
{
    let mut tree = UndoTree::of(alloc, Tree::new(alloc));
    for (id, shape) in SETTLED {
        put(rt, &mut tree, id, node(alloc, shape)?)?;
    }
    tree.settle();
    Ok(tree)
}

/// The tree has these nodes, and no others.
fn stands(rt: &impl Abort, tree: &UndoTree<Tree>, want: &[(u64, Shape)]) {
    assert_eq!(rt; tree.tree().len(), want.len() as u64);
    for &(id, shape) in want {
        assert_eq!(rt; tree.tree().get(NodeId(id)).map(shape_of), Some(shape));
    }
}

fn shape_of(node: &Node) -> (u64, &[u8], u64) {
    (node.place.parent.0, node.place.name.bytes(), node.ver.0)
}

#[test]
fn goes_back_to_what_was_settled(rt: HostRuntime) -> Result<(), Fail> {
    let mut tree = settled(&rt, rt.alloc())?;
    stands(&rt, &tree, &SETTLED);
    changes(&rt, rt.alloc(), &mut tree)?;
    stands(&rt, &tree, &[]);
    tree.back();
    stands(&rt, &tree, &SETTLED);
    tree.back();
    stands(&rt, &tree, &SETTLED);
    changes(&rt, rt.alloc(), &mut tree)?;
    tree.settle();
    tree.back();
    stands(&rt, &tree, &[]);
    Ok(())
}

/// From `reserve` on no call asks for memory.
#[test]
fn wants_no_memory_after_reserve(rt: HostRuntime) -> Result<(), Fail> {
    let mut tree = settled(&rt, rt.alloc())?;
    let folder = node(rt.alloc(), (1, b"d", 0))?;
    let file = node(rt.alloc(), (0, b"e", 7))?;
    let late = node(rt.alloc(), (1, b"f", 8))?;
    tree.reserve(3)?;
    cut(&rt, &mut tree, 2)?;
    put(&rt, &mut tree, 3, folder)?;
    put(&rt, &mut tree, 4, file)?;
    tree.back();
    stands(&rt, &tree, &SETTLED);
    put(&rt, &mut tree, 2, late)?;
    cut(&rt, &mut tree, 2)?;
    cut(&rt, &mut tree, 1)?;
    stands(&rt, &tree, &[]);
    Ok(())
}

/// The numbers come in no order, one of them twice.
#[test]
fn puts_what_is_laid_by(rt: HostRuntime) -> Result<(), Fail> {
    let mut tree = settled(&rt, rt.alloc())?;
    for (number, shape) in [
        (5, (0, b"e".as_slice(), 7)),
        (3, (0, b"f".as_slice(), 7)),
        (9, (0, b"g".as_slice(), 0)),
        (5, (0, b"h".as_slice(), 8)),
    ] {
        lay_by(&mut tree, number, node(rt.alloc(), shape)?)?;
    }
    let (number, id) = (4, NodeId(2));
    let node = node(rt.alloc(), (1, b"c", 6))?;
    assert_eq!(&rt; tree.tree().check_put(id, &node), Ok(()));
    puts_twice(&mut tree, number, id, node)?;
    stands(&rt, &tree, &[SETTLED[0], (2, (1, b"c", 6))]);
    tree.settle();
    tree.forget_laid();
    tree.back();
    stands(&rt, &tree, &[SETTLED[0], (2, (1, b"c", 6))]);
    Ok(())
}

fn lay_by(tree: &mut UndoTree<Tree>, number: u64, node: Node) -> Result<(), AllocError>
    requires settled { tree.old.past ≡ [] }
    requires fits { FitsKind node }
    ensures { tree.new.past ≡ [] }
{
    let _tree = tree.tree();
    tree.lay_by(number, node)
}

/// Puts a node that is laid by, takes it back and puts it again. Neither put wants memory.
fn puts_twice(
    tree: &mut UndoTree<Tree>,
    number: u64,
    id: NodeId,
    node: Node,
) -> Result<(), AllocError>
    requires settled { tree.old.past ≡ [] }
    requires id { 0 < id.0 }
    requires fits { FitsKind node }
    requires legal { LegalPut tree.old.now id.0 node }
    ensures now { OnOk result (tree.new.now ≡ map.insert tree.old.now id.0 node) }
{
    tree.reserve(1)?;
    let _tree = tree.tree();
    tree.lay_by(number, node)?;
    tree.put_laid(number, id);
    tree.back();
    tree.put_laid(number, id);
    Ok(())
}

/// What lies by in one tree is put in the other.
#[test]
fn swaps_what_is_laid_by(rt: HostRuntime) -> Result<(), Fail> {
    let alloc = rt.alloc();
    let mut tree = settled(&rt, alloc)?;
    let mut other = UndoTree::of(alloc, Tree::new(alloc));
    let (id, shape) = (NodeId(2), (0, b"c".as_slice(), 6));
    let node = node(alloc, shape)?;
    assert_eq!(&rt; other.tree().check_put(id, &node), Ok(()));
    swaps_and_puts(&mut tree, &mut other, id, node)?;
    stands(&rt, &tree, &SETTLED);
    stands(&rt, &other, &[(2, shape)]);
    Ok(())
}

fn swaps_and_puts(
    tree: &mut UndoTree<Tree>,
    other: &mut UndoTree<Tree>,
    id: NodeId,
    node: Node,
) -> Result<(), AllocError>
    requires settled { tree.old.past ≡ [] }
    requires other_settled { other.old.past ≡ [] }
    requires id { 0 < id.0 }
    requires fits { FitsKind node }
    requires legal { LegalPut other.old.now id.0 node }
{
    let _tree = tree.tree();
    other.reserve(1)?;
    tree.lay_by(4, node)?;
    other.swap_laid(tree);
    other.put_laid(4, id);
    Ok(())
}
