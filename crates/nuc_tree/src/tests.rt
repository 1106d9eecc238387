ghost use Rattle.std.specs.Prelude.{IfOk};
ghost use Rattle.nuc_base.specs.Kinds.{FitsKind};

use crate::Tree;
use nuc_base::{CutFault, Kind, Name, NameFault, Node, NodeId, Place, PutFault, TreeLike, Ver};
use std::alloc::Global;
use std::process::Abort;
use std::test::Fail;

/// A folder for version 0, else a file.
fn node(alloc: Global, parent: u64, name: &[u8], ver: u64) -> Result<Node, NameFault>
    ensures { IfOk result FitsKind }
{
    let name = Name::new(alloc, name)?;
    let parent = NodeId(parent);
    let kind = if ver == 0 { Kind::Folder } else { Kind::File };
    Ok(Node {
        place: Place { parent, name },
        kind,
        ver: Ver(ver),
        bit: false,
    })
}

#[test]
fn puts_cuts_and_looks(rt: HostRuntime) -> Result<(), Fail> {
    let mut tree = Tree::new(rt.alloc());
    for (id, ver, parent, name, want) in [
        (1, 0, 0, b"a".as_slice(), Ok(())),
        (3, 7, 1, b"c".as_slice(), Ok(())),
        (2, 0, 1, b"b".as_slice(), Ok(())),
        (3, 0, 9, b"c".as_slice(), Err(PutFault::KindChanged)),
        (4, 0, 3, b"a".as_slice(), Err(PutFault::NoParent)),
        (4, 5, 9, b"d".as_slice(), Err(PutFault::NoParent)),
        (4, 5, 0, b"a".as_slice(), Err(PutFault::Taken(NodeId(1)))),
        (1, 0, 2, b"x".as_slice(), Err(PutFault::Cycle)),
        (1, 0, 1, b"x".as_slice(), Err(PutFault::Cycle)),
        (3, 8, 2, b"c".as_slice(), Ok(())),
        (1, 0, 0, b"a".as_slice(), Ok(())),
        (4, 5, 0, b"d".as_slice(), Ok(())),
    ] {
        assert!(rt; id > 0);
        let node = node(rt.alloc(), parent, name, ver)?;
        assert_eq!(rt; tree.check_put(NodeId(id), &node), want);
        assert_eq!(rt; tree.put(NodeId(id), node).map(|_| ()), want);
    }
    looks(&rt, rt.alloc(), &tree)?;
    children(&rt, &tree)?;
    reserves(&rt, &mut tree)?;
    cuts(&rt, &mut tree)
}

/// `/a` is 1, `/a/b` is 2, `/a/b/c` is 3, `/d` is 4.
fn looks(rt: &impl Abort, alloc: Global, tree: &Tree) -> Result<(), Fail> {
    assert_eq!(rt; tree.len(), 4);
    let order = [tree.nth(0), tree.nth(2), tree.nth(3), tree.nth(4)];
    assert_eq!(rt;
        order,
        [Some(NodeId(1)), Some(NodeId(3)), Some(NodeId(4)), None]
    );
    let name = Name::new(alloc, b"c")?;
    assert_eq!(rt; tree.at(NodeId(2), &name), Some(NodeId(3)));
    assert_eq!(rt; tree.at(NodeId(1), &name), None);
    assert!(rt; tree.has_child(NodeId(2)) && !tree.has_child(NodeId(3)));
    assert!(rt; tree.under(NodeId(3), NodeId(1)) && tree.under(NodeId(3), NodeId(0)));
    assert!(rt; tree.under(NodeId(2), NodeId(2)) && !tree.under(NodeId(1), NodeId(2)));
    assert_eq!(rt; tree.get(NodeId(3)).map(|node| node.ver), Some(Ver(8)));
    assert!(rt; tree.get(NodeId(0)).is_none());
    Ok(())
}

fn children(rt: &impl Abort, tree: &Tree) -> Result<(), Fail> {
    for (id, i, want) in [
        (0, 0, Some(NodeId(1))),
        (0, 1, Some(NodeId(4))),
        (0, 2, None),
        (1, 0, Some(NodeId(2))),
        (2, 0, Some(NodeId(3))),
        (3, 0, None),
        (0, u64::MAX, None),
    ] {
        assert_eq!(rt; tree.child(NodeId(id), i), want);
    }
    Ok(())
}

fn reserves(rt: &impl Abort, tree: &mut Tree) -> Result<(), Fail> {
    tree.reserve(9)?;
    assert!(rt; tree.reserve(u64::MAX).is_err());
    assert_eq!(rt; tree.len(), 4);
    Ok(())
}

fn cuts(rt: &impl Abort, tree: &mut Tree) -> Result<(), Fail> {
    for (id, want) in [
        (2, Err(CutFault::NotEmpty)),
        (0, Err(CutFault::Absent)),
        (3, Ok(Ver(8))),
        (2, Ok(Ver(0))),
        (1, Ok(Ver(0))),
        (4, Ok(Ver(5))),
        (1, Err(CutFault::Absent)),
    ] {
        assert_eq!(rt; tree.cut(NodeId(id)).map(|node| node.ver), want);
    }
    assert_eq!(rt; tree.len(), 0);
    Ok(())
}
