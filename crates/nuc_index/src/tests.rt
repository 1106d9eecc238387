ghost use Rattle.std.specs.Prelude.{◌<◌, IfOk};
ghost use Rattle.nuc_base.specs.Kinds.{FitsKind};
ghost use Rattle.nuc_base.specs.Trees.{WellFormed};

use crate::IndexTree;
use nuc_base::{CutFault, Kind, Name, NameFault, Node, NodeId, Place, PutFault, TreeLike, Ver};
use nuc_tree::Tree;
use std::alloc::Global;
use std::process::Abort;
use std::test::Fail;

/// Names of several lengths, which bytes order otherwise than lengths do.
const NAMES: [&[u8]; 6] = [b"a", b"aa", b"ab", b"b", b"B", b"\xC3\xA9"];

/// The identities that are asked for, from the root's on.
const IDS: u64 = 14;

/// A folder for version 0, else a file.
fn node(alloc: Global, parent: u64, name: &[u8], ver: u64) -> Result<Node, NameFault>
    ensures { IfOk result FitsKind }
{
    let name = Name::new(alloc, name)?;
    let parent = NodeId(parent);
    let kind = if ver == 0 { Kind::Folder } else { Kind::File };
    Ok(Node {
        place: Place { parent, name },
        kind,
        ver: Ver(ver),
        bit: false,
    })
}

/// The plain tree and the indexed one, of which the same is asked.
#[derive(Drop)]
struct Trees {
    plain: Tree,
    indexed: IndexTree,
}

impl Trees {
    fn new(alloc: Global) -> Trees
        ensures { WellFormed result.plain.nodes × WellFormed result.indexed.nodes }
    {
        Trees {
            plain: Tree::new(alloc),
            indexed: IndexTree::new(alloc),
        }
    }

    /// Puts a node into both. The answer has the version of the node before.
    fn put(
        &mut self,
        rt: &impl Abort,
        id: NodeId,
        one: Node,
        other: Node,
    ) -> Result<Option<Ver>, PutFault>
        requires form { WellFormed self.old.plain.nodes × WellFormed self.old.indexed.nodes }
        requires id { 0 < id.0 }
        requires fits { FitsKind one × FitsKind other }
        ensures { WellFormed self.new.plain.nodes × WellFormed self.new.indexed.nodes }
    {
        let may = self.plain.check_put(id, &one);
        assert_eq!(rt; self.indexed.check_put(id, &other), may);
        let answer = self.plain.put(id, one).map(version);
        assert_eq!(rt; self.indexed.put(id, other).map(version), answer);
        answer
    }

    /// Cuts a node from both. The answer has its version.
    fn cut(&mut self, rt: &impl Abort, id: NodeId) -> Result<Ver, CutFault>
        requires { WellFormed self.old.plain.nodes × WellFormed self.old.indexed.nodes }
        ensures { WellFormed self.new.plain.nodes × WellFormed self.new.indexed.nodes }
    {
        let answer = self.plain.cut(id).map(|node| node.ver);
        assert_eq!(rt; self.indexed.cut(id).map(|node| node.ver), answer);
        answer
    }

    /// Asks both trees everything of the identities and names above.
    fn look(&self, rt: &impl Abort, alloc: Global) -> Result<(), Fail> {
        assert_eq!(rt; self.indexed.len(), self.plain.len());
        for id in 0..IDS {
            assert_eq!(rt; self.indexed.nth(id), self.plain.nth(id));
            self.look_at(rt, NodeId(id));
            for other in 0..IDS {
                let under = self.plain.under(NodeId(id), NodeId(other));
                assert_eq!(rt; self.indexed.under(NodeId(id), NodeId(other)), under);
            }
            for name in NAMES {
                let name = Name::new(alloc, name)?;
                let at = self.plain.at(NodeId(id), &name);
                assert_eq!(rt; self.indexed.at(NodeId(id), &name), at);
            }
        }
        Ok(())
    }

    fn look_at(&self, rt: &impl Abort, id: NodeId) {
        assert_eq!(rt; self.indexed.has_child(id), self.plain.has_child(id));
        for i in 0..IDS {
            assert_eq!(rt; self.indexed.child(id, i), self.plain.child(id, i));
        }
        assert_eq!(rt;
            self.indexed.child(id, u64::MAX),
            self.plain.child(id, u64::MAX)
        );
        match (self.indexed.get(id), self.plain.get(id)) {
            (Some(one), Some(other)) => same_node(rt, one, other),
            (one, other) => assert!(rt; one.is_none() && other.is_none()),
        }
    }
}

fn version(before: Option<Node>) -> Option<Ver> {
    before.map(|node| node.ver)
}

fn same_node(rt: &impl Abort, one: &Node, other: &Node) {
    assert_eq!(rt; one.place.parent, other.place.parent);
    assert_eq!(rt; one.place.name.bytes(), other.place.name.bytes());
    assert_eq!(rt;
        (one.kind, one.ver, one.bit),
        (other.kind, other.ver, other.bit)
    );
}

#[test]
fn answers_as_the_plain_tree(rt: HostRuntime) -> Result<(), Fail> {
    let mut trees = Trees::new(rt.alloc());
    for (id, ver, parent, name, want) in [
        (1, 0, 0, b"a".as_slice(), Ok(None)),
        (2, 0, 1, b"b".as_slice(), Ok(None)),
        (4, 7, 1, b"d".as_slice(), Ok(None)),
        (3, 0, 1, b"c".as_slice(), Ok(None)),
        // over itself
        (4, 7, 1, b"d".as_slice(), Ok(Some(Ver(7)))),
        // onto its own place
        (4, 8, 1, b"d".as_slice(), Ok(Some(Ver(7)))),
        // below itself
        (1, 0, 2, b"x".as_slice(), Err(PutFault::Cycle)),
        (1, 0, 1, b"x".as_slice(), Err(PutFault::Cycle)),
        // another kind
        (4, 0, 1, b"d".as_slice(), Err(PutFault::KindChanged)),
        (2, 9, 1, b"b".as_slice(), Err(PutFault::KindChanged)),
        // no parent, and a place that another has
        (5, 5, 4, b"e".as_slice(), Err(PutFault::NoParent)),
        (5, 5, 9, b"e".as_slice(), Err(PutFault::NoParent)),
        (5, 5, 1, b"b".as_slice(), Err(PutFault::Taken(NodeId(2)))),
        // another name for a folder with three children
        (1, 0, 0, b"z".as_slice(), Ok(Some(Ver(0)))),
        // another parent, and then the place is free
        (2, 0, 3, b"b".as_slice(), Ok(Some(Ver(0)))),
        (5, 5, 1, b"b".as_slice(), Ok(None)),
    ] {
        assert!(rt; id > 0);
        let one = node(rt.alloc(), parent, name, ver)?;
        let other = node(rt.alloc(), parent, name, ver)?;
        assert_eq!(rt; trees.put(&rt, NodeId(id), one, other), want);
        trees.look(&rt, rt.alloc())?;
    }
    cuts(&rt, rt.alloc(), trees)
}

/// `/z` is 1, `/z/c` is 3, `/z/c/b` is 2, `/z/d` is 4, `/z/b` is 5.
fn cuts(rt: &impl Abort, alloc: Global, mut trees: Trees) -> Result<(), Fail>
    requires { WellFormed trees.plain.nodes × WellFormed trees.indexed.nodes }
{
    for (id, want) in [
        (1, Err(CutFault::NotEmpty)),
        (3, Err(CutFault::NotEmpty)),
        (0, Err(CutFault::Absent)),
        (9, Err(CutFault::Absent)),
        (2, Ok(Ver(0))),
        (3, Ok(Ver(0))),
        (3, Err(CutFault::Absent)),
        (5, Ok(Ver(5))),
        (4, Ok(Ver(8))),
        (1, Ok(Ver(0))),
    ] {
        assert_eq!(rt; trees.cut(rt, NodeId(id)), want);
        trees.look(rt, alloc)?;
    }
    assert_eq!(rt; trees.indexed.len(), 0);
    Ok(())
}

/// The change that a number stands for: whether it was accepted.
fn change(trees: &mut Trees, rt: &impl Abort, alloc: Global, seed: u64) -> Result<bool, Fail>
    requires { WellFormed trees.old.plain.nodes × WellFormed trees.old.indexed.nodes }
    ensures { WellFormed trees.new.plain.nodes × WellFormed trees.new.indexed.nodes }
{
    let id = 1 + (seed >> 33) % 12;
    assert!(rt; id > 0);
    if (seed >> 40) % 4 == 0 {
        return Ok(trees.cut(rt, NodeId(id)).is_ok());
    }
    let ver = if id % 3 == 0 { seed >> 60 } else { 0 };
    let parent = (seed >> 45) % 13;
    let name = NAMES[(seed >> 50) as usize % 6];
    let one = node(alloc, parent, name, ver)?;
    let other = node(alloc, parent, name, ver)?;
    Ok(trees.put(rt, NodeId(id), one, other).is_ok())
}

#[test]
fn answers_as_the_plain_tree_after_many_changes(rt: HostRuntime) -> Result<(), Fail> {
    let mut trees = Trees::new(rt.alloc());
    let mut seed = 1u64;
    let mut accepted = 0u64;
    for _ in 0..200u64 {
        seed = seed
            .wrapping_mul(6_364_136_223_846_793_005)
            .wrapping_add(1_442_695_040_888_963_407);
        if change(&mut trees, &rt, rt.alloc(), seed)? {
            accepted = accepted.wrapping_add(1);
        }
        trees.look(&rt, rt.alloc())?;
    }
    assert!(rt; accepted > 60);
    Ok(())
}

#[test]
fn reserves(rt: HostRuntime) -> Result<(), Fail> {
    let mut tree = IndexTree::new(rt.alloc());
    tree.reserve(9)?;
    assert!(rt; tree.reserve(u64::MAX).is_err());
    assert_eq!(rt; tree.len(), 0);
    let one = node(rt.alloc(), 0, b"a", 0)?;
    assert_eq!(rt; tree.put(NodeId(1), one).map(version), Ok(None));
    assert_eq!(rt; tree.len(), 1);
    Ok(())
}
