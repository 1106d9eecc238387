ghost use Rattle.std.specs.Prelude.{◌≡◌, ◌<◌, IsTrue, IfOk};
ghost use Rattle.nuc_base.specs.Kinds.{FitsKind};
ghost use Rattle.nuc_journal.specs.Journal.{HadKind};

use crate::{Entry, Journal};
use nuc_base::{Kind, Name, NameFault, Node, NodeId, Place, TreeLike, Ver};
use std::alloc::Global;
use std::process::Abort;
use std::test::Fail;

/// A folder for version 0, else a file, at the root.
fn node(alloc: Global, name: &[u8], ver: u64) -> Result<Node, NameFault>
    ensures { IfOk result FitsKind }
{
    let name = Name::new(alloc, name)?;
    let parent = NodeId(0);
    let kind = if ver == 0 { Kind::Folder } else { Kind::File };
    Ok(Node {
        place: Place { parent, name },
        kind,
        ver: Ver(ver),
        bit: false,
    })
}

fn had_kind(journal: &Journal, id: NodeId, kind: Kind) -> bool
    ensures { IsTrue result → HadKind journal.now.now id.0 kind }
{
    match journal.kind_of(id) {
        Some(had) => had == kind,
        None => true,
    }
}

/// Pushes a node, once it is seen to be legal.
fn put(
    rt: &impl Abort,
    alloc: Global,
    journal: &mut Journal,
    id: u64,
    node: Node,
) -> Result<(), Fail>
    requires { FitsKind node }
{
    let last = journal.last();
    assert!(rt; id > 0 && last < 1000 && had_kind(journal, NodeId(id), node.kind));
    let tree = journal.tree_at(alloc, last)?;
    tree.check_put(NodeId(id), &node)?;
    journal.push(Entry {
        rev: last + 1,
        id: NodeId(id),
        value: Some(node),
        by: 1,
    })?;
    Ok(())
}

/// Pushes that a node went, once it is seen to be legal.
fn cut(rt: &impl Abort, alloc: Global, journal: &mut Journal, id: u64) -> Result<(), Fail> {
    let last = journal.last();
    assert!(rt; id > 0 && last < 1000);
    let mut tree = journal.tree_at(alloc, last)?;
    tree.cut(NodeId(id))?;
    journal.push(Entry {
        rev: last + 1,
        id: NodeId(id),
        value: None,
        by: 0,
    })?;
    Ok(())
}

/// `f` is written twice, then `d` comes and goes.
fn four_entries(rt: &impl Abort, alloc: Global, journal: &mut Journal) -> Result<(), Fail> {
    put(rt, alloc, journal, 1, node(alloc, b"f", 1)?)?;
    put(rt, alloc, journal, 1, node(alloc, b"f", 2)?)?;
    put(rt, alloc, journal, 2, node(alloc, b"d", 0)?)?;
    cut(rt, alloc, journal, 2)
}

#[test]
fn tells_what_its_entries_say(rt: HostRuntime) -> Result<(), Fail> {
    let mut journal = Journal::new(rt.alloc());
    four_entries(&rt, rt.alloc(), &mut journal)?;
    tells(&rt, &journal)?;
    pages(&rt, &journal)?;
    trees(&rt, rt.alloc(), &journal)
}

fn tells(rt: &impl Abort, journal: &Journal) -> Result<(), Fail> {
    assert_eq!(rt; journal.last(), 4);
    for (id, rev, kind) in [
        (1, 2, Some(Kind::File)),
        (2, 0, Some(Kind::Folder)),
        (3, 0, None),
    ] {
        assert_eq!(rt; journal.rev_of(NodeId(id)), rev);
        assert_eq!(rt; journal.kind_of(NodeId(id)), kind);
    }
    Ok(())
}

fn pages(rt: &impl Abort, journal: &Journal) -> Result<(), Fail> {
    for (after, want) in [(0, 4), (1, 3), (3, 1), (4, 0), (u64::MAX, 0)] {
        assert_eq!(rt; journal.page(after).len(), want);
        assert_eq!(rt; journal.since(after).len(), want);
    }
    Ok(())
}

fn trees(rt: &impl Abort, alloc: Global, journal: &Journal) -> Result<(), Fail> {
    for (rev, nodes, ver) in [
        (0, 0, None),
        (1, 1, Some(1)),
        (3, 2, Some(2)),
        (9, 1, Some(2)),
    ] {
        let tree = journal.tree_at(alloc, rev)?;
        assert_eq!(rt; tree.len(), nodes);
        assert_eq!(rt; tree.get(NodeId(1)).map(|node| node.ver.0), ver);
    }
    Ok(())
}

/// `d` comes again as `e`, `f` is written again, `g` is new.
fn three_more(rt: &impl Abort, alloc: Global, journal: &mut Journal) -> Result<(), Fail> {
    put(rt, alloc, journal, 2, node(alloc, b"e", 0)?)?;
    put(rt, alloc, journal, 1, node(alloc, b"f", 3)?)?;
    put(rt, alloc, journal, 3, node(alloc, b"g", 4)?)
}

#[test]
fn goes_back_to_what_is_settled(rt: HostRuntime) -> Result<(), Fail> {
    let mut journal = Journal::new(rt.alloc());
    four_entries(&rt, rt.alloc(), &mut journal)?;
    journal.settle();
    journal.reserve(3)?;
    three_more(&rt, rt.alloc(), &mut journal)?;
    assert_eq!(&rt; journal.rev_of(NodeId(2)), 5);
    assert_eq!(&rt; journal.entry(7).map(|entry| entry.id), Some(NodeId(3)));
    assert!(&rt; journal.entry(0).is_none());
    journal.back();
    tells(&rt, &journal)
}

#[test]
fn copies_an_entry(rt: HostRuntime) -> Result<(), Fail> {
    let mut journal = Journal::new(rt.alloc());
    put(&rt, rt.alloc(), &mut journal, 1, node(rt.alloc(), b"f", 1)?)?;
    for entry in journal.entries() {
        let copied = entry.copy(rt.alloc())?;
        assert_eq!(&rt; (copied.rev, copied.by), (1, 1));
    }
    Ok(())
}
