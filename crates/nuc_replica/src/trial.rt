//! A remote that follows a journal, for tests.
ghost use Rattle.std.specs.Prelude.{◌≡◌, ◌<◌, IsTrue, drop, length, take};
ghost use Rattle.nuc_base.specs.Kinds.{FitsKind};
ghost use Rattle.nuc_base.specs.Legal.{LegalPut};
ghost use Rattle.nuc_journal.specs.Entries.{tree_of};
ghost use Rattle.nuc_journal.specs.Journal.{HadKind, IsJournal, IsNextEntry};

use crate::Remote;
use nuc_base::{Kind, Name, Node, NodeId, Place, TreeLike, Ver};
use nuc_journal::{Entry, Journal};
use nuc_lookup::UndoLookup;
use nuc_tree::Tree;
use std::alloc::Global;
use std::marker::Model;
use std::process::Abort;

/// A parent, a name and a version: a folder for version 0, else a file.
pub(crate) type Shape = (u64, &'static [u8], u64);

pub(crate) fn node(rt: &impl Abort, alloc: Global, shape: Shape) -> Node
    ensures fits { FitsKind result }
    ensures parent { result.place.parent.0 ≡ shape.entry.0 }
{
    let (parent, name, ver) = shape;
    let Ok(name) = Name::new(alloc, name) else {
        panic!(rt; "no name, or no memory")
    };
    let parent = NodeId(parent);
    let kind = if ver == 0 { Kind::Folder } else { Kind::File };
    Node {
        place: Place { parent, name },
        kind,
        ver: Ver(ver),
        bit: false,
    }
}

fn had_kind(journal: &Journal, id: NodeId, kind: Kind) -> bool
    ensures { IsTrue result → HadKind journal.now.now id.0 kind }
{
    match journal.kind_of(id) {
        Some(had) => had == kind,
        None => true,
    }
}

/// Sees that a node may come to an identity as the journal's tree is.
fn see_that_it_is_legal(rt: &impl Abort, alloc: Global, journal: &Journal, id: NodeId, node: &Node)
    requires { FitsKind node.now }
    ensures id { 0 < id.0 }
    ensures legal { LegalPut (tree_of journal.now.now) id.0 node.now }
{
    let Ok(tree) = journal.tree_at(alloc, journal.last()) else {
        panic!(rt; "out of memory")
    };
    assert!(rt; id.0 > 0);
    assert!(rt; tree.check_put(id, node).is_ok());
}

fn next_entry(rt: &impl Abort, alloc: Global, journal: &Journal, id: u64, shape: Shape) -> Entry
    ensures { IsNextEntry journal.now.now result }
{
    let node = node(rt, alloc, shape);
    assert!(rt; journal.last() < 1000 && had_kind(journal, NodeId(id), node.kind));
    see_that_it_is_legal(rt, alloc, journal, NodeId(id), &node);
    Entry {
        rev: journal.last() + 1,
        id: NodeId(id),
        value: Some(node),
        by: 1,
    }
}

/// The next entries after a revision.
fn next_entries<'a>(rt: &impl Abort, journal: &'a Journal, after: u64, count: usize) -> &'a [Entry]
    ensures entries { result.now ≡ take count (drop after journal.now.now) }
    ensures journal { IsJournal journal.now.now }
{
    let _entries = journal.entries();
    let next = journal.since(after);
    assert!(rt; count <= next.len());
    &next[..count]
}

/// A remote, and the journal that it follows. What each call requires is seen to when it is made, so that a test may make
/// any.
#[derive(Drop)]
pub(crate) struct Trial {
    alloc: Global,
    journal: Journal,
    remote: Remote<Tree>,
}

impl Model for Trial {
    ghost use Rattle.std.specs.Prelude.{ℕ};
    ghost use Rattle.nuc_replica.specs.Following.{IsAt};

    ghost Value = { ℕ };

    ghost view = { λ t. 0 };

    ghost invariant = { λ t. IsAt t.journal.now t.remote.now × IsAt t.journal.now t.remote.settled };
}

impl Trial {
    /// A remote before the first revision.
    pub(crate) fn new(alloc: Global) -> Trial {
        Trial {
            alloc,
            journal: Journal::new(alloc),
            remote: Remote::of(alloc, Tree::new(alloc), UndoLookup::new(alloc), 0),
        }
    }

    pub(crate) fn remote(&self) -> &Remote<Tree> {
        &self.remote
    }

    /// The journal gets an entry.
    pub(crate) fn put(&mut self, rt: &impl Abort, id: u64, shape: Shape) {
        let entry = next_entry(rt, self.alloc, &self.journal, id, shape);
        let Ok(()) = self.journal.push(entry) else {
            panic!(rt; "out of memory")
        };
    }

    pub(crate) fn pull(&mut self, rt: &impl Abort, count: usize) {
        let page = next_entries(rt, &self.journal, self.remote.cursor(), count);
        let Ok(()) = self.remote.pull(self.alloc, page) else {
            panic!(rt; "out of memory")
        };
    }

    pub(crate) fn hear(&mut self, rt: &impl Abort, count: usize) {
        let news = next_entries(rt, &self.journal, self.remote.cursor(), count);
        let Ok(()) = self.remote.hear(self.alloc, news) else {
            panic!(rt; "out of memory")
        };
    }

    pub(crate) fn catch_up(&mut self, rt: &impl Abort, rev: u64) {
        assert!(rt; rev <= self.remote.known());
        self.remote.catch_up(rev);
    }

    pub(crate) fn forget(&mut self) {
        self.remote.forget();
    }

    pub(crate) fn settle(&mut self) {
        self.remote.settle();
    }

    pub(crate) fn back(&mut self) {
        self.remote.back();
    }
}
