//! A client beside a server's journal, for tests.
ghost use Rattle.std.specs.Prelude.{◌≡◌, ◌<◌, ◌+◌, ℕ, All, IfSome, IsTrue, drop, false, length, take};
ghost use Rattle.nuc_base.specs.Changes.{FitsChange};
ghost use Rattle.nuc_base.specs.Kinds.{FitsKind};
ghost use Rattle.nuc_base.specs.Legal.{LegalPut};
ghost use Rattle.nuc_flights.specs.Flights.{flight_of};
ghost use Rattle.nuc_journal.specs.Entries.{tree_of};
ghost use Rattle.nuc_journal.specs.Journal.{HadKind, IsJournal, IsNextEntry};
ghost use Rattle.nuc_step.specs.Sound as sound;
ghost use Rattle.nuc_step.specs.Sound.{FitsTaken, MayFly};
ghost use Rattle.nuc_step.specs.Steps.{is_split};

use crate::{Client, DoneReply, FlyReply, TakeFault};
use nuc_base::{Change, Kind, Name, Node, NodeId, Place, TreeLike, Ver};
use nuc_class::{Effect, Op, Verb};
use nuc_edits::Edits;
use nuc_flights::Taken;
use nuc_folder::Outcome;
use nuc_journal::{Entry, Journal};
use nuc_lookup::UndoLookup;
use nuc_observe::Keys;
use nuc_replica::{Local, Remote};
use nuc_tree::Tree;
use std::alloc::Global;
use std::marker::Model;
use std::process::Abort;

/// The parent and the name of a folder.
pub(crate) type Shape = (u64, &'static [u8]);

/// An operation that gives folders to one identity: what it writes in each tree, over what.
#[derive(Clone, Copy)]
pub(crate) struct Draft {
    id: u64,
    /// A commit, and else a call of the folder.
    commits: bool,
    remote: Option<Shape>,
    local: Option<Shape>,
    synced: Option<Shape>,
    old_local: Option<Shape>,
    old_synced: Option<Shape>,
}

/// What Local has goes to the server, over this value of Synced.
pub(crate) fn up(id: u64, old: Option<Shape>, new: Shape) -> Draft {
    Draft {
        id,
        commits: true,
        remote: Some(new),
        local: None,
        synced: Some(new),
        old_local: Some(new),
        old_synced: old,
    }
}

/// What the server has comes to the folder, over this value of Local and Synced.
pub(crate) fn down(id: u64, old: Option<Shape>, new: Shape) -> Draft {
    Draft {
        synced: Some(new),
        ..local(id, old, new)
    }
}

/// Local alone changes, as by the folder's user.
pub(crate) fn local(id: u64, old: Option<Shape>, new: Shape) -> Draft {
    Draft {
        id,
        commits: false,
        remote: None,
        local: Some(new),
        synced: None,
        old_local: old,
        old_synced: old,
    }
}

fn node(rt: &impl Abort, alloc: Global, shape: Shape) -> Node
    ensures { FitsKind result }
{
    let (parent, name) = shape;
    let Ok(name) = Name::new(alloc, name) else {
        panic!(rt; "no name, or no memory")
    };
    let parent = NodeId(parent);
    Node {
        place: Place { parent, name },
        kind: Kind::Folder,
        ver: Ver(0),
        bit: false,
    }
}

fn change(rt: &impl Abort, alloc: Global, shape: Option<Shape>) -> Change
    ensures { FitsChange result }
{
    match shape {
        Some(shape) => Change::Put(node(rt, alloc, shape)),
        None => Change::Keep,
    }
}

fn value(rt: &impl Abort, alloc: Global, shape: Option<Shape>) -> Option<Node> {
    match shape {
        Some(shape) => Some(node(rt, alloc, shape)),
        None => None,
    }
}

fn verb(commits: bool) -> Verb
    ensures { is_split result ≡ false }
{
    if commits { Verb::Up } else { Verb::Down }
}

fn op(rt: &impl Abort, alloc: Global, draft: Draft) -> Op
    ensures { MayFly result }
{
    assert!(rt; draft.id > 0);
    Op {
        number: 0,
        verb: verb(draft.commits),
        id: NodeId(draft.id),
        other: NodeId(0),
        remote: change(rt, alloc, draft.remote),
        local: change(rt, alloc, draft.local),
        synced: change(rt, alloc, draft.synced),
        old_local: value(rt, alloc, draft.old_local),
        old_synced: value(rt, alloc, draft.old_synced),
        base: 0,
        effect: if draft.commits {
            Effect::Commit
        } else {
            Effect::Disk
        },
    }
}

fn ops(rt: &impl Abort, alloc: Global, drafts: &[Draft]) -> Vec<Op>
    ensures { All MayFly result.items }
{
    let mut ops = Vec::new(alloc);
    for draft in drafts {
        let Ok(()) = ops.push(op(rt, alloc, *draft)) else {
            panic!(rt; "out of memory")
        };
    }
    ops
}

/// Whether an operation asks the folder to make something new.
fn makes_new(op: &Op) -> bool
    ensures { result ≡ sound.makes_new op.now }
{
    match (&op.old_local, &op.local) {
        (None, Change::Put(_)) => op.verb != Verb::Split,
        _ => false,
    }
}

/// Whether an operation can be taken so, by a client that knows of entries up to this revision.
fn can_be_taken(op: &Op, taken: Taken, known: u64) -> bool
    ensures { IsTrue result → FitsTaken known op.now taken }
{
    match taken {
        Taken::Folder(Outcome::Ok) => !makes_new(op),
        Taken::Folder(Outcome::Made(key)) => makes_new(op) && key.0 > 0,
        Taken::Folder(_) | Taken::Refused(_) => true,
        Taken::Accepted(rev) => rev <= known,
    }
}

/// Sees that the operation under this number, if there is one, can be taken so.
fn see_that_it_fits(rt: &impl Abort, client: &Client<Tree>, number: u64, taken: Taken, heard: usize)
    ensures { IfSome (flight_of number client.now.now.flights) (λ f. FitsTaken (client.now.now.remote.cursor + heard) f.op taken) }
{
    let cursor = client.cursor();
    assert!(rt; cursor < 1000 && heard < 1000);
    let known = cursor + heard as u64;
    if let Some(op) = client.in_flight(number) {
        assert!(rt; can_be_taken(op, taken, known));
    }
}

fn had_kind(journal: &Journal, id: NodeId, kind: Kind) -> bool
    ensures { IsTrue result → HadKind journal.now.now id.0 kind }
{
    match journal.kind_of(id) {
        Some(had) => had == kind,
        None => true,
    }
}

/// Sees that a node may come to an identity as the server's tree is.
fn see_that_it_is_legal(rt: &impl Abort, alloc: Global, journal: &Journal, id: NodeId, node: &Node)
    requires { FitsKind node.now }
    ensures id { 0 < id.0 }
    ensures legal { LegalPut (tree_of journal.now.now) id.0 node.now }
{
    let Ok(tree) = journal.tree_at(alloc, journal.last()) else {
        panic!(rt; "out of memory")
    };
    assert!(rt; id.0 > 0);
    assert!(rt; tree.check_put(id, node).is_ok());
}

fn next_entry(rt: &impl Abort, alloc: Global, journal: &Journal, id: u64, shape: Shape) -> Entry
    ensures { IsNextEntry journal.now.now result }
{
    let node = node(rt, alloc, shape);
    assert!(rt; journal.last() < 1000 && had_kind(journal, NodeId(id), node.kind));
    see_that_it_is_legal(rt, alloc, journal, NodeId(id), &node);
    Entry {
        rev: journal.last() + 1,
        id: NodeId(id),
        value: Some(node),
        by: 1,
    }
}

/// The next entries after a revision.
fn next_entries<'a>(rt: &impl Abort, journal: &'a Journal, after: u64, count: usize) -> &'a [Entry]
    ensures entries { result.now ≡ take count (drop after journal.now.now) }
    ensures count { length result.now ≡ count }
    ensures journal { IsJournal journal.now.now }
{
    let _entries = journal.entries();
    let next = journal.since(after);
    assert!(rt; count <= next.len());
    &next[..count]
}

/// A client, the server's journal that it follows, and the list of edits. What each call requires of a client is seen to
/// when it is made, so that a test may make any.
#[derive(Drop)]
pub(crate) struct Trial {
    alloc: Global,
    journal: Journal,
    client: Client<Tree>,
    edits: Edits,
}

impl Model for Trial {
    ghost use Rattle.std.specs.Prelude.{ℕ};
    ghost use Rattle.nuc_replica.specs.Following.{IsAt};

    ghost Value = { ℕ };

    ghost view = { λ t. 0 };

    ghost invariant = { λ t. IsAt t.journal.now t.client.now.remote × IsAt t.journal.now t.client.settled.remote };
}

impl Trial {
    /// A client before the first revision, with nothing in its folder.
    pub(crate) fn new(alloc: Global) -> Trial {
        let remote = Remote::of(alloc, Tree::new(alloc), UndoLookup::new(alloc), 0);
        let local = Local::of(alloc, Tree::new(alloc), Keys::new(alloc));
        Trial {
            alloc,
            journal: Journal::new(alloc),
            client: Client::of(alloc, remote, local, Tree::new(alloc), 0, 1),
            edits: Edits::new(alloc),
        }
    }

    pub(crate) fn client(&self) -> &Client<Tree> {
        &self.client
    }

    /// The server accepts a folder for an identity.
    pub(crate) fn put(&mut self, rt: &impl Abort, id: u64, shape: Shape) {
        let entry = next_entry(rt, self.alloc, &self.journal, id, shape);
        let Ok(()) = self.journal.push(entry) else {
            panic!(rt; "out of memory")
        };
    }

    /// So many entries more are pulled.
    pub(crate) fn pull(&mut self, rt: &impl Abort, count: usize) {
        let page = next_entries(rt, &self.journal, self.client.cursor(), count);
        let Ok(_) = self.client.pull(self.alloc, page) else {
            panic!(rt; "out of memory")
        };
    }

    pub(crate) fn fly(&mut self, rt: &impl Abort, drafts: &[Draft]) -> FlyReply {
        let ops = ops(rt, self.alloc, drafts);
        self.client.fly(self.alloc, ops)
    }

    pub(crate) fn start(&mut self, number: u64) -> bool {
        self.client.start(number).is_ok()
    }

    /// An operation was taken so, with so many entries after the cursor.
    pub(crate) fn take(
        &mut self,
        rt: &impl Abort,
        number: u64,
        taken: Taken,
        heard: usize,
    ) -> Result<(), TakeFault> {
        let news = next_entries(rt, &self.journal, self.client.cursor(), heard);
        see_that_it_fits(rt, &self.client, number, taken, heard);
        self.client.take(self.alloc, number, taken, news)
    }

    pub(crate) fn done(&mut self, rt: &impl Abort, number: u64) -> DoneReply {
        let Ok(()) = self.edits.reserve(1) else {
            panic!(rt; "out of memory")
        };
        self.client.done(number, &mut self.edits)
    }

    pub(crate) fn restart(&mut self) {
        self.client.restart();
    }

    pub(crate) fn settle(&mut self) {
        self.client.settle();
    }

    pub(crate) fn back(&mut self) {
        self.client.back();
    }
}
