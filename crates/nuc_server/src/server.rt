ghost use Rattle.std.specs.Prelude.{◌≡◌, ◌<◌, ◌≤◌, ◌+◌, [], ◌∷◌, ◌++◌, true, false, length, IfOk, IsOk, IsTrue, OnOk, OnErr, Some, vec_len};
ghost use Rattle.std.specs.Option.{option_copied};
ghost use Rattle.nuc_base.specs.Trees.{WellFormed};
ghost use Rattle.nuc_journal.specs.Entries.{tree_of};
ghost use Rattle.nuc_journal.specs.Journal.{HasOldKind, IsJournal, IsLegalValue};
ghost use Rattle.nuc_server.specs.Judge.{IsCommit, Judges, blocks_with, next_entry};

use crate::judge::judge;
use crate::undo::{Undo, change, take_back};
use crate::{Commit, CommitReply};
use nuc_base::{NameRoom, Node, NodeId, TreeLike};
use nuc_blocks::Store;
use nuc_hash::Content;
use nuc_index::IndexTree;
use nuc_journal::{Entry, Journal};
use std::alloc::{AllocError, Global};
use std::marker::Model;

/// The tree that the server keeps of its last revision. Callers see it as a `TreeLike`.
pub type ServerTree = IndexTree;

/// The server: its journal, and the tree of the last revision.
///
/// The blocks are a `Store` beside it, which the calls are lent.
#[derive(Drop)]
pub struct LoopServer {
    journal: Journal,
    tree: ServerTree,
    /// How each entry since the last `settle` is taken back from the tree.
    undos: Vec<Undo>,
    /// Room for names, for a copy that finds no memory.
    rooms: Vec<NameRoom>,
    ready: bool,
}

impl Model for LoopServer {
    ghost use Rattle.nuc_server.specs.State.{ServerState, IsServer};

    ghost Value = { ServerState };

    ghost view = { λ s. record { now = s.journal.now; settled = s.journal.settled; ready = s.ready } };

    ghost use Rattle.std.specs.Prelude.{vec_capacity, vec_len};

    ghost invariant = { λ s. IsServer s.journal s.tree s.undos.items (vec_capacity s.undos) (vec_len s.rooms) s.ready };
}

impl LoopServer {
    /// An empty journal, in no memory.
    pub fn new(alloc: Global) -> LoopServer
        ensures now { result.now ≡ [] }
        ensures settled { result.settled ≡ [] }
    {
        LoopServer {
            journal: Journal::new(alloc),
            tree: ServerTree::new(alloc),
            undos: Vec::new(alloc),
            rooms: Vec::new(alloc),
            ready: false,
        }
    }

    pub fn journal(&self) -> &Journal
        ensures now { result.now.now ≡ self.now.now }
        ensures journal { IsJournal self.now.now }
    {
        &self.journal
    }

    /// The tree at the last revision.
    pub fn tree(&self) -> &ServerTree
        ensures nodes { result.now.nodes ≡ tree_of self.now.now }
        ensures form { WellFormed result.now.nodes }
    {
        &self.tree
    }

    /// Makes all the room that the next commit needs.
    pub fn reserve(&mut self, alloc: Global) -> Result<(), AllocError>
        ensures ok { OnOk result (self.new.ready ≡ true) }
        ensures now { self.new.now ≡ self.old.now }
        ensures settled { self.new.settled ≡ self.old.settled }
    {
        self.ready = false;
        self.journal.last().checked_add(1).ok_or(AllocError)?;
        self.journal.reserve(1)?;
        self.tree.reserve(self.undos.len() as u64 + 2)?;
        self.undos.reserve(1)?;
        room_names(alloc, &mut self.rooms)?;
        self.ready = true;
        Ok(())
    }

    /// Judges a commit, and enters it where it is accepted. `content` is that of the file which is put, if it is one;
    /// `by` is the client's number.
    ///
    /// After `reserve` it doesn't answer `Memory`.
    pub fn commit(
        &mut self,
        alloc: Global,
        commit: &Commit,
        content: Option<&Content>,
        store: &Store,
        by: u32,
    ) -> CommitReply
        requires { IsCommit commit.now }
        ensures judged { Judges self.old.now store.now.now commit.now (blocks_with (option_copied content.entry)) by result self.new.now }
        ensures settled { self.new.settled ≡ self.old.settled }
        ensures memory { result ≡ CommitReply.Memory → self.old.ready ≡ false }
        ensures journal { IsJournal self.new.now }
    {
        if let Err(reason) = judge(&self.journal, &self.tree, store, commit, content) {
            return CommitReply::Refused(reason);
        }
        match self.accept(alloc, commit.id, &commit.value, by) {
            Ok(rev) => CommitReply::Accepted(rev),
            Err(_) => CommitReply::Memory,
        }
    }

    /// Enters a value that is known to be acceptable as the next revision, which it returns.
    pub(crate) fn accept(
        &mut self,
        alloc: Global,
        id: NodeId,
        value: &Option<Node>,
        by: u32,
    ) -> Result<u64, AllocError>
        requires id { 0 < id.0 }
        requires kind { HasOldKind self.old.now id.0 value.now }
        requires legal { IsLegalValue (tree_of self.old.now) id.0 value.now }
        ensures revision { IfOk result (λ rev. rev ≡ length self.old.now + 1) }
        ensures ok { OnOk result (self.new.now ≡ self.old.now ++ next_entry self.old.now id.0 value.now by ∷ []) }
        ensures err { OnErr result (self.new.now ≡ self.old.now) }
        ensures settled { self.new.settled ≡ self.old.settled }
        ensures memory { OnErr result (self.old.ready ≡ false) }
        ensures journal { IsJournal self.new.now }
    {
        self.ready = false;
        let rev = self.journal.last().checked_add(1).ok_or(AllocError)?;
        self.journal.reserve(1)?;
        self.tree.reserve(self.undos.len() as u64 + 2)?;
        self.undos.reserve(1)?;
        let entered = copied(alloc, &mut self.rooms, value)?;
        let placed = copied(alloc, &mut self.rooms, value)?;
        let undo = change(&mut self.tree, id, placed)?;
        self.undos.push_reserved(undo);
        self.journal.push(Entry {
            rev,
            id,
            value: entered,
            by,
        })?;
        Ok(rev)
    }

    /// What there is now is what `back` leads to. It takes no memory.
    pub fn settle(&mut self)
        ensures now { self.new.now ≡ self.old.now }
        ensures settled { self.new.settled ≡ self.old.now }
        ensures ready { self.new.ready ≡ self.old.ready }
    {
        self.journal.settle();
        self.undos.clear();
    }

    /// Takes back all that was entered since `settle` was last called, or since the server was made. It takes no memory.
    pub fn back(&mut self)
        ensures now { self.new.now ≡ self.old.settled }
        ensures settled { self.new.settled ≡ self.old.settled }
        ensures journal { IsJournal self.new.now }
    {
        self.ready = false;
        while let Some(undo) = self.undos.pop() {
            take_back(&mut self.tree, undo);
        }
        self.journal.back();
    }
}

/// Makes room for two names: one for the journal and one for the tree.
fn room_names(alloc: Global, rooms: &mut Vec<NameRoom>) -> Result<(), AllocError>
    ensures { OnOk result (2 ≤ vec_len rooms.new) }
{
    while rooms.len() < 2 {
        rooms.push(NameRoom::new(alloc)?)?;
    }
    Ok(())
}

/// A copy of a value, with its name in memory of its own, or else in one of the rooms.
fn copied(
    alloc: Global,
    rooms: &mut Vec<NameRoom>,
    value: &Option<Node>,
) -> Result<Option<Node>, AllocError>
    ensures copy { IfOk result (λ copy. copy ≡ value.now) }
    ensures rooms { length rooms.old.items ≤ length rooms.new.items + 1 }
    ensures memory { 0 < length rooms.old.items → IsOk result }
{
    match value {
        Some(node) => Ok(Some(copied_node(alloc, rooms, node)?)),
        None => Ok(None),
    }
}

fn copied_node(alloc: Global, rooms: &mut Vec<NameRoom>, node: &Node) -> Result<Node, AllocError>
    ensures copy { IfOk result (λ copy. copy ≡ node.now) }
    ensures rooms { length rooms.old.items ≤ length rooms.new.items + 1 }
    ensures memory { 0 < length rooms.old.items → IsOk result }
{
    match node.copy(alloc) {
        Ok(copy) => Ok(copy),
        Err(fault) => match rooms.pop() {
            Some(room) => Ok(node.copy_in(room)),
            None => Err(fault),
        },
    }
}
