ghost use Rattle.std.specs.Prelude.{◌≡◌, ◌+◌, ◌≤◌, ◌<◌, ◌∷◌, [], length, take, OnOk, OnErr};
ghost use Rattle.std.specs.FinMap as map;
ghost use Rattle.nuc_base.specs.Trees.{WellFormed};
ghost use Rattle.nuc_replica.specs.Remote.{Follows, HaveRevisions, IsRemote, MovedOn, caught_up, forgotten, heard, or_zero, with_entries};

use crate::ahead::Ahead;
use crate::apply::{apply, apply_laid, copies, lay_by, note};
use nuc_base::{NodeId, TreeLike};
use nuc_journal::Entry;
use nuc_lookup::UndoLookup;
use nuc_undo::UndoTree;
use std::alloc::{AllocError, Global};
use std::marker::Model;

/// The server's tree at a client's cursor, and what is known beyond it.
///
/// It moves on by entries of the server's journal alone: those of a page that is pulled, and those that were heard of and
/// are applied later. What was heard of is kept with all that it takes to apply it, so that this needs no memory, also
/// once more after `back`. Each call takes time in the number of entries that it is given or applies, and `back` in the
/// number of changes since the last `settle`; an entry takes a fixed number of calls of the tree.
#[derive(Drop)]
pub struct Remote<T: TreeLike> {
    tree: UndoTree<T>,
    /// The revision of each identity of the tree.
    revisions: UndoLookup,
    cursor: u64,
    /// The cursor at the last `settle`.
    settled_cursor: u64,
    /// The entries after the cursor that were heard of. The node of each lies by in the tree, under the entry's place.
    ahead: Ahead,
}

impl<T: TreeLike> Model for Remote<T> {
    ghost use Rattle.nuc_replica.specs.Ahead.{IsKept, state_now, state_then};
    ghost use Rattle.nuc_replica.specs.Remote.{RemoteStates, states_code};

    ghost Value = { RemoteStates };

    ghost coded = { states_code };

    ghost view = { λ r. record { now = state_now r.tree r.revisions r.cursor r.ahead; settled = state_then r.tree r.revisions r.settled_cursor r.ahead } };

    ghost invariant = { λ r. IsKept r.tree r.revisions r.cursor r.settled_cursor r.ahead };
}

impl<T: TreeLike> Remote<T> {
    /// What these make together, settled, with nothing known beyond it. It takes no memory.
    pub fn of(alloc: Global, tree: T, revisions: UndoLookup, cursor: u64) -> Remote<T>
        requires form { WellFormed (T.nodes tree) }
        requires revisions { HaveRevisions (T.nodes tree) revisions.now cursor }
        requires settled { revisions.past ≡ [] }
        ensures now { result.now ≡ record { tree = T.nodes tree; revisions = revisions.now; cursor = cursor; ahead = [] } }
        ensures settled { result.settled ≡ result.now }
    {
        Remote {
            tree: UndoTree::of(alloc, tree),
            revisions,
            cursor,
            settled_cursor: cursor,
            ahead: Ahead::new(alloc),
        }
    }

    /// The server's tree at the cursor.
    pub fn tree(&self) -> &T
        ensures nodes { T.nodes result.now ≡ self.now.now.tree }
        ensures now { IsRemote self.now.now }
        ensures settled { IsRemote self.now.settled }
    {
        self.tree.tree()
    }

    /// The revision up to which entries are applied.
    pub fn cursor(&self) -> u64
        ensures { result ≡ self.now.now.cursor }
    {
        self.cursor
    }

    /// The last revision that is known of: that of the last entry that was heard of, or the cursor.
    pub fn known(&self) -> u64
        ensures { result ≡ self.now.now.cursor + length self.now.now.ahead }
    {
        match self.ahead.rest().last() {
            Some(entry) => entry.rev,
            None => self.cursor,
        }
    }

    /// The revision of the entry that gave an identity its node, 0 where it has none.
    pub fn revision(&self, id: NodeId) -> u64
        ensures { result ≡ or_zero (map.get self.now.now.revisions id.0) }
    {
        self.revisions.get(id.0).unwrap_or(0)
    }

    /// Moves on by the entries of a page. After an `Err` it may have moved on by some of them.
    pub fn pull(&mut self, alloc: Global, page: &[Entry]) -> Result<(), AllocError>
        requires { Follows self.old.now page.now }
        ensures ok { OnOk result (self.new.now ≡ with_entries self.old.now page.now) }
        ensures err { OnErr result (MovedOn self.old.now page.now self.new.now) }
        ensures settled { self.new.settled ≡ self.old.settled }
    {
        for entry in page {
            self.pull_one(alloc, entry)?;
        }
        Ok(())
    }

    /// Hears of entries after the cursor, also of some that are known already.
    pub fn hear(&mut self, alloc: Global, news: &[Entry]) -> Result<(), AllocError>
        requires { Follows self.old.now news.now }
        ensures ok { OnOk result (self.new.now ≡ heard news.now self.old.now) }
        ensures err { OnErr result (self.new.now ≡ self.old.now) }
        ensures settled { self.new.settled ≡ self.old.settled }
    {
        let Some(more) = news.get(self.ahead.rest().len()..) else {
            return Ok(());
        };
        self.tree.reserve(news.len() as u64)?;
        self.revisions.reserve(news.len() as u64)?;
        let more = copies(alloc, more)?;
        lay_by(alloc, &mut self.tree, self.ahead.end_place() as u64, &more)?;
        self.ahead.add(more)?;
        Ok(())
    }

    /// Applies what was heard of, up to this revision. It takes no memory.
    pub fn catch_up(&mut self, rev: u64)
        requires { rev ≤ self.old.now.cursor + length self.old.now.ahead }
        ensures now { self.new.now ≡ caught_up rev self.old.now }
        ensures settled { self.new.settled ≡ self.old.settled }
    {
        while self.cursor < rev {
            self.apply_next();
        }
    }

    /// Forgets what was heard of and isn't applied. It takes no memory.
    pub fn forget(&mut self)
        ensures now { self.new.now ≡ forgotten self.old.now }
        ensures settled { self.new.settled ≡ self.old.settled }
    {
        self.ahead.forget();
    }

    /// What there is now is what `back` leads to. It takes no memory.
    pub fn settle(&mut self)
        ensures now { self.new.now ≡ self.old.now }
        ensures settled { self.new.settled ≡ self.old.now }
    {
        self.tree.settle();
        self.revisions.settle();
        self.settled_cursor = self.cursor;
        if self.ahead.rest().is_empty() {
            self.ahead.clear();
            self.tree.forget_laid();
        } else {
            self.ahead.settle();
        }
    }

    /// Makes everything as it was at the last `settle`, or when the remote was made. What was heard of by then can be
    /// applied again, and that takes no memory again; nor does this call.
    pub fn back(&mut self)
        ensures now { self.new.now ≡ self.old.settled }
        ensures settled { self.new.settled ≡ self.old.settled }
    {
        self.tree.back();
        self.revisions.back();
        self.cursor = self.settled_cursor;
        self.ahead.back();
    }

    fn pull_one(&mut self, alloc: Global, entry: &Entry) -> Result<(), AllocError>
        requires { Follows self.old.now (entry.now ∷ []) }
        ensures ok { OnOk result (self.new.now ≡ with_entries self.old.now (entry.now ∷ [])) }
        ensures err { OnErr result (self.new.now ≡ self.old.now) }
        ensures settled { self.new.settled ≡ self.old.settled }
    {
        let room = self.ahead.rest().len().max(1) as u64;
        self.tree.reserve(room)?;
        self.revisions.reserve(room)?;
        apply(alloc, &mut self.tree, entry)?;
        note(&mut self.revisions, entry);
        self.cursor = entry.rev;
        self.ahead.pass();
        Ok(())
    }

    /// Applies the first entry that is ahead.
    fn apply_next(&mut self)
        requires { 0 < length self.old.now.ahead }
        ensures now { self.new.now ≡ with_entries self.old.now (take 1 self.old.now.ahead) }
        ensures settled { self.new.settled ≡ self.old.settled }
    {
        let Some(entry) = self.ahead.rest().first() else {
            return;
        };
        apply_laid(&mut self.tree, self.ahead.next_place() as u64, entry);
        note(&mut self.revisions, entry);
        self.cursor = entry.rev;
        self.ahead.pass();
    }
}
