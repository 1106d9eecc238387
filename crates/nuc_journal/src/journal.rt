ghost use Rattle.std.specs.Prelude.{◌≡◌, ◌<◌, ◌≤◌, ◌+◌, ◌-◌, [], ◌∷◌, ◌++◌, length, take, drop, slice_get, option_copied, IfOk, OnOk, OnErr};
ghost use Rattle.nuc_base.specs.Trees.{WellFormed};
ghost use Rattle.nuc_journal.specs.Entries.{tree_of, revision_of, kind_of};
ghost use Rattle.nuc_journal.specs.Journal.{IsNextEntry, IsJournal};

use crate::Entry;
use crate::apply::tree_of_entries;
use crate::track::{Track, next_track, note, take_back, track_of};
use indexmap::IndexMap;
use nuc_base::{Kind, NodeId};
use nuc_tree::Tree;
use std::alloc::{AllocError, Global};
use std::marker::Model;

/// Every change that was accepted, in order.
///
/// Its entries up to some revision are settled, and `back` takes those after it out again. `tree_at` takes time in the
/// number of entries up to its revision, `back` in the number that it takes out; every other call looks at a few
/// entries, besides those that it copies where memory grows. `spare` counts the entries that can be pushed before
/// memory may be wanted.
#[derive(Debug, Drop)]
pub struct Journal {
    entries: Vec<Entry>,
    /// What the identity of each entry came to before it.
    before: Vec<Option<Track>>,
    tracks: IndexMap<u64, Track>,
    /// The number of entries that are settled.
    settled: usize,
}

impl Model for Journal {
    ghost use Rattle.std.specs.Prelude.{◌-◌, min, nat_eq, take, vec_len, vec_capacity};
    ghost use Rattle.indexmap.specs.IndexMap.{get, spare};
    ghost use Rattle.nuc_journal.specs.State.{JournalState, state_code};
    ghost use Rattle.nuc_journal.specs.Tracks.{IsKept};

    ghost Value = { JournalState };

    ghost coded = { state_code };

    ghost view = { λ j. record { now = j.entries.items; settled = take j.settled j.entries.items; spare = min (vec_capacity j.entries - vec_len j.entries) (min (vec_capacity j.before - vec_len j.before) (spare j.tracks)) } };

    ghost invariant = { λ j. IsKept j.entries.items j.settled (get nat_eq j.tracks) j.before.items };
}

impl Journal {
    /// A journal without entries. It takes no memory.
    pub fn new(alloc: Global) -> Journal
        ensures now { result.now ≡ [] }
        ensures settled { result.settled ≡ [] }
    {
        Journal {
            entries: Vec::new(alloc),
            before: Vec::new(alloc),
            tracks: IndexMap::new(alloc),
            settled: 0,
        }
    }

    /// All entries, by rising revision.
    pub fn entries(&self) -> &[Entry]
        ensures entries { result.now ≡ self.now.now }
        ensures journal { IsJournal self.now.now }
    {
        &self.entries
    }

    /// The entry of a revision, none for 0 and above the last.
    pub fn entry(&self, rev: u64) -> Option<&Entry>
        ensures zero { rev ≡ 0 → option_copied result ≡ None }
        ensures entry { 0 < rev → option_copied result ≡ slice_get self.now.now (rev - 1) }
    {
        let at = rev.checked_sub(1)?;
        self.entries.get(at as usize)
    }

    /// The revision of the last entry, 0 where there is none.
    pub fn last(&self) -> u64
        ensures { result ≡ length self.now.now }
    {
        self.entries.len() as u64
    }

    /// The current revision of an identity: that of its last entry; 0 where this has no node, or there is none.
    pub fn rev_of(&self, id: NodeId) -> u64
        ensures { result ≡ revision_of self.now.now id.0 }
    {
        match track_of(&self.tracks, id) {
            Some(track) => track.rev,
            None => 0,
        }
    }

    /// The kind of an identity, also where its node went; none where it never had one.
    pub fn kind_of(&self, id: NodeId) -> Option<Kind>
        ensures { result ≡ kind_of self.now.now id.0 }
    {
        match track_of(&self.tracks, id) {
            Some(track) => Some(track.kind),
            None => None,
        }
    }

    /// The entries after a revision: all for 0, none for the last and above.
    pub fn since(&self, after: u64) -> &[Entry]
        ensures { result.now ≡ drop after self.now.now }
    {
        match self.entries.get(after as usize..) {
            Some(entries) => entries,
            None => &[],
        }
    }

    /// The first 64 entries after a revision, or all of them where there are fewer.
    pub fn page(&self, after: u64) -> &[Entry]
        ensures { result.now ≡ take 64 (drop after self.now.now) }
    {
        let rest = self.since(after);
        match rest.get(..64) {
            Some(entries) => entries,
            None => rest,
        }
    }

    /// The tree at a revision: at 0 that of nothing but the root, above the last that at the last. It takes time in
    /// the number of entries, and is meant for the start and for tests.
    pub fn tree_at(&self, alloc: Global, rev: u64) -> Result<Tree, AllocError>
        ensures nodes { IfOk result (λ tree. tree.nodes ≡ tree_of (take rev self.now.now)) }
        ensures form { IfOk result (λ tree. WellFormed tree.nodes) }
    {
        match self.entries.get(..rev as usize) {
            Some(entries) => tree_of_entries(alloc, entries),
            None => tree_of_entries(alloc, &self.entries),
        }
    }

    /// Makes room for that many more entries, which `push` may then take without memory. Where the room is there
    /// already, it can't fail.
    pub fn reserve(&mut self, n: u64) -> Result<(), AllocError>
        ensures ok { OnOk result (n ≤ self.new.spare) }
        ensures now { self.new.now ≡ self.old.now }
        ensures settled { self.new.settled ≡ self.old.settled }
        ensures memory { OnErr result (self.old.spare < n) }
        ensures spare { self.old.spare ≤ self.new.spare }
    {
        let n = n as usize;
        self.entries.reserve(n)?;
        self.before.reserve(n)?;
        self.tracks.reserve(n)?;
        Ok(())
    }

    /// Appends an entry, which isn't settled yet. It wants memory only when `spare` is 0.
    pub fn push(&mut self, entry: Entry) -> Result<(), AllocError>
        requires { IsNextEntry self.old.now entry }
        ensures ok { OnOk result (self.new.now ≡ self.old.now ++ entry ∷ []) }
        ensures settled { self.new.settled ≡ self.old.settled }
        ensures err { OnErr result (self.new.now ≡ self.old.now) }
        ensures journal { IsJournal self.new.now }
        ensures memory { OnErr result (self.old.spare ≡ 0) }
        ensures spare { self.old.spare ≤ self.new.spare + 1 }
        ensures spare_err { OnErr result (self.old.spare ≤ self.new.spare) }
    {
        let id = entry.id;
        let prior = track_of(&self.tracks, id);
        let next = next_track(prior, &entry);
        self.before.reserve(1)?;
        self.tracks.reserve(1)?;
        self.entries.push(entry)?;
        note(&mut self.tracks, &mut self.before, id, prior, next);
        Ok(())
    }

    /// Settles all entries: `back` doesn't take them out any more.
    pub fn settle(&mut self)
        ensures now { self.new.now ≡ self.old.now }
        ensures settled { self.new.settled ≡ self.old.now }
        ensures spare { self.new.spare ≡ self.old.spare }
    {
        self.settled = self.entries.len();
    }

    /// Takes out every entry that isn't settled. It wants no memory.
    pub fn back(&mut self)
        ensures now { self.new.now ≡ self.old.settled }
        ensures settled { self.new.settled ≡ self.old.settled }
        ensures journal { IsJournal self.new.now }
        ensures spare { self.old.spare ≤ self.new.spare }
    {
        for _ in self.settled..self.entries.len() {
            take_back(&mut self.entries, &mut self.before, &mut self.tracks);
        }
    }
}
