ghost use Rattle.std.specs.Prelude.{◌≡◌, ◌<◌, ◌^◌, ◌++◌, [], length, OnOk, OnErr};
ghost use Rattle.nuc_replica.specs.Ahead.{IsAhead, ahead_now, no_entries, with_all_applied, with_next_applied, settled_here, led_back};

use nuc_journal::Entry;
use std::alloc::{AllocError, Global};
use std::marker::Model;

/// The entries beyond a cursor, in order, behind those that were applied.
///
/// Entries that are applied stay until `clear`, so that `back` finds them. Each call takes a fixed time, besides the
/// entries that it adds or drops.
#[derive(Debug, Drop)]
pub struct Ahead {
    entries: Vec<Entry>,
    /// How many of the entries are applied.
    applied: usize,
    /// How many were applied at the last `settle`.
    settled_applied: usize,
    /// How many entries there were at the last `settle`.
    settled_len: usize,
}

impl Model for Ahead {
    ghost use Rattle.nuc_replica.specs.Ahead.{AheadState, IsAhead, ahead_code};

    ghost Value = { AheadState };

    ghost coded = { ahead_code };

    ghost view = { λ a. record { entries = a.entries.items; applied = a.applied; settled_applied = a.settled_applied; settled_len = a.settled_len } };

    ghost invariant = { λ a. IsAhead (record { entries = a.entries.items; applied = a.applied; settled_applied = a.settled_applied; settled_len = a.settled_len }) };
}

impl Ahead {
    /// No entries, in no memory.
    pub fn new(alloc: Global) -> Ahead
        ensures { result ≡ no_entries }
    {
        Ahead {
            entries: Vec::new(alloc),
            applied: 0,
            settled_applied: 0,
            settled_len: 0,
        }
    }

    /// The entries that aren't applied.
    pub fn rest(&self) -> &[Entry]
        ensures rest { result.now ≡ ahead_now self.now }
        ensures places { IsAhead self.now }
    {
        &self.entries[self.applied..]
    }

    /// The place of the first entry that isn't applied.
    pub fn next_place(&self) -> usize
        ensures { result ≡ self.now.applied }
    {
        self.applied
    }

    /// The place that the next entry to be added will have.
    pub fn end_place(&self) -> usize
        ensures end { result ≡ length self.now.entries }
        ensures bound { result < 2 ^ 63 }
    {
        self.entries.len()
    }

    /// Adds entries behind the others.
    pub fn add(&mut self, entries: Vec<Entry>) -> Result<(), AllocError>
        ensures ok { OnOk result (self.new ≡ record self.old { entries = self.old.entries ++ entries.items }) }
        ensures err { OnErr result (self.new ≡ self.old) }
    {
        let mut entries = entries;
        self.entries.append(&mut entries)
    }

    /// The first entry that isn't applied is so from now on, where there is one.
    pub fn pass(&mut self)
        ensures { self.new ≡ with_next_applied self.old }
    {
        if self.applied < self.entries.len() {
            self.applied += 1;
        }
    }

    /// No entry is ahead any more.
    pub fn forget(&mut self)
        ensures { self.new ≡ with_all_applied self.old }
    {
        self.applied = self.entries.len();
    }

    /// What is ahead now is so again after `back`.
    pub fn settle(&mut self)
        ensures { self.new ≡ settled_here self.old }
    {
        self.settled_applied = self.applied;
        self.settled_len = self.entries.len();
    }

    /// Drops all entries, also those that `back` would lead to.
    pub fn clear(&mut self)
        ensures { self.new ≡ no_entries }
    {
        self.entries.clear();
        self.applied = 0;
        self.settled_applied = 0;
        self.settled_len = 0;
    }

    /// What was ahead at the last `settle` is so again, and no other entry is there.
    pub fn back(&mut self)
        ensures back { self.new ≡ led_back self.old }
        ensures places { IsAhead self.old }
    {
        self.entries.truncate(self.settled_len);
        self.applied = self.settled_applied;
    }
}
