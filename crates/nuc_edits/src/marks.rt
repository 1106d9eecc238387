ghost use Rattle.std.specs.Prelude.{◌≡◌, ◌+◌, ◌<◌, ◌≤◌, ◌||◌, ℕ, [], nat_eq, IsOk, OnOk, OnErr};

use indexmap::IndexSet;
use std::alloc::{AllocError, Global};
use std::marker::Model;

/// Numbers that were marked, and those that were when `settle` was last called.
#[derive(Debug, Drop)]
pub(crate) struct Marks {
    numbers: IndexSet<u64>,
    settled: usize,
}

impl Model for Marks {
    ghost use Rattle.std.specs.Prelude.{◌≤◌, length, take};
    ghost use Rattle.indexmap.specs.IndexSet.{spare};
    ghost use Rattle.nuc_edits.specs.Marks.{MarksState};

    ghost Value = { MarksState };

    ghost view = { λ m. record { now = m.numbers.keys; settled = take m.settled m.numbers.keys; spare = spare m.numbers } };

    ghost invariant = { λ m. m.settled ≤ length m.numbers.keys };
}

ghost use Rattle.nuc_edits.specs.Marks.{is_marked};

impl Marks {
    /// No marks, in no memory.
    pub(crate) fn new(alloc: Global) -> Marks
        ensures now { result.now ≡ [] }
        ensures settled { result.settled ≡ [] }
    {
        Marks {
            numbers: IndexSet::new(alloc),
            settled: 0,
        }
    }

    pub(crate) fn mark(&mut self, number: u64) -> Result<(), AllocError>
        ensures ok { OnOk result ((v : ℕ) → is_marked self.new.now v ≡ (is_marked self.old.now v || nat_eq v number)) }
        ensures err { OnErr result (self.new.now ≡ self.old.now) }
        ensures settled { self.new.settled ≡ self.old.settled }
        ensures succeeds { 0 < self.old.spare → IsOk result }
        ensures spare { self.old.spare ≤ self.new.spare + 1 }
    {
        self.numbers.insert(number)?;
        Ok(())
    }

    pub(crate) fn has(&self, number: u64) -> bool
        ensures { result ≡ is_marked self.now.now number }
    {
        self.numbers.contains(&number)
    }

    /// Makes room, so that as many marks need no memory.
    pub(crate) fn reserve(&mut self, additional: usize) -> Result<(), AllocError>
        ensures now { self.new.now ≡ self.old.now }
        ensures settled { self.new.settled ≡ self.old.settled }
        ensures ok { OnOk result (additional ≤ self.new.spare) }
        ensures succeeds { additional ≤ self.old.spare → IsOk result }
        ensures spare { self.old.spare ≤ self.new.spare }
    {
        self.numbers.reserve(additional)
    }

    pub(crate) fn settle(&mut self)
        ensures { self.new ≡ record self.old { settled = self.old.now } }
    {
        self.settled = self.numbers.len();
    }

    /// Takes back what was marked since `settle`.
    pub(crate) fn back(&mut self)
        ensures now { self.new.now ≡ self.old.settled }
        ensures settled { self.new.settled ≡ self.old.settled }
        ensures spare { self.old.spare ≤ self.new.spare }
    {
        self.numbers.truncate(self.settled);
    }
}
