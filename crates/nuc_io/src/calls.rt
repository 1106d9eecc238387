ghost use Rattle.std.specs.Prelude.{false, ◌≡◌, ◌<◌, ◌≤◌, ◌+◌, [], ◌∷◌, ◌++◌, OnOk, OnErr};
ghost use Rattle.nuc_io.specs.Calls.{after_call, calls_back, is_to_fail, one_more, settled_calls};

use std::alloc::{AllocError, Global};
use std::marker::Model;

/// Which calls of an object in memory fail. It counts them, and those that have failed.
#[derive(Debug, Drop)]
pub struct Calls {
    made: u64,
    settled: u64,
    failing: Vec<u64>,
    faults: u64,
}

impl Model for Calls {
    ghost use Rattle.nuc_io.specs.Calls.{CallsData};

    ghost Value = { CallsData };

    ghost view = { λ c. record { made = c.made; settled = c.settled; failing = c.failing.items; faults = c.faults } };
}

impl Calls {
    /// None was made, and none is to fail.
    pub fn new(alloc: Global) -> Calls
        ensures { result ≡ record { made = 0; settled = 0; failing = []; faults = 0 } }
    {
        Calls {
            made: 0,
            settled: 0,
            failing: Vec::new(alloc),
            faults: 0,
        }
    }

    /// Lets the k-th call from now on fail. A number that would pass the end of `u64` is want of memory.
    pub fn fail_at(&mut self, k: u64) -> Result<(), AllocError>
        requires { 0 < k }
        ensures ok { OnOk result (self.new ≡ record self.old { failing = self.old.failing ++ (self.old.made + k) ∷ [] }) }
        ensures err { OnErr result (self.new ≡ self.old) }
    {
        let number = self.made.checked_add(k).ok_or(AllocError)?;
        self.failing.push(number)?;
        Ok(())
    }

    /// Begins a call, and says whether it is to fail.
    pub fn begin(&mut self) -> bool
        ensures value { result ≡ is_to_fail self.old }
        ensures after { self.new ≡ after_call self.old false }
    {
        self.made = self.made.saturating_add(1);
        self.failing.contains(&self.made)
    }

    /// Counts a fault of the call that began.
    pub fn count_fault(&mut self)
        ensures after { self.new ≡ record self.old { faults = one_more self.old.faults } }
        ensures later { self.old.faults ≤ self.new.faults }
    {
        self.faults = self.faults.saturating_add(1);
    }

    /// The calls made up to now are those to which `back` leads.
    pub fn settle(&mut self)
        ensures { self.new ≡ settled_calls self.old }
    {
        self.settled = self.made;
    }

    /// Counts no call that was made since the last `settle`. Which numbers fail, and how many calls have failed, stays.
    pub fn back(&mut self)
        ensures { self.new ≡ calls_back self.old }
    {
        self.made = self.settled;
    }
}
