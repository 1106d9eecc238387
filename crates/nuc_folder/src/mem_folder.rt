ghost use Rattle.std.specs.Prelude.{◌≡◌, ◌<◌, ◌≤◌, ◌+◌, [], ◌∷◌, ◌++◌, drop, IsTrue, Some, IfOk, OnOk, OnErr};
ghost use Rattle.nuc_io.specs.Calls.{after_call, calls_back, is_to_fail, settled_calls};
ghost use Rattle.nuc_io.specs.Causes.{Rose};
ghost use Rattle.nuc_folder.specs.Listing.{IsListing};
ghost use Rattle.nuc_folder.specs.Memory.{empty_state};
ghost use Rattle.nuc_folder.specs.Pending.{oldest};
ghost use Rattle.nuc_folder.specs.State.{IsTold};

use crate::listing::listing;
use crate::notices::Notices;
use crate::{Item, Noticed};
use nuc_io::Calls;
use nuc_shelf::Shelf;
use sqlite_items::Items;
use std::alloc::{AllocError, Global};
use std::marker::Model;

/// A folder in memory, which tells what it holds. Its keys count from 1.
///
/// Its calls can be made to fail, and all else that was changed since the last `settle` can be taken back.
#[derive(Drop)]
pub struct MemFolder {
    pub(crate) shelf: Shelf,
    pub(crate) next_key: u64,
    settled_key: u64,
    pub(crate) notices: Notices,
    calls: Calls,
}

impl Model for MemFolder {
    ghost use Rattle.nuc_folder.specs.Codes.{states_code};
    ghost use Rattle.nuc_folder.specs.Memory.{IsKeyed, MemStates};

    ghost Value = { MemStates };

    ghost coded = { states_code };

    ghost view = { λ f. record {
      now = record { held = f.shelf.now; next = f.next_key; pending = f.notices.now };
      settled = record { held = f.shelf.settled; next = f.settled_key; pending = f.notices.settled };
      calls = f.calls;
    } };

    ghost invariant = { λ f. IsKeyed (record { held = f.shelf.now; next = f.next_key; pending = f.notices.now })
        × IsKeyed (record { held = f.shelf.settled; next = f.settled_key; pending = f.notices.settled }) };
}

impl MemFolder {
    /// An empty folder, settled, none of whose calls fails. It takes no memory.
    pub fn new(alloc: Global) -> MemFolder
        ensures { result ≡ record { now = empty_state; settled = empty_state; calls = record { made = 0; settled = 0; failing = []; faults = 0 } } }
    {
        MemFolder {
            shelf: Shelf::new(alloc),
            next_key: 1,
            settled_key: 1,
            notices: Notices::new(alloc),
            calls: Calls::new(alloc),
        }
    }

    /// Lets the k-th call of the trait `Folder` from now on fail, k from 1. A number of a call that would pass the end of
    /// `u64` is want of memory.
    pub fn fail_at(&mut self, k: u64) -> Result<(), AllocError>
        requires { 0 < k }
        ensures ok { OnOk result (self.new ≡ record self.old {
          calls = record self.old.calls { failing = self.old.calls.failing ++ (self.old.calls.made + k) ∷ [] };
        }) }
        ensures err { OnErr result (self.new ≡ self.old) }
    {
        self.calls.fail_at(k)
    }

    /// The folder's listing. This counts as no call of the trait, and nothing is less pending for it.
    pub fn items(&self, alloc: Global) -> Result<Items<Item>, AllocError>
        ensures { IfOk result (λ items. IsListing self.now.now.held items) }
    {
        listing(&self.shelf, alloc)
    }

    /// Takes the oldest change by the user that nobody was told since the last listing; none where nothing is left.
    pub fn pending(&mut self, alloc: Global) -> Result<Option<Noticed>, AllocError>
        ensures oldest { IfOk result (λ taken. taken ≡ oldest self.old.now.pending) }
        ensures ok { OnOk result (self.new ≡ record self.old { now = record self.old.now { pending = drop 1 self.old.now.pending } }) }
        ensures err { OnErr result (self.new ≡ self.old) }
    {
        self.notices.take_oldest(alloc)
    }

    /// What the folder is now is what `back` leads to. It takes no memory.
    pub fn settle(&mut self)
        ensures { self.new ≡ record { now = self.old.now; settled = self.old.now; calls = settled_calls self.old.calls } }
    {
        self.shelf.settle();
        self.notices.settle();
        self.settled_key = self.next_key;
        self.calls.settle();
    }

    /// The folder is again what it was when `settle` was last called, or when it was made, and the calls since then don't
    /// count. Which calls are to fail, and how many have failed, stays. It takes no memory.
    pub fn back(&mut self)
        ensures { self.new ≡ record { now = self.old.settled; settled = self.old.settled; calls = calls_back self.old.calls } }
    {
        self.shelf.back();
        self.notices.back();
        self.next_key = self.settled_key;
        self.calls.back();
    }

    /// Counts a call, and says whether it fails.
    pub(crate) fn fails(&mut self) -> bool
        ensures value { result ≡ is_to_fail self.old.calls }
        ensures after { self.new ≡ record self.old { calls = after_call self.old.calls (is_to_fail self.old.calls) } }
        ensures later { self.old.calls.faults ≤ self.new.calls.faults }
        ensures rose { IsTrue result → Rose self.old.calls.faults self.new.calls.faults }
        ensures form { IsTold self.new.now.next (Some self.new.now.held) }
    {
        let fails = self.calls.begin();
        if fails {
            self.calls.count_fault();
        }
        fails
    }
}
