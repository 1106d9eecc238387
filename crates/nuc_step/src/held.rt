ghost use Rattle.std.specs.Prelude.{◌≡◌, None, Some, option_copied, option_map};
ghost use Rattle.nuc_step.specs.Held.{data_of};

use nuc_folder::Item;
use std::marker::Model;

/// A listing of a client's folder, and how often Local had changed when it was made.
#[derive(Drop)]
pub(crate) struct Held {
    pub(crate) changes: u64,
    pub(crate) items: Vec<Item>,
}

/// The listing that a client holds, if it holds one, and the one that it held at the last `settle`.
///
/// What was held then stays where it is while others come and go, so that neither `settle` nor `back` takes memory.
#[derive(Drop)]
pub(crate) struct HeldListing {
    settled: Option<Held>,
    /// What is held now, where a listing came or went since the last `settle`.
    since: Option<Option<Held>>,
}

impl Model for HeldListing {
    ghost use Rattle.nuc_step.specs.Held.{HeldState, held_code, held_of};

    ghost Value = { HeldState };

    ghost coded = { held_code };

    ghost view = { λ h. held_of h.settled h.since };
}

impl HeldListing {
    /// None is held, nor was when it was last settled.
    pub(crate) fn new() -> HeldListing
        ensures now { result.now ≡ None }
        ensures settled { result.settled ≡ None }
    {
        HeldListing {
            settled: None,
            since: None,
        }
    }

    pub(crate) fn get(&self) -> Option<&Held>
        ensures { option_map data_of (option_copied result) ≡ self.now.now }
    {
        match &self.since {
            Some(now) => now.as_ref(),
            None => self.settled.as_ref(),
        }
    }

    /// Holds a listing in place of any other.
    pub(crate) fn hold(&mut self, held: Held)
        ensures now { self.new.now ≡ Some (data_of held) }
        ensures settled { self.new.settled ≡ self.old.settled }
    {
        self.since = Some(Some(held));
    }

    /// Holds none from now on.
    pub(crate) fn let_go(&mut self)
        ensures now { self.new.now ≡ None }
        ensures settled { self.new.settled ≡ self.old.settled }
    {
        self.since = Some(None);
    }

    /// What is held now is what `back` leads to. It takes no memory.
    pub(crate) fn settle(&mut self)
        ensures now { self.new.now ≡ self.old.now }
        ensures settled { self.new.settled ≡ self.old.now }
    {
        if let Some(now) = self.since.take() {
            self.settled = now;
        }
    }

    /// What was held at the last `settle` is held again. It takes no memory.
    pub(crate) fn back(&mut self)
        ensures now { self.new.now ≡ self.old.settled }
        ensures settled { self.new.settled ≡ self.old.settled }
    {
        self.since = None;
    }
}
