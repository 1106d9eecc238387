ghost use Rattle.std.specs.Prelude.{◌≡◌, ◌≤◌, ◌<◌, ◌+◌, [], ◌∷◌, ◌++◌, drop, OnOk, OnErr, IfOk};
ghost use Rattle.nuc_folder.specs.Pending.{oldest};

use crate::Noticed;
use std::alloc::{AllocError, Global};
use std::marker::Model;

/// The changes by the user that nobody was told yet, the oldest first. They can go back to what they were when they were
/// last settled, so a notice that was told stays in the list until then.
#[derive(Debug, Drop)]
pub(crate) struct Notices {
    list: Vec<Noticed>,
    /// How many of the list were told.
    told: usize,
    settled_len: usize,
    settled_told: usize,
}

impl Model for Notices {
    ghost use Rattle.std.specs.Prelude.{◌≤◌, ◌-◌, drop, take, vec_capacity, vec_len};
    ghost use Rattle.nuc_folder.specs.Codes.{notices_code};
    ghost use Rattle.nuc_folder.specs.Memory.{NoticesState};

    ghost Value = { NoticesState };

    ghost coded = { notices_code };

    ghost view = { λ n. record { now = drop n.told n.list.items; settled = drop n.settled_told (take n.settled_len n.list.items); room = vec_capacity n.list - vec_len n.list } };

    ghost invariant = { λ n. (n.told ≤ vec_len n.list) × (n.settled_len ≤ vec_len n.list) × (n.settled_told ≤ n.settled_len) };
}

impl Notices {
    /// None, in no memory.
    pub(crate) fn new(alloc: Global) -> Notices
        ensures now { result.now ≡ [] }
        ensures settled { result.settled ≡ [] }
    {
        Notices {
            list: Vec::new(alloc),
            told: 0,
            settled_len: 0,
            settled_told: 0,
        }
    }

    /// Makes room for that many more.
    pub(crate) fn reserve(&mut self, more: u64) -> Result<(), AllocError>
        ensures ok { OnOk result (more ≤ self.new.room) }
        ensures now { self.new.now ≡ self.old.now }
        ensures settled { self.new.settled ≡ self.old.settled }
    {
        self.list.reserve(more as usize)
    }

    /// Adds the newest. It takes no memory.
    pub(crate) fn push_reserved(&mut self, noticed: Noticed)
        requires { 0 < self.old.room }
        ensures now { self.new.now ≡ self.old.now ++ noticed ∷ [] }
        ensures settled { self.new.settled ≡ self.old.settled }
        ensures room { self.old.room ≤ self.new.room + 1 }
    {
        self.list.push_reserved(noticed);
    }

    /// Takes the oldest, if there is one.
    pub(crate) fn take_oldest(&mut self, alloc: Global) -> Result<Option<Noticed>, AllocError>
        ensures oldest { IfOk result (λ taken. taken ≡ oldest self.old.now) }
        ensures ok { OnOk result (self.new.now ≡ drop 1 self.old.now) }
        ensures err { OnErr result (self.new.now ≡ self.old.now) }
        ensures settled { self.new.settled ≡ self.old.settled }
    {
        let Some(noticed) = self.list.get(self.told) else {
            return Ok(None);
        };
        let noticed = noticed.copy(alloc)?;
        self.told += 1;
        Ok(Some(noticed))
    }

    /// Nobody is to be told of those that are pending. It takes no memory.
    pub(crate) fn forget(&mut self)
        ensures now { self.new.now ≡ [] }
        ensures settled { self.new.settled ≡ self.old.settled }
    {
        self.told = self.list.len();
    }

    /// What is pending now is what `back` leads to. It takes no memory.
    pub(crate) fn settle(&mut self)
        ensures now { self.new.now ≡ self.old.now }
        ensures settled { self.new.settled ≡ self.old.now }
    {
        if self.told == self.list.len() {
            self.list.clear();
            self.told = 0;
        }
        self.settled_len = self.list.len();
        self.settled_told = self.told;
    }

    /// What was pending when they were last settled is so again. It takes no memory.
    pub(crate) fn back(&mut self)
        ensures now { self.new.now ≡ self.old.settled }
        ensures settled { self.new.settled ≡ self.old.settled }
    {
        self.list.truncate(self.settled_len);
        self.told = self.settled_told;
    }
}
