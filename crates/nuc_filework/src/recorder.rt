ghost use Rattle.std.specs.Prelude.{◌≡◌, ℕ, None, IsTrue};
ghost use Rattle.nuc_io.specs.Causes.{HasCause};
ghost use Rattle.nuc_folder.specs.Answers.{Changes, Makes};

use nuc_folder::{Folder, Key, KeyPlace, Listed, Outcome, ReadBack, Seen};
use nuc_hash::Digest;
use sqlite_items::Items;
use std::alloc::Global;

/// A folder that does nothing and tells nothing. It notes each call that is to change it by a letter.
#[derive(Drop)]
pub(crate) struct Recorder {
    pub(crate) calls: String,
    /// The number of the call that fails, from 1.
    failing: usize,
    faults: u64,
    /// The key of what is made next.
    next: u64,
}

impl Recorder {
    pub(crate) fn new(alloc: Global, failing: usize, next: u64) -> Recorder {
        Recorder {
            calls: String::new(alloc),
            failing,
            faults: 0,
            next,
        }
    }

    fn fails(&mut self, letter: &str) -> bool
        ensures next { self.new.next ≡ self.old.next }
        ensures cause { HasCause self.old.faults self.new.faults (IsTrue result) }
    {
        let _ = self.calls.push_str(letter);
        if self.calls.len() != self.failing {
            return false;
        }
        self.faults = self.faults.saturating_add(1);
        true
    }

    fn change(&mut self, letter: &str) -> Outcome
        ensures changes { Changes result self.old.next self.new.next }
        ensures cause { HasCause self.old.faults self.new.faults (result ≡ Outcome.Failed) }
    {
        if self.fails(letter) {
            return Outcome::Failed;
        }
        Outcome::Ok
    }

    fn make(&mut self, letter: &str) -> Outcome
        ensures makes { Makes result self.old.next self.new.next }
        ensures cause { HasCause self.old.faults self.new.faults (result ≡ Outcome.Failed) }
    {
        if self.fails(letter) {
            return Outcome::Failed;
        }
        let key = self.next;
        match key.checked_add(1) {
            Some(next) if key > 0 => {
                self.next = next;
                Outcome::Made(Key(key))
            }
            _ => Outcome::Memory,
        }
    }
}

impl Folder for Recorder {
    ghost told = { λ s. None };

    ghost next = { λ s. s.next };

    ghost faults = { λ s. s.faults };

    ghost beside = { λ s. None };

    fn list(&mut self, alloc: Global) -> Listed {
        Listed::Items(Items::new(alloc))
    }

    fn read(&mut self, alloc: Global, key: Key) -> ReadBack {
        ReadBack::Changed
    }

    fn make_dir(&mut self, alloc: Global, place: &KeyPlace) -> Outcome {
        self.make("d")
    }

    fn write_new(&mut self, alloc: Global, place: &KeyPlace, bytes: &[u8], bit: bool) -> Outcome {
        self.make("w")
    }

    fn replace(&mut self, alloc: Global, key: Key, expected: &Digest, bytes: &[u8]) -> Outcome {
        self.change("r")
    }

    fn set_bit(&mut self, alloc: Global, key: Key, expected: bool, bit: bool) -> Outcome {
        self.change("s")
    }

    fn move_to(
        &mut self,
        alloc: Global,
        key: Key,
        expected: &KeyPlace,
        place: &KeyPlace,
    ) -> Outcome {
        self.change("m")
    }

    fn remove(&mut self, alloc: Global, key: Key, expected: &Seen) -> Outcome {
        self.change("x")
    }
}
