ghost use Rattle.std.specs.Prelude.{◌≡◌, ◌≤◌};
ghost use Rattle.nuc_io.specs.Causes.{HasCause};
ghost use Rattle.nuc_folder.specs.Answers.{Changes, ListAnswers, ListsBelow, MakeDirAnswers, Makes, MoveAnswers, ReadAnswers, RemoveAnswers, ReplaceAnswers, SetBitAnswers, WriteNewAnswers};
ghost use Rattle.nuc_folder.specs.Memory.{Came, GivesKey, pending_after};
ghost use Rattle.nuc_folder.specs.State.{IsTold, place_of};

use crate::listing::listing;
use crate::{
    Folder, Key, KeyPlace, Listed, MOST_ITEMS, MemFolder, Outcome, ReadBack, Seen, changing, making,
};
use nuc_hash::Digest;
use sqlite_items::Items;
use std::alloc::Global;

impl Folder for MemFolder {
    ghost use Rattle.std.specs.Prelude.{Some};

    ghost told = { λ s. Some s.now.held };

    ghost next = { λ s. s.now.next };

    ghost faults = { λ s. s.calls.faults };

    ghost beside = { λ s. Some (record { calls = s.calls; settled = s.settled; pending = s.now.pending }) };

    fn list(&mut self, alloc: Global) -> Listed
        ensures told { ListAnswers self.old.now.held result self.new.now.held }
        ensures keys { ListsBelow result self.new.now.next }
        ensures later { self.old.now.next ≤ self.new.now.next }
        ensures form { IsTold self.new.now.next (Some self.new.now.held) }
        ensures cause { HasCause self.old.calls.faults self.new.calls.faults (result ≡ Listed.Failed) }
        ensures came { Came self.old (result ≡ Listed.Failed) self.new }
        ensures pending { self.new.now.pending ≡ pending_after result self.old.now.pending }
        ensures next { self.new.now.next ≡ self.old.now.next }
    {
        if self.fails() {
            return Listed::Failed;
        }
        let Ok(items) = listing(&self.shelf, alloc) else {
            return Listed::Memory;
        };
        let count = items.len() as u64;
        if count > MOST_ITEMS {
            return Listed::TooLong(count);
        }
        self.notices.forget();
        Listed::Items(items)
    }

    fn read(&mut self, alloc: Global, key: Key) -> ReadBack
        ensures told { ReadAnswers key.0 self.old.now.held result self.new.now.held }
        ensures later { self.old.now.next ≤ self.new.now.next }
        ensures form { IsTold self.new.now.next (Some self.new.now.held) }
        ensures cause { HasCause self.old.calls.faults self.new.calls.faults (result ≡ ReadBack.Failed) }
        ensures came { Came self.old (result ≡ ReadBack.Failed) self.new }
        ensures now { self.new.now ≡ self.old.now }
    {
        if self.fails() {
            return ReadBack::Failed;
        }
        match self.shelf.file(key.0) {
            Some(file) => match Items::from_slice(alloc, file.bytes()) {
                Ok(bytes) => ReadBack::Bytes(bytes),
                Err(_) => ReadBack::Memory,
            },
            None => ReadBack::Changed,
        }
    }

    fn make_dir(&mut self, alloc: Global, place: &KeyPlace) -> Outcome
        ensures told { MakeDirAnswers (place_of place.now) self.old.now.held result self.new.now.held }
        ensures makes { Makes result self.old.now.next self.new.now.next }
        ensures key { GivesKey result self.old.now.next self.new.now.next }
        ensures form { IsTold self.new.now.next (Some self.new.now.held) }
        ensures cause { HasCause self.old.calls.faults self.new.calls.faults (result ≡ Outcome.Failed) }
        ensures came { Came self.old (result ≡ Outcome.Failed) self.new }
        ensures pending { self.new.now.pending ≡ self.old.now.pending }
    {
        if self.fails() {
            return Outcome::Failed;
        }
        let Some(next_key) = self.next_key.checked_add(1) else {
            return Outcome::Memory;
        };
        let made = making::make_dir(&mut self.shelf, alloc, Key(self.next_key), place);
        if made.is_success() {
            self.next_key = next_key;
        }
        made
    }

    fn write_new(&mut self, alloc: Global, place: &KeyPlace, bytes: &[u8], bit: bool) -> Outcome
        ensures told { WriteNewAnswers (place_of place.now) bytes.now bit self.old.now.held result self.new.now.held }
        ensures makes { Makes result self.old.now.next self.new.now.next }
        ensures key { GivesKey result self.old.now.next self.new.now.next }
        ensures form { IsTold self.new.now.next (Some self.new.now.held) }
        ensures cause { HasCause self.old.calls.faults self.new.calls.faults (result ≡ Outcome.Failed) }
        ensures came { Came self.old (result ≡ Outcome.Failed) self.new }
        ensures pending { self.new.now.pending ≡ self.old.now.pending }
    {
        if self.fails() {
            return Outcome::Failed;
        }
        let Some(next_key) = self.next_key.checked_add(1) else {
            return Outcome::Memory;
        };
        let made = making::write_new(
            &mut self.shelf,
            alloc,
            Key(self.next_key),
            place,
            bytes,
            bit,
        );
        if made.is_success() {
            self.next_key = next_key;
        }
        made
    }

    fn replace(&mut self, alloc: Global, key: Key, expected: &Digest, bytes: &[u8]) -> Outcome
        ensures told { ReplaceAnswers key.0 expected.now bytes.now self.old.now.held result self.new.now.held }
        ensures changes { Changes result self.old.now.next self.new.now.next }
        ensures next { self.new.now.next ≡ self.old.now.next }
        ensures form { IsTold self.new.now.next (Some self.new.now.held) }
        ensures cause { HasCause self.old.calls.faults self.new.calls.faults (result ≡ Outcome.Failed) }
        ensures came { Came self.old (result ≡ Outcome.Failed) self.new }
        ensures pending { self.new.now.pending ≡ self.old.now.pending }
    {
        if self.fails() {
            return Outcome::Failed;
        }
        changing::replace(&mut self.shelf, alloc, key, expected, bytes)
    }

    fn set_bit(&mut self, alloc: Global, key: Key, expected: bool, bit: bool) -> Outcome
        ensures told { SetBitAnswers key.0 expected bit self.old.now.held result self.new.now.held }
        ensures changes { Changes result self.old.now.next self.new.now.next }
        ensures next { self.new.now.next ≡ self.old.now.next }
        ensures form { IsTold self.new.now.next (Some self.new.now.held) }
        ensures cause { HasCause self.old.calls.faults self.new.calls.faults (result ≡ Outcome.Failed) }
        ensures came { Came self.old (result ≡ Outcome.Failed) self.new }
        ensures pending { self.new.now.pending ≡ self.old.now.pending }
    {
        if self.fails() {
            return Outcome::Failed;
        }
        changing::set_bit(&mut self.shelf, alloc, key, expected, bit)
    }

    fn move_to(&mut self, alloc: Global, key: Key, expected: &KeyPlace, place: &KeyPlace) -> Outcome
        ensures told { MoveAnswers key.0 (place_of expected.now) (place_of place.now) self.old.now.held result self.new.now.held }
        ensures changes { Changes result self.old.now.next self.new.now.next }
        ensures next { self.new.now.next ≡ self.old.now.next }
        ensures form { IsTold self.new.now.next (Some self.new.now.held) }
        ensures cause { HasCause self.old.calls.faults self.new.calls.faults (result ≡ Outcome.Failed) }
        ensures came { Came self.old (result ≡ Outcome.Failed) self.new }
        ensures pending { self.new.now.pending ≡ self.old.now.pending }
    {
        if self.fails() {
            return Outcome::Failed;
        }
        changing::move_to(&mut self.shelf, alloc, key, expected, place)
    }

    fn remove(&mut self, _alloc: Global, key: Key, expected: &Seen) -> Outcome
        ensures told { RemoveAnswers key.0 expected.now self.old.now.held result self.new.now.held }
        ensures changes { Changes result self.old.now.next self.new.now.next }
        ensures next { self.new.now.next ≡ self.old.now.next }
        ensures form { IsTold self.new.now.next (Some self.new.now.held) }
        ensures cause { HasCause self.old.calls.faults self.new.calls.faults (result ≡ Outcome.Failed) }
        ensures came { Came self.old (result ≡ Outcome.Failed) self.new }
        ensures pending { self.new.now.pending ≡ self.old.now.pending }
    {
        if self.fails() {
            return Outcome::Failed;
        }
        changing::remove(&mut self.shelf, key, expected)
    }
}
