ghost use Rattle.std.specs.Prelude.{◌≡◌, ◌≤◌, ℕ, Option};
ghost use Rattle.nuc_io.specs.Causes.{HasCause};
ghost use Rattle.nuc_folder.specs.Answers.{Changes, ListAnswers, ListsBelow, MakeDirAnswers, Makes, MoveAnswers, ReadAnswers, RemoveAnswers, ReplaceAnswers, SetBitAnswers, Told, WriteNewAnswers};
ghost use Rattle.nuc_folder.specs.Beside.{Beside, InMemory};
ghost use Rattle.nuc_folder.specs.State.{FolderState, IsTold, place_of};

use crate::{Key, KeyPlace, Listed, Outcome, ReadBack, Seen};
use nuc_hash::Digest;
use std::alloc::Global;

/// A folder of files and folders, each known by a key, which others may change between any two calls.
///
/// It counts its faults from 0; a count at the last value of `u64` counts as risen. A call that expects something of
/// what is there compares it before it changes anything. After every answer but `Ok` and `Made` the folder holds what it
/// held.
pub trait Folder {
    /// What it holds, where it tells it.
    ghost told: { Self → Option FolderState };

    /// Every key that was ever used is below this.
    ghost next: { Self → ℕ };

    /// How often it has failed.
    ghost faults: { Self → ℕ };

    /// What only a folder in memory has.
    ghost beside: { Self → Option Beside };

    /// The items of all files and folders.
    fn list(&mut self, alloc: Global) -> Listed
        ensures told { Told (λ old new. ListAnswers old result new) (told self.old) (told self.new) }
        ensures keys { ListsBelow result (next self.new) }
        ensures later { next self.old ≤ next self.new }
        ensures form { IsTold (next self.new) (told self.new) }
        ensures cause { HasCause (faults self.old) (faults self.new) (result ≡ Listed.Failed) };

    /// The bytes of a file.
    fn read(&mut self, alloc: Global, key: Key) -> ReadBack
        ensures told { Told (λ old new. ReadAnswers key.0 old result new) (told self.old) (told self.new) }
        ensures later { next self.old ≤ next self.new }
        ensures form { IsTold (next self.new) (told self.new) }
        ensures cause { HasCause (faults self.old) (faults self.new) (result ≡ ReadBack.Failed) };

    /// Makes a folder. `Changed` is answered where the parent is no folder.
    fn make_dir(&mut self, alloc: Global, place: &KeyPlace) -> Outcome
        ensures told { Told (λ old new. MakeDirAnswers (place_of place.now) old result new) (told self.old) (told self.new) }
        ensures makes { Makes result (next self.old) (next self.new) }
        ensures form { IsTold (next self.new) (told self.new) }
        ensures cause { HasCause (faults self.old) (faults self.new) (result ≡ Outcome.Failed) }
        ensures memory { InMemory result (beside self.old) (next self.old) (beside self.new) (next self.new) };

    /// Makes a file. `Changed` is answered where the parent is no folder.
    fn write_new(&mut self, alloc: Global, place: &KeyPlace, bytes: &[u8], bit: bool) -> Outcome
        ensures told { Told (λ old new. WriteNewAnswers (place_of place.now) bytes.now bit old result new) (told self.old) (told self.new) }
        ensures makes { Makes result (next self.old) (next self.new) }
        ensures form { IsTold (next self.new) (told self.new) }
        ensures cause { HasCause (faults self.old) (faults self.new) (result ≡ Outcome.Failed) }
        ensures memory { InMemory result (beside self.old) (next self.old) (beside self.new) (next self.new) };

    /// Replaces the bytes of a file whose content has the expected hash.
    fn replace(&mut self, alloc: Global, key: Key, expected: &Digest, bytes: &[u8]) -> Outcome
        ensures told { Told (λ old new. ReplaceAnswers key.0 expected.now bytes.now old result new) (told self.old) (told self.new) }
        ensures changes { Changes result (next self.old) (next self.new) }
        ensures form { IsTold (next self.new) (told self.new) }
        ensures cause { HasCause (faults self.old) (faults self.new) (result ≡ Outcome.Failed) }
        ensures memory { InMemory result (beside self.old) (next self.old) (beside self.new) (next self.new) };

    /// Sets the bit of a file that has the expected one.
    fn set_bit(&mut self, alloc: Global, key: Key, expected: bool, bit: bool) -> Outcome
        ensures told { Told (λ old new. SetBitAnswers key.0 expected bit old result new) (told self.old) (told self.new) }
        ensures changes { Changes result (next self.old) (next self.new) }
        ensures form { IsTold (next self.new) (told self.new) }
        ensures cause { HasCause (faults self.old) (faults self.new) (result ≡ Outcome.Failed) }
        ensures memory { InMemory result (beside self.old) (next self.old) (beside self.new) (next self.new) };

    /// Moves what stands at the expected place, with all that is below it. `Changed` is also answered where the new
    /// parent is no folder, is what is to be moved, or stands below that.
    fn move_to(&mut self, alloc: Global, key: Key, expected: &KeyPlace, place: &KeyPlace) -> Outcome
        ensures told { Told (λ old new. MoveAnswers key.0 (place_of expected.now) (place_of place.now) old result new) (told self.old) (told self.new) }
        ensures changes { Changes result (next self.old) (next self.new) }
        ensures form { IsTold (next self.new) (told self.new) }
        ensures cause { HasCause (faults self.old) (faults self.new) (result ≡ Outcome.Failed) }
        ensures memory { InMemory result (beside self.old) (next self.old) (beside self.new) (next self.new) };

    /// Removes a file, or a folder with nothing in it, that is as it was seen. The bit isn't compared.
    fn remove(&mut self, alloc: Global, key: Key, expected: &Seen) -> Outcome
        ensures told { Told (λ old new. RemoveAnswers key.0 expected.now old result new) (told self.old) (told self.new) }
        ensures changes { Changes result (next self.old) (next self.new) }
        ensures form { IsTold (next self.new) (told self.new) }
        ensures cause { HasCause (faults self.old) (faults self.new) (result ≡ Outcome.Failed) }
        ensures memory { InMemory result (beside self.old) (next self.old) (beside self.new) (next self.new) };
}
