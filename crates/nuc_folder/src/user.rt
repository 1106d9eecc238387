ghost use Rattle.std.specs.Prelude.{◌≡◌, ◌<◌, ◌+◌, None, IfErr, IfOk, OnErr, OnOk};
ghost use Rattle.std.specs.FinMap as map;
ghost use Rattle.nuc_shelf.specs.Shelf.{IsShelf};
ghost use Rattle.nuc_folder.specs.User.{ChangesOnce, UserAnswers};
ghost use Rattle.nuc_folder.specs.UserEdits.{Does, IsOneChange, Refused, next_after};

use crate::{MemFolder, Noticed, UserEdit, UserReply, removal, user_change};
use nuc_shelf::Shelf;
use std::alloc::Global;

impl MemFolder {
    /// Does what a user does. It is no call of the trait `Folder`, so it is never made to fail. A key that would pass the
    /// end of `u64` is want of memory.
    pub fn user(&mut self, alloc: Global, edit: &UserEdit) -> UserReply
        ensures answers { UserAnswers edit.now self.old.now result self.new.now }
        ensures settled { self.new.settled ≡ self.old.settled }
        ensures calls { self.new.calls ≡ self.old.calls }
    {
        let done = match edit {
            UserEdit::Remove(path) => {
                removal::remove(&mut self.shelf, &mut self.notices, alloc, path)
            }
            UserEdit::Mkdir(_) => self.change_once(alloc, edit),
            UserEdit::Write(..) => self.change_once(alloc, edit),
            UserEdit::Move(..) => self.change_once(alloc, edit),
            UserEdit::Bit(..) => self.change_once(alloc, edit),
        };
        match done {
            Ok(()) => UserReply::Ok,
            Err(reply) => reply,
        }
    }

    /// Makes the change of an edit, and notes it.
    fn change_once(&mut self, alloc: Global, edit: &UserEdit) -> Result<(), UserReply>
        requires { IsOneChange edit.now }
        ensures ok { OnOk result (ChangesOnce edit.now self.old.now self.new.now) }
        ensures refused { IfErr result (λ reply. Refused edit.now self.old.now.held.tree reply) }
        ensures err { OnErr result (self.new.now ≡ self.old.now) }
        ensures settled { self.new.settled ≡ self.old.settled }
        ensures calls { self.new.calls ≡ self.old.calls }
    {
        let Some(next_key) = self.next_key.checked_add(1) else {
            return Err(UserReply::Memory);
        };
        if self.notices.reserve(1).is_err() {
            return Err(UserReply::Memory);
        }
        match change(&mut self.shelf, alloc, self.next_key, edit) {
            Ok(notice) => {
                let after = key_after(&notice, self.next_key, next_key);
                self.notices.push_reserved(notice);
                self.next_key = after;
                Ok(())
            }
            Err(reply) => Err(reply),
        }
    }
}

/// The key of what is new next, where this one was for what the notice may tell of.
fn key_after(notice: &Noticed, key: u64, next_key: u64) -> u64
    requires { next_key ≡ key + 1 }
    ensures { result ≡ next_after notice.now key }
{
    match notice {
        Noticed::Made(_) => next_key,
        Noticed::Written(..) | Noticed::Moved(..) | Noticed::Removed(_) | Noticed::Bit(..) => key,
    }
}

/// Makes the change of an edit; what is new gets the key.
fn change(shelf: &mut Shelf, alloc: Global, key: u64, edit: &UserEdit) -> Result<Noticed, UserReply>
    requires one { IsOneChange edit.now }
    requires key { 0 < key }
    requires absent { map.get shelf.old.now.tree key ≡ None }
    ensures ok { IfOk result (λ notice. Does edit.now key shelf.old.now notice shelf.new.now) }
    ensures refused { IfErr result (λ reply. Refused edit.now shelf.old.now.tree reply) }
    ensures err { OnErr result (shelf.new.now ≡ shelf.old.now) }
    ensures settled { shelf.new.settled ≡ shelf.old.settled }
    ensures shelf { IsShelf shelf.new.now }
{
    match edit {
        UserEdit::Mkdir(path) => user_change::mkdir(shelf, alloc, key, path),
        UserEdit::Write(path, filling) => user_change::fill(shelf, alloc, key, path, filling),
        UserEdit::Move(from, to) => user_change::move_to(shelf, alloc, from, to),
        UserEdit::Bit(path, bit) => user_change::set_bit(shelf, alloc, path, *bit),
        UserEdit::Remove(_) => unreachable!(),
    }
}
