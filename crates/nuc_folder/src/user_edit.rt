ghost use Rattle.std.specs.Prelude.{◌≡◌, IfOk};

use nuc_base::Path;
use nuc_hash::Filling;
use std::alloc::{AllocError, Global};

/// What a user does in a folder.
#[derive(Debug, Drop)]
pub enum UserEdit {
    /// Makes a folder.
    Mkdir(Path),
    /// Makes a file, or gives it other bytes.
    Write(Path, Filling),
    /// Moves what is at the first path to the second, with all that is below it.
    Move(Path, Path),
    /// Removes what is there, with all that is below it.
    Remove(Path),
    /// Says whether a file may be executed.
    Bit(Path, bool),
}

impl UserEdit {
    /// The same edit, in memory of its own.
    pub fn copy(&self, alloc: Global) -> Result<UserEdit, AllocError>
        ensures { IfOk result (λ edit. edit ≡ self.now) }
    {
        match self {
            UserEdit::Mkdir(path) => Ok(UserEdit::Mkdir(path.copy(alloc)?)),
            UserEdit::Write(path, filling) => {
                let path = path.copy(alloc)?;
                Ok(UserEdit::Write(path, filling.copy(alloc)?))
            }
            UserEdit::Move(from, to) => {
                let from = from.copy(alloc)?;
                Ok(UserEdit::Move(from, to.copy(alloc)?))
            }
            UserEdit::Remove(path) => Ok(UserEdit::Remove(path.copy(alloc)?)),
            UserEdit::Bit(path, bit) => Ok(UserEdit::Bit(path.copy(alloc)?, *bit)),
        }
    }
}

/// How a folder answers what a user does. Where several could be given, the first of them is, and `Memory` may be at any
/// time. After every answer but `Ok` the folder is as it was.
#[derive(Clone, Copy, Debug, PartialEq, Eq)]
pub enum UserReply {
    Ok,
    /// Nothing is there that is to be moved, removed or given a bit.
    NoSuch,
    /// The path doesn't lead to a place in a folder.
    NoParent,
    /// A folder is written, or given a bit.
    Kind,
    /// The place is somebody's; of what is moved, also its own.
    Taken,
    /// The new place is below what is moved, or in it.
    Cycle,
    Memory,
}
