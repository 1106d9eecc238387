ghost use Rattle.std.specs.Prelude.{◌≡◌, IfOk};

use nuc_base::{NodeId, Path};
use nuc_hash::Filling;
use std::alloc::{AllocError, Global};

/// What is edited on the web. It is judged by the server's last tree.
#[derive(Debug, Drop)]
pub enum WebEdit {
    /// Makes a folder.
    Mkdir(Path),
    /// Makes a file, or gives a file other bytes.
    Write(Path, Filling),
    /// Moves what stands at the first path to the second.
    Move(Path, Path),
    Remove(Path),
    /// Says whether a file may be executed.
    Bit(Path, bool),
}

/// The server's answer to a web edit. Where several reasons hold, the first one here is given, but for `Same`, which comes after `KindChanged`.
#[derive(Clone, Copy, Debug, PartialEq, Eq)]
pub enum WebReply {
    /// It is the entry of this revision.
    Accepted(u64),
    /// It is so already, and nothing was entered.
    Same,
    /// Nobody stands at the path.
    NoSuch,
    /// A name of the path before its last isn't that of a folder, or the path has no names. It comes first for the path of what is edited, and after
    /// `NoSuch` for the one that it is to be moved to.
    NoParent,
    /// Somebody else has the place.
    Taken(NodeId),
    /// A folder would stand below itself.
    Cycle,
    /// A folder that is to be removed has children.
    NotEmpty,
    /// A folder can't have bytes, nor the bit.
    KindChanged,
    /// Memory is wanted, and nothing was changed but that the store may have gained blocks. It may be answered in place of any other.
    Memory,
}

impl WebEdit {
    /// The same edit, with names and bytes in memory of its own.
    pub fn copy(&self, alloc: Global) -> Result<WebEdit, AllocError>
        ensures { IfOk result (λ edit. edit ≡ self.now) }
    {
        match self {
            WebEdit::Mkdir(path) => Ok(WebEdit::Mkdir(path.copy(alloc)?)),
            WebEdit::Write(path, filling) => {
                let path = path.copy(alloc)?;
                Ok(WebEdit::Write(path, filling.copy(alloc)?))
            }
            WebEdit::Move(from, to) => {
                let from = from.copy(alloc)?;
                Ok(WebEdit::Move(from, to.copy(alloc)?))
            }
            WebEdit::Remove(path) => Ok(WebEdit::Remove(path.copy(alloc)?)),
            WebEdit::Bit(path, on) => Ok(WebEdit::Bit(path.copy(alloc)?, *on)),
        }
    }
}
