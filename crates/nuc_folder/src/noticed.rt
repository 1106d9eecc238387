ghost use Rattle.std.specs.Prelude.{◌≡◌, IfOk};

use crate::{Item, Key, KeyPlace};
use nuc_hash::Content;
use std::alloc::{AllocError, Global};

/// One change that a user made in a folder, as it is told to who watches it.
#[derive(Debug, Drop)]
pub enum Noticed {
    /// A file or folder was made, with its content at that time.
    Made(Item),
    /// A file was written, with its content at that time.
    Written(Key, Content),
    /// It stands at this place now.
    Moved(Key, KeyPlace),
    Removed(Key),
    /// The file's bit is this now.
    Bit(Key, bool),
}

impl Noticed {
    pub fn copy(&self, alloc: Global) -> Result<Noticed, AllocError>
        ensures { IfOk result (λ noticed. noticed ≡ self.now) }
    {
        match self {
            Noticed::Made(item) => Ok(Noticed::Made(item.copy(alloc)?)),
            Noticed::Written(key, content) => Ok(Noticed::Written(*key, content.copy(alloc)?)),
            Noticed::Moved(key, place) => Ok(Noticed::Moved(*key, place.copy(alloc)?)),
            Noticed::Removed(key) => Ok(Noticed::Removed(*key)),
            Noticed::Bit(key, bit) => Ok(Noticed::Bit(*key, *bit)),
        }
    }
}
