ghost use Rattle.std.specs.Prelude.{◌≡◌, IfOk};

use nuc_hash::Content;
use sqlite_items::Items;
use std::alloc::{AllocError, Global};

/// What a folder knows a file or folder by, while it stands. The folder itself is 0.
#[derive(Clone, Copy, Debug, PartialEq, Eq, PartialOrd, Ord, Hash)]
pub struct Key(pub u64);

/// A name as a folder lists it: any bytes.
pub type RawName = Items<u8>;

/// One line of a listing.
#[derive(Debug, Drop)]
pub struct Item {
    pub key: Key,
    pub parent: Key,
    /// What the file holds; a folder has none.
    pub content: Option<Content>,
    pub name: RawName,
    /// Whether the file may be executed; a folder never has it.
    pub bit: bool,
}

impl Item {
    pub fn copy(&self, alloc: Global) -> Result<Item, AllocError>
        ensures { IfOk result (λ item. item ≡ self.now) }
    {
        let content = match &self.content {
            Some(content) => Some(content.copy(alloc)?),
            None => None,
        };
        Ok(Item {
            key: self.key,
            parent: self.parent,
            content,
            name: Items::from_slice(alloc, self.name.as_slice())?,
            bit: self.bit,
        })
    }
}
