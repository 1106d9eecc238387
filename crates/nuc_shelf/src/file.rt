ghost use Rattle.std.specs.Prelude.{◌≡◌, IfOk};
ghost use Rattle.nuc_hash.specs.Content.{content_of};

use nuc_hash::{Content, content_of};
use sqlite_items::Items;
use std::alloc::{AllocError, Global};
use std::marker::Model;

/// The bytes of a file, with their content. They are hashed once, when the file is made.
#[derive(Debug, Drop)]
pub struct ShelfFile {
    bytes: Items<u8>,
    content: Content,
}

impl Model for ShelfFile {
    ghost use Rattle.std.specs.Prelude.{◌≡◌, ℕ, List};
    ghost use Rattle.nuc_hash.specs.Content.{content_of};

    ghost Value = { List ℕ };

    ghost view = { λ f. f.bytes };

    ghost invariant = { λ f. f.content ≡ content_of f.bytes };
}

impl ShelfFile {
    /// A file with a copy of these bytes.
    pub fn of(alloc: Global, bytes: &[u8]) -> Result<ShelfFile, AllocError>
        ensures { IfOk result (λ file. file ≡ bytes.now) }
    {
        let content = content_of(alloc, bytes)?;
        let bytes = Items::from_slice(alloc, bytes)?;
        Ok(ShelfFile { bytes, content })
    }

    /// All bytes of the file.
    pub fn bytes(&self) -> &[u8]
        ensures { result.now ≡ self.now }
    {
        self.bytes.as_slice()
    }

    /// Size, blocks and hash of the bytes. Nothing is hashed for it.
    pub fn content(&self) -> &Content
        ensures { result.now ≡ content_of self.now }
    {
        &self.content
    }
}
