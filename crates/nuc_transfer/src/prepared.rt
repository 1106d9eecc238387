ghost use Rattle.std.specs.Prelude.{◌≡◌, slice_get, IfOk};
ghost use Rattle.std.specs.Option.{option_copied};
ghost use Rattle.nuc_hash.specs.Content.{blocks_of, content_of};

use nuc_hash::{BLOCK, Content, content_of};
use sqlite_items::Items;
use std::alloc::{AllocError, Global};
use std::marker::Model;

/// A file's bytes with their content, so that an upload hashes nothing. The bytes are held in one piece and lent block by
/// block.
///
/// Contracts see the bytes.
#[derive(Debug, Drop)]
pub struct Prepared {
    content: Content,
    bytes: Items<u8>,
}

impl Model for Prepared {
    ghost use Rattle.std.specs.Prelude.{◌≡◌, List, ℕ};
    ghost use Rattle.std.specs.Coded.{coded_list, coded_ℕ};
    ghost use Rattle.nuc_hash.specs.Content.{content_of};

    ghost Value = { List ℕ };

    ghost coded = { coded_list coded_ℕ };

    ghost view = { λ p. p.bytes };

    ghost invariant = { λ p. p.content ≡ content_of p.bytes };
}

impl Prepared {
    /// Prepares bytes that the caller gives up: they are hashed and aren't copied.
    pub fn of(alloc: Global, bytes: Items<u8>) -> Result<Prepared, AllocError>
        ensures { IfOk result (λ prepared. prepared ≡ bytes) }
    {
        let content = content_of(alloc, bytes.as_slice())?;
        Ok(Prepared { content, bytes })
    }

    pub fn content(&self) -> &Content
        ensures { result.now ≡ content_of self.now }
    {
        &self.content
    }

    pub fn bytes(&self) -> &[u8]
        ensures { result.now ≡ self.now }
    {
        self.bytes.as_slice()
    }

    /// The bytes of the block at `index`, from 0.
    pub fn block(&self, index: usize) -> Option<&[u8]>
        ensures { option_copied result ≡ slice_get (blocks_of self.now) index }
    {
        block_at(self.bytes.as_slice(), index)
    }
}

/// The block at `index` of these bytes.
fn block_at(bytes: &[u8], index: usize) -> Option<&[u8]>
    ensures { option_copied result ≡ slice_get (blocks_of bytes.now) index }
{
    if index >= bytes.len().div_ceil(BLOCK) {
        return None;
    }
    let (_, rest) = bytes.split_at(index * BLOCK);
    let (block, _) = rest.split_at(rest.len().min(BLOCK));
    Some(block)
}

/// As `Prepared::of`, with a copy of the bytes.
pub fn prepare(alloc: Global, bytes: &[u8]) -> Result<Prepared, AllocError>
    ensures { IfOk result (λ prepared. prepared ≡ bytes.now) }
{
    Prepared::of(alloc, Items::from_slice(alloc, bytes)?)
}
