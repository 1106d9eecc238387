ghost use Rattle.std.specs.Prelude.{◌≡◌, ◌≢◌, length, slice_get, IfOk, MatchOption};
ghost use Rattle.std.specs.Int.{div_ceil};
ghost use Rattle.std.specs.Option.{option_copied};

use crate::{Digest, Hasher};
use sha2::{Digest as _, Sha256};
use sqlite_items::Items;
use std::alloc::{AllocError, Global};
use std::marker::Model;

/// How many bytes each block but the last has: 4 MiB, as in Dropbox's `content_hash`.
pub const BLOCK: usize = 4_194_304;

/// What is known of a file's bytes: their number, the SHA-256 of each block, and the hash that stands for all of them.
#[derive(Debug, Drop)]
pub struct Content {
    hash: Digest,
    size: u64,
    blocks: Items<Digest>,
}

impl Model for Content {
    ghost use Rattle.nuc_hash.specs.Content.{ContentData};

    ghost Value = { ContentData };

    ghost view = { λ c. record { hash = c.hash; size = c.size; blocks = c.blocks } };
}

ghost use Rattle.nuc_hash.specs.Content.{EachIsOfItsBlocks, content_of, digest_of, joined};

impl Content {
    /// The content of `size` bytes whose blocks have these digests. None where so many bytes have another number of blocks.
    pub fn of(size: u64, blocks: Items<Digest>) -> Option<Content>
        ensures { MatchOption result
            (length blocks ≢ div_ceil size BLOCK)
            (λ content. (length blocks ≡ div_ceil size BLOCK)
            × (content ≡ record { hash = digest_of (joined blocks); size = size; blocks = blocks })) }
    {
        if blocks.len() as u64 != size.div_ceil(BLOCK as u64) {
            return None;
        }
        Some(Content::whole(size, blocks))
    }

    /// The content of so many bytes with these digests, whose number isn't looked at.
    pub(crate) fn whole(size: u64, blocks: Items<Digest>) -> Content
        ensures { result ≡ record { hash = digest_of (joined blocks); size = size; blocks = blocks } }
    {
        Content {
            hash: of_blocks(blocks.as_slice()),
            size,
            blocks,
        }
    }

    /// The SHA-256 of the blocks' digests, one after the other. It stands for the content.
    pub fn hash(&self) -> &Digest
        ensures { result.now ≡ self.now.hash }
    {
        &self.hash
    }

    /// How many bytes the content has.
    pub fn size(&self) -> u64
        ensures { result ≡ self.now.size }
    {
        self.size
    }

    /// The digest of the block at `index`, from 0.
    pub fn block(&self, index: usize) -> Option<&Digest>
        ensures { option_copied result ≡ slice_get self.now.blocks index }
    {
        self.blocks.get(index)
    }

    /// The digests of all blocks, in order.
    pub fn blocks(&self) -> &[Digest]
        ensures { result.now ≡ self.now.blocks }
    {
        self.blocks.as_slice()
    }

    pub fn block_count(&self) -> usize
        ensures { result ≡ length self.now.blocks }
    {
        self.blocks.len()
    }

    pub fn copy(&self, alloc: Global) -> Result<Content, AllocError>
        ensures { IfOk result (λ content. content ≡ self.now) }
    {
        Ok(Content {
            hash: self.hash,
            size: self.size,
            blocks: Items::from_slice(alloc, self.blocks.as_slice())?,
        })
    }
}

/// Hashes each block once, and keeps none of the bytes.
pub fn content_of(alloc: Global, bytes: &[u8]) -> Result<Content, AllocError>
    ensures { IfOk result (λ content. content ≡ content_of bytes.now) }
{
    let mut hasher = Hasher::new(alloc);
    hasher.update(bytes)?;
    Ok(hasher.finish())
}

/// `Content::of` makes every content again, of its size and its blocks.
pub fn is_of_its_blocks()
    ensures { EachIsOfItsBlocks }
{}

/// The SHA-256 of the digests, one after the other: the hash of a content whose blocks have these digests.
pub fn of_blocks(digests: &[Digest]) -> Digest
    ensures { result ≡ digest_of (joined digests.now) }
{
    let mut hasher = Sha256::new();
    for digest in digests {
        hasher.update(digest.0);
    }
    Digest(hasher.finalize())
}
