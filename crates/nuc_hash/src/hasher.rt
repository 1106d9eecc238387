ghost use Rattle.std.specs.Prelude.{◌≡◌, [], ◌++◌, OnOk, OnErr};
ghost use Rattle.nuc_hash.specs.Content.{content_of};

use crate::blocks::Blocks;
use crate::taken::Taken;
use crate::{Content, of_blocks};
use sqlite_items::Items;
use std::alloc::{AllocError, Global};
use std::marker::Model;

/// The content of bytes that come in pieces, which may be cut anywhere. No byte is kept.
///
/// Contracts see the bytes so far.
#[derive(Drop)]
pub struct Hasher {
    blocks: Blocks,
    total: u64,
    taken: Taken,
}

impl Model for Hasher {
    ghost use Rattle.std.specs.Prelude.{◌≡◌, List, ℕ, length};
    ghost use Rattle.std.specs.Coded.{coded_list, coded_ℕ};

    ghost Value = { List ℕ };

    ghost coded = { coded_list coded_ℕ };

    ghost use Rattle.nuc_hash.specs.Hashing.{HasHashed};

    ghost view = { λ h. h.taken.bytes };

    ghost invariant = { λ h. HasHashed h.blocks h.taken.bytes × (h.total ≡ length h.taken.bytes) };
}

impl Hasher {
    /// No bytes yet, and no memory: `update` takes what it needs.
    pub fn new(alloc: Global) -> Hasher
        ensures { result ≡ [] }
    {
        Hasher {
            blocks: Blocks::new(alloc),
            total: 0,
            taken: Taken::new(),
        }
    }

    /// Adds bytes at the end. All memory that they and `finish` need is taken first, so that an error changes nothing.
    /// More than `u64::MAX` bytes altogether are answered as want of memory.
    pub fn update(&mut self, bytes: &[u8]) -> Result<(), AllocError>
        ensures ok { OnOk result (self.new ≡ self.old ++ bytes.now) }
        ensures err { OnErr result (self.new ≡ self.old) }
    {
        let Some(total) = self.total.checked_add(bytes.len() as u64) else {
            return Err(AllocError);
        };
        self.blocks.reserve(bytes.len())?;
        self.blocks.take(bytes);
        self.total = total;
        self.taken.note(bytes);
        Ok(())
    }

    /// The content of all bytes. Needs no memory.
    pub fn finish(self) -> Content
        ensures { result ≡ content_of self }
    {
        let Hasher { blocks, total, .. } = self;
        let digests = blocks.finish();
        Content::whole(total, Items::from_vec(digests))
    }
}
