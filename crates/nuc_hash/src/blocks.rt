ghost use Rattle.std.specs.Prelude.{◌≡◌, ℕ, ◌+◌, ◌-◌, ◌*◌, ◌<◌, List, [], ◌++◌, length, map, OnOk, vec_len, vec_capacity};
ghost use Rattle.nuc_hash.specs.Content.{blocks_of, digest_of};
ghost use Rattle.nuc_hash.specs.Hashing.{HasHashed};

use crate::{BLOCK, Digest};
use sha2::{Digest as _, Sha256};
use std::alloc::{AllocError, Global};

/// The digests of the blocks that are full, and the hash that runs over the one that isn't.
#[derive(Drop)]
pub(crate) struct Blocks {
    running: Sha256,
    /// How many bytes of its block the running hash has.
    fill: usize,
    digests: Vec<Digest>,
}

impl Blocks {
    pub(crate) fn new(alloc: Global) -> Blocks
        ensures { HasHashed result [] }
    {
        Blocks {
            running: Sha256::new(),
            fill: 0,
            digests: Vec::new(alloc),
        }
    }

    /// Makes room for all digests that `take` and then `finish` add, where `more` bytes come: one for the open block, and
    /// one for a short block at the end.
    pub(crate) fn reserve(&mut self, more: usize) -> Result<(), AllocError>
        requires { self.old.fill < BLOCK }
        ensures fill { self.new.fill ≡ self.old.fill }
        ensures ok { OnOk result (self.new.fill + more < BLOCK * (vec_capacity self.new.digests - vec_len self.new.digests)) }
        ensures same { (bytes : List ℕ) → HasHashed self.old bytes → HasHashed self.new bytes }
    {
        self.digests.reserve(more / BLOCK + 2)
    }

    pub(crate) fn take(&mut self, bytes: &[u8])
        requires short { self.old.fill < BLOCK }
        requires room { self.old.fill + length bytes.now < BLOCK * (vec_capacity self.old.digests - vec_len self.old.digests) }
        ensures { (before : List ℕ) → HasHashed self.old before → HasHashed self.new (before ++ bytes.now) }
    {
        let mut rest = bytes;
        while rest.len() >= BLOCK - self.fill {
            let (end, more) = rest.split_at(BLOCK - self.fill);
            self.end_block(end);
            rest = more;
        }
        self.running.update(rest);
        self.fill += rest.len();
    }

    /// Takes the last bytes of the open block, and opens the next.
    fn end_block(&mut self, end: &[u8])
        requires whole { self.old.fill + length end.now ≡ BLOCK }
        requires room { vec_len self.old.digests < vec_capacity self.old.digests }
        ensures digest { (before : List ℕ) → HasHashed self.old before → HasHashed self.new (before ++ end.now) }
        ensures fill { self.new.fill ≡ 0 }
        ensures room { vec_capacity self.new.digests - vec_len self.new.digests + 1 ≡ vec_capacity self.old.digests - vec_len self.old.digests }
    {
        self.running.update(end);
        let digest = self.running.finalize_reset();
        self.digests.push_reserved(Digest(digest));
        self.fill = 0;
    }

    /// The digests of all blocks, the last of which may be short.
    pub(crate) fn finish(self) -> Vec<Digest>
        requires { 0 < self.fill → vec_len self.digests < vec_capacity self.digests }
        ensures { (bytes : List ℕ) → HasHashed self bytes → result.items ≡ map digest_of (blocks_of bytes) }
    {
        let Blocks {
            running,
            fill,
            mut digests,
        } = self;
        if fill > 0 {
            digests.push_reserved(Digest(running.finalize()));
        }
        digests
    }
}
