ghost use Rattle.std.specs.Prelude.{◌≡◌, ◌≤◌, [], ◌++◌, ◌∷◌, ◌↔◌, length, map, not, slice_get, take, IfOk, OnOk, IfErr, OnErr, IfSome, IsTrue, None};
ghost use Rattle.std.specs.Option.{option_copied, option_map};

use crate::{AssembleFault, StoreFault};
use indexmap::IndexMap;
use nuc_hash::{BLOCK, Digest};
use sha2::{Digest as _, Sha256};
use sqlite_items::Items;
use std::alloc::{AllocError, Global};
use std::marker::Model;

/// Blocks under their SHA-256, in the order in which they were stored. Each has at most `BLOCK` bytes.
///
/// Contracts see the blocks, and those that there were at the last `settle`.
#[derive(Drop)]
pub struct Store {
    blocks: IndexMap<[u8; 32], Items<u8>>,
    /// How many blocks there were at the last `settle`.
    settled: usize,
}

impl Model for Store {
    ghost use Rattle.std.specs.Prelude.{◌≤◌, length, take};
    ghost use Rattle.nuc_blocks.specs.Blocks.{AreBlocks};
    ghost use Rattle.nuc_blocks.specs.Store.{StoreState};

    ghost Value = { StoreState };

    ghost view = { λ s. record { now = s.blocks.entries; settled = take s.settled s.blocks.entries } };

    ghost invariant = { λ s. AreBlocks s.blocks.entries × (s.settled ≤ length s.blocks.entries) };
}

ghost use Rattle.nuc_hash.specs.Content.{digest_of};
ghost use Rattle.nuc_blocks.specs.Blocks.{AreBlocks, Blocks, IsBlock, assembled, block_of, first_missing, is_missing, stored};
ghost use Rattle.nuc_blocks.specs.Faults.{IsNotAssembled, IsRefused};

impl Store {
    /// No blocks, in no memory.
    pub fn new(alloc: Global) -> Store
        ensures value { result ≡ record { now = []; settled = [] } }
        ensures formed { AreBlocks result.now }
    {
        Store {
            blocks: IndexMap::new(alloc),
            settled: 0,
        }
    }

    /// Stores a copy of the bytes. Where a block stands under the digest already, nothing changes and no memory is taken.
    pub fn put(&mut self, alloc: Global, digest: &Digest, bytes: &[u8]) -> Result<(), StoreFault>
        ensures block { OnOk result (IsBlock digest.now bytes.now) }
        ensures blocks { OnOk result (self.new ≡ record self.old { now = stored digest.now bytes.now self.old.now }) }
        ensures fault { IfErr result (IsRefused self.old.now digest.now bytes.now) }
        ensures err { OnErr result (self.new ≡ self.old) }
        ensures formed { AreBlocks self.new.now }
    {
        if self.keeps(digest, bytes)? {
            return Ok(());
        }
        let bytes = Items::from_slice(alloc, bytes).map_err(|_| StoreFault::Memory)?;
        self.add(digest, bytes).map_err(|_| StoreFault::Memory)?;
        Ok(())
    }

    /// As `put`, with bytes that the caller gives up: they aren't copied.
    pub fn put_owned(&mut self, digest: &Digest, bytes: Items<u8>) -> Result<(), StoreFault>
        ensures block { OnOk result (IsBlock digest.now bytes) }
        ensures blocks { OnOk result (self.new ≡ record self.old { now = stored digest.now bytes self.old.now }) }
        ensures fault { IfErr result (IsRefused self.old.now digest.now bytes) }
        ensures err { OnErr result (self.new ≡ self.old) }
        ensures formed { AreBlocks self.new.now }
    {
        if self.keeps(digest, bytes.as_slice())? {
            return Ok(());
        }
        self.add(digest, bytes).map_err(|_| StoreFault::Memory)?;
        Ok(())
    }

    /// As `put`, with bytes that are known to have the digest: they aren't hashed, and only memory can be wanted.
    pub fn put_known(
        &mut self,
        alloc: Global,
        digest: &Digest,
        bytes: &[u8],
    ) -> Result<(), AllocError>
        requires { IsBlock digest.now bytes.now }
        ensures blocks { OnOk result (self.new ≡ record self.old { now = stored digest.now bytes.now self.old.now }) }
        ensures err { OnErr result (self.new ≡ self.old) }
        ensures formed { AreBlocks self.new.now }
    {
        if self.has(digest) {
            return Ok(());
        }
        self.add(digest, Items::from_slice(alloc, bytes)?)?;
        Ok(())
    }

    /// Whether a block stands under the digest, where the bytes can stand there. They are hashed once.
    fn keeps(&self, digest: &Digest, bytes: &[u8]) -> Result<bool, StoreFault>
        ensures block { OnOk result (IsBlock digest.now bytes.now) }
        ensures keeps { IfOk result (λ keeps. keeps ≡ not (is_missing self.now.now digest.now)) }
        ensures fault { IfErr result (IsRefused self.now.now digest.now bytes.now) }
        ensures formed { AreBlocks self.now.now }
    {
        let keeps = self.has(digest);
        let actual = Digest(Sha256::digest(bytes));
        if actual.0 != digest.0 {
            return Err(StoreFault::Wrong(actual));
        }
        if bytes.len() > BLOCK {
            return Err(StoreFault::TooLong(bytes.len() as u64));
        }
        Ok(keeps)
    }

    fn add(&mut self, digest: &Digest, bytes: Items<u8>) -> Result<(), AllocError>
        requires block { IsBlock digest.now bytes }
        requires missing { block_of self.old.now digest.now ≡ None }
        ensures ok { OnOk result (self.new ≡ record self.old { now = self.old.now ++ (digest.now.0, bytes) ∷ [] }) }
        ensures err { OnErr result (self.new ≡ self.old) }
        ensures formed { AreBlocks self.new.now }
    {
        match self.blocks.insert(digest.0, bytes) {
            Ok(_) => Ok(()),
            Err(_) => Err(AllocError),
        }
    }

    /// The bytes under the digest.
    pub fn get(&self, digest: &Digest) -> Option<&[u8]>
        ensures value { option_copied result ≡ block_of self.now.now digest.now }
        ensures block { IfSome result (λ bytes. IsBlock digest.now bytes.now) }
    {
        match self.blocks.get(&digest.0) {
            Some(bytes) => Some(bytes.as_slice()),
            None => None,
        }
    }

    pub fn has(&self, digest: &Digest) -> bool
        ensures value { result ≡ not (is_missing self.now.now digest.now) }
        ensures formed { AreBlocks self.now.now }
    {
        self.blocks.contains_key(&digest.0)
    }

    /// Says of each digest of the list whether nothing stands under it.
    pub fn missing(&self, list: &[Digest], flags: &mut [bool])
        requires { length flags.old ≡ length list.now }
        ensures { flags.new ≡ map (is_missing self.now.now) list.now }
    {
        for (index, digest) in list.iter().enumerate() {
            flags[index] = !self.has(digest);
        }
    }

    /// The first digest of the list under which nothing stands.
    pub fn first_missing(&self, list: &[Digest]) -> Option<Digest>
        ensures { result ≡ first_missing self.now.now list.now }
    {
        list.iter().copied().find(|digest| !self.has(digest))
    }

    /// The bytes of the blocks, one after the other. Whether all are kept is asked before memory is taken.
    pub fn assemble(&self, alloc: Global, list: &[Digest]) -> Result<Items<u8>, AssembleFault>
        ensures kept { OnOk result (first_missing self.now.now list.now ≡ None) }
        ensures bytes { IfOk result (λ bytes. bytes ≡ assembled self.now.now list.now) }
        ensures fault { IfErr result (IsNotAssembled self.now.now list.now) }
    {
        if let Some(digest) = self.first_missing(list) {
            return Err(AssembleFault::NoBlock(digest));
        }
        let bytes = self.joined(alloc, list).map_err(|_| AssembleFault::Memory)?;
        Ok(Items::from_vec(bytes))
    }

    /// The bytes of those blocks that are kept.
    fn joined(&self, alloc: Global, list: &[Digest]) -> Result<Vec<u8>, AllocError>
        ensures { IfOk result (λ bytes. bytes.items ≡ assembled self.now.now list.now) }
    {
        let mut all = Vec::new(alloc);
        for digest in list {
            if let Some(bytes) = self.get(digest) {
                all.extend_from_slice(bytes)?;
            }
        }
        Ok(all)
    }

    /// How many blocks are kept.
    pub fn len(&self) -> usize
        ensures len { result ≡ length self.now.now }
        ensures formed { AreBlocks self.now.now }
    {
        self.blocks.len()
    }

    pub fn is_empty(&self) -> bool
        ensures { IsTrue result ↔ (self.now.now ≡ []) }
    {
        self.blocks.is_empty()
    }

    /// The block that was stored after `index` others, with its digest.
    pub fn entry(&self, index: usize) -> Option<(Digest, &[u8])>
        ensures value { option_map (λ block. (block.0.0, block.1.now)) result ≡ slice_get self.now.now index }
        ensures block { IfSome result (λ block. IsBlock block.0 block.1.now) }
    {
        match self.blocks.get_index(index) {
            Some((digest, bytes)) => Some((Digest(*digest), bytes.as_slice())),
            None => None,
        }
    }

    /// How many of the blocks there were at the last `settle`. They are the first.
    pub fn settled_len(&self) -> usize
        ensures front { self.now.settled ≡ take result self.now.now }
        ensures within { result ≤ length self.now.now }
        ensures formed { AreBlocks self.now.now }
    {
        self.settled
    }

    /// Settles the blocks that there are. Takes no memory.
    pub fn settle(&mut self)
        ensures { self.new ≡ record { now = self.old.now; settled = self.old.now } }
    {
        self.settled = self.blocks.len();
    }

    /// Goes back to the blocks that there were at the last `settle`, or to none where there was none. Takes no memory.
    pub fn back(&mut self)
        ensures value { self.new ≡ record { now = self.old.settled; settled = self.old.settled } }
        ensures formed { AreBlocks self.new.now }
    {
        self.blocks.truncate(self.settled);
    }
}
