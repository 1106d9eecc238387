ghost use Rattle.std.specs.Prelude.{◌≡◌, ◌+◌, length, IfOk, OnOk, IfErr, OnErr, None};
ghost use Rattle.nuc_blocks.specs.Blocks.{assembled, first_missing};
ghost use Rattle.nuc_blocks.specs.Faults.{IsNotAssembled};
ghost use Rattle.nuc_blocks.specs.Pieces.{IsPartStored, KeepsBlocks, all_stored};
ghost use Rattle.nuc_hash.specs.Content.{blocks_of, content_of};
ghost use Rattle.nuc_transfer.specs.Transfer.{HasItsContent, IsOriginal};

use crate::Prepared;
use nuc_blocks::{AssembleFault, Store, keep_blocks};
use nuc_hash::Content;
use sqlite_items::Items;
use std::alloc::{AllocError, Global};

/// Stores the blocks that the store lacks, and says how many they were: a block that the file repeats counts once. Those that
/// were stored before memory lacked stay.
pub fn upload(alloc: Global, prepared: &Prepared, store: &mut Store) -> Result<u64, AllocError>
    ensures blocks { OnOk result (store.new.now ≡ all_stored (blocks_of prepared.now) store.old.now) }
    ensures count { IfOk result (λ count. length store.new.now ≡ length store.old.now + count) }
    ensures whole { OnOk result (first_missing store.new.now (content_of prepared.now).blocks ≡ None) }
    ensures err { OnErr result (IsPartStored (blocks_of prepared.now) store.old.now store.new.now) }
    ensures kept { KeepsBlocks store.old.now store.new.now }
    ensures settled { store.new.settled ≡ store.old.settled }
{
    let before = store.len();
    keep_blocks(store, alloc, prepared.bytes(), prepared.content().blocks())?;
    Ok((store.len() - before) as u64)
}

/// The bytes of a content, from the store. Whether all its blocks are kept is asked before memory is taken.
///
/// They are the bytes that the content was made of, unless two different blocks have one SHA-256.
pub fn download(alloc: Global, content: &Content, store: &Store) -> Result<Items<u8>, AssembleFault>
    ensures kept { OnOk result (first_missing store.now.now content.now.blocks ≡ None) }
    ensures bytes { IfOk result (λ bytes. bytes ≡ assembled store.now.now content.now.blocks) }
    ensures original { IfOk result (IsOriginal content.now) }
    ensures content { IfOk result (HasItsContent store.now.now content.now.blocks) }
    ensures fault { IfErr result (IsNotAssembled store.now.now content.now.blocks) }
{
    let _blocks = store.len();
    store.assemble(alloc, content.blocks())
}
