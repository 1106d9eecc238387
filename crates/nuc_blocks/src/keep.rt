ghost use Rattle.std.specs.Prelude.{◌≡◌, map, OnOk, OnErr};
ghost use Rattle.nuc_hash.specs.Content.{blocks_of, digest_of};
ghost use Rattle.nuc_blocks.specs.Blocks.{AreBlocks};
ghost use Rattle.nuc_blocks.specs.Pieces.{IsPartStored, KeepsBlocks, all_stored};

use crate::Store;
use nuc_hash::{BLOCK, Digest};
use std::alloc::{AllocError, Global};

/// Stores the blocks of these bytes, whose digests are known, so that nothing is hashed. Those that were stored before memory
/// lacked stay.
pub fn keep_blocks(
    store: &mut Store,
    alloc: Global,
    bytes: &[u8],
    digests: &[Digest],
) -> Result<(), AllocError>
    requires { digests.now ≡ map digest_of (blocks_of bytes.now) }
    ensures ok { OnOk result (store.new.now ≡ all_stored (blocks_of bytes.now) store.old.now) }
    ensures err { OnErr result (IsPartStored (blocks_of bytes.now) store.old.now store.new.now) }
    ensures kept { KeepsBlocks store.old.now store.new.now }
    ensures settled { store.new.settled ≡ store.old.settled }
{
    let mut rest = bytes;
    for digest in digests {
        let (block, more) = rest.split_at(rest.len().min(BLOCK));
        store.put_known(alloc, digest, block)?;
        rest = more;
    }
    Ok(())
}
