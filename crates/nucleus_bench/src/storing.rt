use crate::fault::Fault;
use nuc_blocks::Store;
use nuc_hash::{Digest, Hasher, hash_text};
use sha2::{Digest as _, Sha256};
use std::alloc::{AllocError, Global};

/// How many blocks are put together at a time.
const PIECE: usize = 64;

/// Stores so many blocks, gets each, asks which of as many digests are missing, and puts all blocks together in pieces.
pub(crate) fn store(alloc: Global, count: u64) -> Result<String, Fault> {
    let mut store = Store::new(alloc);
    let list = put_all(alloc, &mut store, count)?;
    told(alloc, &store, &list)
}

fn told(alloc: Global, store: &Store, list: &[Digest]) -> Result<String, Fault> {
    let blocks = store.len();
    let found = list
        .iter()
        .filter(|digest| store.get(digest).is_some())
        .count();
    let missing = count_missing(alloc, store, list)?;
    let hash = assemble(alloc, store, list)?;
    Ok(format!(in alloc; "store {blocks} blocks {found} found {missing} missing {hash}")?)
}

/// The digests of the blocks, in order.
fn put_all(alloc: Global, store: &mut Store, count: u64) -> Result<Vec<Digest>, Fault> {
    let mut list = Vec::new(alloc);
    for number in 0..count {
        let bytes = block(number);
        let digest = Digest(Sha256::digest(bytes.as_slice()));
        store.put(alloc, &digest, bytes.as_slice())?;
        list.push(digest)?;
    }
    Ok(list)
}

/// A block of its own for each number.
fn block(number: u64) -> [u8; 16] {
    let mut bytes = [0; 16];
    bytes[8..].copy_from_slice(&number.to_be_bytes());
    bytes
}

/// Asks for the digests, of which each tenth is turned into one that nothing has. How many are missing.
fn count_missing(alloc: Global, store: &Store, list: &[Digest]) -> Result<usize, AllocError> {
    let mut asked = list.to_vec(alloc)?;
    for digest in asked.iter_mut().step_by(10) {
        digest.0[0] = !digest.0[0];
    }
    let mut flags = vec![in alloc; false; asked.len()]?;
    store.missing(&asked, &mut flags);
    Ok(flags.iter().filter(|flag| **flag).count())
}

/// The hash of all bytes.
fn assemble(alloc: Global, store: &Store, list: &[Digest]) -> Result<String, Fault> {
    let mut hasher = Hasher::new(alloc);
    for piece in list.chunks(PIECE) {
        let bytes = store.assemble(alloc, piece)?;
        hasher.update(bytes.as_slice())?;
    }
    let content = hasher.finish();
    Ok(hash_text(alloc, content.hash())?)
}
