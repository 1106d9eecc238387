ghost use Rattle.std.specs.Prelude.{◌<◌};

use crate::fault::Fault;
use nuc_hash::{Hasher, hash_text};
use nuc_hash_many::content_of_many;
use sha2::{Digest as _, Sha256};
use std::alloc::{AllocError, Global};
use std::thread::Threads;

/// The hash of the content of `size` zero bytes, which come in pieces of `piece` bytes.
pub(crate) fn hash(alloc: Global, size: u64, piece: usize) -> Result<String, Fault>
    requires { 0 < piece }
{
    let zeros = vec![in alloc; 0u8; piece]?;
    let mut hasher = Hasher::new(alloc);
    for _ in 0..size / piece as u64 {
        hasher.update(&zeros)?;
    }
    hasher.update(&zeros[..(size % piece as u64) as usize])?;
    let content = hasher.finish();
    Ok(hash_text(alloc, content.hash())?)
}

/// The SHA-256 of the same bytes, by the plain loop that `hash` is compared with.
pub(crate) fn sha2(alloc: Global, size: u64, piece: usize) -> Result<String, Fault>
    requires { 0 < piece }
{
    let zeros = vec![in alloc; 0u8; piece]?;
    let mut hasher = Sha256::new();
    for _ in 0..size / piece as u64 {
        hasher.update(zeros.as_slice());
    }
    hasher.update(&zeros[..(size % piece as u64) as usize]);
    Ok(hex::encode(alloc, hasher.finalize())?)
}

/// The hash of the content of the last of so many files, each of `size` zero bytes, which are hashed side by side.
pub(crate) fn many(
    rt: &(impl Threads + Sync),
    alloc: Global,
    files: u64,
    size: u64,
) -> Result<String, Fault> {
    let contents = content_of_many(rt, alloc, &zeros(alloc, files, size as usize)?)?;
    match contents.last() {
        Some(content) => Ok(hash_text(alloc, content.hash())?),
        None => Err(Fault::Count),
    }
}

fn zeros(alloc: Global, files: u64, size: usize) -> Result<Vec<Vec<u8>>, AllocError> {
    let mut list = Vec::new(alloc);
    for _ in 0..files {
        list.push(vec![in alloc; 0u8; size]?)?;
    }
    Ok(list)
}
