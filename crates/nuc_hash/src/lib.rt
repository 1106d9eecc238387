//! The content of a file: its size, the digests of its blocks, and the digest of these.
#![tactic(auto)]

mod blocks;
mod content;
mod digest;
mod filling;
mod hasher;
mod taken;

pub use content::{BLOCK, Content, content_of, is_of_its_blocks, of_blocks};
pub use digest::{Digest, hash_text};
pub use filling::{Filled, Filling};
pub use hasher::Hasher;

#[cfg(test)]
mod tests;
