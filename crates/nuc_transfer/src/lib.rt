//! How the bytes of files come to the store of blocks, and back.
#![tactic(auto)]

mod prepared;
mod transfer;

pub use prepared::{Prepared, prepare};
pub use transfer::{download, upload};

#[cfg(test)]
mod tests;
