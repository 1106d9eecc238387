//! The store of blocks: bytes under their SHA-256.
#![tactic(auto)]

mod fault;
mod keep;
mod laws;
mod store;

pub use fault::{AssembleFault, StoreFault};
pub use keep::keep_blocks;
pub use laws::{assembles_contents, each_has_its_digest, kept_stands, others_stand, stored_stands};
pub use store::Store;

#[cfg(test)]
mod tests;
