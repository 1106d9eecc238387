//! A list of numbers in blocks, each a ring, in which an insert or a remove moves few of the items.
#![tactic(auto)]

mod moves;
mod rings;
#[cfg(test)]
mod tests;
mod tiered;

pub use tiered::TieredVec;
