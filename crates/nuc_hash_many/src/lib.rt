//! The contents of many files, hashed side by side. It stands apart from `nuc_hash`, which needs no threads.
#![tactic(auto)]

mod many;

pub use many::content_of_many;

#[cfg(test)]
mod tests;
