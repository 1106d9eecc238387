//! The plain tree: the nodes as a list in order of identity.
#![tactic(auto)]

mod entry;
#[cfg(test)]
mod tests;
mod tree;

pub use tree::Tree;
