//! The indexed tree: nodes in slots, with lists of the slots that find an identity, a place and a child.
#![tactic(auto)]

mod change;
mod entry;
mod indexes;
mod place;
mod sibling;
mod sought;
#[cfg(test)]
mod tests;
mod tree;

pub use tree::IndexTree;
