//! The recorded edits: each content that was put and each file that was deleted, with the version that it replaces, and
//! the versions that were adopted into others.
#![tactic(auto)]

mod adopt_fault;
mod edit;
mod edits;
mod marks;

pub use adopt_fault::AdoptFault;
pub use edit::{Adoption, Edit, EditKind};
pub use edits::Edits;

#[cfg(test)]
mod tests;
