//! What every layer speaks of: identities, versions, names, places and nodes, and the traits of trees and of
//! equal hashes.
#![tactic(auto)]

mod change;
mod copy_name;
mod hashes;
mod laws;
mod legal;
mod name;
mod name_fault;
mod name_room;
#[cfg(test)]
mod name_tests;
mod node;
mod path;
#[cfg(test)]
mod tests;
mod tree;
mod tree_fault;

pub use change::Change;
pub use copy_name::candidates_differ;
pub use hashes::Hashes;
pub use laws::{either_order, every_order, legal_keeps_form};
pub use legal::{cut_legal, put_legal};
pub use name::Name;
pub use name_fault::NameFault;
pub use name_room::NameRoom;
pub use node::{Counters, Kind, Node, NodeId, Place, Ver};
pub use path::Path;
pub use tree::TreeLike;
pub use tree_fault::{CutFault, PutFault};
