//! What a client observes of its folder: which folder key each identity of Local has, and the new Local of a listing.
#![tactic(auto)]

mod binding;
mod deletions;
mod gather;
mod identities;
mod item_place;
mod item_size;
mod judge;
mod kept;
mod keys;
mod laws;
mod listed_tree;
#[cfg(test)]
mod listing_tests;
mod observe;
mod observe_fault;
#[cfg(test)]
mod observe_tests;
#[cfg(test)]
mod observe_trial;
mod observed_node;
mod scanned;
mod seen;
#[cfg(test)]
mod tests;

pub use binding::Binding;
pub use identities::own_id;
pub use item_size::MOST_BYTES;
pub use judge::{first_bad, is_short, valid_name};
pub use kept::kept_version;
pub use keys::{Keys, keys_are_one_to_one};
pub use laws::{identities_differ, nodes_come_in_turn, nodes_have_keys, scan_makes_local};
pub use listed_tree::tree_of;
pub use observe::observed;
pub use observe_fault::ObserveFault;
pub use observed_node::ObservedNode;
pub use scanned::Observed;
