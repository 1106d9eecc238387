//! Mends: what clears the way where the three trees differ and no operation can be carried out, and the names of
//! conflicted copies.
#![tactic(auto)]

mod blocker;
mod changes;
mod laws;
mod mending;
mod naming;
mod remedy;
mod rules;
#[cfg(test)]
mod tests;
mod topmost;

pub use laws::{
    a_mend_or_equal_trees, mends_are_legal, mends_keep_form, no_mend_without_a_rule, one_mend,
};
pub use mending::mend;
pub use naming::free_name;
