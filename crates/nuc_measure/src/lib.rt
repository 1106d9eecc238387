//! How far Remote, Local and Synced are from being equal.
#![tactic(auto)]

mod cost;
mod count;
#[cfg(test)]
mod count_tests;
mod laws;
mod mark;
mod sum;
#[cfg(test)]
mod sum_tests;
#[cfg(test)]
mod test_trees;

pub use count::differing;
pub use laws::{
    a_mend_lowers, a_plan_lowers_the_potential, an_end_lowers, an_entry_keeps, flights_count,
    one_carried, one_count, one_potential,
};
pub use sum::potential;
