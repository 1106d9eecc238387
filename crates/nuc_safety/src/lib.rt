//! Which operations may be in flight at once, and the batch that is taken of those that are due.
#![tactic(auto)]

mod batch;
mod laws;
mod pair;
#[cfg(test)]
mod tests;

pub use batch::first_fit;
pub use laws::{
    a_batch_in_every_order, a_first_fit_is_a_batch, a_first_fit_is_a_part, each_is_settled,
    one_first_fit, the_first_is_taken, together_either_way, together_stays_possible,
    what_is_due_is_possible,
};
pub use pair::together;
