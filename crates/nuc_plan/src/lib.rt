//! The plan: which operations come next, by what stands in Remote, Local and Synced.
#![tactic(auto)]

mod all_due;
mod laws;
mod planner;
mod plans;
#[cfg(test)]
mod test_trees;
#[cfg(test)]
mod tests;
mod walk;

pub use laws::{
    a_batch_in_every_order, a_plan_is_sound, a_record_step_keeps_remote, each_of_a_batch_is_due,
    empty_where_equal, one_plan, some_operation_unless_empty,
};
pub use planner::plan;
pub use plans::Plan;
pub use walk::Walk;
