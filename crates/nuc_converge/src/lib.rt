//! That a client which is left alone comes to rest.
#![tactic(auto)]

mod laws;

pub use laws::{
    batches_end_alike, each_operation_counts, each_plan_gives_some, each_plan_is_exact,
    few_are_planned, few_unless_collision, none_is_refused,
};
