//! The planner's vocabulary: what an identity wishes, which operation that is, and what an operation does.
#![tactic(auto)]

mod effects;
mod equal;
mod going;
mod laws;
mod merge;
mod op;
#[cfg(test)]
mod op_tests;
mod planned;
mod ready;
mod split;
mod table;
#[cfg(test)]
mod tests;
#[cfg(test)]
mod wish_tests;
mod wishes;

pub use effects::effect_of;
pub use equal::{place_eq, value_eq};
pub use going::{going_local, going_remote};
pub use laws::{
    a_down_keeps_edits, a_wish_has_its_operation, each_has_a_wish, each_has_one_wish,
    nothing_is_wished_where_equal, operations_fit,
};
pub use merge::target;
pub use op::{Effect, Op, Verb};
pub use planned::operation;
pub use ready::{due, is_legal, is_legal_in};
pub use split::needs_split;
pub use table::wish;
pub use wishes::Wish;
