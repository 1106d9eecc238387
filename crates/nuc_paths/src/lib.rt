//! Where a path of names leads in a tree, and who stands there.
#![tactic(auto)]

mod path;

pub use path::{follow, holder};
