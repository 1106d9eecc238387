//! That a sync ends quiet.
#![tactic(auto)]

mod laws;

pub use laws::a_sync_ends_quiet;
