//! The two sides that a client knows: what it knows of the server, and the folder as it was last observed.
#![tactic(auto)]

mod ahead;
mod apply;
mod earlier;
#[cfg(test)]
mod exchange_tests;
mod following;
mod local;
#[cfg(test)]
mod local_tests;
mod remote;
#[cfg(test)]
mod remote_tests;
mod renaming;
#[cfg(test)]
mod trial;

pub use following::{more_entries_keep_remotes, next_entries_follow, remotes_stay_at_a_revision};
pub use local::Local;
pub use remote::Remote;
