//! The world: a server, and clients with their folders, that take one step after the other.
#![tactic(auto)]

mod book;
mod committing;
mod folder_work;
mod laws;
mod member;
#[cfg(test)]
mod mend_tests;
mod nothing_lost;
mod observing;
#[cfg(test)]
mod plan_tests;
mod reading;
#[cfg(test)]
mod scan_tests;
mod shared;
mod starting;
mod stepping;
mod stop;
mod syncing;
mod taking;
#[cfg(test)]
mod tests;
#[cfg(test)]
mod trial;
mod turn;
#[cfg(test)]
mod watch_tests;
mod world;

pub use laws::{each_step_has_one_end, each_step_keeps_a_world};
pub use nothing_lost::nothing_recorded_is_lost;
pub use stop::{MOST_UNITS, Stop};
pub use world::World;
