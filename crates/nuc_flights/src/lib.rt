//! The operations in flight, each with how far it has come, and what they were when they were last settled.
#![tactic(auto)]

mod flights;
mod slot;
mod taken;

pub use flights::Flights;
pub use taken::Taken;

#[cfg(test)]
mod tests;
