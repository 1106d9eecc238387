//! What a run prints: a line for each step, then what server, clients and folders hold, a summary and the status.
#![tactic(auto)]

mod answers;
mod counts;
mod edits;
mod entry;
mod reasons;
mod state;
mod status;
#[cfg(test)]
mod tests;
mod trees;
mod usage;
mod whole;

pub use counts::summary;
pub use entry::log_line;
pub use state::report;
pub use status::{Ended, Status};
pub use whole::{output, refusal, status_line};
