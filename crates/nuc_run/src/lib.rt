//! The top call: a script over a world in memory, from its bytes to what is printed.
#![tactic(auto)]

mod commands;
mod laws;
mod run;
mod stalled;
#[cfg(test)]
mod tests;

pub use laws::{a_script_ends_quiet, a_script_has_one_outcome};
pub use run::run_script;
