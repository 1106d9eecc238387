//! What an operation does in a folder: which calls it makes, in their order, and what comes of them.
#![tactic(auto)]

mod call;
mod calls;
#[cfg(test)]
mod recorder;
mod run;
mod steps;
#[cfg(test)]
mod tests;

pub use call::Call;
pub use run::run_op;
