//! A sync of a client: the steps that bring its folder and the server together.
#![tactic(auto)]

mod last;
mod planning;
mod replies;
mod syncing;

pub use syncing::sync;
