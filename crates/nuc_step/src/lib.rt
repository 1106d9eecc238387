//! A client with its steps.
#![tactic(auto)]

mod answers;
mod changed_count;
mod client;
#[cfg(test)]
mod client_tests;
mod counts;
mod held;
mod landing;
mod launch;
mod laws;
mod noticing;
mod noting;
mod order;
mod planning;
mod reading;
mod reason;
mod reply;
mod scanning;
mod stages;
mod taking;
#[cfg(test)]
mod trial;
mod turning;
mod watched;
mod watching;

pub use answers::{FlyReply, ListReply, NoSuchOp, Planned, Scanned, TakeFault, WatchReply};
pub use client::Client;
pub use laws::{
    a_done_ends_in_one_way, a_done_writes_one_identity, a_move_keeps_its_identity,
    a_plan_keeps_a_client, a_scan_keeps_what_it_needs, a_step_brings_nothing_else,
    a_watch_keeps_what_it_needs, each_step_keeps_a_client, what_stays_keeps_its_key,
};
pub use order::{
    a_batch_is_ready, a_mend_is_ready, one_client_in_every_order, what_is_ready_is_applied,
    what_is_ready_stays_ready,
};
pub use reason::Reason;
pub use reply::DoneReply;
