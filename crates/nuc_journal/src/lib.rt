//! The server's journal: every change that was accepted, in order, and the tree at each revision.
#![tactic(auto)]

mod apply;
mod entry;
mod journal;
mod laws;
#[cfg(test)]
mod tests;
mod track;

pub use entry::Entry;
pub use journal::Journal;
pub use laws::{
    current_revisions_gave, kinds_stay, last_entry_stands, pages_lead, revisions_count,
    trees_are_formed,
};
