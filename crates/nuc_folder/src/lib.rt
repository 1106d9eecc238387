//! A client's folder: what it holds, how it answers who reads and changes it, and what a user does in it.
#![tactic(auto)]

mod changing;
mod folder;
mod item;
mod key_place;
mod laws;
mod listed;
mod listing;
mod making;
mod mem_calls;
mod mem_folder;
#[cfg(test)]
mod mem_tests;
#[cfg(test)]
mod mem_trial;
mod noticed;
mod notices;
mod opening;
#[cfg(test)]
mod opening_tests;
mod outcome;
mod ran;
mod read_back;
mod removal;
mod seen;
mod shelved;
#[cfg(test)]
mod tests;
mod user;
mod user_change;
mod user_edit;
#[cfg(test)]
mod user_tests;
#[cfg(test)]
mod user_trial;

pub use folder::Folder;
pub use item::{Item, Key, RawName};
pub use key_place::KeyPlace;
pub use laws::has_one_listing;
pub use listed::{Listed, MOST_ITEMS};
pub use mem_folder::MemFolder;
pub use noticed::Noticed;
pub use outcome::Outcome;
pub use ran::RanOp;
pub use read_back::ReadBack;
pub use seen::Seen;
pub use shelved::{MOST_SHELVED, Shelved, ShelvedFault};
pub use user_edit::{UserEdit, UserReply};
