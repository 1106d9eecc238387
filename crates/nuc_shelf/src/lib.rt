//! Files and folders in memory, each under a key, with what is known of each file's bytes. Changes can be taken back
//! without memory and without failing.
#![tactic(auto)]

mod file;
mod files;
mod shelf;
#[cfg(test)]
mod tests;

pub use file::ShelfFile;
pub use shelf::Shelf;
