//! Numbers that lead to numbers: looked up by halving, and with changes that can be taken back.
#![tactic(auto)]

mod lookup;
mod row;
#[cfg(test)]
mod tests;
mod undo;
mod undo_lookup;
mod undone;

pub use lookup::Lookup;
pub use row::Row;
pub use undo_lookup::UndoLookup;
pub use undone::Undone;
