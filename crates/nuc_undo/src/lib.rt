//! A tree whose changes can be taken back without memory and without failing, with a stock of nodes that are laid by
//! for changes to come.
#![tactic(auto)]

mod laws;
mod stock;
#[cfg(test)]
mod tests;
mod undo;
mod undo_tree;

pub use laws::back_leads_back;
pub use undo_tree::UndoTree;
