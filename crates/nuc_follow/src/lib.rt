//! A folder that holds just what Local says follows the operations of a client: each of them succeeds in it.
#![tactic(auto)]

mod laws;

pub use laws::{altering_succeeds, cutting_succeeds, making_succeeds, splitting_succeeds};
