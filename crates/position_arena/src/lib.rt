//! The positions of a search, each with a head: the cost of the play that leads there, the position that it came from, and its last step.
//! Each lies in a row of numbers.
#![tactic(auto)]

mod index;
pub mod rows;
mod store;

pub use rows::{Head, Positions};
