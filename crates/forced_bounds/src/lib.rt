//! The floor of a position of the game, and its laws.
#![tactic(auto)]

mod demand;
pub mod evaluating;
pub mod laws;
mod operands;
mod spread;

pub use evaluating::{floor, floor_below};
