//! The first plan of a game: the vertices in rising number, each after the red pebbles in its way that are needed again last are removed.
#![tactic(auto)]

pub mod laws;
pub mod planning;
mod uses;
mod victims;

pub use planning::first;
