//! The floor of a position of a window, from its groups and its cones.
#![tactic(auto)]

mod cones;
mod demand;
mod entering;
mod evaluating;
mod group_sets;
mod grouping;
pub mod laws;
mod operands;
mod testing;
mod working;

pub use evaluating::{WindowFloor, floor};
pub use group_sets::GroupSets;
pub use grouping::groups;
pub use testing::is_window;
pub use working::workers;
