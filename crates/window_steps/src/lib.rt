//! The legal steps of a position of a window, as tests and as three sets, and windows as sets.
#![tactic(auto)]

pub mod laws;
mod stepping;
mod window_sets;

pub use stepping::{StepSets, after, can_finish, cost, finish_cost, is_workable, legal, step_sets};
pub use window_sets::WindowSets;
