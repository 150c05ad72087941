//! Normal steps and normal plays of the red-blue pebble game: which steps are legal, where they lead and what they cost, plans, which are
//! plays that finish, and the laws that make it enough for a planner to know normal plays alone. No call takes memory.
#![tactic(auto)]

pub mod laws;
pub mod legal_steps;
pub mod plan;
pub mod step;
pub mod stepping;

pub use legal_steps::Steps;
pub use plan::Plan;
pub use step::Step;
pub use stepping::{after, cost, finish, legal};
