//! Cheaper plans of the red-blue pebble game, by simulated annealing over orders of computing (docs/ORDERS.md).
//! The search may do what it likes: its steps are a plan only if `Plan::new` accepts them.
#![tactic(auto)]

mod annealing;
mod board;
mod changes;
mod following;
mod order;
mod random;
mod starts;
mod temperature;

pub use annealing::improved;
