//! The search for a cheaper plan: the rows of its table, their bound, and the best plan that was found.
#![tactic(auto)]

pub mod cost_queues;
pub mod frontier;
pub mod searching;

pub use searching::{Found, Verdict, search, search_counted};
