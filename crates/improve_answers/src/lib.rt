//! What the program `improve` answers: its commands and the words that spell them, and the answer of each to an accepted kernel.
//!
//! The makers take values only, all the memory, and no desk. Statuses, refusals and the shape of an answer are those of `command_answers`.
#![tactic(auto)]

pub mod commands;
pub mod confirm;
mod finding;
pub mod improve;
pub mod usage;
pub mod words;

pub use commands::{ImproveCommand, Improving};
