//! Runs of the whole program over a desk in memory, for the crates of worked examples.
#![tactic(auto)]

mod runs;

pub use runs::{Left, run_line, run_on, words_of};
