//! Code for a scratchpad of few slots of fast memory, the machine that runs it, and what it means that a code plays a list of moves
//! of the pebble game.
#![tactic(auto)]

pub mod code;
pub mod laws;
pub mod machine;

pub use code::{Code, Instr, OutWord, Source};
pub use machine::{ExecEnd, Ran, exec};
