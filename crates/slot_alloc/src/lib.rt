//! The code of a plan on the scratchpad machine: which slot each red pebble takes and which word each stored vertex, and the laws that
//! such code is right.
#![tactic(auto)]

pub mod code;
mod emitter;
pub mod laws;
pub mod moves;

pub use code::emit;
