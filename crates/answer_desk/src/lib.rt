//! What a program does with its desk: it reads what its answer needs, and delivers the answer.
//!
//! Both programs of the project stand on it: reading comes first and writes nothing; delivering writes and takes no memory.
#![tactic(auto)]

mod delivery;
mod reading;

pub use delivery::deliver;
pub use reading::{code_input, file_bytes, kernel_input};
