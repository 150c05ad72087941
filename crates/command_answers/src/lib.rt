//! The answers of the commands, and the refusals that stand before them: a status, the printed text, and the table that is written.
//!
//! Each command has a file of its own, as has each refusal. The makers take values only, all the memory, and no desk.
#![tactic(auto)]

pub mod answer;
pub mod cache;
pub mod check;
pub mod code_fault;
pub mod cover;
pub mod cover_check;
pub mod exec;
pub mod graph;
pub mod judge;
pub mod kernel;
pub mod kernel_fault;
pub mod laws;
pub mod parts;
pub mod plan;
pub mod play;
pub mod run;
pub mod status;
pub mod tidy;
pub mod too_small;
pub mod trial;
pub mod usage;
pub mod values;

pub use answer::{Answer, EarlyEnd, FileBytes};
pub use kernel::Accepted;
pub use status::Status;
