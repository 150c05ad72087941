//! The words of a command line: what they ask for, and which of them names the file.
#![tactic(auto)]

pub mod commands;
pub mod laws;
pub mod read;

pub use commands::{
    Caching, Checking, Command, Covering, PartPlanning, Planning, Subject, TrialPlanning,
    UNIT_WEIGHTS,
};
pub use read::file_word;
