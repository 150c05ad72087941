//! Laws of the answers of all commands. A call does nothing: its contract is the law.

pub mod answers;
pub mod cache;
pub mod check;
pub mod cover;
pub mod exec;
pub mod graph;
pub mod parts;
pub mod plan;
pub mod plays;
pub mod run;
pub mod trial;
