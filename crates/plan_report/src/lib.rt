//! The texts that the program prints: the report of a plan, the values of a program's outputs, a graph, a trial, a cache beside a plan,
//! and the bounds of parts.
//!
//! Each text is a list of lines, each of words parted by one space and ended by a line feed. Numbers are plain decimal, with a `-` where
//! they are negative. The texts are this project's convention; `specs/` says each as a whole.
#![tactic(auto)]

mod cache;
mod fact_line;
mod facts;
mod graph;
mod outputs;
mod parts;
mod trial;

pub use cache::{CacheFacts, cache_text};
pub use facts::{Facts, effort_report, report};
pub use graph::graph_text;
pub use outputs::outputs_text;
pub use parts::{PartFacts, parts_text};
pub use trial::trial_text;
