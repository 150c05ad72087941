//! The graph of a kernel, from its executed assignments.
//!
//! Its vertices are the operations of the kernel's run, in order: one for each input element, one for each operation with an operand that
//! is no constant, and one for each output element that ends as a constant. A copy makes no vertex, and an operation on constants alone is
//! a constant. The k-th output element names the vertex whose value it holds at the end.
//!
//! `laws` holds what is true of the graph of every well-formed kernel: it is a graph, it keeps the title and the labels, and its values are
//! the kernel's outputs.
#![tactic(auto)]

mod assignments;
mod element;
mod elements;
pub mod graph;
mod inputs;
mod labels;
pub mod laws;
mod outputs;
mod vertices;

pub use graph::lower;
