//! The computation graph of a straight-line integer program, and the red-blue pebble game on it.
//!
//! Sets of vertices, the operations and their values, graphs with their live vertices and their degree, and games, which are
//! graphs with more slots than the degree and with weights of a load and a store. The laws of sets that all crates use stand in `specs/Sets.antt` (`membership`, `same`),
//! `proofs/Sets.antt` and `proofs/Rising.antt`.
#![tactic(auto)]

pub mod costs;
pub mod game;
pub mod graph;
mod graph_lists;
pub mod label;
pub mod laws;
pub mod memory;
pub mod node;
pub mod operation;
pub mod vertex_set;

pub use costs::Weights;
pub use game::{Game, TooSmall};
pub use graph::Graph;
pub use label::Label;
pub use memory::NoMemory;
pub use node::{Node, Operand, Output};
pub use operation::Op;
pub use vertex_set::VertexSet;
