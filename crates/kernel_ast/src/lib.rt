//! The tree of a kernel, and what a kernel means.
//!
//! A kernel is a small program over integers: declarations of elements, and statements that assign them, in loops of constant bounds
//! and steps and in branches on loop indices.
//! The types hold its tree, and `Kernel` holds that the tree is well formed (`specs/WellFormed.antt`). What a kernel means is defined
//! in specs/: its walk (`Walk`), its evaluation with the log of operations (`Machine`, `Meaning`), and its graph (`KernelGraph`).
#![tactic(auto)]

pub mod element;
pub mod kernel;
pub mod name;
pub mod rule;
pub mod tree;
pub mod weigh;

pub use element::{Cell, Fault};
pub use kernel::Kernel;
pub use name::Name;
pub use rule::{MAX_TURNS, MAX_VERTICES, RunRule};
pub use tree::{Decl, DeclKind, Expr, Index, IndexLink, IndexTree, Link, Place, Relation, Stmt};
pub use weigh::weight;
