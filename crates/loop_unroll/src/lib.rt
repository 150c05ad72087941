//! The executed assignments of a kernel, with constant indices.
//!
//! `unroll` executes a kernel's statements without values: it counts the turns, looks at all indices, and writes down each assignment that
//! it meets, with the element that is assigned and its right side in postfix order. The indices of open loops stand there as constants.
//!
//! `laws` says that to go through these assignments is to execute the statements.
#![tactic(auto)]

pub mod execution;
pub mod flat;
pub mod laws;
mod progress;
mod right_side;

pub use execution::unroll;
pub use flat::{Flat, Flats, Item, ShapeEnd};
pub use kernel_ast::Cell;
