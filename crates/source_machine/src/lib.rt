//! Runs a kernel on values of its inputs, by direct evaluation of its tree.
//!
//! The rules, which are this project's convention and are defined in `kernel_ast`:
//!
//! - The whole walk comes first, and then the values. In the phase of values the input elements are set in order of declaration and row by
//!   row, then the statements are executed, and then the output elements are read in the same order.
//! - An assignment's right side is evaluated before the target is written. Operands are evaluated from left to right, all of them, also
//!   those of `sel`, and then the operation, on 64-bit numbers that wrap.
//! - Elements of `out` and `tmp` are not set until they are assigned.
//! - Each input is a vertex, and each operation with an operand that is no constant, and each output element that ends as a constant.
//!   Constants, copies and operations on constants alone are none. There are at most 256.
#![tactic(auto)]

mod evaluation;
mod execution;
mod inputs;
mod outputs;
pub mod run_end;
pub mod running;
mod value;

pub use run_end::RunEnd;
pub use running::run;
