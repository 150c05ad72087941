//! Reads the text of a kernel: `parse` answers the kernel that it stands for, or the first fault with its code and place
//! (`specs/KernelTexts.antt`). The tokens are those of `kernel_lexer`, and `kernel_syntax` reads them into the tree of what is written; this
//! crate gives its names their meaning.
//!
//! Names stand in that tree as stretches of the text. `resolve` answers the kernel that they make, or the first fault of a name
//! with its place; `specs/Names.antt` lists these faults as they are read, and `specs/Resolved.antt` is the kernel's tree.
#![tactic(auto)]

pub mod kernel_text;
pub mod laws;
mod names;
pub mod parse_end;

pub use kernel_text::{MAX_LENGTH, parse};
pub use parse_end::ParseEnd;
