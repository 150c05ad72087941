//! What each execution of a kernel needs.
//!
//! The values of indices, the elements that places name, the elements that are set, and the walk: the kernel's statements executed
//! without values, which counts the turns and looks at all indices. `specs/Outcomes.antt` has the words in which these calls, and those of
//! the crates above, say what an outcome of the meaning is to a call that may want memory.
#![tactic(auto)]

pub mod counting;
pub mod index;
pub mod numbers;
pub mod place;
pub mod stop;
pub mod walking;
pub mod written;

pub use counting::count;
pub use index::{condition, loop_numbers, turn};
pub use numbers::LoopNumbers;
pub use place::{element_count, locate};
pub use stop::Stop;
pub use walking::walk;
pub use written::Written;
