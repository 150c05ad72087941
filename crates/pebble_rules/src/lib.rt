//! The red-blue pebble game of Hong and Kung (1981): positions, moves, the rules over them, the position after a move and after a list
//! of moves, or the rule that a move breaks; and two laws of complete pebblings: what each of them costs at least, and when there is
//! one. No call takes memory.
#![tactic(auto)]

pub mod laws;
pub mod moves;
pub mod moving;
pub mod position;
pub mod refusal;
pub mod replaying;

pub use moves::Move;
pub use moving::{apply, moved};
pub use position::Position;
pub use refusal::{Illegal, Rule};
pub use replaying::{BadMove, Replayed, replay};
