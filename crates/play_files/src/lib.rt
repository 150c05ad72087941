//! Plays of the red-blue pebble game that come from outside: whether a list of moves is a complete pebbling, a plan that costs no more than
//! it, and the text of a play, as its reader takes it.
//!
//! The rules of the text, which are this project's convention. Lines, comments, words, numbers and the bad line are those of `line_texts`. A line is a
//! move, with its vertex V, which is below the number of vertices: `load V`, `store V`, `compute V`, `drop V`, which removes a red pebble,
//! or `unblue V`, which removes a blue one. The last line is `end`, and only comments may follow.
//!
//! `specs/PlayText.antt` has the text of a list of moves, `specs/PlayTexts.antt` says which texts read as which moves, `specs/Judging.antt`
//! which fault a list of moves has, `specs/Tidying.antt` how a plan follows a pebbling, and `specs/Followed.antt` which plan it is.
#![tactic(auto)]

mod draft;
mod follower;
pub mod judging;
pub mod laws;
pub mod reading;
pub mod tidying;

pub use judging::{PlayFault, judge};
pub use reading::{PlayEnd, read_play};
pub use tidying::tidy;
