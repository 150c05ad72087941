//! Parts of a game: the part of each vertex, the game on a part, the bound that a search finds for each part, and the law that these bounds
//! add up to a bound for the game.
#![tactic(auto)]

pub mod inducing;
pub mod laws;
pub mod parts;
pub mod searching;

pub use inducing::induced;
pub use parts::part_of;
pub use searching::{PartBound, part_search, sum_of_bounds, write_tables};
