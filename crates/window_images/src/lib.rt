//! Automorphisms of a window as lists, the images of positions under them, and the rule by which an image is chosen.
#![tactic(auto)]

mod automorphism;
mod least;
mod permutation;

pub use automorphism::{are_automorphisms, is_automorphism};
pub use least::least_image;
pub use permutation::Permutation;
