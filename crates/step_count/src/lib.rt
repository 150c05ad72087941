//! Steps that proofs count, and that cost nothing when the program runs.
//!
//! A function that promises a bound on its steps takes `&mut Steps<L>` as its last argument. The type has no bytes, and only
//! [`Steps::tick`] and [`Steps::add`] change the number that contracts see. What a step is, the function says beside its bound.
#![tactic(auto)]

mod steps;

pub use steps::Steps;
