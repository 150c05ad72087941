//! Texts of kernels, each with the tokens, the kernel, the walk, the run, the assignments or the graph that the rules make of it, or with
//! its fault. All of this crate is tests.
#![tactic(auto)]

#[cfg(test)]
mod builders;
#[cfg(test)]
mod lowered;
#[cfg(test)]
mod parses;
#[cfg(test)]
mod runs;
#[cfg(test)]
mod tokens;
#[cfg(test)]
mod trials;
#[cfg(test)]
mod unrolled;
#[cfg(test)]
mod walks;
#[cfg(test)]
mod weights;
