//! The kernels of the folder `kernels/`. All of this crate is tests.
#![tactic(auto)]

#[cfg(test)]
mod gallery;
