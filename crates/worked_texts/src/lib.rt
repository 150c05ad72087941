//! Texts of kernels, each with its first fault or with what is made of it. All of this crate is tests.
#![tactic(auto)]

#[cfg(test)]
mod every_code;
#[cfg(test)]
mod shapes;
#[cfg(test)]
mod texts;
