//! Runs of the program `improve`, and plans by the search over orders. All of this crate is tests.
#![tactic(auto)]

#[cfg(test)]
mod failing_desks;
#[cfg(test)]
mod orders;
#[cfg(test)]
mod rows;
#[cfg(test)]
mod runs;
