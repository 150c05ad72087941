//! Graphs, moves, steps, plans, codes and runs of small kernels, worked out by hand. All of this crate is tests.
//!
//! Each test is proved safe. So a table is given by a function, and what a contract says at length is called in a function with no contract:
//! the proof of a test then reads neither.
#![tactic(auto)]

#[cfg(test)]
mod builders;
#[cfg(test)]
mod cached_runs;
#[cfg(test)]
mod first_plans;
#[cfg(test)]
mod graphs;
#[cfg(test)]
mod legal_steps;
#[cfg(test)]
mod machine_runs;
#[cfg(test)]
mod moves;
#[cfg(test)]
mod plan_codes;
