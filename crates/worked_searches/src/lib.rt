//! Floors, searches and tables of small kernels, worked out by hand. All of this crate is tests.
//!
//! Each test is proved safe. So a table is given by a function, and what a contract says at length is called in a function with no contract:
//! the proof of a test then reads neither.
#![tactic(auto)]

#[cfg(test)]
mod arenas;
#[cfg(test)]
mod builders;
#[cfg(test)]
mod checks;
#[cfg(test)]
mod cover_tables;
#[cfg(test)]
mod floors;
#[cfg(test)]
mod parts;
#[cfg(test)]
mod searches;
#[cfg(test)]
mod table_bytes;
