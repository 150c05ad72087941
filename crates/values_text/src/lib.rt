//! The numbers of a values file.
//!
//! The rules, which are this project's convention:
//!
//! - A values file is a list of numbers, with one or more spaces, tabs, carriage returns or line feeds between two of them. Any of these
//!   may also stand before the first and after the last. An empty file is the empty list, and so is one of spaces alone.
//! - A number is one or more of the digits 0 to 9, with an optional `-` right before them. Zeros may lead. It is from
//!   -9223372036854775808 to 9223372036854775807.
//!
//! So `-0` and `-007` are numbers, and `+1`, `-`, `--1`, `1-2` and `1,2` are none. `specs/Numbers.antt` says what number a word spells, and
//! `specs/Values.antt` what list a text spells.
#![tactic(auto)]

pub mod laws;
mod number;
mod read;

pub use read::{ValuesEnd, read_values};
