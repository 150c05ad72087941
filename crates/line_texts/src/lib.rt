//! Texts that are read line by line.
//!
//! The rules, which are this project's convention:
//!
//! - A text is lines, each ended by a line feed. A last piece without one is no line.
//! - A line that begins with `;` is a comment. It may hold any bytes, and is passed over before the rest is read.
//! - The words of a line are parted by one space each. Numbers are plain decimal, without leading zeros.
//! - The bad line of a text, counted from 1 with the comments, is the first such that the lines up to and with it begin no text of the
//!   grammar. A last piece without a line feed is a bad line. Where a text ends too early it is the number of its lines plus 1.
//!
//! `specs/Lines.antt`, `specs/Words.antt` and `specs/BadLines.antt` say this. A grammar is there a set of lists of lines. A reader of a
//! grammar goes through the lines with a state. Where it shows the four facts of `IsReader` in `proofs/Reading.antt`, the lemmas there say
//! that it finds the text or exactly its bad line; where it can tell of each line whether it leads on, that each text has one of both; and
//! where nothing follows an end, that no text is a prefix of another. No call here takes memory.
#![tactic(auto)]

pub mod laws;
pub mod lines;
pub mod numbers;
pub mod words;

pub use lines::{is_comment, next_line};
pub use numbers::{number, signed_number};
pub use words::{behind, last_number, next_number, next_word, up_to};
