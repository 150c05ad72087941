//! Reads the tokens of a kernel into the tree of what is written: `tree_of` answers the grammar's only reading, or the first fault with its
//! place. Names stand in the tree as stretches of the text, and `kernel_parser` gives them their meaning.
//!
//! The grammar is `specs/Grammar.antt`, rule by rule, as relations of words; `specs/Trees.antt` says what is made of each rule, and
//! `specs/Tokens.antt` which tokens a rule asks for.
//!
//! Inside, each rule has a reader, a function from tokens (`specs/Parsing.antt`), and a method of `Cursor` that answers as the reader
//! does (`Follows`). `proofs/*Steps.antt` show that the readers are exact, rule by rule, from the laws of `token_grammar`.
#![tactic(auto)]

mod class;
mod cursor;
mod expr;
mod index;
pub mod laws;
mod place;
pub mod raw;
mod stmt;
pub mod syntax;

pub use syntax::{SyntaxEnd, tree_of};
