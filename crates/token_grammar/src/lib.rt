//! Grammars as relations of words, and what a reader by recursive descent owes them.
//!
//! A rule of a grammar in EBNF is a phrase: a relation between words (lists of tokens) and values (`specs/Phrases.antt`). Its forms
//! are one token that passes a test, one phrase after another, one of two, any number, one or none, and what is made of a phrase.
//! A rule that opens parts in itself is a function of the number of levels that may still be opened.
//!
//! Each form has a reader, a function from tokens to what stands at their front or to the first fault (`specs/Readers.antt`), and the
//! laws that a parser needs hold for each form, so that those of a whole grammar are put together as the grammar is:
//!
//! - sound: what is read is a phrase, and what follows may follow it (`proofs/Parts.antt`, `Sound`);
//! - complete: a phrase is read wherever what follows may follow it (`Complete`), so its value is the only one;
//! - stopping: the tokens before a fault begin a phrase, and with the token at fault they begin none (`Stopping`).
//!
//! `proofs/Steps.antt`, `proofs/Options.antt` and `proofs/Lists.antt` hold the three together, one law `step_*` for each form; `proofs/Texts.antt` draws
//! from them that a text has one value or one first fault (`specs/Faults.antt`); `proofs/Loops.antt` is for loops that read a list.
//! The token type is any type.
#![tactic(auto)]

pub mod fault;
pub mod laws;

pub use fault::GrammarFault;
