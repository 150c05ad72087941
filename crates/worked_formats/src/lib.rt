//! The files and the words that the program reads, and the texts that it prints, with what is made of them; and desks. All of this crate is tests.
#![tactic(auto)]

#[cfg(test)]
mod builders;
#[cfg(test)]
mod code_texts;
#[cfg(test)]
mod desks;
#[cfg(test)]
mod lines;
#[cfg(test)]
mod play_texts;
#[cfg(test)]
mod plays;
#[cfg(test)]
mod reports;
#[cfg(test)]
mod values;
#[cfg(test)]
mod words;
