//! All that the program does, over any desk: it reads what the words ask for, makes the whole answer, and delivers it.
//!
//! A caller needs the desk of `desk_io`, the name of its file, which [`file_word`] finds among the words, and the [`Status`] that [`pebble`] answers.
#![tactic(auto)]

pub mod laws;
mod prepare;
mod top;

pub use command_answers::Status;
pub use command_words::file_word;
pub use top::{pebble, pebble_honest};
