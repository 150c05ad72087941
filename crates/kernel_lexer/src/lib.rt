//! The tokens of a kernel's text.
//!
//! The rules, which are this project's convention:
//!
//! - The text is UTF-8. Between tokens may stand spaces, tabs, carriage returns and line feeds, and no other spaces.
//! - `//` begins a comment, which goes to the next line feed or to the end of the text. A carriage return does not end it.
//! - Each token is the longest that can be read.
//! - A name is `_` or a character of XID_Start, and then any number of characters of XID_Continue. It is not a reserved word.
//! - A number is one or more of the digits 0 to 9; zeros may lead.
//! - The reserved words are those of [`Keyword`], and the signs those of [`Mark`].
//! - Fault 1, a bad byte, is exactly where a byte begins no character of UTF-8, also in a comment, or where a character outside
//!   comments begins no token and is no space. Its place is that byte. So `.` alone, `/` alone and a byte order mark are faults.
//! - Fault 2, too big, is exactly where a number is above 9223372036854775807, or a name or a reserved word has more than 64 bytes.
//!   Its place is the first byte of the token.
//! - The first fault of the text is the one that is answered.
//!
//! `specs/Spelling.antt` says how a token is spelled and what it stands for, `specs/Lexing.antt` what the tokens and the fault of a
//! list of characters are, and `specs/Texts.antt` what those of a list of bytes are. All places are in bytes from 0.
#![tactic(auto)]

mod cut;
pub mod laws;
pub mod lex_end;
pub mod lexer;
mod scan;
pub mod token;

pub use lex_end::LexEnd;
pub use lexer::tokens;
pub use token::{Keyword, Mark, Token, TokenKind};
