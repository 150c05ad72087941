//! Reads the text of a kernel.
//!
//! The rules, which are this project's convention:
//!
//! - A text is read in four phases: its length, its tokens, its syntax, its names. Each phase is over before the next begins, and the
//!   first fault of the first phase that has one is answered.
//! - Fault 15, too long: the text has more than 65,536 bytes. Its place is 65,536, the first byte too many.
//! - Faults 1 and 2 are those of the tokens, by the rules of `kernel_lexer`.
//! - Fault 3, syntax: the text up to the token at fault, and that token, begin no kernel of the grammar, or the text ends too early. Its
//!   place is that token, or the end of the text.
//! - Fault 13, too deep: more than 32 loops, branches, parentheses, calls and minus signs are opened in one another, and the text so far
//!   begins a kernel of more levels. Its place is the token that opens the part too many.
//! - Faults 4, 5, 6, 9 and 16 are those of the names, by the rules of `names`.
//!
//! `specs/KernelTexts.antt` says what a text stands for and what its first fault is.
ghost use Rattle.std.specs.Prelude.{◌≡◌, ℕ, IfOk, IfErr};
ghost use Rattle.kernel_parser.specs.KernelTexts.{Reads, IsFaultOfText, EndMeans};

use crate::names::resolve;
use crate::parse_end::ParseEnd;
use kernel_ast::Kernel;
use kernel_lexer::{LexEnd, tokens};
use kernel_syntax::syntax::{SyntaxEnd, tree_of};
use std::alloc::Global;
use token_grammar::fault::GrammarFault;

/// The code of a text that is too long.
const TOO_LONG: u8 = 15;

/// The most bytes that the text of a kernel may have.
pub const MAX_LENGTH: usize = 65_536;

impl From<LexEnd> for ParseEnd {
    ghost use Rattle.std.specs.Prelude.{◌≡◌};
    ghost use Rattle.kernel_parser.specs.KernelTexts.{lex_end};

    ghost from_gives = { λ end e. e ≡ lex_end end };

    fn from(end: LexEnd) -> ParseEnd {
        match end {
            LexEnd::Fault { code, at } => ParseEnd::Fault { code, at },
            LexEnd::NoMemory => ParseEnd::NoMemory,
        }
    }
}

impl From<SyntaxEnd> for ParseEnd {
    ghost use Rattle.std.specs.Prelude.{◌≡◌};
    ghost use Rattle.kernel_parser.specs.KernelTexts.{syntax_end};

    ghost from_gives = { λ end e. e ≡ syntax_end end };

    fn from(end: SyntaxEnd) -> ParseEnd {
        match end {
            SyntaxEnd::Fault { fault, at } => {
                let code = match fault {
                    GrammarFault::Syntax => 3,
                    GrammarFault::TooDeep => 13,
                };
                ParseEnd::Fault { code, at }
            }
            SyntaxEnd::NoMemory => ParseEnd::NoMemory,
        }
    }
}

/// The kernel that the bytes of a text stand for: what its names make of the grammar's only reading of its tokens.
///
/// # Errors
///
/// [`ParseEnd::Fault`] with the code and the place of the text's first fault, exactly where it has one, by the rules at the head of this
/// module. [`ParseEnd::NoMemory`] where memory was wanted and not found.
pub fn parse(alloc: Global, text: &[u8]) -> Result<Kernel, ParseEnd>
    ensures reads { IfOk result (λ kernel. Reads text.now kernel) }
    ensures faultless { IfOk result (λ _. (code at : ℕ) → IsFaultOfText text.now code at → ⊥) }
    ensures fault { IfErr result (EndMeans text.now) }
{
    let kernel = kernel_of_text(alloc, text)?;
    Ok(kernel)
}

// The kernel that a text stands for, or its first fault.
fn kernel_of_text(alloc: Global, text: &[u8]) -> Result<Kernel, ParseEnd>
    ensures reads { IfOk result (λ kernel. Reads text.now kernel) }
    ensures fault { IfErr result (EndMeans text.now) }
{
    if text.len() > MAX_LENGTH {
        return Err(ParseEnd::Fault {
            code: TOO_LONG,
            at: MAX_LENGTH as u32,
        });
    }
    let tokens = tokens(alloc, text)?;
    let raw = tree_of(alloc, tokens.as_slice(), text.len() as u32)?;
    resolve(alloc, text, &raw)
}
