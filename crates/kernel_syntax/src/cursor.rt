//! The tokens that are left to read.
ghost use Rattle.std.specs.Prelude.{◌≡◌};
ghost use Rattle.kernel_syntax.specs.Tokens as token;
ghost use Rattle.kernel_syntax.specs.Parsing as spec;
ghost use Rattle.kernel_syntax.specs.Reading.{Follows, tokens_of, place_of};
ghost use Rattle.token_grammar.specs.Readers as readers;

use crate::class::TokenClass;
use kernel_lexer::token::{Mark, Token};
use std::alloc::AllocError;
use token_grammar::fault::GrammarFault;

/// Why reading stopped. At a fault the cursor stands before its token.
#[derive(Debug, Drop)]
pub enum ReadStop {
    NoMemory,
    Fault(GrammarFault),
}

impl From<AllocError> for ReadStop {
    ghost use Rattle.std.specs.Prelude.{◌≡◌};
    ghost use Rattle.kernel_syntax.specs.declared.cursor.ReadStop.TheVariants.{NoMemory};

    ghost from_gives = { λ _ e. e ≡ NoMemory };

    fn from(_: AllocError) -> ReadStop {
        ReadStop::NoMemory
    }
}

/// The tokens that are left.
#[derive(Drop)]
pub struct Cursor<'a> {
    pub ahead: &'a [Token],
}

impl<'a> Cursor<'a> {
    /// Whether there is a next token, and it is of the class.
    pub fn sees(&self, class: TokenClass) -> bool
        ensures { result ≡ readers.sees (token.passes class) (readers.first (tokens_of self.now)) }
    {
        match self.ahead {
            [] => false,
            [next, ..] => class.holds(*next),
        }
    }

    /// Reads one token of the class.
    pub fn expect(&mut self, class: TokenClass) -> Result<Token, ReadStop>
        ensures { Follows (readers.one (token.passes class) (tokens_of self.old)) result (tokens_of self.new) }
    {
        match self.ahead {
            [] => Err(ReadStop::Fault(GrammarFault::Syntax)),
            [next, rest @ ..] => {
                if class.holds(*next) {
                    self.ahead = rest;
                    Ok(*next)
                } else {
                    Err(ReadStop::Fault(GrammarFault::Syntax))
                }
            }
        }
    }

    /// Reads one token of the class, behind which no bracket opens.
    pub fn expect_last(&mut self, class: TokenClass) -> Result<Token, ReadStop>
        ensures { Follows (spec.last (token.passes class) (tokens_of self.old)) result (tokens_of self.new) }
    {
        let token = self.expect(class)?;
        if self.sees(TokenClass::Sign(Mark::OpenBracket)) {
            Err(ReadStop::Fault(GrammarFault::Syntax))
        } else {
            Ok(token)
        }
    }

    /// The place of the next token, or of the text's end.
    pub fn place(&self, end: u32) -> u32
        ensures { result ≡ place_of end (tokens_of self.now) }
    {
        match self.ahead {
            [] => end,
            [next, ..] => next.from,
        }
    }
}
