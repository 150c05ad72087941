//! Reads the tokens of a whole text.
ghost use Rattle.std.specs.Prelude.{◌≡◌, ℕ, IfOk, IfErr, length};
ghost use Rattle.kernel_syntax.specs.Tokens as token;
ghost use Rattle.kernel_syntax.specs.Grammar.{Whole};
ghost use Rattle.kernel_syntax.specs.Parsing as spec;
ghost use Rattle.kernel_syntax.specs.Reading.{Follows, tokens_of};
ghost use Rattle.kernel_syntax.specs.Syntax.{FaultMeans};
ghost use Rattle.token_grammar.specs.Readers as readers;

use crate::class::{TokenClass, role_of, span};
use crate::cursor::{Cursor, ReadStop};
use crate::raw::{RawDecl, RawKernel};
use kernel_lexer::token::{Keyword, Mark, Token};
use sqlite_items::Items;
use std::alloc::Global;
use token_grammar::fault::GrammarFault;

impl<'a> Cursor<'a> {
    fn declared(&mut self, alloc: Global) -> Result<RawDecl, ReadStop>
        ensures { Follows (spec.declared (tokens_of self.old)) result (tokens_of self.new) }
    {
        let word = self.expect(TokenClass::Role)?;
        let name = self.expect(TokenClass::Name)?;
        let sizes = self.sizes(alloc)?;
        self.expect(TokenClass::Sign(Mark::Semicolon))?;
        Ok(RawDecl {
            kind: role_of(word.kind),
            name: span(name),
            sizes,
        })
    }

    fn decls(&mut self, alloc: Global) -> Result<Items<RawDecl>, ReadStop>
        ensures { Follows (readers.many (readers.sees token.is_role) spec.declared (tokens_of self.old)) result (tokens_of self.new) }
    {
        let mut found = Items::new(alloc);
        'decls: while self.sees(TokenClass::Role) {
            let next = self.declared(alloc)?;
            found.push(next)?;
        }
        Ok(found)
    }

    fn whole(&mut self, alloc: Global, levels: usize) -> Result<RawKernel, ReadStop>
        ensures { Follows (spec.whole levels (tokens_of self.old)) result (tokens_of self.new) }
    {
        self.expect(TokenClass::Word(Keyword::Kernel))?;
        let title = self.expect(TokenClass::Name)?;
        self.expect(TokenClass::Sign(Mark::OpenBrace))?;
        let decls = self.decls(alloc)?;
        let body = self.statements(alloc, levels)?;
        self.expect(TokenClass::Sign(Mark::CloseBrace))?;
        Ok(RawKernel {
            title: span(title),
            decls,
            body,
        })
    }

    fn kernel(&mut self, alloc: Global, levels: usize) -> Result<RawKernel, ReadStop>
        ensures { Follows (readers.ended (spec.whole levels (tokens_of self.old))) result (tokens_of self.new) }
    {
        let kernel = self.whole(alloc, levels)?;
        if self.ahead.is_empty() {
            Ok(kernel)
        } else {
            Err(ReadStop::Fault(GrammarFault::Syntax))
        }
    }
}

/// How many parts may be opened in one another: loops, branches, parentheses, calls and minus signs.
pub const MAX_LEVELS: usize = 32;

/// Why there is no tree.
#[derive(Debug, Drop)]
pub enum SyntaxEnd {
    /// The first fault, and its place: that of its token, or the end of the text.
    Fault { fault: GrammarFault, at: u32 },
    NoMemory,
}

/// The tree of the tokens of a text that ends at `end`, as it is written: the only reading of the grammar within 32 levels, or the
/// first fault.
///
/// # Errors
///
/// [`SyntaxEnd::Fault`] with the first fault of the tokens and its place, exactly where they have one. [`SyntaxEnd::NoMemory`] where memory
/// was wanted and not found.
pub fn tree_of(alloc: Global, tokens: &[Token], end: u32) -> Result<RawKernel, SyntaxEnd>
    ensures read { IfOk result (λ kernel. Whole 32 tokens.now kernel) }
    ensures only { IfOk result (λ kernel. (levels : ℕ) (other : _) → Whole levels tokens.now other → other ≡ kernel) }
    ensures fault { IfErr result (FaultMeans 32 end tokens.now) }
{
    let mut cursor = Cursor { ahead: tokens };
    match cursor.kernel(alloc, MAX_LEVELS) {
        Ok(kernel) => Ok(kernel),
        Err(ReadStop::NoMemory) => Err(SyntaxEnd::NoMemory),
        Err(ReadStop::Fault(fault)) => Err(SyntaxEnd::Fault {
            fault,
            at: cursor.place(end),
        }),
    }
}
