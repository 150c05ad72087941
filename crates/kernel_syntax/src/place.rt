//! Reads names with what stands in brackets behind them.
ghost use Rattle.std.specs.Prelude.{◌≡◌};
ghost use Rattle.kernel_syntax.specs.Trees as tree;
ghost use Rattle.kernel_syntax.specs.Parsing as spec;
ghost use Rattle.kernel_syntax.specs.Reading.{Follows, tokens_of};

use crate::class::{TokenClass, number_of, span};
use crate::cursor::{Cursor, ReadStop};
use crate::raw::{RawIndex, RawPlace, RawSize};
use kernel_lexer::token::Mark;
use sqlite_items::Items;
use std::alloc::Global;
use token_grammar::fault::GrammarFault;

const OPEN: TokenClass = TokenClass::Sign(Mark::OpenBracket);

impl<'a> Cursor<'a> {
    fn bracketed_index(&mut self, alloc: Global, levels: usize) -> Result<RawIndex, ReadStop>
        ensures { Follows (spec.bracket tree.inside (spec.index levels) (tokens_of self.old)) result (tokens_of self.new) }
    {
        self.expect(OPEN)?;
        let index = self.index(alloc, levels)?;
        self.expect(TokenClass::Sign(Mark::CloseBracket))?;
        Ok(index)
    }

    fn indices(&mut self, alloc: Global, levels: usize) -> Result<Items<RawIndex>, ReadStop>
        ensures { Follows (spec.brackets (spec.bracket tree.inside (spec.index levels)) (tokens_of self.old)) result (tokens_of self.new) }
    {
        let mut found = Items::new(alloc);
        if self.sees(OPEN) {
            let index = self.bracketed_index(alloc, levels)?;
            found.push(index)?;
            if self.sees(OPEN) {
                let second = self.bracketed_index(alloc, levels)?;
                found.push(second)?;
                if self.sees(OPEN) {
                    return Err(ReadStop::Fault(GrammarFault::Syntax));
                }
            }
        }
        Ok(found)
    }

    /// Reads a name with at most two indices.
    pub fn place_of(&mut self, alloc: Global, levels: usize) -> Result<RawPlace, ReadStop>
        ensures { Follows (spec.place levels (tokens_of self.old)) result (tokens_of self.new) }
    {
        let name = self.expect(TokenClass::Name)?;
        let indices = self.indices(alloc, levels)?;
        Ok(RawPlace {
            name: span(name),
            indices,
        })
    }

    fn bracketed_size(&mut self) -> Result<RawSize, ReadStop>
        ensures { Follows (spec.size (tokens_of self.old)) result (tokens_of self.new) }
    {
        self.expect(OPEN)?;
        let number = self.expect(TokenClass::Number)?;
        self.expect(TokenClass::Sign(Mark::CloseBracket))?;
        Ok(RawSize {
            value: number_of(number.kind),
            at: number.from,
        })
    }

    /// Reads at most two sizes.
    pub fn sizes(&mut self, alloc: Global) -> Result<Items<RawSize>, ReadStop>
        ensures { Follows (spec.brackets spec.size (tokens_of self.old)) result (tokens_of self.new) }
    {
        let mut found = Items::new(alloc);
        if self.sees(OPEN) {
            let size = self.bracketed_size()?;
            found.push(size)?;
            if self.sees(OPEN) {
                let second = self.bracketed_size()?;
                found.push(second)?;
                if self.sees(OPEN) {
                    return Err(ReadStop::Fault(GrammarFault::Syntax));
                }
            }
        }
        Ok(found)
    }
}
