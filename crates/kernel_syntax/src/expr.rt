//! Reads expressions.
ghost use Rattle.std.specs.Prelude.{◌≡◌, ◌<◌, ◌≤◌, ◌-◌, ◌∷◌, [], ℕ, IfOk};
ghost use Rattle.kernel_syntax.specs.Trees as tree;
ghost use Rattle.kernel_syntax.specs.Parsing as spec;
ghost use Rattle.kernel_syntax.specs.Reading.{Follows, tokens_of};

use crate::class::{TokenClass, number_of, op_of};
use crate::cursor::{Cursor, ReadStop};
use crate::raw::{RawExpr, RawLink};
use kernel_lexer::token::{Mark, Token};
use sqlite_items::{Boxed, Items};
use std::alloc::{AllocError, Global};
use token_grammar::fault::GrammarFault;

/// The rank of `|`, the operator that binds least.
const LOOSEST: u8 = 5;

fn chained(alloc: Global, first: RawExpr, links: Items<RawLink>) -> Result<RawExpr, AllocError>
    ensures { IfOk result (λ expr. expr ≡ tree.chain (first, links)) }
{
    if links.is_empty() {
        Ok(first)
    } else {
        Ok(RawExpr::Chain(Boxed::new(alloc, first)?, links))
    }
}

impl<'a> Cursor<'a> {
    fn leaf(&mut self, alloc: Global, levels: usize) -> Result<RawExpr, ReadStop>
        ensures { Follows (spec.leaf levels (tokens_of self.old)) result (tokens_of self.new) }
    {
        if self.sees(TokenClass::Number) {
            let token = self.expect_last(TokenClass::Number)?;
            Ok(RawExpr::Number(number_of(token.kind)))
        } else {
            let place = self.place_of(alloc, levels)?;
            Ok(RawExpr::Place(place))
        }
    }

    #[cycle(expr)]
    fn unary(&mut self, alloc: Global, levels: usize) -> Result<RawExpr, ReadStop>
        ensures { Follows (spec.unary levels (tokens_of self.old)) result (tokens_of self.new) }
    {
        if !self.sees(TokenClass::Part) {
            self.leaf(alloc, levels)
        } else if levels == 0 {
            Err(ReadStop::Fault(GrammarFault::TooDeep))
        } else {
            self.opened(alloc, levels - 1)
        }
    }

    #[cycle(expr)]
    fn opened(&mut self, alloc: Global, levels: usize) -> Result<RawExpr, ReadStop>
        ensures { Follows (spec.opened (spec.unary levels) (tokens_of self.old)) result (tokens_of self.new) }
    {
        if self.sees(TokenClass::Sign(Mark::Minus)) {
            let sign = self.expect(TokenClass::Sign(Mark::Minus))?;
            let value = self.unary(alloc, levels)?;
            Ok(RawExpr::Minus(Boxed::new(alloc, value)?, sign.from))
        } else if self.sees(TokenClass::Sign(Mark::OpenParen)) {
            self.group(alloc, levels)
        } else if self.sees(TokenClass::Pair) {
            self.pair(alloc, levels)
        } else {
            self.triple(alloc, levels)
        }
    }

    #[cycle(expr)]
    fn group(&mut self, alloc: Global, levels: usize) -> Result<RawExpr, ReadStop>
        ensures { Follows (spec.group (spec.expr levels) (tokens_of self.old)) result (tokens_of self.new) }
    {
        self.expect(TokenClass::Sign(Mark::OpenParen))?;
        let inner = self.ranked(alloc, levels, LOOSEST)?;
        self.expect_last(TokenClass::Sign(Mark::CloseParen))?;
        Ok(inner)
    }

    /// Reads a sign and the argument after it, which joins those before.
    #[cycle(expr)]
    fn argument(
        &mut self,
        alloc: Global,
        levels: usize,
        mark: Mark,
        before: Items<RawExpr>,
    ) -> Result<Items<RawExpr>, ReadStop>
        ensures { Follows (spec.argument mark before (spec.expr levels) (tokens_of self.old)) result (tokens_of self.new) }
    {
        self.expect(TokenClass::Sign(mark))?;
        let value = self.ranked(alloc, levels, LOOSEST)?;
        let mut args = before;
        args.push(value)?;
        Ok(args)
    }

    /// Reads the last argument of a call, of which the word and the arguments before it are read.
    #[cycle(expr)]
    fn last_argument(
        &mut self,
        alloc: Global,
        levels: usize,
        word: Token,
        before: Items<RawExpr>,
    ) -> Result<RawExpr, ReadStop>
        ensures { Follows (spec.last_argument word before (spec.expr levels) (tokens_of self.old)) result (tokens_of self.new) }
    {
        let args = self.argument(alloc, levels, Mark::Comma, before)?;
        self.expect_last(TokenClass::Sign(Mark::CloseParen))?;
        Ok(RawExpr::Call(op_of(word.kind), args, word.from))
    }

    #[cycle(expr)]
    fn pair(&mut self, alloc: Global, levels: usize) -> Result<RawExpr, ReadStop>
        ensures { Follows (spec.pair_by_arguments (spec.expr levels) (tokens_of self.old)) result (tokens_of self.new) }
    {
        let word = self.expect(TokenClass::Pair)?;
        let first = self.argument(alloc, levels, Mark::OpenParen, Items::new(alloc))?;
        self.last_argument(alloc, levels, word, first)
    }

    #[cycle(expr)]
    fn triple(&mut self, alloc: Global, levels: usize) -> Result<RawExpr, ReadStop>
        ensures { Follows (spec.triple_by_arguments (spec.expr levels) (tokens_of self.old)) result (tokens_of self.new) }
    {
        let word = self.expect(TokenClass::Triple)?;
        let first = self.argument(alloc, levels, Mark::OpenParen, Items::new(alloc))?;
        let two = self.argument(alloc, levels, Mark::Comma, first)?;
        self.last_argument(alloc, levels, word, two)
    }

    /// The levels of operators up to the rank.
    #[cycle(expr)]
    fn ranked(&mut self, alloc: Global, levels: usize, rank: u8) -> Result<RawExpr, ReadStop>
        requires { rank ≤ 5 }
        ensures { Follows (spec.ranked tree.link tree.chain rank (spec.unary levels) (tokens_of self.old)) result (tokens_of self.new) }
    {
        if rank == 0 {
            self.unary(alloc, levels)
        } else {
            self.chain(alloc, levels, rank)
        }
    }

    #[cycle(expr)]
    fn chain(&mut self, alloc: Global, levels: usize, rank: u8) -> Result<RawExpr, ReadStop>
        requires some { 0 < rank }
        requires known { rank ≤ 5 }
        ensures { let below = spec.ranked tree.link tree.chain (rank - 1) (spec.unary levels) in
            Follows (spec.chained tree.link tree.chain rank below (tokens_of self.old)) result (tokens_of self.new) }
    {
        let first = self.ranked(alloc, levels, rank - 1)?;
        let links = self.links(alloc, levels, rank)?;
        Ok(chained(alloc, first, links)?)
    }

    /// Reads links as long as the next token is an operator of the rank.
    #[cycle(expr)]
    fn links(&mut self, alloc: Global, levels: usize, rank: u8) -> Result<Items<RawLink>, ReadStop>
        requires some { 0 < rank }
        requires known { rank ≤ 5 }
        ensures { let below = spec.ranked tree.link tree.chain (rank - 1) (spec.unary levels) in
            Follows (spec.links tree.link rank below (tokens_of self.old)) result (tokens_of self.new) }
    {
        let mut found = Items::new(alloc);
        'links: while self.sees(TokenClass::Operator(rank)) {
            let next = self.link(alloc, levels, rank)?;
            found.push(next)?;
        }
        Ok(found)
    }

    /// Reads an operator of the rank, and the part behind it.
    #[cycle(expr)]
    fn link(&mut self, alloc: Global, levels: usize, rank: u8) -> Result<RawLink, ReadStop>
        requires some { 0 < rank }
        requires known { rank ≤ 5 }
        ensures { let below = spec.ranked tree.link tree.chain (rank - 1) (spec.unary levels) in
            Follows (spec.linked tree.link rank below (tokens_of self.old)) result (tokens_of self.new) }
    {
        let sign = self.expect(TokenClass::Operator(rank))?;
        let value = self.ranked(alloc, levels, rank - 1)?;
        Ok(RawLink {
            op: op_of(sign.kind),
            value,
            at: sign.from,
        })
    }

    /// Reads an expression where so many parts may still be opened in one another.
    pub fn expr(&mut self, alloc: Global, levels: usize) -> Result<RawExpr, ReadStop>
        ensures { Follows (spec.expr levels (tokens_of self.old)) result (tokens_of self.new) }
    {
        self.ranked(alloc, levels, LOOSEST)
    }
}
