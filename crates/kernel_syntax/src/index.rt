//! Reads indices of places, bounds and steps of loops, and sides of branches.
ghost use Rattle.std.specs.Prelude.{◌≡◌, ◌<◌, ◌≤◌, ◌-◌, ℕ, IfOk};
ghost use Rattle.kernel_syntax.specs.Trees as tree;
ghost use Rattle.kernel_syntax.specs.Parsing as spec;
ghost use Rattle.kernel_syntax.specs.Reading.{Follows, tokens_of};

use crate::class::{TokenClass, number_of, op_of, span};
use crate::cursor::{Cursor, ReadStop};
use crate::raw::{RawIndex, RawIndexLink, RawIndexTree};
use kernel_lexer::token::Mark;
use sqlite_items::{Boxed, Items};
use std::alloc::{AllocError, Global};
use token_grammar::fault::GrammarFault;

/// The rank of `+` and `-`, the operators that bind least in an index.
const SUM: u8 = 2;

fn chained(
    alloc: Global,
    first: RawIndex,
    links: Items<RawIndexLink>,
) -> Result<RawIndex, AllocError>
    ensures { IfOk result (λ index. index ≡ tree.index_chain (first, links)) }
{
    if links.is_empty() {
        return Ok(first);
    }
    let RawIndex { at, tree } = first;
    Ok(RawIndex {
        at,
        tree: RawIndexTree::Chain(Boxed::new(alloc, tree)?, links),
    })
}

impl<'a> Cursor<'a> {
    fn index_leaf(&mut self) -> Result<RawIndex, ReadStop>
        ensures { Follows (spec.index_leaf (tokens_of self.old)) result (tokens_of self.new) }
    {
        if self.sees(TokenClass::Number) {
            let token = self.expect(TokenClass::Number)?;
            Ok(RawIndex {
                at: token.from,
                tree: RawIndexTree::Number(number_of(token.kind)),
            })
        } else {
            let token = self.expect(TokenClass::Name)?;
            Ok(RawIndex {
                at: token.from,
                tree: RawIndexTree::Name(span(token)),
            })
        }
    }

    #[cycle(index)]
    fn index_unary(&mut self, alloc: Global, levels: usize) -> Result<RawIndex, ReadStop>
        ensures { Follows (spec.index_unary levels (tokens_of self.old)) result (tokens_of self.new) }
    {
        if !self.sees(TokenClass::IndexPart) {
            self.index_leaf()
        } else if levels == 0 {
            Err(ReadStop::Fault(GrammarFault::TooDeep))
        } else {
            self.index_opened(alloc, levels - 1)
        }
    }

    #[cycle(index)]
    fn index_opened(&mut self, alloc: Global, levels: usize) -> Result<RawIndex, ReadStop>
        ensures { Follows (spec.index_opened (spec.index_unary levels) (tokens_of self.old)) result (tokens_of self.new) }
    {
        if self.sees(TokenClass::Sign(Mark::Minus)) {
            let sign = self.expect(TokenClass::Sign(Mark::Minus))?;
            let value = self.index_unary(alloc, levels)?;
            Ok(RawIndex {
                at: sign.from,
                tree: RawIndexTree::Minus(Boxed::new(alloc, value.tree)?),
            })
        } else {
            let open = self.expect(TokenClass::Sign(Mark::OpenParen))?;
            let inner = self.index_ranked(alloc, levels, SUM)?;
            self.expect(TokenClass::Sign(Mark::CloseParen))?;
            Ok(RawIndex {
                at: open.from,
                tree: inner.tree,
            })
        }
    }

    /// The levels of operators up to the rank.
    #[cycle(index)]
    fn index_ranked(&mut self, alloc: Global, levels: usize, rank: u8) -> Result<RawIndex, ReadStop>
        requires { rank ≤ 5 }
        ensures { Follows (spec.ranked tree.index_link tree.index_chain rank (spec.index_unary levels) (tokens_of self.old)) result (tokens_of self.new) }
    {
        if rank == 0 {
            self.index_unary(alloc, levels)
        } else {
            self.index_chain(alloc, levels, rank)
        }
    }

    #[cycle(index)]
    fn index_chain(&mut self, alloc: Global, levels: usize, rank: u8) -> Result<RawIndex, ReadStop>
        requires some { 0 < rank }
        requires known { rank ≤ 5 }
        ensures { let below = spec.ranked tree.index_link tree.index_chain (rank - 1) (spec.index_unary levels) in
            Follows (spec.chained tree.index_link tree.index_chain rank below (tokens_of self.old)) result (tokens_of self.new) }
    {
        let first = self.index_ranked(alloc, levels, rank - 1)?;
        let links = self.index_links(alloc, levels, rank)?;
        Ok(chained(alloc, first, links)?)
    }

    /// Reads links as long as the next token is an operator of the rank.
    #[cycle(index)]
    fn index_links(
        &mut self,
        alloc: Global,
        levels: usize,
        rank: u8,
    ) -> Result<Items<RawIndexLink>, ReadStop>
        requires some { 0 < rank }
        requires known { rank ≤ 5 }
        ensures { let below = spec.ranked tree.index_link tree.index_chain (rank - 1) (spec.index_unary levels) in
            Follows (spec.links tree.index_link rank below (tokens_of self.old)) result (tokens_of self.new) }
    {
        let mut found = Items::new(alloc);
        'links: while self.sees(TokenClass::Operator(rank)) {
            let next = self.index_link(alloc, levels, rank)?;
            found.push(next)?;
        }
        Ok(found)
    }

    /// Reads an operator of the rank, and the part behind it.
    #[cycle(index)]
    fn index_link(
        &mut self,
        alloc: Global,
        levels: usize,
        rank: u8,
    ) -> Result<RawIndexLink, ReadStop>
        requires some { 0 < rank }
        requires known { rank ≤ 5 }
        ensures { let below = spec.ranked tree.index_link tree.index_chain (rank - 1) (spec.index_unary levels) in
            Follows (spec.linked tree.index_link rank below (tokens_of self.old)) result (tokens_of self.new) }
    {
        let sign = self.expect(TokenClass::Operator(rank))?;
        let value = self.index_ranked(alloc, levels, rank - 1)?;
        Ok(RawIndexLink {
            op: op_of(sign.kind),
            value: value.tree,
        })
    }

    /// Reads an index where so many parts may still be opened in one another.
    pub fn index(&mut self, alloc: Global, levels: usize) -> Result<RawIndex, ReadStop>
        ensures { Follows (spec.index levels (tokens_of self.old)) result (tokens_of self.new) }
    {
        self.index_ranked(alloc, levels, SUM)
    }
}
