//! Reads statements.
ghost use Rattle.std.specs.Prelude.{◌≡◌, ◌<◌, ◌-◌, ℕ};
ghost use Rattle.kernel_lexer.specs.declared.token.Keyword.TheVariants as keyword;
ghost use Rattle.kernel_lexer.specs.declared.token.Mark.TheVariants as mark;
ghost use Rattle.kernel_syntax.specs.Tokens as token;
ghost use Rattle.kernel_syntax.specs.Trees as tree;
ghost use Rattle.kernel_syntax.specs.Parsing as spec;
ghost use Rattle.kernel_syntax.specs.Reading.{Follows, tokens_of};
ghost use Rattle.token_grammar.specs.Readers as readers;

use crate::class::{TokenClass, relation_of, span};
use crate::cursor::{Cursor, ReadStop};
use crate::raw::{RawBranch, RawIndex, RawLoop, RawStmt};
use kernel_lexer::token::{Keyword, Mark, Token};
use sqlite_items::Items;
use std::alloc::Global;
use token_grammar::fault::GrammarFault;

const ELSE: TokenClass = TokenClass::Word(Keyword::Else);

const BY: TokenClass = TokenClass::Word(Keyword::By);

/// The second body of a branch, which is empty where none is written.
fn or_none(alloc: Global, body: Option<Items<RawStmt>>) -> Items<RawStmt>
    ensures { result ≡ tree.or_none body }
{
    match body {
        Some(body) => body,
        None => Items::new(alloc),
    }
}

impl<'a> Cursor<'a> {
    /// Reads the semicolon of an assignment, behind which no `else` stands.
    fn end(&mut self) -> Result<Token, ReadStop>
        ensures { Follows (spec.whole_statement (readers.one (token.sign mark.Semicolon)) (tokens_of self.old)) result (tokens_of self.new) }
    {
        let end = self.expect(TokenClass::Sign(Mark::Semicolon))?;
        if self.sees(ELSE) {
            Err(ReadStop::Fault(GrammarFault::Syntax))
        } else {
            Ok(end)
        }
    }

    fn assigned(&mut self, alloc: Global, levels: usize) -> Result<RawStmt, ReadStop>
        ensures { Follows (spec.assigned levels (tokens_of self.old)) result (tokens_of self.new) }
    {
        let target = self.place_of(alloc, levels)?;
        self.expect(TokenClass::Sign(Mark::Assign))?;
        let value = self.expr(alloc, levels)?;
        self.end()?;
        Ok(RawStmt::Assign(target, value))
    }

    /// Reads a step, behind which no other stands, if there is one.
    fn step(&mut self, alloc: Global, levels: usize) -> Result<Option<RawIndex>, ReadStop>
        ensures { Follows (readers.maybe (readers.sees (token.word keyword.By)) (spec.step levels) (tokens_of self.old)) result (tokens_of self.new) }
    {
        if !self.sees(BY) {
            return Ok(None);
        }
        self.expect(BY)?;
        let step = self.index(alloc, levels)?;
        if self.sees(BY) {
            Err(ReadStop::Fault(GrammarFault::Syntax))
        } else {
            Ok(Some(step))
        }
    }

    /// Reads the upper bound and the step of a loop.
    fn limits(
        &mut self,
        alloc: Global,
        levels: usize,
    ) -> Result<(RawIndex, Option<RawIndex>), ReadStop>
        ensures { Follows (spec.limits levels (tokens_of self.old)) result (tokens_of self.new) }
    {
        self.expect(TokenClass::Sign(Mark::Dots))?;
        let to = self.index(alloc, levels)?;
        let by = self.step(alloc, levels)?;
        Ok((to, by))
    }

    /// Reads the bounds and the step of a loop, of which the word and the name are read.
    fn bounds(
        &mut self,
        alloc: Global,
        levels: usize,
        word: Token,
        name: Token,
    ) -> Result<RawLoop, ReadStop>
        ensures { Follows (spec.bounds levels word name (tokens_of self.old)) result (tokens_of self.new) }
    {
        let from = self.index(alloc, levels)?;
        let (to, by) = self.limits(alloc, levels)?;
        Ok(RawLoop {
            name: span(name),
            from,
            to,
            by,
            at: word.from,
        })
    }

    fn header(&mut self, alloc: Global, levels: usize) -> Result<RawLoop, ReadStop>
        ensures { Follows (spec.header levels (tokens_of self.old)) result (tokens_of self.new) }
    {
        let word = self.expect(TokenClass::Word(Keyword::Loop))?;
        let name = self.expect(TokenClass::Name)?;
        let _within = self.expect(TokenClass::Word(Keyword::Input))?;
        self.bounds(alloc, levels, word, name)
    }

    fn condition(&mut self, alloc: Global, levels: usize) -> Result<RawBranch, ReadStop>
        ensures { Follows (spec.condition levels (tokens_of self.old)) result (tokens_of self.new) }
    {
        let word = self.expect(TokenClass::Word(Keyword::If))?;
        let left = self.index(alloc, levels)?;
        let sign = self.expect(TokenClass::Relation)?;
        let right = self.index(alloc, levels)?;
        Ok(RawBranch {
            left,
            rel: relation_of(sign.kind),
            right,
            at: word.from,
        })
    }

    #[cycle(stmt)]
    fn block(&mut self, alloc: Global, levels: usize) -> Result<Items<RawStmt>, ReadStop>
        ensures { Follows (spec.block (spec.statement levels) (tokens_of self.old)) result (tokens_of self.new) }
    {
        self.expect(TokenClass::Sign(Mark::OpenBrace))?;
        let body = self.statements(alloc, levels)?;
        self.expect(TokenClass::Sign(Mark::CloseBrace))?;
        Ok(body)
    }

    /// Reads a block, behind which no `else` stands.
    #[cycle(stmt)]
    fn last_block(&mut self, alloc: Global, levels: usize) -> Result<Items<RawStmt>, ReadStop>
        ensures { Follows (spec.whole_statement (spec.block (spec.statement levels)) (tokens_of self.old)) result (tokens_of self.new) }
    {
        let body = self.block(alloc, levels)?;
        if self.sees(ELSE) {
            Err(ReadStop::Fault(GrammarFault::Syntax))
        } else {
            Ok(body)
        }
    }

    #[cycle(stmt)]
    fn looped(&mut self, alloc: Global, levels: usize) -> Result<RawStmt, ReadStop>
        ensures { Follows (spec.looped levels (spec.statement levels) (tokens_of self.old)) result (tokens_of self.new) }
    {
        let header = self.header(alloc, levels)?;
        let body = self.last_block(alloc, levels)?;
        Ok(RawStmt::Loop(header, body))
    }

    /// Reads the second body of a branch, if one is written.
    #[cycle(stmt)]
    fn otherwise(
        &mut self,
        alloc: Global,
        levels: usize,
    ) -> Result<Option<Items<RawStmt>>, ReadStop>
        ensures { Follows (readers.maybe (readers.sees (token.word keyword.Else)) (spec.otherwise (spec.statement levels)) (tokens_of self.old)) result (tokens_of self.new) }
    {
        if !self.sees(ELSE) {
            return Ok(None);
        }
        self.expect(ELSE)?;
        let body = self.last_block(alloc, levels)?;
        Ok(Some(body))
    }

    #[cycle(stmt)]
    fn branched(&mut self, alloc: Global, levels: usize) -> Result<RawStmt, ReadStop>
        ensures { Follows (spec.branched levels (spec.statement levels) (tokens_of self.old)) result (tokens_of self.new) }
    {
        let condition = self.condition(alloc, levels)?;
        let taken = self.block(alloc, levels)?;
        let other = self.otherwise(alloc, levels)?;
        Ok(RawStmt::Branch(condition, taken, or_none(alloc, other)))
    }

    #[cycle(stmt)]
    fn nested(&mut self, alloc: Global, levels: usize) -> Result<RawStmt, ReadStop>
        ensures { Follows (spec.nested levels (spec.statement levels) (tokens_of self.old)) result (tokens_of self.new) }
    {
        if self.sees(TokenClass::Word(Keyword::Loop)) {
            self.looped(alloc, levels)
        } else {
            self.branched(alloc, levels)
        }
    }

    #[cycle(stmt)]
    fn statement(&mut self, alloc: Global, levels: usize) -> Result<RawStmt, ReadStop>
        ensures { Follows (spec.statement levels (tokens_of self.old)) result (tokens_of self.new) }
    {
        if !self.sees(TokenClass::Nested) {
            self.assigned(alloc, levels)
        } else if levels == 0 {
            Err(ReadStop::Fault(GrammarFault::TooDeep))
        } else {
            self.nested(alloc, levels - 1)
        }
    }

    /// Reads statements as long as the next token begins one.
    #[cycle(stmt)]
    pub fn statements(&mut self, alloc: Global, levels: usize) -> Result<Items<RawStmt>, ReadStop>
        ensures { Follows (readers.many (readers.sees token.starts) (spec.statement levels) (tokens_of self.old)) result (tokens_of self.new) }
    {
        let mut found = Items::new(alloc);
        'body: while self.sees(TokenClass::Statement) {
            let next = self.statement(alloc, levels)?;
            found.push(next)?;
        }
        Ok(found)
    }
}
