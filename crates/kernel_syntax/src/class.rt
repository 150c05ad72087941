//! Classes of tokens that the parser asks for.
ghost use Rattle.std.specs.Prelude.{◌≡◌};
ghost use Rattle.kernel_syntax.specs.Tokens as spec;

use crate::raw::Span;
use comp_graph::operation::Op;
use kernel_ast::tree::{DeclKind, Relation};
use kernel_lexer::token::{Keyword, Mark, Token, TokenKind};

/// A class of tokens.
#[derive(Clone, Copy)]
pub enum TokenClass {
    Name,
    Number,
    Word(Keyword),
    Sign(Mark),
    /// The operators of a rank, which tells how much they bind: 1 `*`, 2 `+` and `-`, 3 `&`, 4 `^`, 5 `|`.
    Operator(u8),
    /// `in`, `out`, `tmp`, which begin a declaration.
    Role,
    /// `min` and `max`, functions of two arguments.
    Pair,
    /// `sel` and `mad`, functions of three arguments.
    Triple,
    /// What opens a part of an index.
    IndexPart,
    /// What opens a part of an expression.
    Part,
    /// `for` and `if`, which open a part among the statements.
    Nested,
    /// What begins a statement.
    Statement,
    /// The signs that compare the sides of a branch.
    Relation,
}

impl TokenClass {
    /// Whether the token is of this class.
    pub fn holds(self, token: Token) -> bool
        ensures { result ≡ spec.passes self token }
    {
        match self {
            TokenClass::Name => is(token, TokenKind::Name),
            TokenClass::Number => is(token, TokenKind::Number(0)),
            TokenClass::Word(word) => is(token, TokenKind::Word(word)),
            TokenClass::Sign(mark) => is(token, TokenKind::Sign(mark)),
            TokenClass::Operator(rank) => rank_of(token.kind) == rank,
            TokenClass::Role => is_role(token),
            TokenClass::Pair => is_pair(token),
            TokenClass::Triple => is_triple(token),
            TokenClass::IndexPart => opens_index(token),
            TokenClass::Part => opens(token),
            TokenClass::Nested => opens_statement(token),
            TokenClass::Statement => starts(token),
            TokenClass::Relation => is_relation(token),
        }
    }
}

fn keyword_tag(word: Keyword) -> u8
    ensures { result ≡ spec.keyword_tag word }
{
    match word {
        Keyword::Kernel => 2,
        Keyword::Input => 3,
        Keyword::Output => 4,
        Keyword::Temp => 5,
        Keyword::Loop => 6,
        Keyword::Min => 7,
        Keyword::Max => 8,
        Keyword::Sel => 9,
        Keyword::Mad => 10,
        Keyword::If => 11,
        Keyword::Else => 12,
        Keyword::By => 13,
    }
}

fn mark_tag(mark: Mark) -> u8
    ensures { result ≡ spec.mark_tag mark }
{
    match mark {
        Mark::OpenBrace => 14,
        Mark::CloseBrace => 15,
        Mark::OpenBracket => 16,
        Mark::CloseBracket => 17,
        Mark::OpenParen => 18,
        Mark::CloseParen => 19,
        Mark::Semicolon => 20,
        Mark::Comma => 21,
        Mark::Assign => 22,
        Mark::Dots => 23,
        Mark::Plus => 24,
        Mark::Minus => 25,
        Mark::Star => 26,
        Mark::And => 27,
        Mark::Or => 28,
        Mark::Xor => 29,
        Mark::Same => 30,
        Mark::Differs => 31,
        Mark::Less => 32,
        Mark::AtMost => 33,
        Mark::More => 34,
        Mark::AtLeast => 35,
    }
}

fn tag(kind: TokenKind) -> u8
    ensures { result ≡ spec.tag kind }
{
    match kind {
        TokenKind::Name => 0,
        TokenKind::Number(_) => 1,
        TokenKind::Word(word) => keyword_tag(word),
        TokenKind::Sign(mark) => mark_tag(mark),
    }
}

fn is(token: Token, kind: TokenKind) -> bool
    ensures { result ≡ spec.is kind token }
{
    tag(token.kind) == tag(kind)
}

fn is_role(token: Token) -> bool
    ensures { result ≡ spec.is_role token }
{
    is(token, TokenKind::Word(Keyword::Input))
        || is(token, TokenKind::Word(Keyword::Output))
        || is(token, TokenKind::Word(Keyword::Temp))
}

fn is_pair(token: Token) -> bool
    ensures { result ≡ spec.is_pair token }
{
    is(token, TokenKind::Word(Keyword::Min)) || is(token, TokenKind::Word(Keyword::Max))
}

fn is_triple(token: Token) -> bool
    ensures { result ≡ spec.is_triple token }
{
    is(token, TokenKind::Word(Keyword::Sel)) || is(token, TokenKind::Word(Keyword::Mad))
}

fn opens_index(token: Token) -> bool
    ensures { result ≡ spec.opens_index token }
{
    is(token, TokenKind::Sign(Mark::Minus)) || is(token, TokenKind::Sign(Mark::OpenParen))
}

fn opens(token: Token) -> bool
    ensures { result ≡ spec.opens token }
{
    opens_index(token) || is_pair(token) || is_triple(token)
}

fn opens_statement(token: Token) -> bool
    ensures { result ≡ spec.opens_statement token }
{
    is(token, TokenKind::Word(Keyword::Loop)) || is(token, TokenKind::Word(Keyword::If))
}

fn starts(token: Token) -> bool
    ensures { result ≡ spec.starts token }
{
    opens_statement(token) || is(token, TokenKind::Name)
}

fn is_relation(token: Token) -> bool
    ensures { result ≡ spec.is_relation token }
{
    is(token, TokenKind::Sign(Mark::Same))
        || is(token, TokenKind::Sign(Mark::Differs))
        || is(token, TokenKind::Sign(Mark::Less))
        || is(token, TokenKind::Sign(Mark::AtMost))
        || is(token, TokenKind::Sign(Mark::More))
        || is(token, TokenKind::Sign(Mark::AtLeast))
}

fn rank_of(kind: TokenKind) -> u8
    ensures { result ≡ spec.rank_of kind }
{
    match kind {
        TokenKind::Sign(Mark::Star) => 1,
        TokenKind::Sign(Mark::Plus) => 2,
        TokenKind::Sign(Mark::Minus) => 2,
        TokenKind::Sign(Mark::And) => 3,
        TokenKind::Sign(Mark::Xor) => 4,
        TokenKind::Sign(Mark::Or) => 5,
        _ => 0,
    }
}

/// The operation of an operator sign between operands, or of a function's word.
pub fn op_of(kind: TokenKind) -> Op
    ensures { result ≡ spec.op_of kind }
{
    match kind {
        TokenKind::Sign(Mark::Plus) => Op::Add,
        TokenKind::Sign(Mark::Minus) => Op::Sub,
        TokenKind::Sign(Mark::Star) => Op::Mul,
        TokenKind::Sign(Mark::And) => Op::And,
        TokenKind::Sign(Mark::Or) => Op::Or,
        TokenKind::Sign(Mark::Xor) => Op::Xor,
        TokenKind::Word(Keyword::Min) => Op::Min,
        TokenKind::Word(Keyword::Max) => Op::Max,
        TokenKind::Word(Keyword::Sel) => Op::Sel,
        TokenKind::Word(Keyword::Mad) => Op::Mad,
        _ => Op::Add,
    }
}

/// How the sign of a relation compares.
pub fn relation_of(kind: TokenKind) -> Relation
    ensures { result ≡ spec.relation_of kind }
{
    match kind {
        TokenKind::Sign(Mark::Same) => Relation::Equal,
        TokenKind::Sign(Mark::Differs) => Relation::NotEqual,
        TokenKind::Sign(Mark::Less) => Relation::Less,
        TokenKind::Sign(Mark::AtMost) => Relation::AtMost,
        TokenKind::Sign(Mark::More) => Relation::More,
        TokenKind::Sign(Mark::AtLeast) => Relation::AtLeast,
        _ => Relation::Equal,
    }
}

/// What the word before a declared name says of it.
pub fn role_of(kind: TokenKind) -> DeclKind
    ensures { result ≡ spec.role_of kind }
{
    match kind {
        TokenKind::Word(Keyword::Input) => DeclKind::Input,
        TokenKind::Word(Keyword::Output) => DeclKind::Output,
        TokenKind::Word(Keyword::Temp) => DeclKind::Temp,
        _ => DeclKind::Temp,
    }
}

/// The number of a number token.
pub fn number_of(kind: TokenKind) -> i64
    ensures { result ≡ spec.number_of kind }
{
    match kind {
        TokenKind::Number(number) => number,
        _ => 0,
    }
}

/// The stretch of a token.
pub fn span(token: Token) -> Span
    ensures { result ≡ spec.span token }
{
    Span {
        from: token.from,
        to: token.to,
    }
}
