//! The tree of a kernel as it is written: names stand as stretches of the text.
//!
//! `at` is a place in the text, in bytes from 0: the first token's for an index, a loop and a branch, the sign's for a minus and a link,
//! and the function word's for a call. Parentheses give no part of their own. A chain is read from the left. As the grammar makes it, a
//! chain has at least one link, its operators are of one level, and a place has at most two indices; the types do not hold this.
use comp_graph::operation::Op;
use kernel_ast::tree::{DeclKind, Relation};
use sqlite_items::{Boxed, Items};

/// A stretch of the text, the bytes `from..to`.
#[derive(Clone, Copy, Debug, PartialEq, Eq)]
pub struct Span {
    pub from: u32,
    pub to: u32,
}

/// A size of an array, and its place.
#[derive(Clone, Copy, Debug, PartialEq, Eq)]
pub struct RawSize {
    pub value: i64,
    pub at: u32,
}

/// A declaration: a single element without sizes, an array of one or two dimensions with them.
#[derive(Drop)]
pub struct RawDecl {
    pub kind: DeclKind,
    pub name: Span,
    pub sizes: Items<RawSize>,
}

/// The tree of an index.
#[cycle(index)]
#[derive(Drop)]
pub enum RawIndexTree {
    Number(i64),
    Name(Span),
    Minus(Boxed<RawIndexTree>),
    Chain(Boxed<RawIndexTree>, Items<RawIndexLink>),
}

/// An operator of an index, and its right operand.
#[cycle(index)]
#[derive(Drop)]
pub struct RawIndexLink {
    pub op: Op,
    pub value: RawIndexTree,
}

/// An index of a place, a bound or the step of a loop, or a side of a branch.
#[derive(Drop)]
pub struct RawIndex {
    pub at: u32,
    pub tree: RawIndexTree,
}

/// A name with the indices in brackets behind it.
#[derive(Drop)]
pub struct RawPlace {
    pub name: Span,
    pub indices: Items<RawIndex>,
}

/// An expression.
#[cycle(expr)]
#[derive(Drop)]
pub enum RawExpr {
    Number(i64),
    Place(RawPlace),
    Minus(Boxed<RawExpr>, u32),
    Chain(Boxed<RawExpr>, Items<RawLink>),
    Call(Op, Items<RawExpr>, u32),
}

/// An operator of an expression, and its right operand.
#[cycle(expr)]
#[derive(Drop)]
pub struct RawLink {
    pub op: Op,
    pub value: RawExpr,
    pub at: u32,
}

/// A statement: an assignment, a loop, or a branch, whose second body is empty where none is written.
#[derive(Drop)]
pub enum RawStmt {
    Assign(RawPlace, RawExpr),
    Loop(RawLoop, Items<RawStmt>),
    Branch(RawBranch, Items<RawStmt>, Items<RawStmt>),
}

/// What stands before a loop's body, and the place of its first token.
#[derive(Drop)]
pub struct RawLoop {
    pub name: Span,
    pub from: RawIndex,
    pub to: RawIndex,
    pub by: Option<RawIndex>,
    pub at: u32,
}

/// What stands before a branch's bodies, and the place of its first token.
#[derive(Drop)]
pub struct RawBranch {
    pub left: RawIndex,
    pub rel: Relation,
    pub right: RawIndex,
    pub at: u32,
}

/// A kernel.
#[derive(Drop)]
pub struct RawKernel {
    pub title: Span,
    pub decls: Items<RawDecl>,
    pub body: Items<RawStmt>,
}
