//! The parts of a kernel's tree.
//!
//! `at` is a place in the kernel's text, in bytes from 0: the name's for a declaration and a place, the first token's for a statement
//! and an index, the sign's for a minus and a link, and the function word's for a call. Parentheses give no part of their own.
//!
//! A chain is read from the left: `a - b + c` is the chain of `a` with the links `- b` and `+ c`. In a well formed kernel its operators
//! are of one level. The levels are, from the loosest: `|`, `^`, `&`, `+` with `-`, `*`.
//!
//! `Turn(k)` is the index of the k-th open loop from outside, counted from 0.
use comp_graph::operation::Op;
use sqlite_items::{Boxed, Items};

/// What the elements of a declaration are for: inputs are set from the start, outputs are the kernel's answers.
#[derive(Clone, Copy, Debug, PartialEq, Eq)]
pub enum DeclKind {
    Input,
    Output,
    Temp,
}

/// A declaration: a single element without sizes, a row with one, rows with two (the number of rows first).
#[derive(Drop)]
pub struct Decl {
    pub kind: DeclKind,
    pub sizes: Items<u16>,
    pub at: u32,
}

/// The tree of an index.
#[cycle(index)]
#[derive(Drop)]
pub enum IndexTree {
    Number(i64),
    Turn(u8),
    Minus(Boxed<IndexTree>),
    Chain {
        first: Boxed<IndexTree>,
        rest: Items<IndexLink>,
    },
}

/// An operator of an index, and its right operand.
#[cycle(index)]
#[derive(Drop)]
pub struct IndexLink {
    pub op: Op,
    pub value: IndexTree,
}

/// An index of a place, a bound or the step of a loop, or a side of a branch.
#[derive(Drop)]
pub struct Index {
    pub at: u32,
    pub tree: IndexTree,
}

/// An element by its declaration, counted from 0, and one index for each of the declaration's sizes.
#[derive(Drop)]
pub struct Place {
    pub decl: u16,
    pub indices: Items<Index>,
    pub at: u32,
}

/// An expression.
#[cycle(expr)]
#[derive(Drop)]
pub enum Expr {
    Number(i64),
    Cell(Place),
    Turn(u8),
    Minus {
        value: Boxed<Expr>,
        at: u32,
    },
    Chain {
        first: Boxed<Expr>,
        rest: Items<Link>,
    },
    Call {
        op: Op,
        args: Items<Expr>,
        at: u32,
    },
}

/// An operator of an expression, and its right operand.
#[cycle(expr)]
#[derive(Drop)]
pub struct Link {
    pub op: Op,
    pub value: Expr,
    pub at: u32,
}

/// How a branch compares its left side with its right one, as whole numbers.
#[derive(Clone, Copy, Debug, PartialEq, Eq)]
pub enum Relation {
    /// `==`
    Equal,
    /// `!=`
    NotEqual,
    /// `<`
    Less,
    /// `<=`
    AtMost,
    /// `>`
    More,
    /// `>=`
    AtLeast,
}

/// A statement: an assignment; a loop whose index takes the first bound, and then each time the step more, while it is below the
/// second bound, where the step is 1 if none is written; or a branch, which runs its first body where the relation holds of its
/// sides, and else its second.
#[derive(Drop)]
pub enum Stmt {
    Assign {
        target: Place,
        value: Expr,
        at: u32,
    },
    Loop {
        from: Index,
        to: Index,
        by: Option<Index>,
        body: Items<Stmt>,
        at: u32,
    },
    Branch {
        left: Index,
        rel: Relation,
        right: Index,
        taken: Items<Stmt>,
        other: Items<Stmt>,
        at: u32,
    },
}
