//! What is known where a name stands.
ghost use Rattle.std.specs.Prelude.{◌≤◌, length};

use indexmap::IndexMap;
use kernel_ast::{Decl, Name};
use std::alloc::Global;

/// What a name stands for where it is written.
#[derive(Clone, Copy)]
pub enum NameMeaning {
    /// The index of an open loop, counted from outside.
    Turn(u8),
    /// A declaration, by its number.
    Element(u16),
    /// Nothing that is known there.
    Unknown,
}

/// The text and the declarations.
#[derive(Drop)]
pub struct Table<'a> {
    pub alloc: Global,
    pub text: &'a [u8],
    pub decls: &'a IndexMap<Name, Decl>,
    ghost few_decls: { length decls.now.entries ≤ 65536 },
}

/// What is known in a statement: the table, and the names of the loops that are open there, from outside.
#[derive(Drop)]
pub struct Scope<'a> {
    pub table: &'a Table<'a>,
    pub loops: &'a [Name],
    ghost few_loops: { length loops.now ≤ 32 },
}
