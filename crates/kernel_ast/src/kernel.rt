//! Kernels, whose trees are well formed.
ghost use Rattle.std.specs.Prelude.{◌≡◌};
ghost use Rattle.kernel_ast.specs.KernelParts.{KernelParts};

use crate::name::Name;
use crate::tree::{Decl, Stmt};
use comp_graph::label::Label;
use indexmap::IndexMap;
use sqlite_items::Items;
use std::marker::Model;

/// A kernel: its title, its declarations by name in order, and its statements. Its tree is well formed:
///
/// - The title and the names are names of at most 64 bytes: `_` or a character of XID_Start, then characters of XID_Continue, and no
///   reserved word.
/// - There are at most 65,536 declarations, each with at most two sizes, each from 1 to 64.
/// - Each place names a declaration and has as many indices as that declaration has sizes. No target is an input.
/// - Each `Turn(k)` stands in the bodies of more than k loops. At most 32 loops stand in one another.
/// - Each number is from 0 to 9,223,372,036,854,775,807.
/// - Each chain has a link, and its operators are of one level: in an index `Add` with `Sub`, or `Mul` alone.
/// - Each call has `Min`, `Max`, `Sel` or `Mad`, and as many arguments as that takes operands.
/// - Each statement has a weight of at most 65,536.
///
/// Contracts see it as a record of the title, the list of names with their declarations, and the list of statements.
#[derive(Drop)]
pub struct Kernel {
    title: Label,
    decls: IndexMap<Name, Decl>,
    body: Items<Stmt>,
}

impl Model for Kernel {
    ghost use Rattle.kernel_ast.specs.KernelParts.{KernelParts};
    ghost use Rattle.kernel_ast.specs.KernelView.{parts};
    ghost use Rattle.kernel_ast.specs.WellFormed.{IsWellFormed};
    ghost use Rattle.std.specs.Coded.{codes};
    ghost use Rattle.kernel_ast.specs.contracts.tree.Stmt as stmt;
    ghost use Rattle.kernel_ast.specs.contracts.tree.Decl as decl;

    ghost Value = { KernelParts };

    ghost coded = { Prim.hlevel (codes, stmt.the_row.coded, decl.the_row.coded) };

    ghost view = { parts };

    ghost invariant = { λ k. IsWellFormed (parts k) };
}

impl Kernel {
    ghost use Rattle.kernel_ast.specs.WellFormed.{IsWellFormed};

    /// The kernel of these parts.
    pub fn new(title: Label, decls: IndexMap<Name, Decl>, body: Items<Stmt>) -> Kernel
        requires { IsWellFormed (record { title = title; decls = decls.entries; body = body }) }
        ensures { result ≡ record { title = title; decls = decls.entries; body = body } }
    {
        Kernel { title, decls, body }
    }

    /// The name of the kernel.
    pub fn title(&self) -> &Label
        ensures { result.now ≡ self.now.title }
    {
        &self.title
    }

    /// The declarations by name, in order: a place's `decl` is an index of this map.
    pub fn decls(&self) -> &IndexMap<Name, Decl>
        ensures value { result.now.entries ≡ self.now.decls }
        ensures well_formed { IsWellFormed self.now }
    {
        &self.decls
    }

    /// The statements, in order.
    pub fn body(&self) -> &[Stmt]
        ensures value { result.now ≡ self.now.body }
        ensures well_formed { IsWellFormed self.now }
    {
        self.body.as_slice()
    }
}
