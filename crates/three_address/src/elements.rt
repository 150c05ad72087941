//! The elements of a kernel, with their labels.
ghost use Rattle.std.specs.Prelude.{◌≡◌, ◌≤◌, ◌<◌, ◌+◌, ◌∷◌, ◌&&◌, [], length, true, nat_lt, slice_get, Some, IfOk, MatchOption};
ghost use Rattle.std.specs.List.{list_all};
ghost use Rattle.kernel_ast.specs.Machine as machine;
ghost use Rattle.kernel_ast.specs.WellFormed.{is_size};
ghost use Rattle.three_address.specs.LabelledElements as spec;
ghost use Rattle.three_address.specs.Declarations.{are_sized};

use crate::element::Element;
use crate::labels::label_of;
use comp_graph::NoMemory;
use indexmap::IndexMap;
use kernel_ast::{Cell, Decl, DeclKind, Name};
use std::alloc::Global;

/// The elements of one kind that are left, in order of declaration and row by row: those of the declaration of this number from an offset
/// on, and those of the declarations behind it.
#[derive(Drop)]
pub struct Elements<'d> {
    decls: &'d IndexMap<Name, Decl>,
    kind: DeclKind,
    decl: usize,
    offset: u16,
    ghost few: { length decls.now.entries ≤ 65536 },
    ghost sized: { are_sized decls.now.entries ≡ true },
}

/// How many elements a declaration of these sizes has.
pub fn element_count(sizes: &[u16]) -> u16
    requires { list_all is_size sizes.now ≡ true }
    ensures { result ≡ machine.element_count sizes.now }
{
    match sizes {
        [] => 1,
        [m] => *m,
        [m, n, ..] => *m * *n,
    }
}

/// Whether two kinds are the same.
fn is_kind(a: DeclKind, b: DeclKind) -> bool
    ensures { result ≡ machine.is_kind a b }
{
    a == b
}

/// Whether a declaration is of a kind, and has an element at an offset.
fn has_element(kind: DeclKind, decl: &Decl, offset: u16) -> bool
    requires { list_all is_size decl.now.sizes ≡ true }
    ensures value { result ≡ (machine.is_kind kind decl.now.kind && nat_lt offset (machine.element_count decl.now.sizes)) }
    ensures room { result ≡ true → offset + 1 < 65536 }
{
    is_kind(kind, decl.kind) && offset < element_count(decl.sizes.as_slice())
}

/// The element at an offset of the declaration of this number.
fn element_at(
    alloc: Global,
    index: usize,
    name: &Name,
    decl: &Decl,
    offset: u16,
) -> Result<Element, NoMemory>
    requires few { index < 65536 }
    requires sizes { list_all is_size decl.now.sizes ≡ true }
    ensures { IfOk result (λ e. e ≡ spec.element index (name.now, decl.now) offset) }
{
    let label = label_of(alloc, name, decl, offset)?;
    let cell = Cell {
        decl: index as u16,
        offset,
    };
    Ok(Element {
        label,
        at: decl.at,
        cell,
    })
}

impl<'d> Elements<'d> {
    ghost use Rattle.three_address.specs.ElementsLeft.{rest};

    /// All elements of this kind.
    pub fn new(decls: &'d IndexMap<Name, Decl>, kind: DeclKind) -> Elements<'d>
        requires few { length decls.now.entries ≤ 65536 }
        requires sized { are_sized decls.now.entries ≡ true }
        ensures { rest result ≡ spec.elements_of kind 0 decls.now.entries }
    {
        Elements {
            decls,
            kind,
            decl: 0,
            offset: 0,
        }
    }

    /// The next element, or `None` where none is left.
    pub fn next(&mut self, alloc: Global) -> Result<Option<Element>, NoMemory>
        ensures { IfOk result (λ found. MatchOption found (rest self.old ≡ []) (λ element. rest self.old ≡ element ∷ rest self.new)) }
    {
        while let Some((name, decl)) = self.decls.get_index(self.decl) {
            if has_element(self.kind, decl, self.offset) {
                let element = element_at(alloc, self.decl, name, decl, self.offset)?;
                self.offset += 1;
                return Ok(Some(element));
            }
            self.decl += 1;
            self.offset = 0;
        }
        Ok(None)
    }
}
