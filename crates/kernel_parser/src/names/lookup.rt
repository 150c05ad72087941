//! Looks names up.
ghost use Rattle.std.specs.Prelude.{◌≡◌, ◌<◌, IfOk, IfSome, length, slice_get};
ghost use Rattle.kernel_ast.specs.WellFormed.{has_sizes, is_writable};
ghost use Rattle.kernel_parser.specs.Names as spec;
ghost use Rattle.kernel_parser.specs.Scopes.{known};

use crate::names::scope::{NameMeaning, Scope};
use indexmap::IndexMap;
use kernel_ast::{Decl, DeclKind, Name};
use kernel_syntax::raw::Span;
use std::alloc::{AllocError, Global};

/// The bytes of a stretch of the text.
pub fn word(text: &[u8], span: Span) -> &[u8]
    ensures { result.now ≡ spec.word text.now span }
{
    let to = (span.to as usize).min(text.len());
    let from = (span.from as usize).min(to);
    &text[from..to]
}

/// The name that is spelled by a stretch of the text.
pub fn name_of(alloc: Global, text: &[u8], span: Span) -> Result<Name, AllocError>
    ensures { IfOk result (λ name. name ≡ spec.word text.now span) }
{
    let bytes = Vec::from_slice(alloc, word(text, span))?;
    Ok(Name::new(bytes))
}

fn open_at(loops: &[Name], name: &Name) -> Option<usize>
    ensures place { result ≡ spec.open_at loops.now name.now }
    ensures within { IfSome result (λ k. k < length loops.now) }
{
    loops.iter().position(|open| open == name)
}

fn declared_at(decls: &IndexMap<Name, Decl>, name: &Name) -> Option<usize>
    ensures place { result ≡ spec.declared_at decls.now.entries name.now }
    ensures within { IfSome result (λ k. k < length decls.now.entries) }
{
    decls.get_index_of(name)
}

impl<'a> Scope<'a> {
    /// What the name stands for.
    pub fn name_meaning(&self, span: Span) -> Result<NameMeaning, AllocError>
        ensures { IfOk result (λ found. found ≡ spec.name_meaning (known self.now) span) }
    {
        let name = name_of(self.table.alloc, self.table.text, span)?;
        if let Some(open) = open_at(self.loops, &name) {
            return Ok(NameMeaning::Turn(open as u8));
        }
        Ok(match declared_at(self.table.decls, &name) {
            Some(number) => NameMeaning::Element(number as u16),
            None => NameMeaning::Unknown,
        })
    }

    /// Whether there is such a declaration, with so many sizes.
    pub fn has_sizes(&self, number: u16, count: usize) -> bool
        ensures { result ≡ has_sizes count (slice_get (known self.now).decls number) }
    {
        match self.table.decls.get_index(number as usize) {
            Some((_, decl)) => decl.sizes.len() == count,
            None => false,
        }
    }

    /// Whether there is such a declaration, and it is no input.
    pub fn is_writable(&self, number: u16) -> bool
        ensures { result ≡ is_writable (slice_get (known self.now).decls number) }
    {
        match self.table.decls.get_index(number as usize) {
            Some((_, decl)) => decl.kind != DeclKind::Input,
            None => false,
        }
    }
}
