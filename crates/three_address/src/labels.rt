//! The labels of elements, as they are printed: `x`, `x[3]`, `x[0][2]`.
ghost use Rattle.std.specs.Prelude.{◌≡◌, ◌++◌, true, IfOk, OnOk};
ghost use Rattle.std.specs.List.{list_all};
ghost use Rattle.kernel_ast.specs.Labels as labels;
ghost use Rattle.kernel_ast.specs.WellFormed.{is_size};

use comp_graph::{Label, NoMemory};
use kernel_ast::{Decl, Name};
use std::alloc::Global;

/// Adds a number in brackets.
fn add_bracketed(alloc: Global, text: &mut Vec<u8>, number: u16) -> Result<(), NoMemory>
    ensures { OnOk result (text.new.items ≡ text.old.items ++ labels.bracketed number) }
{
    let digits = format!(in alloc; "{number}")?;
    text.extend_from_slice(b"[")?;
    text.extend_from_slice(digits.as_bytes())?;
    text.extend_from_slice(b"]")?;
    Ok(())
}

/// Adds the indices of the element at an offset row by row, each in brackets.
fn add_indices(
    alloc: Global,
    text: &mut Vec<u8>,
    sizes: &[u16],
    offset: u16,
) -> Result<(), NoMemory>
    requires { list_all is_size sizes.now ≡ true }
    ensures { OnOk result (text.new.items ≡ text.old.items ++ labels.indices_text sizes.now offset) }
{
    match sizes {
        [] => Ok(()),
        [_] => add_bracketed(alloc, text, offset),
        [_, n, ..] => {
            add_bracketed(alloc, text, offset / *n)?;
            add_bracketed(alloc, text, offset % *n)
        }
    }
}

/// The label of the element at an offset row by row, as `A[0][2]`.
pub fn label_of(alloc: Global, name: &Name, decl: &Decl, offset: u16) -> Result<Label, NoMemory>
    requires { list_all is_size decl.now.sizes ≡ true }
    ensures { IfOk result (λ label. label ≡ labels.label_of (name.now, decl.now) offset) }
{
    let mut text = Vec::from_slice(alloc, name.bytes())?;
    add_indices(alloc, &mut text, decl.sizes.as_slice(), offset)?;
    Ok(Label::new(text))
}
