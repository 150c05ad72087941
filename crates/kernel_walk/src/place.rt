//! The elements that places name.
ghost use Rattle.std.specs.Prelude.{◌≡◌, ◌<◌, ◌≤◌, [], ◌∷◌, true, Some, None, IfSome, if◌then◌else◌, unsigned_abs};
ghost use Rattle.std.specs.List.{list_all};
ghost use Rattle.kernel_ast.specs.Machine.{element_count};
ghost use Rattle.kernel_ast.specs.Places as spec;
ghost use Rattle.kernel_ast.specs.WellFormed.{is_size};
ghost use Rattle.kernel_walk.specs.CellsAt.{cell_at};

use crate::index::index_value;
use kernel_ast::{Cell, Fault, Kernel, Place, RunRule};

/// An index value as a number, where it is from 0 to its size less 1.
fn within(i: i64, size: u16) -> Option<u16>
    ensures value { result ≡ (if spec.is_within i size then Some (unsigned_abs i) else None) }
    ensures bound { IfSome result (λ k. k < size) }
{
    if i >= 0 && i < size as i64 {
        Some(i.unsigned_abs() as u16)
    } else {
        None
    }
}

/// The place of an element of m rows of n elements each.
fn row_by_row(m: u16, n: u16, i: i64, j: i64) -> Option<u16>
    requires rows { m ≤ 64 }
    requires columns { n ≤ 64 }
    ensures { result ≡ spec.offset_of (m ∷ n ∷ []) (i ∷ j ∷ []) }
{
    let row = within(i, m)?;
    let column = within(j, n)?;
    Some(row * n + column)
}

/// The place of an element row by row, where it is within the sizes.
fn offset_of(sizes: &[u16], indices: &[i64]) -> Option<u16>
    requires { list_all is_size sizes.now ≡ true }
    ensures { result ≡ spec.offset_of sizes.now indices.now }
{
    match (sizes, indices) {
        ([], []) => Some(0),
        ([m], [i]) => within(*i, *m),
        ([m, n], [i, j]) => row_by_row(*m, *n, *i, *j),
        _ => None,
    }
}

/// The sizes of the declaration of this number, and none where there is no such declaration.
fn sizes_of(kernel: &Kernel, decl: u16) -> &[u16]
    ensures sizes { result.now ≡ spec.sizes_of kernel.now.decls decl }
    ensures small { list_all is_size result.now ≡ true }
{
    match kernel.decls().get_index(decl as usize) {
        Some((_, declaration)) => declaration.sizes.as_slice(),
        None => &[],
    }
}

/// How many elements the declaration of this number has: the product of its sizes, and 1 where it has none.
pub fn element_count(kernel: &Kernel, decl: u16) -> u16
    ensures { result ≡ element_count (spec.sizes_of kernel.now.decls decl) }
{
    match sizes_of(kernel, decl) {
        [] => 1,
        [m] => *m,
        [m, n, ..] => *m * *n,
    }
}

/// The element at these values of the indices of a place.
fn cell_at(kernel: &Kernel, place: &Place, indices: &[i64]) -> Result<Cell, Fault>
    ensures { result ≡ cell_at kernel.now.decls place.now indices.now }
{
    match offset_of(sizes_of(kernel, place.decl), indices) {
        Some(offset) => Ok(Cell {
            decl: place.decl,
            offset,
        }),
        None => Err(RunRule::OutOfRange.at(place.at)),
    }
}

/// The element that a place names, while the open loops stand at `indices`. All indices of the place are evaluated from left to right, and
/// then they are tested.
///
/// # Errors
///
/// Fault 14 at the index where one's value is too big, as [`index_value`] has it. Fault 7 at the place's name, exactly where there is no
/// such fault and an index value is below 0 or not below its size.
pub fn locate(kernel: &Kernel, indices: &[i64], place: &Place) -> Result<Cell, Fault>
    ensures { result ≡ spec.located kernel.now.decls indices.now place.now }
{
    match place.indices.as_slice() {
        [] => cell_at(kernel, place, &[]),
        [i] => {
            let i = index_value(indices, i)?;
            cell_at(kernel, place, &[i])
        }
        [i, j, ..] => {
            let i = index_value(indices, i)?;
            let j = index_value(indices, j)?;
            cell_at(kernel, place, &[i, j])
        }
    }
}
