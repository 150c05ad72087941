//! Tables of a window.

use potential_cert::Row;
use window_images::Permutation;

/// The renamings of a window as permutations, the rows of its table, and the bound that they are to prove.
#[derive(Clone, Copy)]
pub struct Table<'a> {
    pub permutations: &'a [Permutation],
    pub rows: &'a [Row],
    pub bound: u32,
}
