//! The parts of a window, read from the front of bytes.
ghost use Rattle.std.specs.Prelude.{◌≡◌, ℕ, ◌≤◌, length, IfOk, IfErr, ◌↔◌, IsTrue};
ghost use Rattle.comp_graph.specs.Vertices.{AllBelow};
ghost use Rattle.potential_cert.specs.Table.{IsRising};
ghost use Rattle.potential_cert.specs.Order.{precedes};
ghost use Rattle.window_cert.specs.Certs.{charged_of};
ghost use Rattle.window_cert.specs.Bytes.{set_bytes, counted, charged_bytes, renaming_bytes, row_bytes};
ghost use Rattle.window_cert.specs.Bytes.{AllFit, ChargedFits, RenamingFits, RowFits};
ghost use Rattle.window_cert.specs.Readings.{BeginsWith, BeginsWithMany};
ghost use Rattle.window_cert.specs.Faults.{FaultOfForm, FaultOfCharged, FaultOfRenaming, FaultOfRenamings, FaultOfRows};

use crate::certs::Renaming;
use crate::charged::ChargedLoads;
use crate::pieces::{next_row, next_set, next_u8, next_u32};
use crate::stop::Stop;
use comp_graph::VertexSet;
use potential_cert::Row;
use potential_cert::cursor::Cursor;
use std::alloc::Global;
use std::cmp::Ordering;

// The charged loads that come next.
pub(crate) fn read_charged(
    alloc: Global,
    cursor: &mut Cursor,
    vertices: u16,
) -> Result<ChargedLoads, Stop>
    requires { vertices ≤ 256 }
    ensures ok { IfOk result (λ charged. BeginsWith (charged_bytes vertices)
        (ChargedFits vertices) cursor.old cursor.new (charged_of charged)) }
    ensures fault { IfErr result (λ e. (left : ℕ) → e ≡ Stop.Shape left
        → FaultOfCharged vertices cursor.old left) }
{
    let start = cursor.left();
    let form = match next_u8(cursor) {
        Some(form) => form,
        None => return Err(Stop::Shape { left: start }),
    };
    let left = cursor.left();
    match form {
        0 => match read_sets(alloc, cursor, vertices) {
            Ok(sets) => Ok(ChargedLoads::Each(sets)),
            Err(stop) => Err(stop),
        },
        1 => Ok(ChargedLoads::OfTracked),
        2 => match next_set(cursor, vertices) {
            Some(works) => Ok(ChargedLoads::By(works)),
            None => Err(Stop::Shape { left }),
        },
        _ => Err(Stop::Shape { left: start }),
    }
}

// A set for each vertex.
fn read_sets(alloc: Global, cursor: &mut Cursor, vertices: u16) -> Result<Vec<VertexSet>, Stop>
    requires { vertices ≤ 256 }
    ensures ok { IfOk result (λ sets. BeginsWithMany (set_bytes vertices)
        (AllBelow vertices) vertices cursor.old cursor.new sets.items) }
    ensures fault { IfErr result (λ e. (left : ℕ) → e ≡ Stop.Shape left
        → FaultOfForm vertices 0 cursor.old left) }
{
    let mut sets = Vec::new(alloc);
    'sets: for _k in 0..vertices {
        let left = cursor.left();
        let set = match next_set(cursor, vertices) {
            Some(set) => set,
            None => return Err(Stop::Shape { left }),
        };
        sets.push(set)?;
    }
    Ok(sets)
}

// The renamings that come next, after their number.
pub(crate) fn read_renamings(
    alloc: Global,
    cursor: &mut Cursor,
    vertices: u16,
) -> Result<Vec<Renaming>, Stop>
    ensures ok { IfOk result (λ all. BeginsWith (counted renaming_bytes)
        (AllFit (RenamingFits vertices)) cursor.old cursor.new all.items) }
    ensures fault { IfErr result (λ e. (left : ℕ) → e ≡ Stop.Shape left
        → FaultOfRenamings vertices cursor.old left) }
{
    let left = cursor.left();
    let count = match next_u32(cursor) {
        Some(count) => count,
        None => return Err(Stop::Shape { left }),
    };
    let mut renamings = Vec::new(alloc);
    'renamings: for _k in 0..count {
        let renaming = match read_renaming(alloc, cursor, vertices) {
            Ok(renaming) => renaming,
            Err(stop) => return Err(stop),
        };
        renamings.push(renaming)?;
    }
    Ok(renamings)
}

// The renaming that comes next: an image for each vertex.
fn read_renaming(alloc: Global, cursor: &mut Cursor, vertices: u16) -> Result<Renaming, Stop>
    ensures ok { IfOk result (BeginsWith renaming_bytes (RenamingFits vertices)
        cursor.old cursor.new) }
    ensures fault { IfErr result (λ e. (left : ℕ) → e ≡ Stop.Shape left
        → FaultOfRenaming vertices cursor.old left) }
{
    let left = cursor.left();
    let mut images = Vec::new(alloc);
    'images: for _v in 0..vertices {
        let image = match next_u8(cursor) {
            Some(image) => image,
            None => return Err(Stop::Shape { left }),
        };
        images.push(image)?;
    }
    Ok(Renaming { images })
}

// The rows that come next, after their number.
pub(crate) fn read_rows(alloc: Global, cursor: &mut Cursor, vertices: u16) -> Result<Vec<Row>, Stop>
    requires { vertices ≤ 256 }
    ensures ok { IfOk result (λ rows. BeginsWith (counted (row_bytes vertices))
        (AllFit (RowFits vertices)) cursor.old cursor.new rows.items) }
    ensures fault { IfErr result (λ e. (left : ℕ) → e ≡ Stop.Shape left
        → FaultOfRows vertices cursor.old left) }
{
    let left = cursor.left();
    let count = match next_u32(cursor) {
        Some(count) => count,
        None => return Err(Stop::Shape { left }),
    };
    let mut rows = Vec::new(alloc);
    'rows: for _k in 0..count {
        let row = match next_row(cursor, vertices) {
            Ok(row) => row,
            Err(stop) => return Err(stop),
        };
        rows.push(row)?;
    }
    Ok(rows)
}

// Whether each row comes after the one before it.
pub(crate) fn are_rising(rows: &[Row]) -> bool
    ensures { IsTrue result ↔ IsRising precedes rows.now }
{
    'rows: for k in 1..rows.len() {
        let low = &rows[k - 1];
        let high = &rows[k];
        match low.position.order(&high.position) {
            Ordering::Less => {}
            Ordering::Equal => return false,
            Ordering::Greater => return false,
        }
    }
    true
}
