//! Reading a covered table from bytes.
ghost use Rattle.std.specs.Prelude.{◌≡◌, ◌*◌, ◌<◌, ◌≤◌, length, IfOk, IfErr, MatchOption};
ghost use Rattle.cover_cert.specs.CoverTable.{CoverTableParts};
ghost use Rattle.cover_cert.specs.CoverBytes.{IsCoverSpelling};
ghost use Rattle.cover_cert.specs.CoverReadings.{BeginsWithNames, BeginsWithRow, BeginsWithRows, BeginsWithNumbers, BeginsWithNone, numbers_in};

use crate::end::CoverEnd;
use crate::pieces::{next_set, next_u8, next_u16, next_u32};
use crate::tables::{Cover, CoverRow, CoverTable};
use comp_graph::Weights;
use pebble_rules::Position;
use potential_cert::cursor::Cursor;
use std::alloc::Global;

/// `RBPC` as a number.
const MARK: u32 = 1380077635;

/// The version of the format.
const VERSION: u16 = 1;

// The names that come next.
fn read_names(alloc: Global, cursor: &mut Cursor, count: u16) -> Result<Vec<Cover>, CoverEnd>
    ensures ok { IfOk result (λ names. BeginsWithNames count cursor.old cursor.new names.items) }
    ensures shape { IfErr result (λ e. e ≡ CoverEnd.Shape → length cursor.old < 6 * count) }
{
    let mut names = Vec::new(alloc);
    for _k in 0..count {
        let step = match next_u16(cursor) {
            Some(step) => step,
            None => return Err(CoverEnd::Shape),
        };
        let row = match next_u32(cursor) {
            Some(row) => row,
            None => return Err(CoverEnd::Shape),
        };
        names.push(Cover { step, row })?;
    }
    Ok(names)
}

// The row that comes next.
fn read_row(alloc: Global, cursor: &mut Cursor, words: usize) -> Result<CoverRow, CoverEnd>
    requires { words ≤ 4 }
    ensures ok { IfOk result (BeginsWithRow words cursor.old cursor.new) }
    ensures shape { IfErr result (λ e. e ≡ CoverEnd.Shape → BeginsWithNone (BeginsWithRow words) cursor.old) }
{
    let cost = match next_u32(cursor) {
        Some(cost) => cost,
        None => return Err(CoverEnd::Shape),
    };
    let red = match next_set(cursor, words) {
        Some(red) => red,
        None => return Err(CoverEnd::Shape),
    };
    let blue = match next_set(cursor, words) {
        Some(blue) => blue,
        None => return Err(CoverEnd::Shape),
    };
    let count = match next_u16(cursor) {
        Some(count) => count,
        None => return Err(CoverEnd::Shape),
    };
    let names = match read_names(alloc, cursor, count) {
        Ok(names) => names,
        Err(end) => return Err(end),
    };
    let position = Position { red, blue };
    Ok(CoverRow {
        position,
        cost,
        names,
    })
}

// The rows that come next.
fn read_rows(
    alloc: Global,
    cursor: &mut Cursor,
    words: usize,
    count: u32,
) -> Result<Vec<CoverRow>, CoverEnd>
    requires { words ≤ 4 }
    ensures ok { IfOk result (λ rows. BeginsWithRows words count cursor.old cursor.new rows.items) }
    ensures shape { IfErr result (λ e. e ≡ CoverEnd.Shape → BeginsWithNone (BeginsWithRows words count) cursor.old) }
{
    let mut rows = Vec::new(alloc);
    for _k in 0..count {
        let row = match read_row(alloc, cursor, words) {
            Ok(row) => row,
            Err(end) => return Err(end),
        };
        rows.push(row)?;
    }
    Ok(rows)
}

// The numbers of a table.
#[derive(Clone, Copy)]
struct Header {
    vertices: u16,
    slots: u16,
    weights: Weights,
    bound: u32,
    rows: u32,
}

// The numbers that come next.
fn read_header(cursor: &mut Cursor) -> Option<Header>
    ensures { MatchOption result (BeginsWithNone BeginsWithNumbers cursor.old) (λ h. BeginsWithNumbers cursor.old cursor.new (numbers_in h)) }
{
    let mark = next_u32(cursor)?;
    let version = next_u16(cursor)?;
    let vertices = next_u16(cursor)?;
    let slots = next_u16(cursor)?;
    let load = next_u8(cursor)?;
    let store = next_u8(cursor)?;
    let bound = next_u32(cursor)?;
    let rows = next_u32(cursor)?;
    if mark != MARK || version != VERSION || vertices > 256 {
        return None;
    }
    if slots < 1 || slots > 64 || load < 1 || load > 16 || store < 1 || store > 16 {
        return None;
    }
    let weights = Weights { load, store };
    Some(Header {
        vertices,
        slots,
        weights,
        bound,
        rows,
    })
}

/// Reads a covered table from at most 20,000,000 bytes. `Shape` comes exactly where they spell none, and `NoMemory` only where memory was
/// wanted and not found. What a table has to hold to be one of a game, `check_cover` tests.
pub fn read_cover(alloc: Global, bytes: &[u8]) -> Result<CoverTable, CoverEnd>
    requires few { length bytes.now ≤ 20000000 }
    ensures ok { IfOk result (IsCoverSpelling bytes.now) }
    ensures shape { IfErr result (λ e. e ≡ CoverEnd.Shape → (t : CoverTableParts) → IsCoverSpelling bytes.now t → ⊥) }
{
    let mut cursor = Cursor::new(bytes);
    let header = match read_header(&mut cursor) {
        Some(header) => header,
        None => return Err(CoverEnd::Shape),
    };
    let words = (header.vertices as usize + 63) / 64;
    let rows = match read_rows(alloc, &mut cursor, words, header.rows) {
        Ok(rows) => rows,
        Err(end) => return Err(end),
    };
    if cursor.left() > 0 {
        return Err(CoverEnd::Shape);
    }
    let Header {
        vertices,
        slots,
        weights,
        bound,
        ..
    } = header;
    Ok(CoverTable {
        slots,
        vertices,
        weights,
        bound,
        rows,
    })
}
