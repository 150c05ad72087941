//! Writing a covered table as bytes.
ghost use Rattle.std.specs.Prelude.{◌≡◌, ◌++◌, ◌≤◌, ◌<◌, ◌^◌, length, flat_map, OnOk, IfOk};
ghost use Rattle.comp_graph.specs.Lists.{IsIn};
ghost use Rattle.cover_cert.specs.declared.tables.Cover.{Cover};
ghost use Rattle.cover_cert.specs.CoverTable.{CoverRowParts};
ghost use Rattle.cover_cert.specs.CoverBytes.{name_bytes, cover_row_bytes, cover_bytes, NameFits, AreRowWords, IsCoverInRange, IsCoverSpelling};

use crate::tables::{Cover, CoverRow, CoverTable};
use comp_graph::NoMemory;
use potential_cert::writing::{add_set, add_u8, add_u16, add_u32};
use std::alloc::Global;

/// The version of the format.
const VERSION: u16 = 1;

/// The bytes of a covered table, as docs/FORMATS.md lays them out. The table has at most 256 vertices, from 1 to 64 slots, weights from 1
/// to 16, fewer than 2^32 rows, whose sets lie below 64 times the number of words of a set, and at most 384 names a row.
/// [`NoMemory`] comes where memory was wanted and not found.
pub fn write_cover(alloc: Global, t: &CoverTable) -> Result<Vec<u8>, NoMemory>
    requires { IsCoverInRange t.now }
    ensures { IfOk result (λ bytes. IsCoverSpelling bytes.items t.now) }
{
    let bytes = spell(alloc, t)?;
    Ok(bytes)
}

// The bytes of a table, and what the types of its numbers say.
fn spell(alloc: Global, t: &CoverTable) -> Result<Vec<u8>, NoMemory>
    requires { IsCoverInRange t.now }
    ensures bytes { IfOk result (λ bytes. bytes.items ≡ cover_bytes t.now) }
    ensures bound { IfOk result (λ bytes. t.now.bound < 2 ^ 32) }
    ensures rows { IfOk result (λ bytes. (r : CoverRowParts) → IsIn r t.now.rows → AreRowWords r) }
{
    let mut bytes = Vec::from_slice(alloc, b"RBPC")?;
    add_u16(&mut bytes, VERSION)?;
    add_u16(&mut bytes, t.vertices)?;
    add_u16(&mut bytes, t.slots)?;
    add_u8(&mut bytes, t.weights.load)?;
    add_u8(&mut bytes, t.weights.store)?;
    add_u32(&mut bytes, t.bound)?;
    add_u32(&mut bytes, t.rows.len() as u32)?;
    let words = (t.vertices + 63) / 64;
    add_rows(&mut bytes, words as u8, &t.rows)?;
    Ok(bytes)
}

// Adds rows, whose numbers fit by their types.
fn add_rows(bytes: &mut Vec<u8>, words: u8, rows: &[CoverRow]) -> Result<(), NoMemory>
    requires few { words ≤ 4 }
    requires names { (r : CoverRowParts) → IsIn r rows.now → length r.names ≤ 384 }
    ensures bytes { OnOk result (bytes.new.items ≡ bytes.old.items ++ flat_map (cover_row_bytes words) rows.now) }
    ensures fit { OnOk result ((r : CoverRowParts) → IsIn r rows.now → AreRowWords r) }
{
    for k in 0..rows.len() {
        add_row(bytes, words, &rows[k])?;
    }
    Ok(())
}

// Adds a row, whose numbers fit by their types.
fn add_row(bytes: &mut Vec<u8>, words: u8, row: &CoverRow) -> Result<(), NoMemory>
    requires few { words ≤ 4 }
    requires names { length row.now.names ≤ 384 }
    ensures bytes { OnOk result (bytes.new.items ≡ bytes.old.items ++ cover_row_bytes words row.now) }
    ensures fit { OnOk result (AreRowWords row.now) }
{
    add_u32(bytes, row.cost)?;
    add_set(bytes, words, &row.position.red)?;
    add_set(bytes, words, &row.position.blue)?;
    add_u16(bytes, row.names.len() as u16)?;
    add_names(bytes, &row.names)?;
    Ok(())
}

// Adds names, which fit by their types.
fn add_names(bytes: &mut Vec<u8>, names: &[Cover]) -> Result<(), NoMemory>
    ensures bytes { OnOk result (bytes.new.items ≡ bytes.old.items ++ flat_map name_bytes names.now) }
    ensures fit { OnOk result ((n : Cover) → IsIn n names.now → NameFits n) }
{
    for name in names {
        add_u16(bytes, name.step)?;
        add_u32(bytes, name.row)?;
    }
    Ok(())
}
