//! Writing a table as bytes.
ghost use Rattle.std.specs.Prelude.{◌≡◌, ◌++◌, ◌≤◌, ◌<◌, ◌^◌, flat_map, OnOk, IfOk};
ghost use Rattle.potential_cert.specs.TableBytes.{big_endian, set_bytes, row_bytes, table_bytes, version_of, weight_bytes, AreWords, IsInRange, IsSpelling};

use crate::tables::{Row, Table};
use byteorder::{BigEndian, ByteOrder};
use comp_graph::{NoMemory, VertexSet, Weights};
use std::alloc::Global;

/// The bytes of a table, as docs/FORMATS.md lays them out: version 1 where both weights are 1, else version 2, which has the weights. The
/// table has at most 256 vertices, from 1 to 64 slots, weights from 1 to 16, and fewer than 2^32 rows, whose sets lie below 64 times
/// the number of words of a set.
pub fn write_table(alloc: Global, t: &Table) -> Result<Vec<u8>, NoMemory>
    requires { IsInRange t.now }
    ensures { IfOk result (λ bytes. IsSpelling bytes.items t.now) }
{
    let bytes = spell(alloc, t)?;
    Ok(bytes)
}

// The bytes of a table, and what the types of its numbers say.
fn spell(alloc: Global, t: &Table) -> Result<Vec<u8>, NoMemory>
    requires { IsInRange t.now }
    ensures bytes { IfOk result (λ bytes. bytes.items ≡ table_bytes t.now) }
    ensures bound { IfOk result (λ bytes. t.now.bound < 2 ^ 32) }
    ensures costs { IfOk result (λ bytes. AreWords t.now.rows) }
{
    let mut bytes = Vec::from_slice(alloc, b"RBPT")?;
    add_u16(&mut bytes, version(t.weights))?;
    add_u16(&mut bytes, t.vertices)?;
    add_u16(&mut bytes, t.slots)?;
    add_weights(&mut bytes, t.weights)?;
    add_u32(&mut bytes, t.bound)?;
    add_u32(&mut bytes, t.rows.len() as u32)?;
    let words = (t.vertices + 63) / 64;
    add_rows(&mut bytes, words as u8, &t.rows)?;
    Ok(bytes)
}

// The version that these weights are written in.
fn version(weights: Weights) -> u16
    ensures { result ≡ version_of weights.load weights.store }
{
    if weights.load == 1 && weights.store == 1 {
        1
    } else {
        2
    }
}

// Adds weights where the version has them.
fn add_weights(bytes: &mut Vec<u8>, weights: Weights) -> Result<(), NoMemory>
    ensures { OnOk result (bytes.new.items ≡ bytes.old.items ++ weight_bytes weights.load weights.store) }
{
    if version(weights) == 2 {
        add_u8(bytes, weights.load)?;
        add_u8(bytes, weights.store)?;
    }
    Ok(())
}

// Adds rows, whose costs have 32 bits.
fn add_rows(bytes: &mut Vec<u8>, words: u8, rows: &[Row]) -> Result<(), NoMemory>
    requires { words ≤ 4 }
    ensures bytes { OnOk result (bytes.new.items ≡ bytes.old.items ++ flat_map (row_bytes words) rows.now) }
    ensures costs { OnOk result (AreWords rows.now) }
{
    for row in rows {
        add_u32(bytes, row.cost)?;
        add_set(bytes, words, &row.position.red)?;
        add_set(bytes, words, &row.position.blue)?;
    }
    Ok(())
}

/// Adds the first words of a set.
pub fn add_set(bytes: &mut Vec<u8>, words: u8, set: &VertexSet) -> Result<(), NoMemory>
    requires { words ≤ 4 }
    ensures { OnOk result (bytes.new.items ≡ bytes.old.items ++ set_bytes words set.now) }
{
    for k in 0..words {
        add_u64(bytes, set.word(k))?;
    }
    Ok(())
}

/// Adds a number in one byte.
pub fn add_u8(bytes: &mut Vec<u8>, number: u8) -> Result<(), NoMemory>
    ensures { OnOk result (bytes.new.items ≡ bytes.old.items ++ big_endian 1 number) }
{
    bytes.push(number)?;
    Ok(())
}

/// Adds a number in two bytes.
pub fn add_u16(bytes: &mut Vec<u8>, number: u16) -> Result<(), NoMemory>
    ensures bytes { OnOk result (bytes.new.items ≡ bytes.old.items ++ big_endian 2 number) }
    ensures small { number < 2 ^ 16 }
{
    let mut piece = [0; 2];
    BigEndian::write_u16(&mut piece, number);
    bytes.extend_from_slice(&piece)?;
    Ok(())
}

/// Adds a number in four bytes.
pub fn add_u32(bytes: &mut Vec<u8>, number: u32) -> Result<(), NoMemory>
    ensures bytes { OnOk result (bytes.new.items ≡ bytes.old.items ++ big_endian 4 number) }
    ensures small { number < 2 ^ 32 }
{
    let mut piece = [0; 4];
    BigEndian::write_u32(&mut piece, number);
    bytes.extend_from_slice(&piece)?;
    Ok(())
}

// Adds a number in eight bytes.
fn add_u64(bytes: &mut Vec<u8>, number: u64) -> Result<(), NoMemory>
    ensures { OnOk result (bytes.new.items ≡ bytes.old.items ++ big_endian 8 number) }
{
    let mut piece = [0; 8];
    BigEndian::write_u64(&mut piece, number);
    bytes.extend_from_slice(&piece)?;
    Ok(())
}
