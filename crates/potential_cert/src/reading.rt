//! Reading a table from bytes.
ghost use Rattle.std.specs.Prelude.{◌≡◌, true, ℕ, ◌+◌, ◌*◌, ◌/◌, ◌≤◌, ◌&&◌, ◌||◌, nat_eq, nat_lt, length, drop, Some, None, IfOk, IfErr, [], ⊤};
ghost use Rattle.potential_cert.specs.Table.{TableParts};
ghost use Rattle.potential_cert.specs.TableBytes.{IsSpelling};
ghost use Rattle.potential_cert.specs.Shapes as shapes;
ghost use Rattle.potential_cert.specs.Headers.{numbers_in};
ghost use Rattle.potential_cert.specs.Readings.{AreBytes, BeginsWithNumbers, BeginsWithRows};

use crate::cursor::Cursor;
use crate::end::TableEnd;
use crate::tables::{Row, Table};
use byteorder::{BigEndian, ByteOrder};
use comp_graph::{NoMemory, Weights};
use std::alloc::Global;

/// `RBPT` as a number.
const MARK: u32 = 1380077652;

/// Reads a table. `Shape` comes exactly where the bytes spell none, with the place of the first fault.
pub fn read_table(alloc: Global, bytes: &[u8]) -> Result<Table, TableEnd>
    requires few { length bytes.now ≤ 20000000 }
    ensures ok { IfOk result (IsSpelling bytes.now) }
    ensures shape { IfErr result (λ e. (at : ℕ) → e ≡ TableEnd.Shape at → shapes.shape_place bytes.now ≡ Some at) }
    ensures none { IfErr result (λ e. (at : ℕ) → e ≡ TableEnd.Shape at → (t : TableParts) → IsSpelling bytes.now t → ⊥) }
{
    if let Some(at) = shape_fault(bytes) {
        return Err(TableEnd::Shape { at });
    }
    let Header {
        vertices,
        slots,
        weights,
        bound,
        rows,
        start,
    } = read_header(bytes);
    let words = (vertices as usize + 63) / 64;
    let mut cursor = Cursor::new(&bytes[start..]);
    let rows = read_rows(alloc, &mut cursor, words, rows)?;
    Ok(Table {
        slots,
        vertices,
        weights,
        bound,
        rows,
    })
}

// ---- where the bytes fail to spell a table

// The place where the bytes fail to spell a table.
fn shape_fault(bytes: &[u8]) -> Option<u32>
    requires few { length bytes.now ≤ 20000000 }
    ensures { result ≡ shapes.shape_place bytes.now }
{
    if let Some(at) = number_fault(bytes) {
        return Some(at);
    }
    if let Some(at) = weight_fault(bytes) {
        return Some(at);
    }
    let whole = table_length(bytes);
    let length = bytes.len() as u64;
    if length != whole {
        return Some(length.min(whole) as u32);
    }
    None
}

// The place of the first fault of the numbers but the weights.
fn number_fault(bytes: &[u8]) -> Option<u32>
    requires few { length bytes.now ≤ 20000000 }
    ensures { result ≡ shapes.first_place (shapes.number_faults bytes.now) }
{
    if bytes.len() < 18 {
        return Some(bytes.len() as u32);
    }
    if u32_at(bytes, 0) != MARK {
        return Some(0);
    }
    let version = u16_at(bytes, 4);
    if !is_known(version) {
        return Some(4);
    }
    if lacks_weights(version, bytes.len()) {
        return Some(bytes.len() as u32);
    }
    if u16_at(bytes, 6) > 256 {
        return Some(6);
    }
    if is_outside(64, u16_at(bytes, 8)) {
        return Some(8);
    }
    None
}

// The place of the first fault of the weights.
fn weight_fault(bytes: &[u8]) -> Option<u32>
    requires long { 18 ≤ length bytes.now }
    requires weights { shapes.is_second bytes.now ≡ true → 20 ≤ length bytes.now }
    ensures { result ≡ shapes.first_place (shapes.weight_faults bytes.now) }
{
    if u16_at(bytes, 4) != 2 {
        return None;
    }
    let load = u8_at(bytes, 10);
    if is_outside(16, load as u16) {
        return Some(10);
    }
    let store = u8_at(bytes, 11);
    if is_outside(16, store as u16) {
        return Some(11);
    }
    if are_ones(load, store) {
        return Some(10);
    }
    None
}

// Whether there is such a version.
fn is_known(version: u16) -> bool
    ensures { result ≡ (nat_eq version 1 || nat_eq version 2) }
{
    version == 1 || version == 2
}

// Whether the version has weights for which there are too few bytes.
fn lacks_weights(version: u16, length: usize) -> bool
    ensures { result ≡ (nat_eq version 2 && nat_lt length 20) }
{
    version == 2 && length < 20
}

// Whether the number is not from 1 to `most`.
fn is_outside(most: u16, number: u16) -> bool
    ensures { result ≡ shapes.is_outside most number }
{
    number == 0 || most < number
}

// Whether both weights are 1.
fn are_ones(load: u8, store: u8) -> bool
    ensures { result ≡ (nat_eq load 1 && nat_eq store 1) }
{
    load == 1 && store == 1
}

// How many bytes the numbers call for.
fn table_length(bytes: &[u8]) -> u64
    requires long { 18 ≤ length bytes.now }
    requires weights { shapes.is_second bytes.now ≡ true → 20 ≤ length bytes.now }
    ensures { result ≡ shapes.table_length bytes.now }
{
    let words = (u16_at(bytes, 6) as u64 + 63) / 64;
    if u16_at(bytes, 4) == 2 {
        return 20 + u32_at(bytes, 16) as u64 * (4 + 16 * words);
    }
    18 + u32_at(bytes, 14) as u64 * (4 + 16 * words)
}

// ---- what stands where

// The number in one byte.
fn u8_at(bytes: &[u8], place: usize) -> u8
    requires { place + 1 ≤ length bytes.now }
    ensures { result ≡ shapes.number_at place 1 bytes.now }
{
    bytes[place]
}

// The number in two bytes.
fn u16_at(bytes: &[u8], place: usize) -> u16
    requires { place + 2 ≤ length bytes.now }
    ensures { result ≡ shapes.number_at place 2 bytes.now }
{
    BigEndian::read_u16(&bytes[place..])
}

// The number in four bytes.
fn u32_at(bytes: &[u8], place: usize) -> u32
    requires { place + 4 ≤ length bytes.now }
    ensures { result ≡ shapes.number_at place 4 bytes.now }
{
    BigEndian::read_u32(&bytes[place..])
}

// The numbers of a table, and how many bytes they take.
#[derive(Clone, Copy)]
struct Header {
    vertices: u16,
    slots: u16,
    weights: Weights,
    bound: u32,
    rows: u32,
    start: usize,
}

// The numbers of a table.
fn read_header(bytes: &[u8]) -> Header
    requires shape { shapes.shape_place bytes.now ≡ None }
    requires bytes { AreBytes bytes.now }
    ensures numbers { BeginsWithNumbers bytes.now (drop (shapes.header_length bytes.now) bytes.now) (numbers_in result) }
    ensures start { result.start ≡ shapes.header_length bytes.now }
    ensures within { result.start ≤ length bytes.now }
    ensures rows { length bytes.now ≡ shapes.table_length bytes.now }
    ensures vertices { result.vertices ≡ shapes.number_at 6 2 bytes.now }
    ensures count { shapes.table_length bytes.now ≡ result.start + result.rows * (4 + 16 * ((result.vertices + 63) / 64)) }
{
    let vertices = u16_at(bytes, 6);
    let slots = u16_at(bytes, 8);
    if u16_at(bytes, 4) == 2 {
        let load = u8_at(bytes, 10);
        let store = u8_at(bytes, 11);
        return Header {
            vertices,
            slots,
            weights: Weights { load, store },
            bound: u32_at(bytes, 12),
            rows: u32_at(bytes, 16),
            start: 20,
        };
    }
    Header {
        vertices,
        slots,
        weights: Weights { load: 1, store: 1 },
        bound: u32_at(bytes, 10),
        rows: u32_at(bytes, 14),
        start: 18,
    }
}

// All rows.
fn read_rows(
    alloc: Global,
    cursor: &mut Cursor,
    words: usize,
    count: u32,
) -> Result<Vec<Row>, NoMemory>
    requires few { words ≤ 4 }
    requires long { length cursor.old ≡ count * (4 + 16 * words) }
    ensures { IfOk result (λ rows. BeginsWithRows words count cursor.old [] rows.items) }
{
    let mut rows = Vec::new(alloc);
    for _k in 0..count {
        let row = cursor.take_row(words);
        rows.push(row)?;
    }
    Ok(rows)
}
