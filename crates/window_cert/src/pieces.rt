//! Numbers, sets and rows at the front of bytes.
ghost use Rattle.std.specs.Prelude.{◌≡◌, ℕ, ◌+◌, ◌*◌, ◌++◌, ◌∷◌, [], ◌<◌, ◌≤◌, ◌↔◌, IsTrue, nat_eq, length, MatchOption, IfOk, IfErr};
ghost use Rattle.std.specs.Int.{bit_at};
ghost use Rattle.comp_graph.specs.Vertices.{AllBelow};
ghost use Rattle.potential_cert.specs.Readings.{BeginsWithNumber};
ghost use Rattle.window_cert.specs.Bytes.{first_bytes, set_bytes, row_bytes, RowFits};
ghost use Rattle.window_cert.specs.Readings.{BeginsWith, BeginsWithNone};
ghost use Rattle.window_cert.specs.Faults.{FaultOfRow};

use crate::stop::Stop;
use comp_graph::VertexSet;
use pebble_rules::Position;
use potential_cert::Row;
use potential_cert::cursor::Cursor;

// The number in the next byte.
pub(crate) fn next_u8(cursor: &mut Cursor) -> Option<u8>
    ensures { MatchOption result (length cursor.old < 1)
        (BeginsWithNumber 1 cursor.old cursor.new) }
{
    if cursor.left() < 1 {
        return None;
    }
    Some(cursor.take_u8())
}

// The number in the next four bytes.
pub(crate) fn next_u32(cursor: &mut Cursor) -> Option<u32>
    ensures { MatchOption result (length cursor.old < 4)
        (BeginsWithNumber 4 cursor.old cursor.new) }
{
    if cursor.left() < 4 {
        return None;
    }
    Some(cursor.take_u32())
}

// The set of so many vertices in the next bytes.
pub(crate) fn next_set(cursor: &mut Cursor, vertices: u16) -> Option<VertexSet>
    requires { vertices ≤ 256 }
    ensures { MatchOption result (BeginsWithNone (set_bytes vertices)
        (AllBelow vertices) cursor.old)
        (BeginsWith (set_bytes vertices) (AllBelow vertices) cursor.old cursor.new) }
{
    let count = (vertices + 7) / 8;
    if cursor.left() < count as usize {
        return None;
    }
    let set = take_set(cursor, count);
    if !is_below(&set, vertices) {
        return None;
    }
    Some(set)
}

// The row in the next bytes.
pub(crate) fn next_row(cursor: &mut Cursor, vertices: u16) -> Result<Row, Stop>
    requires { vertices ≤ 256 }
    ensures ok { IfOk result (BeginsWith (row_bytes vertices) (RowFits vertices)
        cursor.old cursor.new) }
    ensures fault { IfErr result (λ e. (left : ℕ) → e ≡ Stop.Shape left
        → FaultOfRow vertices cursor.old left) }
{
    let left = cursor.left();
    let red = match next_set(cursor, vertices) {
        Some(red) => red,
        None => return Err(Stop::Shape { left }),
    };
    let left = cursor.left();
    let blue = match next_set(cursor, vertices) {
        Some(blue) => blue,
        None => return Err(Stop::Shape { left }),
    };
    let left = cursor.left();
    let cost = match next_u32(cursor) {
        Some(cost) => cost,
        None => return Err(Stop::Shape { left }),
    };
    let position = Position { red, blue };
    Ok(Row { position, cost })
}

// The set in so many bytes.
fn take_set(cursor: &mut Cursor, count: u16) -> VertexSet
    requires few { count ≤ 32 }
    requires long { count ≤ length cursor.old }
    ensures below { AllBelow (8 * count) result }
    ensures bytes { cursor.old ≡ first_bytes count result ++ cursor.new }
{
    let mut set = VertexSet::empty();
    'bytes: for k in 0..count {
        let byte = cursor.take_u8();
        set = with_byte(&set, k, byte);
    }
    set
}

// The set with byte k, which has no member from there on.
fn with_byte(set: &VertexSet, k: u16, byte: u8) -> VertexSet
    requires few { k < 32 }
    requires below { AllBelow (8 * k) set.now }
    ensures below { AllBelow (8 * k + 8) result }
    ensures bytes { first_bytes (k + 1) result ≡ first_bytes k set.now ++ byte ∷ [] }
{
    let mut grown = *set;
    'bits: for i in 0..8u16 {
        if has_bit(byte, i) {
            grown = grown.with(8 * k + i);
        }
    }
    grown
}

// Whether bit i of a byte is set.
fn has_bit(byte: u8, i: u16) -> bool
    requires { i < 8 }
    ensures { result ≡ nat_eq (bit_at byte i) 1 }
{
    (byte >> i) & 1 == 1
}

// Whether each member of a set is below a number.
fn is_below(set: &VertexSet, vertices: u16) -> bool
    requires few { vertices ≤ 256 }
    requires bounded { AllBelow 256 set.now }
    ensures { IsTrue result ↔ AllBelow vertices set.now }
{
    'rest: for v in vertices..256 {
        if set.has(v) {
            return false;
        }
    }
    true
}
