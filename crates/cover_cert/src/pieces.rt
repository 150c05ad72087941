//! Numbers and sets at the front of bytes, where there are enough of them.
ghost use Rattle.std.specs.Prelude.{◌*◌, ◌<◌, ◌≤◌, length, MatchOption};
ghost use Rattle.potential_cert.specs.Readings.{BeginsWithNumber, BeginsWithSet};

use comp_graph::VertexSet;
use potential_cert::cursor::Cursor;

// The number in the next byte.
pub(crate) fn next_u8(cursor: &mut Cursor) -> Option<u8>
    ensures { MatchOption result (length cursor.old < 1) (BeginsWithNumber 1 cursor.old cursor.new) }
{
    if cursor.left() < 1 {
        return None;
    }
    Some(cursor.take_u8())
}

// The number in the next two bytes.
pub(crate) fn next_u16(cursor: &mut Cursor) -> Option<u16>
    ensures { MatchOption result (length cursor.old < 2) (BeginsWithNumber 2 cursor.old cursor.new) }
{
    if cursor.left() < 2 {
        return None;
    }
    Some(cursor.take_u16())
}

// The number in the next four bytes.
pub(crate) fn next_u32(cursor: &mut Cursor) -> Option<u32>
    ensures { MatchOption result (length cursor.old < 4) (BeginsWithNumber 4 cursor.old cursor.new) }
{
    if cursor.left() < 4 {
        return None;
    }
    Some(cursor.take_u32())
}

// The set in so many next words of eight bytes.
pub(crate) fn next_set(cursor: &mut Cursor, count: usize) -> Option<VertexSet>
    requires { count ≤ 4 }
    ensures { MatchOption result (length cursor.old < 8 * count) (BeginsWithSet count cursor.old cursor.new) }
{
    if cursor.left() < 8 * count {
        return None;
    }
    Some(cursor.take_set(count))
}
