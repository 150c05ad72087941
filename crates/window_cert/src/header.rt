//! The numbers of a certificate, read from the front of bytes.
ghost use Rattle.std.specs.Prelude.{◌≡◌, ◌≤◌, length, MatchOption};
ghost use Rattle.potential_cert.specs.Shapes as shapes;
ghost use Rattle.window_cert.specs.Bytes.{header_bytes, HeaderFits};
ghost use Rattle.window_cert.specs.Readings.{BeginsWith, BeginsWithNone};
ghost use Rattle.window_cert.specs.Headers.{are_weights, is_header, raw_bytes, RawFits, numbers_in};

use comp_graph::Weights;
use potential_cert::cursor::Cursor;

/// `RBPW` as a number.
const MARK: u32 = 1380077655;

/// The version of the format.
const VERSION: u16 = 1;

// The first numbers of some bytes.
#[derive(Clone, Copy)]
pub(crate) struct Header {
    pub(crate) mark: u32,
    pub(crate) version: u16,
    pub(crate) vertices: u16,
    pub(crate) slots: u16,
    pub(crate) weights: Weights,
    pub(crate) bound: u32,
}

// The numbers of a certificate, which come next.
pub(crate) fn read_header(cursor: &mut Cursor) -> Option<Header>
    ensures { MatchOption result (BeginsWithNone header_bytes HeaderFits cursor.old)
        (λ h. BeginsWith header_bytes HeaderFits cursor.old cursor.new (numbers_in h)) }
{
    if cursor.left() < 16 {
        return None;
    }
    let header = take_header(cursor);
    if !is_header(&header) {
        return None;
    }
    Some(header)
}

// The numbers that come next.
fn take_header(cursor: &mut Cursor) -> Header
    requires { 16 ≤ length cursor.old }
    ensures { BeginsWith raw_bytes RawFits cursor.old cursor.new result }
{
    let mark = cursor.take_u32();
    let version = cursor.take_u16();
    let vertices = cursor.take_u16();
    let slots = cursor.take_u16();
    let load = cursor.take_u8();
    let store = cursor.take_u8();
    let bound = cursor.take_u32();
    let weights = Weights { load, store };
    Header {
        mark,
        version,
        vertices,
        slots,
        weights,
        bound,
    }
}

// Whether the numbers are those of a certificate.
fn is_header(header: &Header) -> bool
    ensures { result ≡ is_header header.now }
{
    header.mark == MARK
        && header.version == VERSION
        && !is_outside(256, header.vertices)
        && !is_outside(64, header.slots)
        && are_weights(&header.weights)
}

// Whether both weights are from 1 to 16.
fn are_weights(weights: &Weights) -> bool
    ensures { result ≡ are_weights weights.now.load weights.now.store }
{
    !is_outside(16, u16::from(weights.load)) && !is_outside(16, u16::from(weights.store))
}

// Whether the number is not from 1 to `most`.
fn is_outside(most: u16, number: u16) -> bool
    ensures { result ≡ shapes.is_outside most number }
{
    number == 0 || most < number
}
