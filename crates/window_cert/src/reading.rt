//! The windows of a certificate, read from the front of bytes.
ghost use Rattle.std.specs.Prelude.{◌≡◌, ℕ, ◌≤◌, IfOk, IfErr};
ghost use Rattle.window_cert.specs.Bytes.{counted, window_bytes, AllFit, WindowFits};
ghost use Rattle.window_cert.specs.Readings.{BeginsWith};
ghost use Rattle.window_cert.specs.Faults.{FaultOfSets, FaultOfWindow, FaultOfWindows};
ghost use Rattle.window_cert.specs.Parts.{sets_bytes, SetsFit};

use crate::certs::CertWindow;
use crate::parts::{are_rising, read_charged, read_renamings, read_rows};
use crate::pieces::{next_set, next_u32};
use crate::stop::Stop;
use comp_graph::VertexSet;
use potential_cert::cursor::Cursor;
use std::alloc::Global;

// The windows that come next, after their number.
pub(crate) fn read_windows(
    alloc: Global,
    cursor: &mut Cursor,
    vertices: u16,
) -> Result<Vec<CertWindow>, Stop>
    requires { vertices ≤ 256 }
    ensures ok { IfOk result (λ all. BeginsWith (counted (window_bytes vertices))
        (AllFit (WindowFits vertices)) cursor.old cursor.new all.items) }
    ensures fault { IfErr result (λ e. (left : ℕ) → e ≡ Stop.Shape left
        → FaultOfWindows vertices cursor.old left) }
{
    let left = cursor.left();
    let count = match next_u32(cursor) {
        Some(count) => count,
        None => return Err(Stop::Shape { left }),
    };
    let mut windows = Vec::new(alloc);
    'windows: for _k in 0..count {
        let window = match read_window(alloc, cursor, vertices) {
            Ok(window) => window,
            Err(stop) => return Err(stop),
        };
        windows.push(window)?;
    }
    Ok(windows)
}

// The window that comes next.
fn read_window(alloc: Global, cursor: &mut Cursor, vertices: u16) -> Result<CertWindow, Stop>
    requires { vertices ≤ 256 }
    ensures ok { IfOk result (BeginsWith (window_bytes vertices) (WindowFits vertices)
        cursor.old cursor.new) }
    ensures fault { IfErr result (λ e. (left : ℕ) → e ≡ Stop.Shape left
        → FaultOfWindow vertices cursor.old left) }
{
    let charged = match read_charged(alloc, cursor, vertices) {
        Ok(charged) => charged,
        Err(stop) => return Err(stop),
    };
    let sets = match next_sets(cursor, vertices) {
        Ok(sets) => sets,
        Err(stop) => return Err(stop),
    };
    let renamings = match read_renamings(alloc, cursor, vertices) {
        Ok(renamings) => renamings,
        Err(stop) => return Err(stop),
    };
    let left = cursor.left();
    let bound = match next_u32(cursor) {
        Some(bound) => bound,
        None => return Err(Stop::Shape { left }),
    };
    let left = cursor.left();
    let rows = match read_rows(alloc, cursor, vertices) {
        Ok(rows) => rows,
        Err(stop) => return Err(stop),
    };
    if !are_rising(&rows) {
        return Err(Stop::Shape { left });
    }
    let ThreeSets {
        stores,
        tracked,
        required,
    } = sets;
    Ok(CertWindow {
        charged,
        stores,
        tracked,
        required,
        renamings,
        bound,
        rows,
    })
}

// The three sets of a window.
#[derive(Clone, Copy)]
struct ThreeSets {
    stores: VertexSet,
    tracked: VertexSet,
    required: VertexSet,
}

// The three sets that come next.
fn next_sets(cursor: &mut Cursor, vertices: u16) -> Result<ThreeSets, Stop>
    requires { vertices ≤ 256 }
    ensures ok { IfOk result (BeginsWith (sets_bytes vertices) (SetsFit vertices)
        cursor.old cursor.new) }
    ensures fault { IfErr result (λ e. (left : ℕ) → e ≡ Stop.Shape left
        → FaultOfSets vertices cursor.old left) }
{
    let left = cursor.left();
    let stores = match next_set(cursor, vertices) {
        Some(stores) => stores,
        None => return Err(Stop::Shape { left }),
    };
    let left = cursor.left();
    let tracked = match next_set(cursor, vertices) {
        Some(tracked) => tracked,
        None => return Err(Stop::Shape { left }),
    };
    let left = cursor.left();
    let required = match next_set(cursor, vertices) {
        Some(required) => required,
        None => return Err(Stop::Shape { left }),
    };
    Ok(ThreeSets {
        stores,
        tracked,
        required,
    })
}
