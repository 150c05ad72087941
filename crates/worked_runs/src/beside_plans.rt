//! The commands `cache` and `parts`: what they print, the tables that they write, and desks that fail.
use crate::leaving::{Expected, check_failing};
use command_answers::Status;
use desk_io::Kind;
use example_runs::run_line;
use std::alloc::Global;
use std::process::Abort;
use std::test::Fail as TestFail;

/// The kernel y = x + 1.
const P: &str = "kernel p { in x; out y; y = x + 1; }";

/// A kernel with the vertices 0 (x), 1 (a), 2 (b), 3, 4 and 5 (y), and the degree 2.
const KNOT: &str =
    "kernel knot { in x; out y; tmp a; tmp b; tmp c; a = x+1; b = x*2; c = a*b; c = c*a; y = c*b; }";

/// A matrix of four rows times a vector: 20 inputs and 28 operations.
const PRODUCT: &str =
    "kernel mv { in A[4][4]; in x[4]; out y[4]; for i in 0..4 { y[i] = A[i][0]*x[0]; for j in 1..4 { y[i] = y[i] + A[i][j]*x[j]; } } }";

/// What `cache 2 t` prints of P: the cache loads x and stores y, as the plan does. Its table has two vertices, two slots and the bound 2.
const CACHED: &str =
    "cache loads 1\ncache stores 1\ncache hits 0\ncache cost 2\nplan cost 2 bound 2\n";

const TABLE: [u8; 18] = [82, 66, 80, 84, 0, 1, 0, 2, 0, 2, 0, 0, 0, 2, 0, 0, 0, 0];

/// What `parts 2 1 t` prints of P. The part is the whole, so its table is that of the plan.
const PARTED: &str = "parts 1\npart 0 vertices 2 cost 2 bound 2\nsum 2\n";

/// Words, a kernel, the status, the printed text, and how many bytes the file has then; it has 3 before.
#[derive(Clone, Copy)]
struct Row(
    &'static str,
    &'static str,
    Status,
    &'static str,
    Option<usize>,
);

const ROWS: [Row; 8] = [
    Row("cache 2 t", P, Status::Optimal, CACHED, Some(18)),
    // The cache stores and loads again what the plan computes again; the table has a row for each position that the search expanded.
    Row(
        "cache 3 t",
        KNOT,
        Status::Optimal,
        "cache loads 2\ncache stores 4\ncache hits 6\ncache cost 6\nplan cost 3 bound 3\n",
        None,
    ),
    // Without a search the plan is the first one, and the bound is one load and one store.
    Row(
        "cache 3 t 0",
        KNOT,
        Status::Open,
        "cache loads 2\ncache stores 4\ncache hits 6\ncache cost 6\nplan cost 4 bound 2\n",
        Some(18),
    ),
    Row(
        "cache 1 t",
        P,
        Status::TooSmall,
        "too small needs 2\n",
        Some(3),
    ),
    Row("parts 2 1 t", P, Status::Done, PARTED, Some(18)),
    Row(
        "parts 8 4 t",
        PRODUCT,
        Status::Done,
        "parts 4\npart 0 vertices 15 cost 9 bound 9\npart 1 vertices 11 cost 5 bound 5\npart 2 vertices 11 cost 5 bound 5\npart 3 vertices 11 cost 5 bound 5\nsum 24\n",
        Some(72),
    ),
    Row(
        "parts 3 1 t",
        KNOT,
        Status::Done,
        "parts 1\npart 0 vertices 6 cost 3 bound 3\nsum 3\n",
        None,
    ),
    Row(
        "parts 2 4 t",
        "kernel a { ? }",
        Status::Kernel,
        "kernel fault K1 at 11\n",
        Some(3),
    ),
];

// The rows, of which the proof of a loop over them is to know nothing.
fn rows() -> &'static [Row] {
    &ROWS
}

#[test]
fn caches_and_parts(rt: HostRuntime) -> Result<(), TestFail> {
    for row in rows() {
        check_row(&rt, rt.alloc(), *row)?;
    }
    Ok(())
}

// The words and the kernel of a row print what the row says, and leave a file of so many bytes, if it says how many.
fn check_row(rt: &impl Abort, alloc: Global, row: Row) -> Result<(), TestFail> {
    let Row(words, kernel, status, printed, bytes) = row;
    let left = run_line(alloc, words, kernel.as_bytes(), b"old")?;
    assert_eq!(rt; left.status, status, "{words}");
    assert_eq!(rt; left.output.as_slice(), printed.as_bytes(), "{words}");
    let file = left.file.ok_or("no file")?;
    assert!(rt; bytes.is_none_or(|bytes| bytes == file.len()), "{words}");
    Ok(())
}

/// Words, the kind of a call that fails, how many of its kind go before it, and the status, the output and the file that are left, over a
/// desk that moves a byte a call.
const FAILURES: [(&str, Kind, u32, Status, &str, &[u8]); 8] = [
    (
        "cache 2 t",
        Kind::TakeInput,
        0,
        Status::ReadFault,
        "",
        b"old",
    ),
    (
        "cache 2 t",
        Kind::TakeFile,
        0,
        Status::Optimal,
        CACHED,
        &TABLE,
    ),
    (
        "cache 2 t",
        Kind::ClearFile,
        0,
        Status::WriteFault,
        "",
        b"old",
    ),
    ("cache 2 t", Kind::PutFile, 2, Status::WriteFault, "", b"RB"),
    (
        "cache 2 t",
        Kind::PutOutput,
        3,
        Status::WriteFault,
        "cac",
        &TABLE,
    ),
    (
        "parts 2 1 t",
        Kind::TakeFile,
        0,
        Status::Done,
        PARTED,
        &TABLE,
    ),
    (
        "parts 2 1 t",
        Kind::ClearFile,
        0,
        Status::WriteFault,
        "",
        b"old",
    ),
    (
        "parts 2 1 t",
        Kind::PutOutput,
        0,
        Status::WriteFault,
        "",
        &TABLE,
    ),
];

// The failing calls, of which the proof of a loop over them is to know nothing.
fn failures() -> &'static [(&'static str, Kind, u32, Status, &'static str, &'static [u8])] {
    &FAILURES
}

#[test]
fn desks_that_fail(rt: HostRuntime) -> Result<(), TestFail> {
    for (line, kind, nth, status, output, file) in failures() {
        let expected = Expected {
            status: *status,
            output: output.as_bytes(),
            file,
        };
        check_failing(&rt, rt.alloc(), line, P.as_bytes(), (*kind, *nth), expected)?;
    }
    Ok(())
}
