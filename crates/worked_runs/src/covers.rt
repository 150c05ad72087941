//! The commands `cover` and `covercheck`: what they print, the file, what `cover` wrote under `covercheck`, a name that is none, and desks that
//! fail.
use crate::leaving::{Expected, check_failing, check_run};
use command_answers::Status;
use desk_io::Kind;
use example_runs::run_line;
use std::alloc::Global;
use std::process::Abort;
use std::test::Fail as TestFail;

/// The kernel y = x + 1.
const P: &str = "kernel p { in x; out y; y = x + 1; }";

/// A kernel with the vertices 0 (x), 1 (a), 2 (b), 3, 4 and 5 (y), and the degree 2.
const KNOT: &str =
    "kernel knot { in x; out y; tmp a; tmp b; tmp c; a = x+1; b = x*2; c = a*b; c = c*a; y = c*b; }";

/// A kernel with the vertices 0 (x), 1 (x + 1), 2 (x + 2), 3, 4 (x + 3), 5, 6 and 7 (y), and the degree 2.
const CHAIN: &str =
    "kernel chain { in x; out y; tmp a; tmp b; tmp c; a = x+1; b = x+2; c = a*b; c = c*(x+3); c = c*a; y = c*b; }";

/// What `cover 2 t` prints of P: one load and one store, which the floor of the start asks for.
const COVERED: &str =
    "; kernel p\n; vertices 2\n; inputs 1\n; degree 1\n; slots 2\n; first 2\n; cost 2\n; bound 2\n; expanded 0\n; budget 2000\n; verdict Optimal\nslots 2\nwords 2\nin x\nout y 1\nload 0 0\nadd 1 s0 #1\nstore 1 1\nend\n";

/// The file that it writes: version 1, two vertices, two slots, the weights 1 and 1, the bound 2 and no rows.
const FILE: [u8; 20] = [
    82, 66, 80, 67, 0, 1, 0, 2, 0, 2, 1, 1, 0, 0, 0, 2, 0, 0, 0, 0,
];

/// A file for CHAIN with three slots and the bound 6: its one row is the start at the cost 0, and its step at place 0, Work(1), names the row
/// itself, which does not cover where that step leads.
const NAMED: [u8; 48] = [
    82, 66, 80, 67, 0, 1, 0, 8, 0, 3, 1, 1, 0, 0, 0, 6, 0, 0, 0, 1, 0, 0, 0, 0, 0, 0, 0, 0, 0, 0,
    0, 0, 0, 0, 0, 0, 0, 0, 0, 1, 0, 1, 0, 0, 0, 0, 0, 0,
];

/// Words, a kernel, what the file holds, the status, and the printed text.
#[derive(Clone, Copy)]
struct Row(
    &'static str,
    &'static str,
    &'static [u8],
    Status,
    &'static str,
);

const ROWS: [Row; 8] = [
    Row("cover 2 t", P, b"old", Status::Optimal, COVERED),
    Row(
        "cover 1 t",
        P,
        b"old",
        Status::TooSmall,
        "too small needs 2\n",
    ),
    Row(
        "covercheck 2 t",
        P,
        &FILE,
        Status::Done,
        "accepted bound 2\n",
    ),
    // The same file for another number of slots, cut, and for `check`, which has a table of its own.
    Row(
        "covercheck 3 t",
        P,
        &FILE,
        Status::Refused,
        "refused reason 3 row 0\n",
    ),
    Row(
        "covercheck 2 t",
        P,
        b"RBPC",
        Status::Refused,
        "refused reason 1 row 0\n",
    ),
    Row(
        "check 2 t",
        P,
        &FILE,
        Status::Refused,
        "refused reason 1 row 0\n",
    ),
    Row(
        "covercheck 3 t",
        CHAIN,
        &NAMED,
        Status::Refused,
        "refused reason 10 row 0\n",
    ),
    Row(
        "covercheck 1 t",
        P,
        b"",
        Status::TooSmall,
        "too small needs 2\n",
    ),
];

// The rows, of which the proof of a loop over them is to know nothing.
fn rows() -> &'static [Row] {
    &ROWS
}

#[test]
fn covers(rt: HostRuntime) -> Result<(), TestFail> {
    for row in rows() {
        check_row(&rt, rt.alloc(), *row)?;
    }
    Ok(())
}

// The file holds the covered table after an optimal plan, and else what it held.
fn check_row(rt: &impl Abort, alloc: Global, row: Row) -> Result<(), TestFail> {
    let Row(words, kernel, file, status, printed) = row;
    let after = if status == Status::Optimal {
        FILE.as_slice()
    } else {
        file
    };
    let expected = Expected {
        status,
        output: printed.as_bytes(),
        file: after,
    };
    check_run(rt, alloc, words, kernel.as_bytes(), file, expected)
}

#[test]
fn covers_are_accepted(rt: HostRuntime) -> Result<(), TestFail> {
    let left = run_line(rt.alloc(), "cover 3 t", KNOT.as_bytes(), b"old")?;
    assert_eq!(rt; left.status, Status::Optimal);
    let report =
        "; kernel knot\n; vertices 6\n; inputs 1\n; degree 2\n; slots 3\n; first 4\n; cost 3\n; bound 3\n";
    assert!(rt; left.output.as_slice().starts_with(report.as_bytes()));
    let file = left.file.ok_or("no file")?;
    let checked = run_line(rt.alloc(), "covercheck 3 t", KNOT.as_bytes(), &file)?;
    assert_eq!(rt; checked.status, Status::Done);
    assert_eq!(rt; checked.output.as_slice(), b"accepted bound 3\n".as_slice());
    Ok(())
}

/// The kind of a call that fails, how many of its kind go before it, and the status, the output and the file that are left, over a desk that
/// moves a byte a call.
const FAILURES: [(Kind, u32, Status, &str, &[u8]); 5] = [
    (Kind::TakeInput, 0, Status::ReadFault, "", b"old"),
    (Kind::TakeFile, 0, Status::Optimal, COVERED, &FILE),
    (Kind::ClearFile, 0, Status::WriteFault, "", b"old"),
    (Kind::PutFile, 3, Status::WriteFault, "", b"RBP"),
    (Kind::PutOutput, 3, Status::WriteFault, "; k", &FILE),
];

// The failing calls, of which the proof of a loop over them is to know nothing.
fn failures() -> &'static [(Kind, u32, Status, &'static str, &'static [u8])] {
    &FAILURES
}

#[test]
fn desks_that_fail(rt: HostRuntime) -> Result<(), TestFail> {
    for (kind, nth, status, output, file) in failures() {
        let expected = Expected {
            status: *status,
            output: output.as_bytes(),
            file,
        };
        check_failing(
            &rt,
            rt.alloc(),
            "cover 2 t",
            P.as_bytes(),
            (*kind, *nth),
            expected,
        )?;
    }
    Ok(())
}
