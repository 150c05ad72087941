//! What the two commands print and write, worked by hand.
use crate::runs::run_line;
use improve_cli::Status;
use std::alloc::Global;
use std::process::Abort;
use std::test::Fail;

/// The kernel y = x + 1.
const P: &str = "kernel p { in x; out y; y = x + 1; }";

/// What `improve 2 t` prints of it: its first plan loads x and stores y, and none costs less.
const P_PRINTED: &str =
    "; kernel p\n; vertices 2\n; inputs 1\n; degree 1\n; slots 2\n; first 2\n; cost 2\n; bound 2\n; expanded 0\n; effort 20\n; verdict Optimal\nslots 2\nwords 2\nin x\nout y 1\nload 0 0\nadd 1 s0 #1\nstore 1 1\nend\n";

/// And the table that it writes: no rows, and the bound 2, since the output is not blue at the start and x is to be loaded.
const P_TABLE: [u8; 18] = [82, 66, 80, 84, 0, 1, 0, 2, 0, 2, 0, 0, 0, 2, 0, 0, 0, 0];

/// The same with the bound 3, which no table without rows proves.
const P_TABLE_WITH_3: [u8; 18] = [82, 66, 80, 84, 0, 1, 0, 2, 0, 2, 0, 0, 0, 3, 0, 0, 0, 0];

const USAGE: &str = "usage: improve improve S FILE [EFFORT [A B]], confirm S FILE [A B]\n";

/// Words and the file before, and the status, the printed text and the file that they give; the kernel is `P`.
#[derive(Clone, Copy)]
struct Row {
    words: &'static str,
    file: &'static [u8],
    status: Status,
    printed: &'static str,
    left: &'static [u8],
}

const ROWS: [Row; 9] = [
    Row {
        words: "improve 2 t",
        file: b"old",
        status: Status::Optimal,
        printed: P_PRINTED,
        left: &P_TABLE,
    },
    Row {
        words: "confirm 2 t",
        file: &P_TABLE,
        status: Status::Done,
        printed: "confirmed bound 2\n",
        left: &P_TABLE,
    },
    Row {
        words: "confirm 2 t",
        file: &P_TABLE_WITH_3,
        status: Status::Refused,
        printed: "refused reason 6 row 0\n",
        left: &P_TABLE_WITH_3,
    },
    Row {
        words: "confirm 3 t",
        file: &P_TABLE,
        status: Status::Refused,
        printed: "refused reason 3 row 0\n",
        left: &P_TABLE,
    },
    Row {
        words: "confirm 2 t",
        file: b"old",
        status: Status::Refused,
        printed: "refused reason 1 row 0\n",
        left: b"old",
    },
    Row {
        words: "improve 1 t 0",
        file: b"old",
        status: Status::TooSmall,
        printed: "too small needs 2\n",
        left: b"old",
    },
    Row {
        words: "improve 2 t 201",
        file: b"old",
        status: Status::Usage,
        printed: USAGE,
        left: b"old",
    },
    Row {
        words: "plan 2 t",
        file: b"old",
        status: Status::Usage,
        printed: USAGE,
        left: b"old",
    },
    Row {
        words: "confirm 2 t 1",
        file: b"old",
        status: Status::Usage,
        printed: USAGE,
        left: b"old",
    },
];

// The rows, of which the proof of a loop over them is to know nothing.
fn rows() -> &'static [Row] {
    &ROWS
}

// A run on `P` gives what its row says.
fn check_row(rt: &impl Abort, alloc: Global, row: Row) -> Result<(), Fail> {
    let left = run_line(alloc, row.words, P.as_bytes(), row.file, Vec::new(alloc))?;
    assert!(rt; left.status == row.status);
    assert_eq!(rt; left.output.as_slice(), row.printed.as_bytes());
    match &left.file {
        Some(file) => assert_eq!(rt; file.as_slice(), row.left),
        None => panic!(rt; "the file is there"),
    }
    Ok(())
}

/// Own answers, refusals, and words that spell no command.
#[test]
fn answers_to_a_small_kernel(rt: HostRuntime) -> Result<(), Fail> {
    for row in rows() {
        check_row(&rt, rt.alloc(), *row)?;
    }
    Ok(())
}

/// Sixteen words smoothed twice with the weights 1, 2, 1: 16 inputs, and 3 vertices for each of 14 and of 12 elements.
const TWO_SWEEPS: &str =
    "kernel two_sweeps { in x[16]; out y[12]; tmp t[16]; for i in 1..15 { t[i] = x[i - 1] + 2 * x[i] + x[i + 1]; } for i in 2..14 { y[i - 2] = t[i - 1] + 2 * t[i] + t[i + 1]; } }";

/// With seven slots each word is loaded once and each output is stored once, if an element of y follows the elements of t that it reads. The
/// source's order makes 46 transfers.
const TWO_SWEEPS_BEGINS: &str =
    "; kernel two_sweeps\n; vertices 94\n; inputs 16\n; degree 2\n; slots 7\n; first 46\n; cost 28\n";

/// A plan that the first one is not, and the table that goes with it is confirmed.
#[test]
fn two_sweeps_reach_28(rt: HostRuntime) -> Result<(), Fail> {
    let alloc = rt.alloc();
    let kernel = TWO_SWEEPS.as_bytes();
    let made = run_line(alloc, "improve 7 t 2", kernel, b"old", Vec::new(alloc))?;
    assert!(rt; made.output.starts_with(TWO_SWEEPS_BEGINS.as_bytes()));
    match &made.file {
        Some(table) => {
            let left = run_line(alloc, "confirm 7 t", kernel, table, Vec::new(alloc))?;
            assert!(rt; left.status == Status::Done);
        }
        None => panic!(rt; "the file is there"),
    }
    Ok(())
}
