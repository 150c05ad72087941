//! Weights of a load and a store: the report, the code and the table of a plan, and the check of that table. All numbers were worked out by
//! hand.
use command_answers::Status;
use example_runs::run_line;
use std::alloc::{AllocError, Global};
use std::test::Fail;

/// The kernel y = x + 1.
const P: &str = "kernel p { in x; out y; y = x + 1; }";

const CHAIN: &str =
    "kernel chain { in x; out y; tmp a; tmp b; tmp c; a = x+1; b = x+2; c = a*b; c = c*(x+3); c = c*a; y = c*b; }";

const KNOT: &str =
    "kernel knot { in x; out y; tmp a; tmp b; tmp c; a = x+1; b = x*2; c = a*b; c = c*a; y = c*b; }";

/// What `plan 2 t 0 2 3` prints of P: one load and one store, which weigh 2 and 3.
const WEIGHED: &str =
    "; kernel p\n; vertices 2\n; inputs 1\n; degree 1\n; slots 2\n; load 2\n; store 3\n; first 5\n; cost 5\n; bound 5\n; expanded 0\n; budget 0\n; verdict Optimal\nslots 2\nwords 2\nin x\nout y 1\nload 0 0\nadd 1 s0 #1\nstore 1 1\nend\n";

/// Its table: `RBPT`, version 2, 2 vertices, 2 slots, the weights 2 and 3, the bound 5 and no rows.
const TABLE: [u8; 20] = [
    82, 66, 80, 84, 0, 2, 0, 2, 0, 2, 2, 3, 0, 0, 0, 5, 0, 0, 0, 0,
];

/// The same bytes with both weights 1, which version 1 alone spells.
const UNIT_TABLE: [u8; 20] = [
    82, 66, 80, 84, 0, 2, 0, 2, 0, 2, 1, 1, 0, 0, 0, 5, 0, 0, 0, 0,
];

/// What `plan 3 t 0 1 5` prints of CHAIN: the first plan has four loads and three stores.
const FIRST: &str =
    "; kernel chain\n; vertices 8\n; inputs 1\n; degree 2\n; slots 3\n; load 1\n; store 5\n; first 19\n; cost 19\n; bound 6\n; expanded 0\n; budget 0\n; verdict Open\nslots 3\nwords 4\nin x\nout y 3\nload 0 0\nadd 1 s0 #1\nadd 2 s0 #2\nmul 0 s1 s2\nstore 2 1\nstore 1 2\nload 1 0\nadd 2 s1 #3\nmul 1 s0 s2\nload 0 2\nmul 2 s1 s0\nload 0 1\nmul 1 s2 s0\nstore 1 3\nend\n";

/// Words, an input, what the file holds, the status, and how the printed text begins.
const ROWS: [(&str, &str, &[u8], Status, &str); 11] = [
    ("plan 2 t 0 2 3", P, b"old", Status::Optimal, WEIGHED),
    (
        "check 2 t 2 3",
        P,
        &TABLE,
        Status::Done,
        "accepted bound 5\n",
    ),
    (
        "check 2 t",
        P,
        &TABLE,
        Status::Refused,
        "refused reason 9 row 0\n",
    ),
    (
        "check 2 t 3 2",
        P,
        &TABLE,
        Status::Refused,
        "refused reason 9 row 0\n",
    ),
    (
        "check 2 t",
        P,
        &UNIT_TABLE,
        Status::Refused,
        "refused reason 1 row 0\n",
    ),
    ("plan 3 t 0 1 5", CHAIN, b"old", Status::Open, FIRST),
    (
        "exec v",
        FIRST,
        b"1",
        Status::Done,
        "y = 144\n; transfers 7\n",
    ),
    // The first plan has two loads and two stores. The cheapest has two loads and one store: it computes a again from x.
    (
        "plan 3 t 2000 1 16",
        KNOT,
        b"old",
        Status::Optimal,
        "; kernel knot\n; vertices 6\n; inputs 1\n; degree 2\n; slots 3\n; load 1\n; store 16\n; first 34\n; cost 18\n; bound 18\n",
    ),
    (
        "plan 3 t 2000 4 1",
        KNOT,
        b"old",
        Status::Optimal,
        "; kernel knot\n; vertices 6\n; inputs 1\n; degree 2\n; slots 3\n; load 4\n; store 1\n; first 10\n; cost 9\n; bound 9\n",
    ),
    (
        "plan 3 t 0 4",
        KNOT,
        b"old",
        Status::Usage,
        "usage: pebble plan S TABLE [BUDGET [A B]], check S TABLE [A B], ",
    ),
    (
        "check 3 t 0 1",
        KNOT,
        b"old",
        Status::Usage,
        "usage: pebble plan S TABLE [BUDGET [A B]], check S TABLE [A B], ",
    ),
];

// The rows, of which the proof of a loop over them is to know nothing.
fn rows() -> &'static [(
    &'static str,
    &'static str,
    &'static [u8],
    Status,
    &'static str,
)] {
    &ROWS
}

// The status and the printed text that the words leave.
fn left_by(
    alloc: Global,
    line: &str,
    input: &[u8],
    file: &[u8],
) -> Result<(Status, Vec<u8>), AllocError> {
    let left = run_line(alloc, line, input, file)?;
    Ok((left.status, left.output))
}

#[test]
fn weighed_runs(rt: HostRuntime) -> Result<(), Fail> {
    for (line, input, file, status, printed) in rows() {
        let left = left_by(rt.alloc(), line, input.as_bytes(), file)?;
        assert!(rt; left.0 == *status, "{line}");
        assert!(rt; left.1.starts_with(printed.as_bytes()), "{line}");
    }
    Ok(())
}

#[test]
fn weighed_table(rt: HostRuntime) -> Result<(), Fail> {
    let left = run_line(rt.alloc(), "plan 2 t 0 2 3", P.as_bytes(), b"old")?;
    let file = left.file.ok_or("no file")?;
    assert_eq!(rt; file.as_slice(), TABLE.as_slice());
    Ok(())
}
