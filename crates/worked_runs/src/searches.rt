//! Plans by the search: the numbers, the code and the table of the worked examples with a budget, and with none in the words.
use crate::leaving::{Expected, check_run};
use command_answers::Status;
use example_runs::run_line;
use std::alloc::Global;
use std::process::Abort;
use std::test::Fail;

const CHAIN: &str =
    "kernel chain { in x; out y; tmp a; tmp b; tmp c; a = x+1; b = x+2; c = a*b; c = c*(x+3); c = c*a; y = c*b; }";

const KNOT: &str =
    "kernel knot { in x; out y; tmp a; tmp b; tmp c; a = x+1; b = x*2; c = a*b; c = c*a; y = c*b; }";

const DOT: &str =
    "kernel dot { in A[4]; in B[4]; out y; tmp s; s = A[0]*B[0]; for i in 1..4 { s = s + A[i]*B[i]; } y = s; }";

const MATRIX_VECTOR: &str =
    "kernel mv { in A[4][4]; in x[4]; out y[4]; for i in 0..4 { y[i] = A[i][0]*x[0]; for j in 1..4 { y[i] = y[i] + A[i][j]*x[j]; } } }";

/// The code of the first plan of `CHAIN` with three slots.
const CHAIN_CODE: &str =
    "slots 3\nwords 4\nin x\nout y 3\nload 0 0\nadd 1 s0 #1\nadd 2 s0 #2\nmul 0 s1 s2\nstore 2 1\nstore 1 2\nload 1 0\nadd 2 s1 #3\nmul 1 s0 s2\nload 0 2\nmul 2 s1 s0\nload 0 1\nmul 1 s2 s0\nstore 1 3\nend\n";

/// Words, a kernel, the status, the report up to the number of expanded positions, and the rest of the report.
#[derive(Clone, Copy)]
struct Row(
    &'static str,
    &'static str,
    Status,
    &'static str,
    &'static str,
);

const ROWS: [Row; 9] = [
    Row(
        "plan 1 t",
        "kernel w { in x; out y; y = x; }",
        Status::Optimal,
        "; kernel w\n; vertices 1\n; inputs 1\n; degree 0\n; slots 1\n; first 0\n; cost 0\n; bound 0\n; expanded 0\n",
        "; budget 20000\n; verdict Optimal\nslots 1\nwords 1\nin x\nout y 0\nend\n",
    ),
    Row(
        "plan 1 t",
        "kernel c { out y; y = 2*3+1; }",
        Status::Optimal,
        "; kernel c\n; vertices 1\n; inputs 0\n; degree 0\n; slots 1\n; first 1\n; cost 1\n; bound 1\n; expanded ",
        "; budget 20000\n; verdict Optimal\nslots 1\nwords 1\nout y 0\nset 0 #7\nstore 0 0\nend\n",
    ),
    Row(
        "plan 2 t",
        "kernel q { in x; out y; y = x*x; }",
        Status::Optimal,
        "; kernel q\n; vertices 2\n; inputs 1\n; degree 1\n; slots 2\n; first 2\n; cost 2\n; bound 2\n; expanded ",
        "; budget 20000\n; verdict Optimal\nslots 2\nwords 2\nin x\nout y 1\nload 0 0\nmul 1 s0 s0\nstore 1 1\nend\n",
    ),
    Row(
        "plan 1 t",
        "kernel e { }",
        Status::Optimal,
        "; kernel e\n; vertices 0\n; inputs 0\n; degree 0\n; slots 1\n; first 0\n; cost 0\n; bound 0\n; expanded ",
        "; budget 20000\n; verdict Optimal\nslots 1\nwords 0\nend\n",
    ),
    // Computing both sums again beats storing one and loading it.
    Row(
        "plan 4 t",
        CHAIN,
        Status::Optimal,
        "; kernel chain\n; vertices 8\n; inputs 1\n; degree 2\n; slots 4\n; first 4\n; cost 2\n; bound 2\n; expanded ",
        "; budget 20000\n; verdict Optimal\nslots 4\n",
    ),
    Row(
        "plan 3 t",
        KNOT,
        Status::Optimal,
        "; kernel knot\n; vertices 6\n; inputs 1\n; degree 2\n; slots 3\n; first 4\n; cost 3\n; bound 3\n; expanded ",
        "; budget 20000\n; verdict Optimal\nslots 3\n",
    ),
    // The last sum is wanted last: with the product before it nothing is stored between. Fourteen positions are expanded, as docs/PLAN.md tells.
    Row(
        "plan 3 t",
        "kernel late { in x; out y; tmp a; tmp b; a = x + 1; b = x * 2; a = a * x; y = b * a; }",
        Status::Optimal,
        "; kernel late\n; vertices 5\n; inputs 1\n; degree 2\n; slots 3\n; first 4\n; cost 2\n; bound 2\n; expanded 14\n",
        "; budget 20000\n; verdict Optimal\nslots 3\nwords 2\nin x\nout y 1\nload 0 0\nadd 1 s0 #1\nmul 2 s1 s0\nmul 1 s0 #2\nmul 0 s1 s2\nstore 0 1\nend\n",
    ),
    Row(
        "plan 4 t",
        DOT,
        Status::Optimal,
        "; kernel dot\n; vertices 15\n; inputs 8\n; degree 2\n; slots 4\n; first 9\n; cost 9\n; bound 9\n; expanded 0\n",
        "; budget 20000\n; verdict Optimal\nslots 4\n",
    ),
    Row(
        "plan 8 t",
        MATRIX_VECTOR,
        Status::Optimal,
        "; kernel mv\n; vertices 48\n; inputs 20\n; degree 2\n; slots 8\n; first 24\n; cost 24\n; bound 24\n; expanded 0\n",
        "; budget 20000\n; verdict Optimal\nslots 8\n",
    ),
];

// A run prints these two parts of a report and of a code, with at most the rest of one line between them.
fn check_row(rt: &impl Abort, alloc: Global, row: Row) -> Result<(), Fail> {
    let Row(words, kernel, status, numbers, rest) = row;
    let left = run_line(alloc, words, kernel.as_bytes(), b"old")?;
    assert_eq!(rt; left.status, status, "{words}");
    let output = str::from_utf8(left.output.as_slice())?;
    assert!(rt; output.starts_with(numbers), "{words}");
    assert!(rt; output.contains(rest), "{words}");
    Ok(())
}

#[test]
fn plans_by_the_search(rt: HostRuntime) -> Result<(), Fail> {
    for row in rows() {
        check_row(&rt, rt.alloc(), *row)?;
    }
    Ok(())
}

// The rows, of which the proof of a loop over them is to know nothing.
fn rows() -> &'static [Row] {
    &ROWS
}

/// Loads and stores of three slots are five: a load before the first of four products, one between each two, and the store.
#[test]
fn a_longer_search(rt: HostRuntime) -> Result<(), Fail> {
    let row = Row(
        "plan 3 t",
        CHAIN,
        Status::Optimal,
        "; kernel chain\n; vertices 8\n; inputs 1\n; degree 2\n; slots 3\n; first 7\n; cost 5\n; bound 5\n; expanded ",
        "; budget 20000\n; verdict Optimal\nslots 3\n",
    );
    check_row(&rt, rt.alloc(), row)
}

/// Words, the end of the report on `CHAIN` from the cost on, and the table: with the budget 1 its row is the start, and with 2 the position
/// behind the first sum, too.
const OPEN: [(&str, &str, &[u8]); 2] = [
    (
        "plan 3 t 1",
        "; cost 7\n; bound 2\n; expanded 1\n; budget 1\n; verdict Open\n",
        &[
            82, 66, 80, 84, 0, 1, 0, 8, 0, 3, 0, 0, 0, 2, 0, 0, 0, 1, 0, 0, 0, 0, 0, 0, 0, 0, 0, 0,
            0, 0, 0, 0, 0, 0, 0, 0, 0, 1,
        ],
    ),
    (
        "plan 3 t 2",
        "; cost 7\n; bound 2\n; expanded 2\n; budget 2\n; verdict Open\n",
        &[
            82, 66, 80, 84, 0, 1, 0, 8, 0, 3, 0, 0, 0, 2, 0, 0, 0, 2, 0, 0, 0, 0, 0, 0, 0, 0, 0, 0,
            0, 0, 0, 0, 0, 0, 0, 0, 0, 1, 0, 0, 0, 1, 0, 0, 0, 0, 0, 0, 0, 3, 0, 0, 0, 0, 0, 0, 0,
            1,
        ],
    ),
];

// The plans that are left open, of which the proof of a loop over them is to know nothing.
fn left_open() -> &'static [(&'static str, &'static str, &'static [u8])] {
    &OPEN
}

#[test]
fn plans_with_a_spent_budget(rt: HostRuntime) -> Result<(), Fail> {
    for (words, numbers, table) in left_open() {
        check_open(&rt, rt.alloc(), words, numbers, table)?;
    }
    Ok(())
}

// The words of a plan of CHAIN leave it open, with these numbers and this table.
fn check_open(
    rt: &impl Abort,
    alloc: Global,
    words: &str,
    numbers: &str,
    table: &[u8],
) -> Result<(), Fail> {
    let output = format!(in alloc;
        "; kernel chain\n; vertices 8\n; inputs 1\n; degree 2\n; slots 3\n; first 7\n{numbers}{CHAIN_CODE}"
    )?;
    let expected = Expected {
        status: Status::Open,
        output: output.as_bytes(),
        file: table,
    };
    check_run(rt, alloc, words, CHAIN.as_bytes(), b"old", expected)
}
