//! The command `check`: tables that were worked out by hand, accepted and refused; a table that is cut or changed byte by byte; and tables that
//! `plan` wrote.
use command_answers::Status;
use example_runs::{run_line, run_on, words_of};
use std::alloc::Global;
use std::process::Abort;
use std::test::Fail;

/// The kernel y = x + 1.
const P: &str = "kernel p { in x; out y; y = x + 1; }";

/// A kernel with the vertices 0 (x), 1 (x + 1), 2 (x + 2), 3, 4 (x + 3), 5, 6 and 7 (y), and the degree 2.
const CHAIN: &str =
    "kernel chain { in x; out y; tmp a; tmp b; tmp c; a = x+1; b = x+2; c = a*b; c = c*(x+3); c = c*a; y = c*b; }";

/// A kernel that reads an input early and late: 0 (x), 1 (z), 2 (z + 1), 3 (x * t), 4 (y).
const TWICE: &str = "kernel k { in x; in z; out y; tmp t; t = z + 1; y = x * t; y = y * z; }";

/// The numbers of a table: its version, its numbers of vertices and slots, its bound and its number of rows.
type Numbers = (u8, u8, u8, u8, u8);

/// A row by its cost, its red and its blue vertices: vertex v is bit v.
type Line = (u8, u8, u8);

/// The start of P and of CHAIN: nothing is red, and vertex 0 is blue.
const START: Line = (0, 0, 1);

/// What Work(1) leads to from there.
const WORKED: Line = (1, 3, 1);

/// The start of TWICE, and the two positions of its table of bound 4.
const BEGIN: Line = (0, 0, 3);

const LOADED: Line = (1, 2, 3);

const SUMMED: Line = (1, 6, 3);

/// Words, a kernel, the numbers and the lines of a table, of which as many are rows as the numbers say, the status, and what is printed.
#[derive(Clone, Copy)]
struct Row(
    &'static str,
    &'static str,
    Numbers,
    [Line; 3],
    Status,
    &'static str,
);

const NONE: [Line; 3] = [START, START, START];

const ROWS: [Row; 32] = [
    // What a search of one row makes of CHAIN: the bound is the store of y and the load of x.
    Row(
        "check 3 t",
        CHAIN,
        (1, 8, 3, 2, 1),
        [START, START, START],
        Status::Done,
        "accepted bound 2\n",
    ),
    // Work(1) leads to no row, and offers 2: the load of x and the store of y.
    Row(
        "check 3 t",
        CHAIN,
        (1, 8, 3, 3, 1),
        [START, START, START],
        Status::Refused,
        "refused reason 7 row 0\n",
    ),
    // The same file with another number of slots, and for another kernel.
    Row(
        "check 4 t",
        CHAIN,
        (1, 8, 3, 2, 1),
        [START, START, START],
        Status::Refused,
        "refused reason 3 row 0\n",
    ),
    Row(
        "check 3 t",
        P,
        (1, 8, 3, 2, 1),
        [START, START, START],
        Status::Refused,
        "refused reason 2 row 0\n",
    ),
    // No rows: the bound is at most the floor of the start, or it is not.
    Row(
        "check 2 t",
        P,
        (1, 2, 2, 2, 0),
        NONE,
        Status::Done,
        "accepted bound 2\n",
    ),
    Row(
        "check 2 t",
        P,
        (1, 2, 2, 0, 0),
        NONE,
        Status::Done,
        "accepted bound 0\n",
    ),
    Row(
        "check 2 t",
        P,
        (1, 2, 2, 3, 0),
        NONE,
        Status::Refused,
        "refused reason 6 row 0\n",
    ),
    Row(
        "check 3 t",
        P,
        (1, 2, 2, 2, 0),
        NONE,
        Status::Refused,
        "refused reason 3 row 0\n",
    ),
    Row(
        "check 3 t",
        TWICE,
        (1, 5, 3, 3, 0),
        NONE,
        Status::Done,
        "accepted bound 3\n",
    ),
    // Three rows for 4. A search expands more than these: it does not know which rows the bound needs.
    Row(
        "check 3 t",
        TWICE,
        (1, 5, 3, 4, 3),
        [BEGIN, LOADED, SUMMED],
        Status::Done,
        "accepted bound 4\n",
    ),
    // Spill(2) from the last row offers 4. Without that row Work(2) from the first one offers 3, and the same where it costs 2.
    Row(
        "check 3 t",
        TWICE,
        (1, 5, 3, 5, 3),
        [BEGIN, LOADED, SUMMED],
        Status::Refused,
        "refused reason 7 row 2\n",
    ),
    Row(
        "check 3 t",
        TWICE,
        (1, 5, 3, 4, 2),
        [BEGIN, LOADED, SUMMED],
        Status::Refused,
        "refused reason 7 row 0\n",
    ),
    Row(
        "check 3 t",
        TWICE,
        (1, 5, 3, 4, 3),
        [BEGIN, LOADED, (2, 6, 3)],
        Status::Refused,
        "refused reason 7 row 0\n",
    ),
    // Rows of greater costs than any search gives them, with a bound that is lower: Work(1) leads to a row that costs too much to answer it,
    // and offers 2 itself. From that row the bound is below what was paid.
    Row(
        "check 3 t",
        CHAIN,
        (1, 8, 3, 2, 2),
        [START, (9, 3, 1), START],
        Status::Done,
        "accepted bound 2\n",
    ),
    Row(
        "check 2 t",
        P,
        (1, 2, 2, 1, 2),
        [START, (5, 3, 1), START],
        Status::Done,
        "accepted bound 1\n",
    ),
    // A row alone that no play reaches at that cost: it pays more than the bound, and the start is no row but has the floor 2.
    Row(
        "check 2 t",
        P,
        (1, 2, 2, 2, 1),
        [(7, 3, 1), START, START],
        Status::Done,
        "accepted bound 2\n",
    ),
    // A row that can finish for 2, as the best play does, and one that is said to cost less than any play pays.
    Row(
        "check 2 t",
        P,
        (1, 2, 2, 2, 2),
        [START, WORKED, START],
        Status::Done,
        "accepted bound 2\n",
    ),
    Row(
        "check 2 t",
        P,
        (1, 2, 2, 2, 2),
        [START, (0, 3, 1), START],
        Status::Refused,
        "refused reason 7 row 1\n",
    ),
    // Rows out of order, and twice the same.
    Row(
        "check 2 t",
        P,
        (1, 2, 2, 2, 2),
        [WORKED, START, START],
        Status::Refused,
        "refused reason 4 row 1\n",
    ),
    Row(
        "check 2 t",
        P,
        (1, 2, 2, 2, 3),
        [START, WORKED, WORKED],
        Status::Refused,
        "refused reason 4 row 2\n",
    ),
    // A vertex that is none, red and blue; an input that is not blue; more red vertices than slots.
    Row(
        "check 2 t",
        P,
        (1, 2, 2, 2, 2),
        [START, (1, 4, 1), START],
        Status::Refused,
        "refused reason 5 row 1\n",
    ),
    Row(
        "check 2 t",
        P,
        (1, 2, 2, 2, 1),
        [(0, 0, 5), START, START],
        Status::Refused,
        "refused reason 5 row 0\n",
    ),
    Row(
        "check 2 t",
        P,
        (1, 2, 2, 2, 1),
        [(0, 0, 2), START, START],
        Status::Refused,
        "refused reason 5 row 0\n",
    ),
    Row(
        "check 3 t",
        TWICE,
        (1, 5, 3, 3, 1),
        [(9, 15, 3), START, START],
        Status::Refused,
        "refused reason 5 row 0\n",
    ),
    // The output is blue at no cost: each step loads x, so it pays 1, and to finish pays nothing.
    Row(
        "check 3 t",
        CHAIN,
        (1, 8, 3, 1, 1),
        [(0, 0, 129), START, START],
        Status::Refused,
        "refused reason 8 row 0\n",
    ),
    // Weights of 2 and 3 in the file, where a load and a store cost 1; and no such version.
    Row(
        "check 2 t",
        P,
        (2, 2, 2, 5, 0),
        NONE,
        Status::Refused,
        "refused reason 9 row 0\n",
    ),
    Row(
        "check 2 t",
        P,
        (3, 2, 2, 5, 0),
        NONE,
        Status::Refused,
        "refused reason 1 row 0\n",
    ),
    // What stands before the file.
    Row(
        "check 2 t",
        CHAIN,
        (1, 8, 2, 2, 0),
        NONE,
        Status::TooSmall,
        "too small needs 3\n",
    ),
    Row(
        "check 2 t",
        "kernel a { out y; }",
        (1, 8, 2, 2, 0),
        NONE,
        Status::Kernel,
        "kernel fault K10 at 15\n",
    ),
    Row("check 65 t", P, (1, 2, 2, 2, 0), NONE, Status::Usage, USAGE),
    Row("check 02 t", P, (1, 2, 2, 2, 0), NONE, Status::Usage, USAGE),
    Row(
        "check 2 t 0",
        P,
        (1, 2, 2, 2, 0),
        NONE,
        Status::Usage,
        USAGE,
    ),
];

const USAGE: &str =
    "usage: pebble plan S TABLE [BUDGET [A B]], check S TABLE [A B], run VALUES, exec VALUES, graph, trial N S TABLE, cover S FILE [BUDGET], covercheck S FILE, parts S K FILE [BUDGET], judge S PLAY, tidy S PLAY, cache S TABLE [BUDGET]\n";

// Adds a number of four bytes and one of eight, each of which is below 256.
fn add_word(bytes: &mut Vec<u8>, zeros: usize, number: u8) -> Result<(), Fail> {
    for _zero in 0..zeros {
        bytes.push(0)?;
    }
    bytes.push(number)?;
    Ok(())
}

// The bytes of a table with these numbers and as many of the lines as they say. Version 2 has the weights 2 and 3.
fn table(alloc: Global, numbers: Numbers, lines: [Line; 3]) -> Result<Vec<u8>, Fail> {
    let (version, vertices, slots, bound, rows) = numbers;
    let mut bytes = Vec::from_slice(alloc, b"RBPT")?;
    add_word(&mut bytes, 1, version)?;
    add_word(&mut bytes, 1, vertices)?;
    add_word(&mut bytes, 1, slots)?;
    if version == 2 {
        bytes.push(2)?;
        bytes.push(3)?;
    }
    add_word(&mut bytes, 3, bound)?;
    add_word(&mut bytes, 3, rows)?;
    for (k, (cost, red, blue)) in lines.into_iter().enumerate() {
        if k < rows as usize {
            add_word(&mut bytes, 3, cost)?;
            add_word(&mut bytes, 7, red)?;
            add_word(&mut bytes, 7, blue)?;
        }
    }
    Ok(bytes)
}

#[test]
fn tables_that_are_checked(rt: HostRuntime) -> Result<(), Fail> {
    check_rows(&rt, rt.alloc(), &ROWS)
}

// Each row gives what it says. The proof of the loop knows nothing of the rows.
fn check_rows(rt: &impl Abort, alloc: Global, rows: &[Row]) -> Result<(), Fail> {
    for row in rows {
        check_row(rt, alloc, *row)?;
    }
    Ok(())
}

// The words, the kernel and the table of a row give what the row says, and the file stays.
fn check_row(rt: &impl Abort, alloc: Global, row: Row) -> Result<(), Fail> {
    let Row(words, kernel, numbers, lines, status, printed) = row;
    let bytes = table(alloc, numbers, lines)?;
    let left = run_line(alloc, words, kernel.as_bytes(), &bytes)?;
    assert_eq!(rt; left.output.as_slice(), printed.as_bytes());
    assert_eq!(rt; left.status, status);
    let file = left.file.ok_or("no file")?;
    assert_eq!(rt; file.as_slice(), bytes.as_slice());
    Ok(())
}

/// The bytes of the first table of `ROWS`: 38.
const TABLE: [u8; 38] = [
    82, 66, 80, 84, 0, 1, 0, 8, 0, 3, 0, 0, 0, 2, 0, 0, 0, 1, 0, 0, 0, 0, 0, 0, 0, 0, 0, 0, 0, 0,
    0, 0, 0, 0, 0, 0, 0, 1,
];

/// The bytes of a table of P in version 2, but with weights of 1 and 1.
const ONES: [u8; 20] = [
    82, 66, 80, 84, 0, 2, 0, 2, 0, 2, 1, 1, 0, 0, 0, 2, 0, 0, 0, 0,
];

// The bound of the line that accepts it.
fn accepted_bound(printed: &str) -> Option<u32> {
    let number = printed.strip_prefix("accepted bound ")?.strip_suffix("\n")?;
    number.parse::<u32>().ok()
}

// What `check 3 t` on CHAIN prints where the file holds these bytes.
fn printed(rt: &impl Abort, alloc: Global, bytes: &[u8]) -> Result<String, Fail> {
    let left = run_line(alloc, "check 3 t", CHAIN.as_bytes(), bytes)?;
    let text = String::from_str(alloc, str::from_utf8(left.output.as_slice())?)?;
    let accepted = accepted_bound(text.as_str());
    let expected = if accepted.is_some() {
        Status::Done
    } else {
        Status::Refused
    };
    assert_eq!(rt; left.status, expected);
    Ok(text)
}

#[test]
fn tables_that_are_cut_or_changed(rt: HostRuntime) -> Result<(), Fail> {
    let alloc = rt.alloc();
    let mut longer = TABLE.to_vec(alloc)?;
    assert_eq!(rt;
        printed(&rt, alloc, &longer)?.as_str(),
        "accepted bound 2\n"
    );
    longer.push(0)?;
    assert_eq!(rt;
        printed(&rt, alloc, &longer)?.as_str(),
        "refused reason 1 row 0\n"
    );
    for length in 0..38 {
        let text = printed(&rt, alloc, &TABLE[..length])?;
        assert_eq!(rt; text.as_str(), "refused reason 1 row 0\n", "{length} bytes");
    }
    // Weights of 1 and 1 have version 1 alone.
    let left = run_line(alloc, "check 2 t", P.as_bytes(), ONES.as_slice())?;
    assert_eq!(rt;
        left.output.as_slice(),
        b"refused reason 1 row 0\n".as_slice()
    );
    // A play of cost 5 is known, so no bound above 5 may be accepted, whatever the bytes say.
    for place in 0..38 {
        let mut bytes = TABLE;
        bytes[place] = bytes[place].wrapping_add(1);
        let text = printed(&rt, alloc, bytes.as_slice())?;
        match accepted_bound(text.as_str()) {
            Some(bound) => assert!(rt; bound <= 5, "byte {place}"),
            None => assert!(rt;
                text.as_str().starts_with("refused reason "),
                "byte {place}"
            ),
        }
    }
    Ok(())
}

/// A kernel whose first plan costs 4, and its cheapest 3.
const KNOT: &str =
    "kernel knot { in x; out y; tmp a; tmp b; tmp c; a = x+1; b = x*2; c = a*b; c = c*a; y = c*b; }";

/// Words of `plan`, words of `check`, a kernel, and what `check` prints of the table that `plan` wrote.
const PLANNED: [(&str, &str, &str, &str); 4] = [
    ("plan 2 t", "check 2 t", P, "accepted bound 2\n"),
    ("plan 3 t 1", "check 3 t", CHAIN, "accepted bound 2\n"),
    ("plan 3 t", "check 3 t", CHAIN, "accepted bound 5\n"),
    ("plan 3 t", "check 3 t", KNOT, "accepted bound 3\n"),
];

// The rows of plans, of which the proof of a loop over them is to know nothing.
fn plans() -> &'static [(&'static str, &'static str, &'static str, &'static str)] {
    &PLANNED
}

#[test]
fn tables_that_are_planned(rt: HostRuntime) -> Result<(), Fail> {
    for (plan, check, kernel, printed) in plans() {
        check_planned(&rt, rt.alloc(), plan, check, kernel.as_bytes(), printed)?;
    }
    Ok(())
}

// The table that the words of a plan write is accepted by the words of a check.
fn check_planned(
    rt: &impl Abort,
    alloc: Global,
    plan: &str,
    check: &str,
    kernel: &[u8],
    printed: &str,
) -> Result<(), Fail> {
    let planned = run_line(alloc, plan, kernel, b"old")?;
    let table = planned.file.ok_or("no file")?;
    let left = run_line(alloc, check, kernel, &table)?;
    assert_eq!(rt; left.output.as_slice(), printed.as_bytes());
    assert_eq!(rt; left.status, Status::Done);
    Ok(())
}

#[test]
fn a_table_that_is_missing(rt: HostRuntime) -> Result<(), Fail> {
    let words = words_of(rt.alloc(), "check 3 t")?;
    let fails = Vec::new(rt.alloc());
    let left = run_on(rt.alloc(), &words, CHAIN.as_bytes(), None, 1, fails)?;
    assert_eq!(rt; left.status, Status::ReadFault);
    assert_eq!(rt; left.output.len(), 0);
    assert!(rt; left.file.is_none());
    // Too few slots stand before the file.
    let words = words_of(rt.alloc(), "check 2 t")?;
    let fails = Vec::new(rt.alloc());
    let left = run_on(rt.alloc(), &words, CHAIN.as_bytes(), None, 1, fails)?;
    assert_eq!(rt; left.status, Status::TooSmall);
    Ok(())
}
