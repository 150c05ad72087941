//! The command `trial`: its lines, its table, too few slots, and desks that fail. What stands in the input is no kernel.
use crate::leaving::{Expected, check_failing};
use command_answers::Status;
use desk_io::Kind;
use example_runs::run_line;
use std::alloc::Global;
use std::process::Abort;
use std::test::Fail as TestFail;

const INPUT: &[u8] = b"no kernel";

/// What `trial 1 3 t` prints, and the table that it writes: 17 vertices, three slots, the bound 3 and no rows.
const ONE: &str = "trial 1\nvertices 17\nfirst 3\ncost 3 bound 3\nexpanded 0 Optimal\n";

const ONE_TABLE: [u8; 18] = [82, 66, 80, 84, 0, 1, 0, 17, 0, 3, 0, 0, 0, 3, 0, 0, 0, 0];

/// Words, the status, the printed text, and how many bytes the file has then; it has 3 before.
const ROWS: [(&str, Status, &str, usize); 7] = [
    ("trial 1 3 t", Status::Done, ONE, 18),
    ("trial 1 2 t", Status::TooSmall, "too small needs 3\n", 3),
    (
        "trial 3 3 t",
        Status::Done,
        "trial 3\nvertices 19\nfirst 4\ncost 4 bound 4\nexpanded 0 Optimal\n",
        18,
    ),
    // A row has 4 bytes for its cost and 8 for each of two sets of at most 64 vertices.
    (
        "trial 8 3 t",
        Status::Done,
        "trial 8\nvertices 24\nfirst 10\ncost 10 bound 10\nexpanded 19 Optimal\n",
        398,
    ),
    // The budget is spent, and the answer is Done all the same.
    (
        "trial 16 3 t",
        Status::Done,
        "trial 16\nvertices 32\nfirst 22\ncost 22 bound 15\nexpanded 2000 Open\n",
        40018,
    ),
    (
        "trial 200 6 t",
        Status::Done,
        "trial 200\nvertices 216\nfirst 86\ncost 86 bound 18\nexpanded 2000 Open\n",
        136018,
    ),
    // With so many slots the first plan stores the output alone, and loads each input once.
    (
        "trial 200 64 t",
        Status::Done,
        "trial 200\nvertices 216\nfirst 17\ncost 17 bound 17\nexpanded 0 Optimal\n",
        18,
    ),
];

// The rows, of which the proof of a loop over them is to know nothing.
fn rows() -> &'static [(&'static str, Status, &'static str, usize)] {
    &ROWS
}

#[test]
fn trials(rt: HostRuntime) -> Result<(), TestFail> {
    for (words, status, printed, bytes) in rows() {
        check_trial(&rt, rt.alloc(), words, *status, printed, *bytes)?;
    }
    Ok(())
}

// The words end with this status, print this text, and leave a file of so many bytes.
fn check_trial(
    rt: &impl Abort,
    alloc: Global,
    words: &str,
    status: Status,
    printed: &str,
    bytes: usize,
) -> Result<(), TestFail> {
    let left = run_line(alloc, words, INPUT, b"old")?;
    assert_eq!(rt; left.status, status, "{words}");
    assert_eq!(rt; left.output.as_slice(), printed.as_bytes(), "{words}");
    let file = left.file.ok_or("no file")?;
    assert_eq!(rt; file.len(), bytes, "{words}");
    Ok(())
}

/// The kind of a call that fails, how many of its kind go before it, and the status, the output and the file that are left, over a desk that
/// moves a byte a call.
const FAILURES: [(Kind, u32, Status, &str, &[u8]); 6] = [
    (Kind::TakeInput, 0, Status::Done, ONE, &ONE_TABLE),
    (Kind::TakeFile, 0, Status::Done, ONE, &ONE_TABLE),
    (Kind::ClearFile, 0, Status::WriteFault, "", b"old"),
    (Kind::PutFile, 2, Status::WriteFault, "", b"RB"),
    (Kind::PutOutput, 0, Status::WriteFault, "", &ONE_TABLE),
    (Kind::PutOutput, 3, Status::WriteFault, "tri", &ONE_TABLE),
];

// The failing calls, of which the proof of a loop over them is to know nothing.
fn failures() -> &'static [(Kind, u32, Status, &'static str, &'static [u8])] {
    &FAILURES
}

#[test]
fn desks_that_fail(rt: HostRuntime) -> Result<(), TestFail> {
    for (kind, nth, status, output, file) in failures() {
        let expected = Expected {
            status: *status,
            output: output.as_bytes(),
            file,
        };
        check_failing(
            &rt,
            rt.alloc(),
            "trial 1 3 t",
            INPUT,
            (*kind, *nth),
            expected,
        )?;
    }
    Ok(())
}
