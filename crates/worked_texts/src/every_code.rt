//! A text for each code of a fault. Each command answers it.
use crate::texts::{check_fault, push_times};
use example_runs::run_line;
use std::alloc::{AllocError, Global};
use std::process::Abort;
use std::test::Fail;

/// A text for each fault, with its code and its place; two texts are too long to stand here.
const FAULTS: [(u8, usize, &str); 15] = [
    (1, 11, "kernel a { ? }"),
    (2, 22, "kernel a { out y; y = 9223372036854775808; }"),
    (3, 16, "kernel a { in x out y; }"),
    (4, 22, "kernel a { out y; y = z; }"),
    (5, 21, "kernel a { in x; out x; }"),
    (6, 28, "kernel a { in x; out y; y = x[0]; }"),
    (7, 31, "kernel a { in A[3]; out y; y = A[3]; }"),
    (8, 29, "kernel a { out y; tmp t; y = t; }"),
    (9, 17, "kernel a { in x; x = 1; }"),
    (10, 15, "kernel a { out y; }"),
    (11, 27, "kernel a { in A[64][4]; in x; out y; y = x; }"),
    (12, 38, "kernel a { out y; for i in 0..65536 { y = 1; } }"),
    (14, 30, "kernel a { out y; for i in 0..1000001 { } }"),
    (16, 16, "kernel a { in A[65]; out y; }"),
    (17, 28, "kernel a { for i in 0..1 by 0 { } }"),
];

// The texts, of which the proof of a loop over them is to know nothing.
fn faults() -> &'static [(u8, usize, &'static str)] {
    &FAULTS
}

#[test]
fn faults_of_each_command(rt: HostRuntime) -> Result<(), Fail> {
    for (code, at, kernel) in faults() {
        check_faults(&rt, rt.alloc(), *code, *at, kernel)?;
    }
    let deep = groups(rt.alloc(), 33)?;
    check_faults(&rt, rt.alloc(), 13, 54, deep.as_str())?;
    let mut long = String::new(rt.alloc());
    push_times(&mut long, " ", 65537)?;
    check_faults(&rt, rt.alloc(), 15, 65536, long.as_str())
}

// A kernel with so many groups in one another.
fn groups(alloc: Global, count: usize) -> Result<String, AllocError> {
    let mut deep = String::from_str(alloc, "kernel a { out y; y = ")?;
    push_times(&mut deep, "(", count)?;
    deep.push_str("1")?;
    push_times(&mut deep, ")", count)?;
    deep.push_str("; }")?;
    Ok(deep)
}

// Each command answers the fault of the text, and leaves the file as it was.
fn check_faults(
    rt: &impl Abort,
    alloc: Global,
    code: u8,
    at: usize,
    kernel: &str,
) -> Result<(), Fail> {
    for words in ["plan 2 t 0", "run v", "graph"] {
        check_fault(
            rt,
            alloc,
            run_line(alloc, words, kernel.as_bytes(), b"old")?,
            code,
            at,
        )?;
    }
    Ok(())
}
