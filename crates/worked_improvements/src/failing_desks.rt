//! Desks on which one call fails: the status, and what is left.
use crate::runs::run_line;
use desk_io::{Fail, Kind};
use improve_cli::Status;
use std::alloc::Global;
use std::process::Abort;
use std::test::Fail as TestFail;

/// The kernel y = x + 1.
const P: &str = "kernel p { in x; out y; y = x + 1; }";

/// Words, the kind of call of which the first fails, and the status.
const FAULTS: [(&str, Kind, Status); 5] = [
    ("improve 2 t 0", Kind::TakeInput, Status::ReadFault),
    ("improve 2 t 0", Kind::ClearFile, Status::WriteFault),
    ("improve 2 t 0", Kind::PutFile, Status::WriteFault),
    ("confirm 2 t", Kind::TakeFile, Status::ReadFault),
    ("confirm 2 t", Kind::PutOutput, Status::WriteFault),
];

// The rows, of which the proof of a loop over them is to know nothing.
fn faults() -> &'static [(&'static str, Kind, Status)] {
    &FAULTS
}

// The run ends with the status, and nothing was printed.
fn check_fault(
    rt: &impl Abort,
    alloc: Global,
    words: &str,
    kind: Kind,
    status: Status,
) -> Result<(), TestFail> {
    let fails = vec![in alloc; Fail { kind, nth: 0 }]?;
    let left = run_line(alloc, words, P.as_bytes(), b"old", fails)?;
    assert!(rt; left.status == status);
    assert!(rt; left.output.is_empty());
    Ok(())
}

#[test]
fn first_calls_that_fail(rt: HostRuntime) -> Result<(), TestFail> {
    for (words, kind, status) in faults() {
        check_fault(&rt, rt.alloc(), words, *kind, *status)?;
    }
    Ok(())
}
