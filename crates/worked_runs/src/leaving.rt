//! What a run of the whole program is to leave, compared with what it leaves.
use command_answers::Status;
use desk_io::{Fail, Kind};
use example_runs::{Left, run_line, run_on, words_of};
use std::alloc::Global;
use std::process::Abort;
use std::test::Fail as TestFail;

/// The status, the output and the file that a run is to leave.
#[derive(Clone, Copy)]
pub struct Expected<'a> {
    pub status: Status,
    pub output: &'a [u8],
    pub file: &'a [u8],
}

/// The words of a line, on this input and over a file with these bytes, leave what is expected.
pub fn check_run(
    rt: &impl Abort,
    alloc: Global,
    line: &str,
    input: &[u8],
    file: &[u8],
    expected: Expected<'_>,
) -> Result<(), TestFail> {
    let left = run_line(alloc, line, input, file)?;
    check_left(rt, &left, line, expected);
    Ok(())
}

/// The words of a line, over a desk that moves a byte a call and a file with the bytes `old`, leave what is expected where the call of this
/// kind with this number fails, counted from 0.
pub fn check_failing(
    rt: &impl Abort,
    alloc: Global,
    line: &str,
    input: &[u8],
    failing: (Kind, u32),
    expected: Expected<'_>,
) -> Result<(), TestFail> {
    let (kind, nth) = failing;
    let mut fails = Vec::new(alloc);
    fails.push(Fail { kind, nth })?;
    let words = words_of(alloc, line)?;
    let file = Vec::from_slice(alloc, b"old")?;
    let left = run_on(alloc, &words, input, Some(file), 1, fails)?;
    check_left(rt, &left, line, expected);
    Ok(())
}

// What is left is what was expected.
fn check_left(rt: &impl Abort, left: &Left, line: &str, expected: Expected<'_>) {
    assert_eq!(rt; left.status, expected.status, "{line}");
    assert_eq!(rt; left.output.as_slice(), expected.output, "{line}");
    assert!(rt; left.file.as_deref() == Some(expected.file), "{line}");
}
