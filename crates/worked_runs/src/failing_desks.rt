//! Each kind of call of the desk fails in turn, under words that write no file: what is answered and printed, and that the file stays.
use command_answers::Status;
use command_words::file_word;
use desk_io::{Fail as Failing, Kind, MemoryDesk};
use example_runs::words_of;
use pebble_cli::pebble;
use std::alloc::Global;
use std::process::Abort;
use std::test::Fail;

/// A kernel of 36 bytes, so that the take 36 of one byte each finds the end.
const KERNEL: &str = "kernel p { in x; out y; y = x + 1; }";

/// What `run` prints of it on the file `5`.
const OUTPUTS: &str = "y = 6\n";

/// Its code, of 64 bytes.
const CODE: &str = "slots 2\nwords 2\nin x\nout y 1\nload 0 0\nadd 1 s0 #1\nstore 1 1\nend\n";

/// What `exec` prints of it on the file `5`.
const EXECUTED: &str = "y = 6\n; transfers 2\n";

/// What `check` prints of the kernel on the file `5`, which is no table, and with too few slots.
const REFUSED: &str = "refused reason 1 row 0\n";

const TOO_SMALL: &str = "too small needs 2\n";

/// What `judge` and `tidy` print of the kernel on the file `5`, which is no play.
const NO_PLAY: &str = "play fault line 1\n";

/// What `graph` prints of the kernel.
const GRAPH: &str = "vertices 2\ninputs 1\ndegree 1\n0 in x\n1 add v0 #1\nout y v1\n";

const USAGE: &str =
    "usage: pebble plan S TABLE [BUDGET [A B]], check S TABLE [A B], run VALUES, exec VALUES, graph, trial N S TABLE, cover S FILE [BUDGET], covercheck S FILE, parts S K FILE [BUDGET], judge S PLAY, tidy S PLAY, cache S TABLE [BUDGET]\n";

/// Words, the kind and the number of the call that fails, and what comes of them.
#[derive(Clone, Copy)]
struct Row(&'static str, Kind, u32, Status, &'static str);

const ROWS: [Row; 48] = [
    Row("run v", Kind::TakeInput, 0, Status::ReadFault, ""),
    Row("run v", Kind::TakeInput, 36, Status::ReadFault, ""),
    Row("run v", Kind::TakeFile, 0, Status::ReadFault, ""),
    Row("run v", Kind::TakeFile, 1, Status::ReadFault, ""),
    Row("run v", Kind::PutOutput, 0, Status::WriteFault, ""),
    Row("run v", Kind::PutOutput, 3, Status::WriteFault, "y ="),
    Row("run v", Kind::PutOutput, 6, Status::Done, OUTPUTS),
    Row("run v", Kind::PutFile, 0, Status::Done, OUTPUTS),
    Row("run v", Kind::ClearFile, 0, Status::Done, OUTPUTS),
    Row("exec v", Kind::TakeInput, 0, Status::ReadFault, ""),
    Row("exec v", Kind::TakeInput, 64, Status::ReadFault, ""),
    Row("exec v", Kind::TakeFile, 0, Status::ReadFault, ""),
    Row("exec v", Kind::TakeFile, 1, Status::ReadFault, ""),
    Row("exec v", Kind::PutOutput, 0, Status::WriteFault, ""),
    Row("exec v", Kind::PutOutput, 7, Status::WriteFault, "y = 6\n;"),
    Row("exec v", Kind::PutFile, 0, Status::Done, EXECUTED),
    Row("exec v", Kind::ClearFile, 0, Status::Done, EXECUTED),
    Row("check 2 t", Kind::TakeInput, 0, Status::ReadFault, ""),
    Row("check 2 t", Kind::TakeFile, 0, Status::ReadFault, ""),
    Row("check 2 t", Kind::TakeFile, 1, Status::ReadFault, ""),
    Row("check 1 t", Kind::TakeFile, 0, Status::TooSmall, TOO_SMALL),
    Row("check 2 t", Kind::PutOutput, 0, Status::WriteFault, ""),
    Row("check 2 t", Kind::PutOutput, 3, Status::WriteFault, "ref"),
    Row("check 2 t", Kind::PutFile, 0, Status::Refused, REFUSED),
    Row("check 2 t", Kind::ClearFile, 0, Status::Refused, REFUSED),
    Row("covercheck 2 t", Kind::TakeFile, 0, Status::ReadFault, ""),
    Row(
        "covercheck 1 t",
        Kind::TakeFile,
        0,
        Status::TooSmall,
        TOO_SMALL,
    ),
    Row(
        "covercheck 2 t",
        Kind::PutOutput,
        3,
        Status::WriteFault,
        "ref",
    ),
    Row("covercheck 2 t", Kind::PutFile, 0, Status::Refused, REFUSED),
    Row("judge 2 p", Kind::TakeFile, 1, Status::ReadFault, ""),
    Row("judge 1 p", Kind::TakeFile, 0, Status::TooSmall, TOO_SMALL),
    Row("judge 2 p", Kind::PutOutput, 3, Status::WriteFault, "pla"),
    Row("judge 2 p", Kind::ClearFile, 0, Status::Play, NO_PLAY),
    Row("tidy 2 p", Kind::TakeFile, 0, Status::ReadFault, ""),
    Row("tidy 2 p", Kind::PutOutput, 0, Status::WriteFault, ""),
    Row("tidy 2 p", Kind::PutFile, 0, Status::Play, NO_PLAY),
    Row("graph", Kind::TakeInput, 0, Status::ReadFault, ""),
    Row("graph", Kind::TakeInput, 36, Status::ReadFault, ""),
    Row("graph", Kind::TakeFile, 0, Status::Done, GRAPH),
    Row("graph", Kind::PutOutput, 0, Status::WriteFault, ""),
    Row("graph", Kind::PutOutput, 3, Status::WriteFault, "ver"),
    Row("graph", Kind::PutFile, 0, Status::Done, GRAPH),
    Row("graph", Kind::ClearFile, 0, Status::Done, GRAPH),
    Row("graph v", Kind::TakeInput, 0, Status::Usage, USAGE),
    Row("graph v", Kind::TakeFile, 0, Status::Usage, USAGE),
    Row("graph v", Kind::PutOutput, 4, Status::WriteFault, "usag"),
    Row("graph v", Kind::PutFile, 0, Status::Usage, USAGE),
    Row("graph v", Kind::ClearFile, 0, Status::Usage, USAGE),
];

#[test]
fn failing_calls_without_a_table(rt: HostRuntime) -> Result<(), Fail> {
    for row in rows() {
        check_row(&rt, rt.alloc(), *row)?;
    }
    Ok(())
}

// The rows, of which the proof of a loop over them is to know nothing.
fn rows() -> &'static [Row] {
    &ROWS
}

// The words of a row, over a desk on which one call fails, give what the row says, and the file stays. Where nothing is printed but for a
// write fault, no write was tried.
fn check_row(rt: &impl Abort, alloc: Global, row: Row) -> Result<(), Fail> {
    let Row(line, kind, nth, expected, printed) = row;
    let words = words_of(alloc, line)?;
    let input = if line == "exec v" { CODE } else { KERNEL };
    let mut fail = Vec::new(alloc);
    fail.push(Failing { kind, nth })?;
    let mut desk = MemoryDesk {
        name: String::from_str(alloc, file_word(&words))?,
        input: Vec::from_slice(alloc, input.as_bytes())?,
        file: Some(Vec::from_slice(alloc, b"5")?),
        output: Vec::new(alloc),
        most: 1,
        fail,
        calls: [0; 5],
        faults: [0; 5],
        starved: 0,
    };
    let status = pebble(alloc, &words, &mut desk);
    assert_eq!(rt; status, expected);
    assert!(rt; desk.output.as_slice() == printed.as_bytes());
    let calls = desk.calls;
    let written = calls[2] > 0 || calls[3] > 0 || calls[4] > 0;
    assert!(rt; status != Status::ReadFault || !written);
    let kept = match &desk.file {
        Some(file) => file.as_slice() == b"5".as_slice(),
        None => false,
    };
    assert!(rt; kept);
    Ok(())
}
