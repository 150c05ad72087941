//! How many calls of its desk each command makes: none is made but those that are needed.
//!
//! A desk that moves at most 4,096 bytes a call is taken from twice for a short text, once for its bytes and once for the end. A text is
//! put by one call, and a file is cleared before it is put.
use command_words::file_word;
use desk_io::MemoryDesk;
use example_runs::words_of;
use pebble_cli::pebble;
use std::alloc::{AllocError, Global};
use std::process::Abort;
use std::test::Fail;

/// The kernel y = x + 1, and its code.
const KERNEL: &str = "kernel p { in x; out y; y = x + 1; }";

const CODE: &str = "slots 2\nwords 2\nin x\nout y 1\nload 0 0\nadd 1 s0 #1\nstore 1 1\nend\n";

/// Words, the input, and the calls in the order of their kinds: takes of the input, takes of the file, puts to the output, puts to the
/// file, clears.
const ROWS: [(&str, &str, [u32; 5]); 20] = [
    ("graph", KERNEL, [2, 0, 1, 0, 0]),
    ("run v", KERNEL, [2, 2, 1, 0, 0]),
    ("exec v", CODE, [2, 2, 1, 0, 0]),
    ("check 2 t", KERNEL, [2, 2, 1, 0, 0]),
    ("covercheck 2 t", KERNEL, [2, 2, 1, 0, 0]),
    ("judge 2 p", KERNEL, [2, 2, 1, 0, 0]),
    ("tidy 2 p", KERNEL, [2, 2, 1, 0, 0]),
    ("plan 2 t 0", KERNEL, [2, 0, 1, 1, 1]),
    ("plan 2 t 10 2 3", KERNEL, [2, 0, 1, 1, 1]),
    ("cover 2 t 0", KERNEL, [2, 0, 1, 1, 1]),
    ("parts 2 1 t 0", KERNEL, [2, 0, 1, 1, 1]),
    ("cache 2 t 0", KERNEL, [2, 0, 1, 1, 1]),
    ("trial 1 3 t", KERNEL, [0, 0, 1, 1, 1]),
    // refusals: a fault of the kernel, no code, too few slots, no command
    ("run v", "kernel p {", [2, 0, 1, 0, 0]),
    ("plan 2 t 0", "kernel p {", [2, 0, 1, 0, 0]),
    ("exec v", KERNEL, [2, 0, 1, 0, 0]),
    ("check 1 t", KERNEL, [2, 0, 1, 0, 0]),
    ("plan 1 t 0", KERNEL, [2, 0, 1, 0, 0]),
    ("trial 1 2 t", KERNEL, [0, 0, 1, 0, 0]),
    ("graph v", KERNEL, [0, 0, 1, 0, 0]),
];

#[test]
fn calls_of_each_command(rt: HostRuntime) -> Result<(), Fail> {
    for (line, input, calls) in rows() {
        assert!(rt;
            calls_of(&rt, rt.alloc(), line, input.as_bytes())? == *calls,
            "{line}"
        );
    }
    Ok(())
}

// The rows, of which the proof of a loop over them is to know nothing.
fn rows() -> &'static [(&'static str, &'static str, [u32; 5])] {
    &ROWS
}

/// A text of 65,537 bytes or more is taken in 17 pieces of 4,096 bytes, whatever stands behind them.
#[test]
fn calls_for_a_long_input(rt: HostRuntime) -> Result<(), Fail> {
    for length in [65_537, 70_000] {
        let text = spaces(rt.alloc(), length)?;
        assert!(rt; calls_of(&rt, rt.alloc(), "graph", &text)? == [17, 0, 1, 0, 0]);
    }
    Ok(())
}

// A text of so many spaces.
fn spaces(alloc: Global, length: u32) -> Result<Vec<u8>, AllocError> {
    let mut text = Vec::new(alloc);
    for _ in 0..length {
        text.push(b' ')?;
    }
    Ok(text)
}

// The calls that the words of a line make of a desk whose file holds `5`, and on which none fails.
fn calls_of(rt: &impl Abort, alloc: Global, line: &str, input: &[u8]) -> Result<[u32; 5], Fail> {
    let words = words_of(alloc, line)?;
    let mut desk = MemoryDesk {
        name: String::from_str(alloc, file_word(&words))?,
        input: Vec::from_slice(alloc, input)?,
        file: Some(Vec::from_slice(alloc, b"5")?),
        output: Vec::new(alloc),
        most: 4096,
        fail: Vec::new(alloc),
        calls: [0; 5],
        faults: [0; 5],
        starved: 0,
    };
    let _status = pebble(alloc, &words, &mut desk);
    let (calls, faults) = (desk.calls, desk.faults);
    assert_eq!(rt; faults, [0; 5]);
    Ok(calls)
}
