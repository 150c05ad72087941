//! The worked examples as tables.
use command_answers::Status;
use desk_io::{Fail, Kind};
use example_runs::{run_line, run_on, words_of};
use std::alloc::{AllocError, Global};
use std::process::Abort;
use std::test::Fail as TestFail;

/// The kernel y = x + 1.
const P: &str = "kernel p { in x; out y; y = x + 1; }";

/// What `plan 2 t` prints of it.
const P_PRINTED: &str =
    "; kernel p\n; vertices 2\n; inputs 1\n; degree 1\n; slots 2\n; first 2\n; cost 2\n; bound 2\n; expanded 0\n; budget 20000\n; verdict Optimal\nslots 2\nwords 2\nin x\nout y 1\nload 0 0\nadd 1 s0 #1\nstore 1 1\nend\n";

/// And the table that it writes.
const P_TABLE: [u8; 18] = [82, 66, 80, 84, 0, 1, 0, 2, 0, 2, 0, 0, 0, 2, 0, 0, 0, 0];

const USAGE: &str =
    "usage: pebble plan S TABLE [BUDGET [A B]], check S TABLE [A B], run VALUES, exec VALUES, graph, trial N S TABLE, cover S FILE [BUDGET], covercheck S FILE, parts S K FILE [BUDGET], judge S PLAY, tidy S PLAY, cache S TABLE [BUDGET]\n";

/// Words, a kernel, and the status, the printed text and the file that they give; the file holds `old` before.
#[derive(Clone, Copy)]
struct Row {
    words: &'static str,
    kernel: &'static str,
    status: Status,
    printed: &'static str,
    table: &'static [u8],
}

const ROWS: [Row; 11] = [
    Row {
        words: "plan 2 t",
        kernel: P,
        status: Status::Optimal,
        printed: P_PRINTED,
        table: &P_TABLE,
    },
    Row {
        words: "plan 1 t 0",
        kernel: "kernel w { in x; out y; y = x; }",
        status: Status::Optimal,
        printed: "; kernel w\n; vertices 1\n; inputs 1\n; degree 0\n; slots 1\n; first 0\n; cost 0\n; bound 0\n; expanded 0\n; budget 0\n; verdict Optimal\nslots 1\nwords 1\nin x\nout y 0\nend\n",
        table: &[82, 66, 80, 84, 0, 1, 0, 1, 0, 1, 0, 0, 0, 0, 0, 0, 0, 0],
    },
    Row {
        words: "plan 2 t 0",
        kernel: "kernel q { in x; out y; y = x*x; }",
        status: Status::Optimal,
        printed: "; kernel q\n; vertices 2\n; inputs 1\n; degree 1\n; slots 2\n; first 2\n; cost 2\n; bound 2\n; expanded 0\n; budget 0\n; verdict Optimal\nslots 2\nwords 2\nin x\nout y 1\nload 0 0\nmul 1 s0 s0\nstore 1 1\nend\n",
        table: &P_TABLE,
    },
    Row {
        words: "plan 1 t 0",
        kernel: "kernel e { }",
        status: Status::Optimal,
        printed: "; kernel e\n; vertices 0\n; inputs 0\n; degree 0\n; slots 1\n; first 0\n; cost 0\n; bound 0\n; expanded 0\n; budget 0\n; verdict Optimal\nslots 1\nwords 0\nend\n",
        table: &[82, 66, 80, 84, 0, 1, 0, 0, 0, 1, 0, 0, 0, 0, 0, 0, 0, 0],
    },
    Row {
        words: "plan 2 t 0",
        kernel: "kernel s { in x; out y; tmp t; t = x + 1; y = t * 3; }",
        status: Status::Optimal,
        printed: "; kernel s\n; vertices 3\n; inputs 1\n; degree 1\n; slots 2\n; first 2\n; cost 2\n; bound 2\n; expanded 0\n; budget 0\n; verdict Optimal\nslots 2\nwords 2\nin x\nout y 1\nload 0 0\nadd 1 s0 #1\nmul 0 s1 #3\nstore 0 1\nend\n",
        table: &[82, 66, 80, 84, 0, 1, 0, 3, 0, 2, 0, 0, 0, 2, 0, 0, 0, 0],
    },
    Row {
        words: "plan 3 t 0",
        kernel: "kernel chain { in x; out y; tmp a; tmp b; tmp c; a = x+1; b = x+2; c = a*b; c = c*(x+3); c = c*a; y = c*b; }",
        status: Status::Open,
        printed: "; kernel chain\n; vertices 8\n; inputs 1\n; degree 2\n; slots 3\n; first 7\n; cost 7\n; bound 2\n; expanded 0\n; budget 0\n; verdict Open\nslots 3\nwords 4\nin x\nout y 3\nload 0 0\nadd 1 s0 #1\nadd 2 s0 #2\nmul 0 s1 s2\nstore 2 1\nstore 1 2\nload 1 0\nadd 2 s1 #3\nmul 1 s0 s2\nload 0 2\nmul 2 s1 s0\nload 0 1\nmul 1 s2 s0\nstore 1 3\nend\n",
        table: &[82, 66, 80, 84, 0, 1, 0, 8, 0, 3, 0, 0, 0, 2, 0, 0, 0, 0],
    },
    Row {
        words: "plan 4 t 0",
        kernel: "kernel chain { in x; out y; tmp a; tmp b; tmp c; a = x+1; b = x+2; c = a*b; c = c*(x+3); c = c*a; y = c*b; }",
        status: Status::Open,
        printed: "; kernel chain\n; vertices 8\n; inputs 1\n; degree 2\n; slots 4\n; first 4\n; cost 4\n; bound 2\n; expanded 0\n; budget 0\n; verdict Open\nslots 4\nwords 3\nin x\nout y 2\nload 0 0\nadd 1 s0 #1\nadd 2 s0 #2\nmul 3 s1 s2\nstore 2 1\nadd 2 s0 #3\nmul 0 s3 s2\nmul 2 s0 s1\nload 0 1\nmul 3 s2 s0\nstore 3 2\nend\n",
        table: &[82, 66, 80, 84, 0, 1, 0, 8, 0, 4, 0, 0, 0, 2, 0, 0, 0, 0],
    },
    Row {
        words: "plan 3 t 0",
        kernel: "kernel knot { in x; out y; tmp a; tmp b; tmp c; a = x+1; b = x*2; c = a*b; c = c*a; y = c*b; }",
        status: Status::Open,
        printed: "; kernel knot\n; vertices 6\n; inputs 1\n; degree 2\n; slots 3\n; first 4\n; cost 4\n; bound 2\n; expanded 0\n; budget 0\n; verdict Open\nslots 3\nwords 3\nin x\nout y 2\nload 0 0\nadd 1 s0 #1\nmul 2 s0 #2\nmul 0 s1 s2\nstore 2 1\nmul 2 s0 s1\nload 0 1\nmul 1 s2 s0\nstore 1 2\nend\n",
        table: &[82, 66, 80, 84, 0, 1, 0, 6, 0, 3, 0, 0, 0, 2, 0, 0, 0, 0],
    },
    Row {
        words: "plan 2 t 0",
        kernel: "kernel sums { in x; out y; out z; y = x + 1; z = x + 2; }",
        status: Status::Optimal,
        printed: "; kernel sums\n; vertices 3\n; inputs 1\n; degree 1\n; slots 2\n; first 3\n; cost 3\n; bound 3\n; expanded 0\n; budget 0\n; verdict Optimal\nslots 2\nwords 3\nin x\nout y 1\nout z 2\nload 0 0\nadd 1 s0 #1\nstore 1 1\nadd 1 s0 #2\nstore 1 2\nend\n",
        table: &[82, 66, 80, 84, 0, 1, 0, 3, 0, 2, 0, 0, 0, 3, 0, 0, 0, 0],
    },
    Row {
        words: "plan 1 t",
        kernel: P,
        status: Status::TooSmall,
        printed: "too small needs 2\n",
        table: b"old",
    },
    Row {
        words: "plan 1 t 0",
        kernel: "kernel c { out y; y = 2*3+1; }",
        status: Status::Optimal,
        printed: "; kernel c\n; vertices 1\n; inputs 0\n; degree 0\n; slots 1\n; first 1\n; cost 1\n; bound 1\n; expanded 0\n; budget 0\n; verdict Optimal\nslots 1\nwords 1\nout y 0\nset 0 #7\nstore 0 0\nend\n",
        table: &[82, 66, 80, 84, 0, 1, 0, 1, 0, 1, 0, 0, 0, 1, 0, 0, 0, 0],
    },
];

#[test]
fn plans_and_refusals(rt: HostRuntime) -> Result<(), TestFail> {
    for row in rows() {
        check_row(&rt, rt.alloc(), *row)?;
    }
    Ok(())
}

// The rows, of which the proof of a loop over them is to know nothing.
fn rows() -> &'static [Row] {
    &ROWS
}

// The words and the kernel of a row give what the row says.
fn check_row(rt: &impl Abort, alloc: Global, row: Row) -> Result<(), TestFail> {
    let left = run_line(alloc, row.words, row.kernel.as_bytes(), b"old")?;
    let bytes = row.kernel.len();
    assert_eq!(rt; left.status, row.status, "a kernel of {bytes} bytes");
    assert_eq!(rt; left.output.as_slice(), row.printed.as_bytes());
    let file = left.file.ok_or("no file")?;
    assert_eq!(rt; file.as_slice(), row.table);
    Ok(())
}

/// Words that spell no command.
const USAGES: [&str; 22] = [
    "plan 0 t",
    "plan 02 t",
    "plan 65 t 0",
    "plan 2 t 00",
    "plan 2 t 020000",
    "plan 2 t 150001",
    "plan 2 t 4294967296",
    "plan 2",
    "plan 2 t 0 0",
    "trial 201 3 t",
    "trial 0 3 t",
    "trial 01 3 t",
    "trial 1 65 t",
    "trial 1 3",
    "trial 1 3 t t",
    "check 65 t",
    "graph g",
    "run",
    "exec",
    "exec v w",
    "--help",
    "",
];

// The words, of which the proof of a loop over them is to know nothing.
fn usages() -> &'static [&'static str] {
    &USAGES
}

#[test]
fn words_that_are_usage(rt: HostRuntime) -> Result<(), TestFail> {
    for words in usages() {
        check_usage(&rt, rt.alloc(), words)?;
    }
    Ok(())
}

// The words are none that the program knows.
fn check_usage(rt: &impl Abort, alloc: Global, words: &'static str) -> Result<(), TestFail> {
    let row = Row {
        words,
        kernel: P,
        status: Status::Usage,
        printed: USAGE,
        table: b"old",
    };
    check_row(rt, alloc, row)
}

/// A call that fails, counted from 0 in its kind, and the status, the output and the file that are left, over a desk that moves a
/// byte a call.
#[derive(Clone, Copy)]
struct Failure {
    kind: Kind,
    nth: u32,
    status: Status,
    output: &'static [u8],
    file: &'static [u8],
}

const FAILURES: [Failure; 8] = [
    Failure {
        kind: Kind::TakeInput,
        nth: 0,
        status: Status::ReadFault,
        output: b"",
        file: b"old",
    },
    // The take 35 would bring the last byte of the kernel, and the take 36 find the end.
    Failure {
        kind: Kind::TakeInput,
        nth: 35,
        status: Status::ReadFault,
        output: b"",
        file: b"old",
    },
    Failure {
        kind: Kind::TakeInput,
        nth: 36,
        status: Status::ReadFault,
        output: b"",
        file: b"old",
    },
    Failure {
        kind: Kind::ClearFile,
        nth: 0,
        status: Status::WriteFault,
        output: b"",
        file: b"old",
    },
    Failure {
        kind: Kind::PutFile,
        nth: 0,
        status: Status::WriteFault,
        output: b"",
        file: b"",
    },
    Failure {
        kind: Kind::PutFile,
        nth: 5,
        status: Status::WriteFault,
        output: b"",
        file: b"RBPT\0",
    },
    Failure {
        kind: Kind::PutOutput,
        nth: 0,
        status: Status::WriteFault,
        output: b"",
        file: &P_TABLE,
    },
    Failure {
        kind: Kind::PutOutput,
        nth: 3,
        status: Status::WriteFault,
        output: b"; k",
        file: &P_TABLE,
    },
];

// The failing calls, of which the proof of a loop over them is to know nothing.
fn failures() -> &'static [Failure] {
    &FAILURES
}

#[test]
fn desks_that_fail(rt: HostRuntime) -> Result<(), TestFail> {
    for failure in failures() {
        let fail = Fail {
            kind: failure.kind,
            nth: failure.nth,
        };
        check_failure(&rt, rt.alloc(), Some(fail), *failure)?;
    }
    let whole = Failure {
        kind: Kind::TakeInput,
        nth: 0,
        status: Status::Optimal,
        output: P_PRINTED.as_bytes(),
        file: &P_TABLE,
    };
    check_failure(&rt, rt.alloc(), None, whole)
}

// Where this call fails, or none, a run on the kernel y = x + 1 leaves what is said.
fn check_failure(
    rt: &impl Abort,
    alloc: Global,
    fail: Option<Fail>,
    wanted: Failure,
) -> Result<(), TestFail> {
    let words = words_of(alloc, "plan 2 t")?;
    let mut fails = Vec::new(alloc);
    if let Some(fail) = fail {
        fails.push(fail)?;
    }
    let file = Vec::from_slice(alloc, b"old")?;
    let left = run_on(alloc, &words, P.as_bytes(), Some(file), 1, fails)?;
    assert_eq!(rt; left.status, wanted.status, "{}", wanted.nth);
    assert_eq!(rt; left.output.as_slice(), wanted.output);
    let file = left.file.ok_or("no file")?;
    assert_eq!(rt; file.as_slice(), wanted.file);
    Ok(())
}

/// A kernel with one input and this many sums, so one vertex more.
fn sums(alloc: Global, count: u32) -> Result<String, AllocError> {
    let mut text = String::from_str(alloc, "kernel sums { in x; out y; tmp t; t = x; ")?;
    for _ in 0..count {
        text.push_str("t = t + 1; ")?;
    }
    text.push_str("y = t; }")?;
    Ok(text)
}

/// The kernel y = x + 1 with spaces behind it, up to a length.
fn padded(alloc: Global, len: usize) -> Result<String, AllocError> {
    let mut text = String::from_str(alloc, P)?;
    for _ in P.len()..len {
        text.push_str(" ")?;
    }
    Ok(text)
}

#[test]
fn the_limits_of_a_kernel(rt: HostRuntime) -> Result<(), TestFail> {
    let rows = [
        (sums(rt.alloc(), 255)?, Status::Optimal),
        (sums(rt.alloc(), 256)?, Status::Kernel),
        (padded(rt.alloc(), 65536)?, Status::Optimal),
        (padded(rt.alloc(), 65537)?, Status::Kernel),
    ];
    for (text, status) in &rows {
        let left = run_line(rt.alloc(), "plan 2 t 0", text.as_bytes(), b"old")?;
        assert_eq!(rt; left.status, *status, "{} bytes", text.len());
    }
    Ok(())
}
