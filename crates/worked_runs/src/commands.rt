//! The commands `run`, `graph`, `plan` and `exec` on one input each: what is printed, the status, and the file that is left.
use command_answers::Status;
use command_words::file_word;
use desk_io::HonestDesk;
use example_runs::{run_line, run_on, words_of};
use pebble_cli::pebble;
use std::alloc::Global;
use std::process::Abort;
use std::test::Fail;

/// The kernel y = x + 1, and one with a product of an input by itself.
const P: &str = "kernel p { in x; out y; y = x + 1; }";

const Q: &str = "kernel q { in x; out y; y = x*x; }";

/// A kernel whose loop runs no turn.
const NO_TURN: &str = "kernel a { in x; out y; y = x; for i in 3..3 { y = x + i; } }";

const CHAIN: &str =
    "kernel chain { in x; out y; tmp a; tmp b; tmp c; a = x+1; b = x+2; c = a*b; c = c*(x+3); c = c*a; y = c*b; }";

/// The code of y = x.
const COPY: &str = "slots 1\nwords 1\nin x\nout y 0\nend\n";

/// One operation of each kind, on vertices and constants.
const EACH: &str =
    "kernel e { in x; out y; out z; tmp t; t = min(x, 1) & 2; t = max(t, x) | -x; y = mad(t, 3, x) ^ sel(x, t, 4); z = 2 - 7; }";

/// Words, a kernel, the bytes of the file, and what comes of them.
#[derive(Clone, Copy)]
struct Row {
    words: &'static str,
    kernel: &'static str,
    file: &'static str,
    status: Status,
    printed: &'static str,
}

const ROWS: [Row; 21] = [
    Row {
        words: "run v",
        kernel: NO_TURN,
        file: "5",
        status: Status::Done,
        printed: "y = 5\n",
    },
    Row {
        words: "graph",
        kernel: NO_TURN,
        file: "old",
        status: Status::Done,
        printed: "vertices 1\ninputs 1\ndegree 0\n0 in x\nout y v0\n",
    },
    Row {
        words: "graph",
        kernel: Q,
        file: "old",
        status: Status::Done,
        printed: "vertices 2\ninputs 1\ndegree 1\n0 in x\n1 mul v0 v0\nout y v1\n",
    },
    Row {
        words: "graph",
        kernel: EACH,
        file: "old",
        status: Status::Done,
        printed: "vertices 10\ninputs 1\ndegree 2\n0 in x\n1 min v0 #1\n2 and v1 #2\n3 max v2 v0\n4 neg v0\n5 or v3 v4\n6 mad v5 #3 v0\n7 sel v0 v5 #4\n8 xor v6 v7\n9 set #-5\nout y v8\nout z v9\n",
    },
    Row {
        words: "graph",
        kernel: "kernel e { }",
        file: "old",
        status: Status::Done,
        printed: "vertices 0\ninputs 0\ndegree 0\n",
    },
    Row {
        words: "graph",
        kernel: "kernel a { in A[2]; out B[1][2]; for i in 0..2 { B[0][1 - i] = A[i]; } }",
        file: "old",
        status: Status::Done,
        printed: "vertices 2\ninputs 2\ndegree 0\n0 in A[0]\n1 in A[1]\nout B[0][0] v1\nout B[0][1] v0\n",
    },
    Row {
        words: "run v",
        kernel: CHAIN,
        file: "1",
        status: Status::Done,
        printed: "y = 144\n",
    },
    Row {
        words: "run v",
        kernel: P,
        file: "9223372036854775807",
        status: Status::Done,
        printed: "y = -9223372036854775808\n",
    },
    Row {
        words: "run v",
        kernel: P,
        file: "1 2",
        status: Status::Values,
        printed: "values fault\n",
    },
    Row {
        words: "run v",
        kernel: P,
        file: "",
        status: Status::Values,
        printed: "values fault\n",
    },
    Row {
        words: "run v",
        kernel: P,
        file: "9223372036854775808",
        status: Status::Values,
        printed: "values fault\n",
    },
    Row {
        words: "run v",
        kernel: P,
        file: "+1",
        status: Status::Values,
        printed: "values fault\n",
    },
    Row {
        words: "run v",
        kernel: P,
        file: " \r\n\t-0 ",
        status: Status::Done,
        printed: "y = 1\n",
    },
    Row {
        words: "run v",
        kernel: "kernel e { }",
        file: " ",
        status: Status::Done,
        printed: "",
    },
    // A loop with a step, a branch on its index, a step below 1, and an input that no side knows.
    Row {
        words: "graph",
        kernel: "kernel b { in A[4]; out y; y = 0; for i in 0..4 by 2 { y = y + A[i]; } }",
        file: "old",
        status: Status::Done,
        printed: "vertices 6\ninputs 4\ndegree 2\n0 in A[0]\n1 in A[1]\n2 in A[2]\n3 in A[3]\n4 add #0 v0\n5 add v4 v2\nout y v5\n",
    },
    Row {
        words: "graph",
        kernel: "kernel b { out y; for i in 0..4 { if i == 2 { y = i; } else { } } }",
        file: "old",
        status: Status::Done,
        printed: "vertices 1\ninputs 0\ndegree 0\n0 set #2\nout y v0\n",
    },
    Row {
        words: "graph",
        kernel: "kernel b { out y; for i in 0..3 by 0 { y = 1; } }",
        file: "old",
        status: Status::Kernel,
        printed: "kernel fault K17 at 35\n",
    },
    Row {
        words: "graph",
        kernel: "kernel b { in x; out y; y = x; if x < 1 { } }",
        file: "old",
        status: Status::Kernel,
        printed: "kernel fault K4 at 34\n",
    },
    // The step leads beyond the end at once; each block of a branch has its vertices; a block that is not run has none.
    Row {
        words: "graph",
        kernel: "kernel a { in A[4]; out y; for i in 1..4 by 9 { y = A[i] + i; } }",
        file: "old",
        status: Status::Done,
        printed: "vertices 5\ninputs 4\ndegree 1\n0 in A[0]\n1 in A[1]\n2 in A[2]\n3 in A[3]\n4 add v1 #1\nout y v4\n",
    },
    Row {
        words: "graph",
        kernel: "kernel a { in x; out y[4]; for i in 0..4 { if i < 2 { y[i] = x + i; } else { y[i] = x * i; } } }",
        file: "old",
        status: Status::Done,
        printed: "vertices 5\ninputs 1\ndegree 1\n0 in x\n1 add v0 #0\n2 add v0 #1\n3 mul v0 #2\n4 mul v0 #3\nout y[0] v1\nout y[1] v2\nout y[2] v3\nout y[3] v4\n",
    },
    Row {
        words: "graph",
        kernel: "kernel a { in x; out y; y = x; if 1 > 2 { y = x + 1; } }",
        file: "old",
        status: Status::Done,
        printed: "vertices 1\ninputs 1\ndegree 0\n0 in x\nout y v0\n",
    },
];

#[test]
fn commands_and_what_they_print(rt: HostRuntime) -> Result<(), Fail> {
    for row in rows() {
        check_row(&rt, rt.alloc(), *row)?;
    }
    Ok(())
}

// The rows, of which the proof of a loop over them is to know nothing.
fn rows() -> &'static [Row] {
    &ROWS
}

// The words, the kernel and the file of a row give what the row says, and the file stays.
fn check_row(rt: &impl Abort, alloc: Global, row: Row) -> Result<(), Fail> {
    let left = run_line(alloc, row.words, row.kernel.as_bytes(), row.file.as_bytes())?;
    assert_eq!(rt; left.output.as_slice(), row.printed.as_bytes());
    assert_eq!(rt; left.status, row.status);
    let file = left.file.ok_or("no file")?;
    assert_eq!(rt; file.as_slice(), row.file.as_bytes());
    Ok(())
}

#[test]
fn a_file_that_is_missing(rt: HostRuntime) -> Result<(), Fail> {
    let words = words_of(rt.alloc(), "run v")?;
    let fails = Vec::new(rt.alloc());
    let left = run_on(rt.alloc(), &words, P.as_bytes(), None, 1, fails)?;
    assert_eq!(rt; left.status, Status::ReadFault);
    assert_eq!(rt; left.output.len(), 0);
    assert!(rt; left.file.is_none());
    // A fault of the kernel stands before the file.
    let fails = Vec::new(rt.alloc());
    let left = run_on(rt.alloc(), &words, b"kernel a { out y; }", None, 1, fails)?;
    assert_eq!(rt; left.status, Status::Kernel);
    // `exec` wants its file too, and reads it only where its input is a code.
    let words = words_of(rt.alloc(), "exec v")?;
    for (text, status, printed) in [
        (COPY, Status::ReadFault, ""),
        (
            "slots 1\nwords 1\nout y 0\nload 0 0\n",
            Status::Code,
            "code fault line 5\n",
        ),
    ] {
        let fails = Vec::new(rt.alloc());
        let left = run_on(rt.alloc(), &words, text.as_bytes(), None, 1, fails)?;
        assert_eq!(rt; left.status, status);
        assert_eq!(rt; left.output.as_slice(), printed.as_bytes());
        assert!(rt; left.file.is_none());
    }
    // `graph` takes no file, and `plan` makes it.
    let words = words_of(rt.alloc(), "graph")?;
    let fails = Vec::new(rt.alloc());
    let left = run_on(rt.alloc(), &words, P.as_bytes(), None, 1, fails)?;
    assert_eq!(rt; left.status, Status::Done);
    assert!(rt; left.file.is_none());
    Ok(())
}

/// Words, an input, and the status over a desk on which no call fails, and whose file holds `5`.
const HONEST: [(&str, &str, Status); 12] = [
    ("plan 2 t", P, Status::Optimal),
    ("plan 3 t 1", CHAIN, Status::Open),
    ("plan 1 t 0", P, Status::TooSmall),
    ("plan 3 t 0", CHAIN, Status::Open),
    ("run v", CHAIN, Status::Done),
    ("run v", "kernel e { }", Status::Values),
    ("exec v", COPY, Status::Done),
    ("exec v", "slots 1\nwords 0\nend\n", Status::Values),
    ("exec v", P, Status::Code),
    ("graph", EACH, Status::Done),
    ("graph", "kernel a { out y; }", Status::Kernel),
    ("run", P, Status::Usage),
];

#[test]
fn desks_that_do_not_fail(rt: HostRuntime) -> Result<(), Fail> {
    for (line, kernel, status) in honest() {
        check_honest(&rt, rt.alloc(), line, kernel, *status)?;
    }
    Ok(())
}

// The runs over an honest desk, of which the proof of a loop over them is to know nothing.
fn honest() -> &'static [(&'static str, &'static str, Status)] {
    &HONEST
}

// Over an honest desk the words and the kernel give this status.
fn check_honest(
    rt: &impl Abort,
    alloc: Global,
    line: &str,
    kernel: &str,
    status: Status,
) -> Result<(), Fail> {
    let words = words_of(alloc, line)?;
    let mut desk = HonestDesk {
        name: String::from_str(alloc, file_word(&words))?,
        input: Vec::from_slice(alloc, kernel.as_bytes())?,
        file: Vec::from_slice(alloc, b"5")?,
        written: 0,
    };
    let bytes = line.len();
    assert_eq!(rt;
        pebble(alloc, &words, &mut desk),
        status,
        "words of {bytes} bytes"
    );
    Ok(())
}

const DOT: &str =
    "kernel dot { in A[4]; in B[4]; out y; tmp s; s = A[0]*B[0]; for i in 1..4 { s = s + A[i]*B[i]; } y = s; }";

const MATRIX_VECTOR: &str =
    "kernel mv { in A[4][4]; in x[4]; out y[4]; for i in 0..4 { y[i] = A[i][0]*x[0]; for j in 1..4 { y[i] = y[i] + A[i][j]*x[j]; } } }";

/// Words and a kernel, the status, and the report with the first line of the code.
const REPORTS: [(&str, &str, Status, &str); 3] = [
    (
        "plan 3 t 0",
        DOT,
        Status::Open,
        "; kernel dot\n; vertices 15\n; inputs 8\n; degree 2\n; slots 3\n; first 15\n; cost 15\n; bound 9\n; expanded 0\n; budget 0\n; verdict Open\nslots 3\n",
    ),
    (
        "plan 4 t 0",
        DOT,
        Status::Optimal,
        "; kernel dot\n; vertices 15\n; inputs 8\n; degree 2\n; slots 4\n; first 9\n; cost 9\n; bound 9\n; expanded 0\n; budget 0\n; verdict Optimal\nslots 4\n",
    ),
    (
        "plan 8 t 0",
        MATRIX_VECTOR,
        Status::Optimal,
        "; kernel mv\n; vertices 48\n; inputs 20\n; degree 2\n; slots 8\n; first 24\n; cost 24\n; bound 24\n; expanded 0\n; budget 0\n; verdict Optimal\nslots 8\n",
    ),
];

// The reports, of which the proof of a loop over them is to know nothing.
fn reports() -> &'static [(&'static str, &'static str, Status, &'static str)] {
    &REPORTS
}

#[test]
fn reports_of_plans(rt: HostRuntime) -> Result<(), Fail> {
    for (words, kernel, status, report) in reports() {
        check_report(&rt, rt.alloc(), words, kernel.as_bytes(), *status, report)?;
    }
    Ok(())
}

// The words end with this status and print a text that begins with this report.
fn check_report(
    rt: &impl Abort,
    alloc: Global,
    words: &str,
    kernel: &[u8],
    status: Status,
    report: &str,
) -> Result<(), Fail> {
    let left = run_line(alloc, words, kernel, b"old")?;
    assert!(rt;
        str::from_utf8(left.output.as_slice())?.starts_with(report),
        "{words}"
    );
    assert_eq!(rt; left.status, status, "{words}");
    Ok(())
}
