//! Codes that `exec` runs, also altered ones, with what it prints of them.
use command_answers::Status;
use example_runs::run_line;
use std::alloc::{AllocError, Global};
use std::process::Abort;
use std::test::Fail;

/// What `plan 2 t 0` prints of the kernel y = x + 1.
const SUCCESSOR: &str =
    "; kernel p\n; vertices 2\n; inputs 1\n; degree 1\n; slots 2\n; first 2\n; cost 2\n; bound 2\n; expanded 0\n; budget 0\n; verdict Optimal\nslots 2\nwords 2\nin x\nout y 1\nload 0 0\nadd 1 s0 #1\nstore 1 1\nend\n";

/// A code text, the bytes of the values file, and the status and the printed text that they give.
#[derive(Clone, Copy)]
struct Row {
    code: &'static str,
    file: &'static str,
    status: Status,
    printed: &'static str,
}

const ROWS: [Row; 20] = [
    Row {
        code: SUCCESSOR,
        file: "9223372036854775807",
        status: Status::Done,
        printed: "y = -9223372036854775808\n; transfers 2\n",
    },
    Row {
        code: SUCCESSOR,
        file: "\n -008 ",
        status: Status::Done,
        printed: "y = -7\n; transfers 2\n",
    },
    Row {
        code: SUCCESSOR,
        file: "1 2",
        status: Status::Values,
        printed: "values fault\n",
    },
    Row {
        code: SUCCESSOR,
        file: "",
        status: Status::Values,
        printed: "values fault\n",
    },
    Row {
        code: SUCCESSOR,
        file: "1,",
        status: Status::Values,
        printed: "values fault\n",
    },
    // No instruction, and no output.
    Row {
        code: "slots 1\nwords 1\nin x\nout y 0\nend\n",
        file: "7",
        status: Status::Done,
        printed: "y = 7\n; transfers 0\n",
    },
    Row {
        code: "slots 1\nwords 0\nend\n",
        file: "",
        status: Status::Done,
        printed: "; transfers 0\n",
    },
    // Operands of three kinds, the least number, and an output that is read twice: 5 + least, the lesser of it and the least, the square of
    // that and 3, which is 3, the least since 3 is not 0, and the least again as its own negative.
    Row {
        code: "slots 3\nwords 4\nin x[0]\nin \u{3b1}\nout y 3\nout z[1][63] 3\nload 0 0\nadd 1 s0 #-9223372036854775808\nload 2 1\nmin 0 s1 s2\nmad 1 s0 s0 #3\nsel 0 s1 s2 #0\nneg 0 s0\nstore 0 3\nend\n",
        file: "5 -9223372036854775808",
        status: Status::Done,
        printed: "y = -9223372036854775808\nz[1][63] = -9223372036854775808\n; transfers 3\n",
    },
    // Each kind of line, as the page on formats tells it.
    Row {
        code: "; any bytes\nslots 3\nwords 4\nin x\nin A[0][63]\nout y 2\nload 0 0\nload 1 1\nset 2 #-1\nadd 2 s0 s2\nsub 2 #10 s2\nmul 2 s2 s1\nand 2 s2 #15\nor 2 s2 s0\nxor 2 s2 #1\nneg 2 s2\nmin 0 s0 s2\nmax 1 s0 s1\nsel 2 s0 s1 #0\nmad 2 s1 s2 #3\nstore 2 2\nend\n",
        file: "5 7",
        status: Status::Done,
        printed: "y = 52\n; transfers 3\n",
    },
    // What is empty is read: by a load, or by an output after one instruction less.
    Row {
        code: "slots 1\nwords 1\nout y 0\nload 0 0\nend\n",
        file: "",
        status: Status::ExecFault,
        printed: "exec fault at 0\n",
    },
    Row {
        code: "slots 1\nwords 1\nout y 0\nend\n",
        file: "",
        status: Status::ExecFault,
        printed: "exec fault at 0\n",
    },
    // The second of three outputs is the first whose word is empty: one instruction, and output 1.
    Row {
        code: "slots 1\nwords 3\nin x\nout a 0\nout b 2\nout c 1\nset 0 #4\nend\n",
        file: "1",
        status: Status::ExecFault,
        printed: "exec fault at 2\n",
    },
    // A wrong count is answered before what is empty is read.
    Row {
        code: "slots 1\nwords 1\nout y 0\nload 0 0\nend\n",
        file: "1",
        status: Status::Values,
        printed: "values fault\n",
    },
    // Texts that are no code.
    Row {
        code: "slots 1\nwords 1\nout y 0\nload 0 0\n",
        file: "",
        status: Status::Code,
        printed: "code fault line 5\n",
    },
    Row {
        code: "",
        file: "",
        status: Status::Code,
        printed: "code fault line 1\n",
    },
    Row {
        code: "kernel p { in x; out y; y = x + 1; }",
        file: "1",
        status: Status::Code,
        printed: "code fault line 1\n",
    },
    Row {
        code: "slots 1\nwords 0\nend",
        file: "",
        status: Status::Code,
        printed: "code fault line 3\n",
    },
    Row {
        code: "; a\r\nslots 1\r\nwords 0\nend\n",
        file: "",
        status: Status::Code,
        printed: "code fault line 2\n",
    },
    Row {
        code: "slots 1\nwords 1\nin x\nin z\nend\n",
        file: "1 2",
        status: Status::Code,
        printed: "code fault line 4\n",
    },
    Row {
        code: "slots 1\n; a\n;\nwords 0\nend\n;\n\n",
        file: "",
        status: Status::Code,
        printed: "code fault line 7\n",
    },
];

#[test]
fn codes(rt: HostRuntime) -> Result<(), Fail> {
    for row in rows() {
        check(&rt, rt.alloc(), row.code.as_bytes(), *row)?;
    }
    Ok(())
}

// The rows, of which the proof of a loop over them is to know nothing.
fn rows() -> &'static [Row] {
    &ROWS
}

// The text and the file of a row give what the row says, and the file stays.
fn check(rt: &impl Abort, alloc: Global, text: &[u8], row: Row) -> Result<(), Fail> {
    let left = run_line(alloc, "exec v", text, row.file.as_bytes())?;
    let bytes = text.len();
    assert_eq!(rt; left.status, row.status, "a code of {bytes} bytes");
    assert_eq!(rt; left.output.as_slice(), row.printed.as_bytes());
    let file = left.file.ok_or("no file")?;
    assert_eq!(rt; file.as_slice(), row.file.as_bytes());
    Ok(())
}

/// The lines of what `plan 3 t 0` prints of a kernel with six products and sums of one input.
const CHAIN: [&str; 30] = [
    "; kernel chain",
    "; vertices 8",
    "; inputs 1",
    "; degree 2",
    "; slots 3",
    "; first 7",
    "; cost 7",
    "; bound 2",
    "; expanded 0",
    "; budget 0",
    "; verdict Open",
    "slots 3",
    "words 4",
    "in x",
    "out y 3",
    "load 0 0",
    "add 1 s0 #1",
    "add 2 s0 #2",
    "mul 0 s1 s2",
    "store 2 1",
    "store 1 2",
    "load 1 0",
    "add 2 s1 #3",
    "mul 1 s0 s2",
    "load 0 2",
    "mul 2 s1 s0",
    "load 0 1",
    "mul 1 s2 s0",
    "store 1 3",
    "end",
];

/// The number of a line from 1, what stands in its place, and the status and the printed text on the file `1`. Where nothing stands there,
/// the line is left out.
#[derive(Clone, Copy)]
struct Altered(usize, &'static str, Status, &'static str);

const ALTERED: [Altered; 8] = [
    // As it stands: 2 * 3 * 4 * 2 * 3.
    Altered(
        1,
        "; kernel chain",
        Status::Done,
        "y = 144\n; transfers 7\n",
    ),
    Altered(16, "", Status::ExecFault, "exec fault at 0\n"),
    Altered(20, "", Status::ExecFault, "exec fault at 10\n"),
    Altered(29, "", Status::ExecFault, "exec fault at 13\n"),
    Altered(12, "slots 2", Status::Code, "code fault line 18\n"),
    Altered(30, "", Status::Code, "code fault line 30\n"),
    Altered(12, "", Status::Code, "code fault line 12\n"),
    // The last product takes its first operand, which is 48, twice.
    Altered(28, "mul 1 s2 s2", Status::Done, "y = 2304\n; transfers 7\n"),
];

// The text of the chain with an altered line.
fn with_line(alloc: Global, number: usize, instead: &str) -> Result<String, AllocError> {
    let mut text = String::new(alloc);
    for (k, line) in CHAIN.iter().enumerate() {
        let here = if k + 1 == number { instead } else { line };
        if !here.is_empty() {
            text.push_str(here)?;
            text.push_str("\n")?;
        }
    }
    Ok(text)
}

// The altered codes, of which the proof of a loop over them is to know nothing.
fn alterations() -> &'static [Altered] {
    &ALTERED
}

#[test]
fn altered_codes(rt: HostRuntime) -> Result<(), Fail> {
    for row in alterations() {
        check_altered(&rt, rt.alloc(), *row)?;
    }
    Ok(())
}

// The code with one line in place of another gives what the row says on the value 1.
fn check_altered(rt: &impl Abort, alloc: Global, altered: Altered) -> Result<(), Fail> {
    let Altered(number, instead, status, printed) = altered;
    let text = with_line(alloc, number, instead)?;
    let row = Row {
        code: "",
        file: "1",
        status,
        printed,
    };
    check(rt, alloc, text.as_bytes(), row)
}

/// Kernels with their slots and a values file. What `plan` prints of each runs as the kernel does.
const KERNELS: [(&str, &str, &str); 4] = [
    (
        "plan 3 t 0",
        "kernel chain { in x; out y; tmp a; tmp b; tmp c; a = x+1; b = x+2; c = a*b; c = c*(x+3); c = c*a; y = c*b; }",
        "1",
    ),
    (
        "plan 3 t 0",
        "kernel dot { in A[4]; in B[4]; out y; tmp s; s = A[0]*B[0]; for i in 1..4 { s = s + A[i]*B[i]; } y = s; }",
        "1 2 3 4 5 6 7 8",
    ),
    (
        "plan 4 t 0",
        "kernel e { in x; out y; out z; tmp t; t = min(x, 1) & 2; t = max(t, x) | -x; y = mad(t, 3, x) ^ sel(x, t, 4); z = 2 - 7; }",
        "-9",
    ),
    ("plan 1 t 0", "kernel w { in in0; out y; y = in0; }", "12"),
];

// The kernels, of which the proof of a loop over them is to know nothing.
fn kernels() -> &'static [(&'static str, &'static str, &'static str)] {
    &KERNELS
}

#[test]
fn plans_run_as_their_kernels(rt: HostRuntime) -> Result<(), Fail> {
    for (words, kernel, values) in kernels() {
        check_plan(&rt, rt.alloc(), words, kernel.as_bytes(), values.as_bytes())?;
    }
    Ok(())
}

// The code of a plan prints on these values what the kernel does, and more.
fn check_plan(
    rt: &impl Abort,
    alloc: Global,
    words: &str,
    kernel: &[u8],
    values: &[u8],
) -> Result<(), Fail> {
    let plan = run_line(alloc, words, kernel, b"old")?;
    let ran = run_line(alloc, "run v", kernel, values)?;
    let executed = run_line(alloc, "exec v", &plan.output, values)?;
    assert_eq!(rt; ran.status, Status::Done);
    assert_eq!(rt; executed.status, Status::Done);
    assert!(rt; executed.output.starts_with(&ran.output));
    assert!(rt; ran.output.len() < executed.output.len());
    Ok(())
}
