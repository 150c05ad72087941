//! The commands `judge` and `tidy`: plays that are complete pebblings, the code that is made of one, and each way to be none.
use crate::leaving::{Expected, check_run};
use command_answers::Status;
use example_runs::{run_line, run_on, words_of};
use std::alloc::Global;
use std::process::Abort;
use std::test::Fail;

/// The kernel y = x + 1: x is vertex 0, and y is vertex 1.
const P: &str = "kernel p { in x; out y; y = x + 1; }";

/// A kernel with two inputs, 0 and 1, of which the output 2 reads the first.
const R: &str = "kernel r { in x; in z; out y; y = x + 1; }";

/// A play of P that loads and stores twice.
const TWICE: &str = "load 0\nload 0\ncompute 1\nstore 1\nstore 1\nend\n";

/// What `tidy` makes of it: one load and one store.
const TIDIED: &str =
    "; play 4\n; cost 2\nslots 2\nwords 2\nin x\nout y 1\nload 0 0\nadd 1 s0 #1\nstore 1 1\nend\n";

/// Words, a kernel, what the file holds, the status, and what is printed.
#[derive(Clone, Copy)]
struct Row(
    &'static str,
    &'static str,
    &'static str,
    Status,
    &'static str,
);

const ROWS: [Row; 18] = [
    Row(
        "judge 2 p",
        P,
        TWICE,
        Status::Done,
        "play complete cost 4\n",
    ),
    Row("tidy 2 p", P, TWICE, Status::Done, TIDIED),
    Row(
        "judge 2 p",
        P,
        "; y needs x alone\nload 0\ncompute 1\ndrop 0\nstore 1\nunblue 0\nend\n",
        Status::Done,
        "play complete cost 2\n",
    ),
    // Each rule of the game, by the first move that breaks it.
    Row(
        "judge 2 p",
        P,
        "compute 1\nend\n",
        Status::Play,
        "play fault move 0 rule 3 vertex 1\n",
    ),
    Row(
        "tidy 2 p",
        P,
        "compute 1\nend\n",
        Status::Play,
        "play fault move 0 rule 3 vertex 1\n",
    ),
    Row(
        "judge 2 p",
        P,
        "load 1\nend\n",
        Status::Play,
        "play fault move 0 rule 1 vertex 1\n",
    ),
    Row(
        "judge 2 p",
        P,
        "store 0\nload 1\nend\n",
        Status::Play,
        "play fault move 0 rule 2 vertex 0\n",
    ),
    Row(
        "judge 2 p",
        P,
        "load 0\ndrop 1\nend\n",
        Status::Play,
        "play fault move 1 rule 4 vertex 1\n",
    ),
    Row(
        "judge 2 p",
        R,
        "load 0\nload 1\ncompute 2\nend\n",
        Status::Play,
        "play fault move 2 rule 5 vertex 2\n",
    ),
    Row(
        "judge 3 p",
        R,
        "load 0\nload 1\ncompute 2\nstore 2\nend\n",
        Status::Done,
        "play complete cost 3\n",
    ),
    Row(
        "judge 2 p",
        P,
        "end\n",
        Status::Play,
        "play incomplete vertex 1\n",
    ),
    Row(
        "tidy 2 p",
        P,
        "load 0\ncompute 1\nend\n",
        Status::Play,
        "play incomplete vertex 1\n",
    ),
    // Vertex 2 is none of P's, and a line has to end.
    Row(
        "judge 2 p",
        P,
        "load 2\nend\n",
        Status::Play,
        "play fault line 1\n",
    ),
    Row(
        "tidy 2 p",
        P,
        "; a\nload 00\nend\n",
        Status::Play,
        "play fault line 2\n",
    ),
    Row(
        "judge 2 p",
        P,
        "load 0\nend",
        Status::Play,
        "play fault line 2\n",
    ),
    Row("judge 2 p", P, "", Status::Play, "play fault line 1\n"),
    // The kernel and the slots come before the file.
    Row(
        "tidy 1 p",
        P,
        "no play",
        Status::TooSmall,
        "too small needs 2\n",
    ),
    Row(
        "judge 2 p",
        "kernel a { ? }",
        "no play",
        Status::Kernel,
        "kernel fault K1 at 11\n",
    ),
];

// The rows, of which the proof of a loop over them is to know nothing.
fn rows() -> &'static [Row] {
    &ROWS
}

#[test]
fn plays(rt: HostRuntime) -> Result<(), Fail> {
    for row in rows() {
        check_row(&rt, rt.alloc(), *row)?;
    }
    Ok(())
}

// The words, the kernel and the play of a row leave what the row says, and the play in the file.
fn check_row(rt: &impl Abort, alloc: Global, row: Row) -> Result<(), Fail> {
    let Row(words, kernel, play, status, printed) = row;
    let expected = Expected {
        status,
        output: printed.as_bytes(),
        file: play.as_bytes(),
    };
    check_run(
        rt,
        alloc,
        words,
        kernel.as_bytes(),
        play.as_bytes(),
        expected,
    )
}

#[test]
fn a_missing_play(rt: HostRuntime) -> Result<(), Fail> {
    for line in ["judge 2 p", "tidy 2 p"] {
        let words = words_of(rt.alloc(), line)?;
        let left = run_on(
            rt.alloc(),
            &words,
            P.as_bytes(),
            None,
            1,
            Vec::new(rt.alloc()),
        )?;
        assert_eq!(rt; left.status, Status::ReadFault);
        assert!(rt; left.output.is_empty());
        assert!(rt; left.file.is_none());
    }
    Ok(())
}
