//! Codes that were worked out by hand, both ways, and the bad lines of texts that are none.
use comp_graph::Op;
use scratch_code::{CodeEnd, read_code, write_code};
use scratch_machine::{Code, Instr, Source};
use std::alloc::Global;
use std::process::Abort;
use std::test::Fail;

// The code of `y = x + 1` with two slots, as a plan prints it, with its report.
const SUM: &[u8] =
    b"; kernel p\n; vertices 2\n; inputs 1\n; degree 1\n; slots 2\n; first 2\n; cost 2\n; bound 2\n; expanded 0\n; budget 20000\n; verdict Optimal\nslots 2\nwords 2\nin x\nout y 1\nload 0 0\nadd 1 s0 #1\nstore 1 1\nend\n";

const PLAIN_SUM: &[u8] =
    b"slots 2\nwords 2\nin x\nout y 1\nload 0 0\nadd 1 s0 #1\nstore 1 1\nend\n";

// A code of seven transfers that computes `y = 144` from `x = 1` with three slots, behind eleven comments and between others.
const LONG: &[u8] =
    b";\n;\n;\n;\n;\n;\n;\n;\n;\n;\n; verdict Open\nslots 3\nwords 4\nin x\n; the output\nout y 3\nload 0 0\nadd 1 s0 #1\nadd 2 s0 #2\nmul 0 s1 s2\nstore 2 1\nstore 1 2\nload 1 0\nadd 2 s1 #3\nmul 1 s0 s2\nload 0 2\nmul 2 s1 s0\nload 0 1\nmul 1 s2 s0\nstore 1 3\nend\n;\xff\n";

const PLAIN_LONG: &[u8] =
    b"slots 3\nwords 4\nin x\nout y 3\nload 0 0\nadd 1 s0 #1\nadd 2 s0 #2\nmul 0 s1 s2\nstore 2 1\nstore 1 2\nload 1 0\nadd 2 s1 #3\nmul 1 s0 s2\nload 0 2\nmul 2 s1 s0\nload 0 1\nmul 1 s2 s0\nstore 1 3\nend\n";

// Texts, each with its code's text without comments and the code's numbers of slots, words, inputs, outputs and instructions.
const CODES: [(&[u8], &[u8], [usize; 5]); 12] = [
    (SUM, PLAIN_SUM, [2, 2, 1, 1, 3]),
    (
        b"slots 1\nwords 1\nout y 0\nset 0 #7\nstore 0 0\nend\n",
        b"slots 1\nwords 1\nout y 0\nset 0 #7\nstore 0 0\nend\n",
        [1, 1, 0, 1, 2],
    ),
    (
        b"slots 2\nwords 2\nin x\nout y 1\nload 0 0\nmul 1 s0 s0\nstore 1 1\nend\n",
        b"slots 2\nwords 2\nin x\nout y 1\nload 0 0\nmul 1 s0 s0\nstore 1 1\nend\n",
        [2, 2, 1, 1, 3],
    ),
    (
        b"slots 1\nwords 0\nend\n",
        b"slots 1\nwords 0\nend\n",
        [1, 0, 0, 0, 0],
    ),
    (LONG, PLAIN_LONG, [3, 4, 1, 1, 14]),
    // It reads an empty word, which is a fault of the run and none of the text.
    (
        b"slots 1\nwords 1\nout y 0\nload 0 0\nend\n",
        b"slots 1\nwords 1\nout y 0\nload 0 0\nend\n",
        [1, 1, 0, 1, 1],
    ),
    // Labels: reserved words, names that repeat, two indices, letters beyond ASCII, and names of 64 bytes.
    (
        b"slots 64\nwords 256\nin in\nin in\nin _x[0]\nin \xc3\xa9[63][0]\nout \xe5\x90\x8d[9] 255\nout y 0\nout y 0\nend\n",
        b"slots 64\nwords 256\nin in\nin in\nin _x[0]\nin \xc3\xa9[63][0]\nout \xe5\x90\x8d[9] 255\nout y 0\nout y 0\nend\n",
        [64, 256, 4, 3, 0],
    ),
    (
        b"slots 1\nwords 1\nin a234567890123456789012345678901234567890123456789012345678901234[0][0]\nend\n",
        b"slots 1\nwords 1\nin a234567890123456789012345678901234567890123456789012345678901234[0][0]\nend\n",
        [1, 1, 1, 0, 0],
    ),
    // Each operation with as many operands as it takes, and constants at their ends.
    (
        b"slots 4\nwords 0\nset 0 #-9223372036854775808\nneg 1 s0\nadd 2 s0 #9223372036854775807\nsub 3 #0 s1\nmul 0 s3 s3\nand 0 s0 s1\nor 0 s0 s1\nxor 0 s0 s1\nmin 0 #1 #-1\nmax 0 s0 s1\nsel 1 s0 #-5 s2\nmad 2 s0 s1 #3\nend\n",
        b"slots 4\nwords 0\nset 0 #-9223372036854775808\nneg 1 s0\nadd 2 s0 #9223372036854775807\nsub 3 #0 s1\nmul 0 s3 s3\nand 0 s0 s1\nor 0 s0 s1\nxor 0 s0 s1\nmin 0 #1 #-1\nmax 0 s0 s1\nsel 1 s0 #-5 s2\nmad 2 s0 s1 #3\nend\n",
        [4, 0, 0, 0, 12],
    ),
    // Comments may stand anywhere, and hold any bytes.
    (
        b";\xff\x00 any bytes\r\nslots 1\n;\nwords 1\n;words 2\nstore 0 0\n;end\nend\n;after\n;\n",
        b"slots 1\nwords 1\nstore 0 0\nend\n",
        [1, 1, 0, 0, 1],
    ),
    (
        b"slots 1\nwords 2\nin x\nout x 0\nout x 1\nload 0 0\nload 0 1\nstore 0 0\nend\n",
        b"slots 1\nwords 2\nin x\nout x 0\nout x 1\nload 0 0\nload 0 1\nstore 0 0\nend\n",
        [1, 2, 1, 2, 3],
    ),
    (
        b"slots 9\nwords 10\nin a\nset 8 #0\nend\n",
        b"slots 9\nwords 10\nin a\nset 8 #0\nend\n",
        [9, 10, 1, 0, 1],
    ),
];

// The code of a text, which is not long.
fn read(rt: &impl Abort, alloc: Global, text: &[u8]) -> Result<Code, CodeEnd> {
    assert!(rt; text.len() < 1000);
    read_code(alloc, text)
}

// A code's numbers of slots, words, inputs, outputs and instructions.
fn numbers_of(code: &Code) -> [usize; 5] {
    [
        usize::from(code.slots()),
        usize::from(code.words()),
        code.inputs().len(),
        code.outputs().len(),
        code.instructions().len(),
    ]
}

// A text stands for the code of these numbers, whose text is the plain one.
fn check_code(
    rt: &impl Abort,
    alloc: Global,
    text: &[u8],
    plain: &[u8],
    numbers: [usize; 5],
) -> Result<(), Fail> {
    let code = read(rt, alloc, text)?;
    assert!(rt; numbers_of(&code) == numbers);
    let written = write_code(alloc, &code)?;
    assert!(rt; written.as_slice() == plain);
    Ok(())
}

#[test]
fn codes(rt: HostRuntime) -> Result<(), Fail> {
    for (text, plain, numbers) in &CODES {
        check_code(&rt, rt.alloc(), text, plain, *numbers)?;
    }
    Ok(())
}

// The one input is `x`, and the one output is `y` in word 1.
fn has_x_and_y(code: &Code) -> bool {
    match (code.inputs(), code.outputs()) {
        ([x], [y]) => x.bytes() == b"x".as_slice()
            && y.label.bytes() == b"y".as_slice()
            && y.word == 1,
        _ => false,
    }
}

// The sum of `y = x + 1`.
fn is_sum(instr: Instr) -> bool {
    match instr {
        Instr::Apply { op, slot, args } => {
            op == Op::Add
                && slot == 1
                && matches!(args[0], Source::Slot(0))
                && matches!(args[1], Source::Const(1))
                && matches!(args[2], Source::Const(0))
        }
        _ => false,
    }
}

// The instructions of `y = x + 1`.
fn are_of_sum(instructions: &[Instr]) -> bool {
    match instructions {
        [first, second, third] => {
            matches!(*first, Instr::Load { slot: 0, word: 0 })
                && is_sum(*second)
                && matches!(*third, Instr::Store { slot: 1, word: 1 })
        }
        _ => false,
    }
}

#[test]
fn parts(rt: HostRuntime) -> Result<(), Fail> {
    let code = read(&rt, rt.alloc(), SUM)?;
    assert!(rt; has_x_and_y(&code));
    assert!(rt; are_of_sum(code.instructions()));
    Ok(())
}

// The long code with one slot less: the third slot is named in line 18.
const FEW_SLOTS: &[u8] =
    b";\n;\n;\n;\n;\n;\n;\n;\n;\n;\n; verdict Open\nslots 2\nwords 4\nin x\nout y 3\nload 0 0\nadd 1 s0 #1\nadd 2 s0 #2\nmul 0 s1 s2\nend\n";

// The tables have texts that read as no code, each with its bad line.

// Texts that end too early, or whose last piece is no line; the first names a slot that is not there.
const TOO_EARLY: [(&[u8], u32); 11] = [
    (FEW_SLOTS, 18),
    (b"", 1),
    (b"; only a comment\n", 2),
    (b"slots 2\n", 2),
    (b"; a\nslots 2\n; b\n", 4),
    (b"slots 2\nwords 1\n", 3),
    (b"slots 1\nwords 1\nout y 0\nload 0 0\n", 5),
    (b"; no line feed", 1),
    (b"slots 2", 1),
    (b"slots 2\nwords 1\nend", 3),
    (b"slots 2\nwords 1\nend\n;", 4),
];

// The numbers of slots and words.
const BAD_HEADS: [(&[u8], u32); 16] = [
    (b"\n", 1),
    (b"words 1\nslots 1\nend\n", 1),
    (b"slots 0\n", 1),
    (b"slots 65\n", 1),
    (b"slots 02\n", 1),
    (b"slots  2\n", 1),
    (b"slots 2 \n", 1),
    (b"slots 2\r\n", 1),
    (b"slots\n", 1),
    (b"Slots 2\n", 1),
    (b" slots 2\n", 1),
    (b"slots 2\nslots 2\n", 2),
    (b"slots 2\nwords 257\n", 2),
    (b"slots 2\nwords 65536\n", 2),
    (b"slots 2\nwords -0\n", 2),
    (b"slots 2\nin x\n", 2),
];

// Inputs.
const BAD_INPUTS: [(&[u8], u32); 15] = [
    (b"slots 2\nwords 0\nin x\nend\n", 3),
    (b"slots 2\nwords 1\nin x\n; passed\nin y\nend\n", 5),
    (b"slots 2\nwords 1\nin 1x\nend\n", 3),
    (b"slots 2\nwords 1\nin \nend\n", 3),
    (b"slots 2\nwords 1\nin x y\nend\n", 3),
    (b"slots 2\nwords 1\nin x[64]\nend\n", 3),
    (b"slots 2\nwords 1\nin x[01]\nend\n", 3),
    (b"slots 2\nwords 1\nin x[]\nend\n", 3),
    (b"slots 2\nwords 1\nin x[1\nend\n", 3),
    (b"slots 2\nwords 1\nin x[1]y\nend\n", 3),
    (b"slots 2\nwords 1\nin [1]\nend\n", 3),
    (b"slots 2\nwords 1\nin x[0][1][2]\nend\n", 3),
    (b"slots 2\nwords 1\nin \xc3\nend\n", 3),
    (b"slots 2\nwords 1\nin x\xc3\xa9\xc3\nend\n", 3),
    (
        b"slots 2\nwords 1\nin a2345678901234567890123456789012345678901234567890123456789012345\nend\n",
        3,
    ),
];

// Outputs and the end.
const BAD_OUTPUTS: [(&[u8], u32); 7] = [
    (b"slots 2\nwords 1\nin x\nout y 1\nend\n", 4),
    (b"slots 2\nwords 1\nout y\nend\n", 3),
    (b"slots 2\nwords 1\nout y 0\nin x\nend\n", 4),
    (b"slots 2\nwords 1\nend \n", 3),
    (b"slots 2\nwords 1\n; passed\nend\nend\n", 5),
    (b"slots 2\nwords 1\nend\n\n", 4),
    (b"slots 2\nwords 1\nend\n; passed\nload 0 0\n", 5),
];

// Instructions.
const BAD_INSTRUCTIONS: [(&[u8], u32); 13] = [
    (b"slots 2\nwords 1\nload 2 0\nend\n", 3),
    (b"slots 2\nwords 1\nload 0 1\nend\n", 3),
    (b"slots 2\nwords 1\nstore 0 1\nend\n", 3),
    (b"slots 2\nwords 1\nload 0 0\nout y 0\nend\n", 4),
    (b"slots 2\nwords 1\nset 0 s1\nend\n", 3),
    (b"slots 2\nwords 1\nset 0 #-0\nend\n", 3),
    (b"slots 2\nwords 1\nset 0 #9223372036854775808\nend\n", 3),
    (b"slots 2\nwords 1\nneg 0 s2\nend\n", 3),
    (b"slots 2\nwords 1\nneg 2 s0\nend\n", 3),
    (b"slots 2\nwords 1\nadd 0 s0\nend\n", 3),
    (b"slots 2\nwords 1\nadd 0 s0 s0 s0\nend\n", 3),
    (b"slots 2\nwords 1\nadd 0 s0 1\nend\n", 3),
    (b"slots 2\nwords 1\ndiv 0 s0 s0\nend\n", 3),
];

// Each text has its bad line.
fn check_bad_lines(rt: &impl Abort, alloc: Global, cases: &[(&[u8], u32)]) {
    for (text, line) in cases {
        let end = read(rt, alloc, text).err();
        assert!(rt;
            end == Some(CodeEnd::BadLine { line: *line }),
            "line {line}"
        );
    }
}

#[test]
fn bad_lines(rt: HostRuntime) {
    check_bad_lines(&rt, rt.alloc(), &TOO_EARLY);
    check_bad_lines(&rt, rt.alloc(), &BAD_HEADS);
    check_bad_lines(&rt, rt.alloc(), &BAD_INPUTS);
    check_bad_lines(&rt, rt.alloc(), &BAD_OUTPUTS);
    check_bad_lines(&rt, rt.alloc(), &BAD_INSTRUCTIONS);
}
