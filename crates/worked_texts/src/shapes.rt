//! Faults of the shape of a kernel: indices, turns, and elements that are not set, and the vertices of its graph. `plan`, `run` and `graph`
//! answer them alike, and none reads or writes the file.
//!
//! A text is written in two pieces, and the fault is where the second begins. The number is counted in bytes by hand, from the pieces
//! `kernel a { ` of 11, `in x; ` of 6, `out y; ` of 7, `tmp t; ` of 7, `in A[2]; ` of 9, `in A[2][2]; ` and `in A[64][4]; ` of 12 and 13,
//! `y = ` of 4, and `for i in ` of 9.
use crate::texts::phases::First;
use crate::texts::{Cut, check_fault};
use example_runs::run_line;
use std::alloc::Global;
use std::process::Abort;
use std::test::Fail;

/// An index that is below 0 or not below its size, where its place is read or written: the name of the place.
const OUT_OF_RANGE: [Cut; 11] = [
    // Above, below, by an operation, in a target.
    Cut(31, "kernel a { in A[3]; out y; y = ", "A[3]; }"),
    Cut(31, "kernel a { in A[3]; out y; y = ", "A[-1]; }"),
    Cut(38, "kernel a { in A[3]; out y; y = A[0] + ", "A[1 + 2]; }"),
    Cut(21, "kernel a { out y[2]; ", "y[2] = 1; }"),
    // In the second index and in the first; of two the first is tested first, and both are at the name.
    Cut(34, "kernel a { in A[2][2]; out y; y = ", "A[1][2]; }"),
    Cut(34, "kernel a { in A[2][2]; out y; y = ", "A[2][9]; }"),
    // At the fifth turn, and at the first.
    Cut(
        47,
        "kernel a { in A[4]; out y; for i in 0..5 { y = ",
        "A[i]; } }",
    ),
    Cut(
        53,
        "kernel a { in A[4]; out y[4]; for i in 0..4 { y[i] = ",
        "A[i - 1]; } }",
    ),
    // Late in the run, behind a read of an element that is not set: the whole walk stands before the values.
    Cut(
        45,
        "kernel a { in A[2]; out y; tmp t; y = t; y = ",
        "A[2]; }",
    ),
    // Of an assignment the right side stands before the target.
    Cut(37, "kernel a { in A[2]; out y[2]; y[2] = ", "A[2]; }"),
    // All operands of `sel` are evaluated.
    Cut(38, "kernel a { in A[2]; out y; y = sel(0, ", "A[2], 1); }"),
];

/// A number, an operation or a minus sign of an index or a bound beyond 1,000,000: the first token of that index or bound.
const BIG_INDEX: [Cut; 9] = [
    // The number in the group is at fault, before its minus signs; the place is the first token of the bound.
    Cut(27, "kernel a { out y; for i in ", "-(-1000001)..0 { } }"),
    // Numbers of each bound, and the value of an operation.
    Cut(23, "kernel a { for i in 0..", "1000001 { } }"),
    Cut(20, "kernel a { for i in ", "-1000001..0 { } }"),
    Cut(20, "kernel a { for i in ", "(0 - 1000001)..0 { } }"),
    // An operation is too great though the index is not: 1000000 * 2 - 2000000 is 0.
    Cut(
        33,
        "kernel a { in A[4]; out y; y = A[",
        "1000000 * 2 - 2000000]; }",
    ),
    Cut(
        33,
        "kernel a { in A[4]; out y; y = A[",
        "0 + 1000001 * 0]; }",
    ),
    // The index and not its operation.
    Cut(
        39,
        "kernel a { in A[4][4]; out y; y = A[0][",
        "1000000 + 1]; }",
    ),
    // A product with an open index: its number is too great, at the first turn.
    Cut(
        46,
        "kernel a { out y; for i in 0..2 { for j in 0..",
        "i * 1000001 { } } }",
    ),
    // Both indices are evaluated before one is tested.
    Cut(39, "kernel a { in A[4][4]; out y; y = A[9][", "1000001]; }"),
];

/// More than 65,536 turns: the first token of the statement, or the `for` of the loop at a turn.
const TOO_MANY_TURNS: [Cut; 7] = [
    // A loop by two numbers takes 1 + 2 at its start, and each turn 1 and the 1 + 2 of `y = 1;`: behind 16,383 turns there are 3 + 16383 * 4, so 65,535, and 1 of the next.
    Cut(38, "kernel a { out y; for i in 0..65536 { ", "y = 1; } }"),
    // 3 and 65,534 turns are one too many: at the last turn.
    Cut(11, "kernel a { ", "for i in 0..65534 { } }"),
    // 3 and 252 turns of 1 + 3 + 256 are 65,523; the next has 1 + 3 and 9 turns of the inner loop, and not its tenth.
    Cut(
        29,
        "kernel a { for i in 0..256 { ",
        "for j in 0..256 { } } }",
    ),
    // 3 + 65,531 leaves 2, and the next statement wants 3: also a loop that runs no turn.
    Cut(
        33,
        "kernel a { for i in 0..65531 { } ",
        "for j in 1..0 { } }",
    ),
    Cut(40, "kernel a { out y; for i in 0..65531 { } ", "y = 1; }"),
    // A turn with the 1 + 2 of `y = i;`.
    Cut(38, "kernel a { out y; for i in 0..16384 { ", "y = i; } }"),
    // The count stands before the index: 1 are left, and `y = A[9];` wants 4.
    Cut(
        49,
        "kernel a { in A[1]; out y; for i in 0..65532 { } ",
        "y = A[9]; }",
    ),
];

/// An element is read that is not set: the name of the place.
const UNSET: [Cut; 8] = [
    // Set later, by itself, never.
    Cut(29, "kernel a { out y; tmp t; y = ", "t; }"),
    Cut(29, "kernel a { out y; tmp t; y = ", "t; t = 1; }"),
    Cut(22, "kernel a { out y; y = ", "y + 1; }"),
    Cut(35, "kernel a { in x; tmp t; tmp u; t = ", "u; }"),
    // An element whose neighbour is set.
    Cut(
        55,
        "kernel a { in x; out y; tmp t[2]; t[0] = x; y = t[0] + ",
        "t[1]; }",
    ),
    // All operands of `sel` are evaluated.
    Cut(45, "kernel a { in x; out y; tmp t; y = sel(1, x, ", "t); }"),
    // y[0] reads y[2].
    Cut(
        44,
        "kernel a { out y[3]; for i in 0..3 { y[i] = ",
        "y[2 - i]; } }",
    ),
    // Of two the first that is evaluated.
    Cut(
        46,
        "kernel a { in x; out y; tmp t; tmp u; y = 0 * ",
        "t + u; }",
    ),
];

/// An output with an element that is not set in the end: its declaration.
const OUTPUT_UNSET: [Cut; 6] = [
    // Of two outputs the first that is not set.
    Cut(15, "kernel a { out ", "y; }"),
    Cut(28, "kernel a { in x; out y; out ", "z; y = x; }"),
    // One element of three, one by a loop that runs no turn, two of four.
    Cut(21, "kernel a { in x; out ", "y[3]; y[0] = x; y[2] = x; }"),
    Cut(15, "kernel a { out ", "y; for i in 3..3 { y = 1; } }"),
    Cut(
        22,
        "kernel a { out x; out ",
        "y[2][2]; x = 1; for i in 0..2 { y[i][i] = 1; } }",
    ),
    Cut(15, "kernel a { out ", "y; out z; z = 1; }"),
];

/// A vertex behind 256: the name of an input, the sign or the word of an operation, the name of an output.
const TOO_MANY_VERTICES: [Cut; 12] = [
    // Inputs: 64 * 4 are 256.
    Cut(27, "kernel a { in A[64][4]; in ", "x; out y; y = x; }"),
    Cut(27, "kernel a { in A[64][4]; in ", "B[2]; }"),
    Cut(20, "kernel a { in x; in ", "A[64][4]; }"),
    // Operations: a sign, a word, a minus sign before an operand.
    Cut(43, "kernel a { in A[64][4]; out y; y = A[0][0] ", "+ 1; }"),
    Cut(
        35,
        "kernel a { in A[64][4]; out y; y = ",
        "min(A[0][0], 1); }",
    ),
    Cut(35, "kernel a { in A[64][4]; out y; y = ", "-A[0][0]; }"),
    // Outputs that are constants.
    Cut(28, "kernel a { in A[64][4]; out ", "y; y = 1; }"),
    Cut(
        35,
        "kernel a { in A[64][4]; out x; out ",
        "y; x = A[1][1]; y = 2 + 3; }",
    ),
    // 63 * 4 + 3 inputs leave 1, which the product takes; the sum behind it is at its sign.
    Cut(
        49,
        "kernel a { in A[63][4]; in x[3]; out y; y = x[0] ",
        "+ x[1] * x[2]; }",
    ),
    // An operation stands before the read of the next operand.
    Cut(
        50,
        "kernel a { in A[64][4]; out y; tmp t; y = A[0][0] ",
        "+ 1 + t; }",
    ),
    // x and 255 sums; at the last turn the sign of the sum.
    Cut(
        55,
        "kernel a { in x; out y; y = x; for i in 0..256 { y = y ",
        "+ 1; } }",
    ),
    // 1 and 3 * 64 leave 63: the last element of four.
    Cut(
        54,
        "kernel a { in x; out y[64]; out z[64]; out u[64]; out ",
        "v[64]; for i in 0..64 { y[i] = i; z[i] = i; u[i] = i; v[i] = i; } }",
    ),
];

/// A step below 1: its first token.
const BAD_STEP: [Cut; 13] = [
    Cut(35, "kernel b { out y; for i in 0..3 by ", "0 { y = 1; } }"),
    Cut(28, "kernel a { for i in 0..3 by ", "-1 { } }"),
    Cut(28, "kernel a { for i in 0..3 by ", "0-1 { } }"),
    Cut(28, "kernel a { for i in 0..3 by ", "(1 - 1) { } }"),
    Cut(28, "kernel a { for i in 0..3 by ", "2 * 0 + 0 { } }"),
    Cut(28, "kernel a { for i in 0..3 by ", "-1000000 { } }"),
    // By an open index, which is 0 at the first turn, and by one less, which is 0 at the second.
    Cut(
        44,
        "kernel a { for i in 0..2 { for j in 0..3 by ",
        "i { } } }",
    ),
    Cut(
        44,
        "kernel a { for i in 0..2 { for j in 0..3 by ",
        "1 - i { } } }",
    ),
    // Also where the loop would run no turn, before its body, and where a branch leads to it.
    Cut(28, "kernel a { for i in 3..0 by ", "0 { } }"),
    Cut(
        44,
        "kernel a { in A[1]; out y; for i in 0..3 by ",
        "0 { y = A[9]; } }",
    ),
    Cut(40, "kernel a { if 0 == 0 { for i in 0..3 by ", "0 { } } }"),
    Cut(
        49,
        "kernel a { if 0 != 0 { } else { for i in 0..3 by ",
        "0 { } } }",
    ),
    // The walk stands before the values: `y` reads an element that is not set.
    Cut(
        49,
        "kernel a { out y; tmp t; y = t; for i in 0..3 by ",
        "0 { } }",
    ),
];

/// A number, an operation or a minus sign of a step or a side beyond 1,000,000: the first token of that step or side.
const BIG_SIDE: [Cut; 16] = [
    Cut(14, "kernel a { if ", "1000001 == 0 { } }"),
    Cut(19, "kernel a { if 0 == ", "1000001 { } }"),
    Cut(14, "kernel a { if ", "-(1000000 + 1) < 0 { } }"),
    Cut(19, "kernel a { if 0 == ", "1000000 + 1 { } }"),
    Cut(19, "kernel a { if 0 == ", "(1000000 + 1) * 0 { } }"),
    Cut(14, "kernel a { if ", "0 - 1000000 - 1 < 0 { } }"),
    // The left side is evaluated first, and both before a block is run.
    Cut(14, "kernel a { if ", "1000001 == 1000002 { } }"),
    Cut(
        35,
        "kernel a { in A[1]; out y; if 0 == ",
        "0 * 1000001 { y = A[9]; } }",
    ),
    // 2 * 500001 is too great, at the third turn.
    Cut(
        30,
        "kernel a { for i in 0..3 { if ",
        "i * 500001 == 0 { } } }",
    ),
    // Of a loop the first bound, the second bound and the step are evaluated, and then the step is tested.
    Cut(28, "kernel a { for i in 0..1 by ", "1000001 { } }"),
    Cut(28, "kernel a { for i in 0..1 by ", "1000000 + 1 { } }"),
    Cut(28, "kernel a { for i in 0..1 by ", "-1000001 { } }"),
    Cut(
        28,
        "kernel a { for i in 0..1 by ",
        "1000001 - 1000001 { } }",
    ),
    Cut(20, "kernel a { for i in ", "1000001..0 by 0 { } }"),
    Cut(23, "kernel a { for i in 0..", "1000001 by 0 { } }"),
    Cut(23, "kernel a { for i in 5..", "-1000001 by 1000001 { } }"),
];

/// An index out of its range in a block or at a turn of a loop with a step: the name of the place.
const OUT_OF_RANGE_THERE: [Cut; 4] = [
    // `i <= 4` lets the fifth turn in; 0, 3, 6 are the turns of the loop by 3; 5 - 2 * i is 5 at first; the second block is run.
    Cut(
        70,
        "kernel a { in A[4]; out y; y = 0; for i in 0..5 { if i <= 4 { y = y + ",
        "A[i]; } } }",
    ),
    Cut(
        63,
        "kernel a { in A[4]; out y; y = 0; for i in 0..7 by 3 { y = y + ",
        "A[i]; } }",
    ),
    Cut(
        79,
        "kernel a { in A[4]; out y; y = 0; for i in 0..7 by 3 { if 5 - 2 * i >= 0 { y = ",
        "A[5 - 2 * i]; } } }",
    ),
    Cut(
        59,
        "kernel a { in A[2]; out y; if 0 == 1 { y = 1; } else { y = ",
        "A[2]; } }",
    ),
];

/// More than 65,536 turns, with steps and branches: the first token of the statement, or the `for` of the loop at a turn.
const TOO_MANY_TURNS_THERE: [Cut; 11] = [
    // `0..65533 by 1` counts 1 + 3 and 65,533 turns; by 2 there are 65,533 turns to 131,065.
    Cut(11, "kernel a { ", "for i in 0..65533 by 1 { } }"),
    Cut(11, "kernel a { ", "for i in 0..131065 by 2 { } }"),
    // `by 2 - 1` counts 1 + 4 + 1, and then 65,531 turns.
    Cut(11, "kernel a { ", "for i in 0..65531 by 2 - 1 { } }"),
    // `if 0 == 0` counts 1 + 2: behind it the loop has 65,536 - 3 - 3 turns and no more, and behind 3 and 65,531 turns it has no room.
    Cut(25, "kernel a { if 0 == 0 { } ", "for i in 0..65531 { } }"),
    Cut(33, "kernel a { for i in 0..65531 { } ", "if 0 == 0 { } }"),
    // `if 1 + 2 == -0` counts 1 + 3 + 2, and not its relation: 3, 65,528 and 6 are one too many.
    Cut(
        33,
        "kernel a { for i in 0..65528 { } ",
        "if 1 + 2 == -0 { } }",
    ),
    // 3, 16,383 turns of 1 + 3, and 1 of the next.
    Cut(31, "kernel a { for i in 0..16384 { ", "if i == 0 { } } }"),
    // 3, 65,528, 3 for the branch, and 3 for the assignment in the block that is run.
    Cut(
        52,
        "kernel a { out y; for i in 0..65528 { } if 0 == 0 { ",
        "y = 1; } else { } }",
    ),
    Cut(
        61,
        "kernel a { out y; for i in 0..65528 { } if 0 == 1 { } else { ",
        "y = 1; } }",
    ),
    // The count stands before the sides and the step are evaluated.
    Cut(
        33,
        "kernel a { for i in 0..65531 { } ",
        "if 1000001 == 0 { } }",
    ),
    Cut(
        33,
        "kernel a { for i in 0..65530 { } ",
        "for j in 0..1 by 0 { } }",
    ),
];

/// With room for one more turn the fault is that of the side or the step.
const AT_THE_LAST_TURN: [First; 2] = [
    // 3, 65,530 and 3 for the branch; 3, 65,529 and 4 for the loop.
    First(
        14,
        Cut(
            36,
            "kernel a { for i in 0..65530 { } if ",
            "1000001 == 0 { } }",
        ),
    ),
    First(
        17,
        Cut(
            50,
            "kernel a { for i in 0..65529 { } for j in 0..1 by ",
            "0 { } }",
        ),
    ),
];

/// Elements that are not set, outputs that are not set in the end, and a vertex too many, where a branch or a step leads to them.
const AFTER_BRANCHES: [First; 7] = [
    First(
        8,
        Cut(
            41,
            "kernel a { out y; tmp t; if 0 == 0 { y = ",
            "t; } else { y = 1; } }",
        ),
    ),
    First(
        8,
        Cut(
            66,
            "kernel a { out y; tmp t; for i in 0..2 { if i == 1 { t = 1; } y = ",
            "t; } }",
        ),
    ),
    First(
        8,
        Cut(
            59,
            "kernel a { out y[4]; for i in 0..4 by 2 { y[i] = i; y[i] = ",
            "y[i + 1]; } }",
        ),
    ),
    First(10, Cut(15, "kernel a { out ", "y; if 0 == 1 { y = 1; } }")),
    First(
        10,
        Cut(
            15,
            "kernel a { out ",
            "y[4]; for i in 0..4 by 2 { y[i] = 1; } }",
        ),
    ),
    First(
        10,
        Cut(
            22,
            "kernel a { out y; out ",
            "z; for i in 0..2 { if i == 0 { y = 1; } else { y = 2; } } }",
        ),
    ),
    First(
        11,
        Cut(
            55,
            "kernel a { in A[64][4]; out y; if 0 == 0 { y = A[0][0] ",
            "+ 1; } }",
        ),
    ),
];

#[test]
fn shapes_that_are_faults(rt: HostRuntime) -> Result<(), Fail> {
    check_cuts(&rt, rt.alloc(), 7, &OUT_OF_RANGE)?;
    check_cuts(&rt, rt.alloc(), 14, &BIG_INDEX)?;
    check_cuts(&rt, rt.alloc(), 12, &TOO_MANY_TURNS)?;
    check_cuts(&rt, rt.alloc(), 8, &UNSET)?;
    check_cuts(&rt, rt.alloc(), 10, &OUTPUT_UNSET)?;
    check_cuts(&rt, rt.alloc(), 11, &TOO_MANY_VERTICES)
}

#[test]
fn faults_of_branches_and_steps(rt: HostRuntime) -> Result<(), Fail> {
    check_cuts(&rt, rt.alloc(), 17, &BAD_STEP)?;
    check_cuts(&rt, rt.alloc(), 14, &BIG_SIDE)?;
    check_cuts(&rt, rt.alloc(), 7, &OUT_OF_RANGE_THERE)?;
    check_cuts(&rt, rt.alloc(), 12, &TOO_MANY_TURNS_THERE)?;
    check_firsts(&rt, rt.alloc(), &AT_THE_LAST_TURN)?;
    check_firsts(&rt, rt.alloc(), &AFTER_BRANCHES)
}

// Each command answers the fault of the code that is named, where the text is cut.
fn check_firsts(rt: &impl Abort, alloc: Global, firsts: &[First]) -> Result<(), Fail> {
    for First(code, cut) in firsts {
        check_cuts(rt, alloc, *code, &[*cut])?;
    }
    Ok(())
}

// Each command answers the fault of this code where the text is cut.
fn check_cuts(rt: &impl Abort, alloc: Global, code: u8, cuts: &[Cut]) -> Result<(), Fail> {
    for cut in cuts {
        let Cut(at, before, rest) = *cut;
        assert_eq!(rt; before.len(), at, "K{code}");
        let text = format!(in alloc; "{before}{rest}")?;
        for words in ["plan 4 t 0", "run v", "graph"] {
            let left = run_line(alloc, words, text.as_bytes(), b"old")?;
            check_fault(rt, alloc, left, code, at)?;
        }
    }
    Ok(())
}
