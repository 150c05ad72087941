//! Parts in one another: 32 levels are allowed, and what opens one more is at fault.
use super::{Answer, push_times};
use std::alloc::{AllocError, Global};

/// So many parts of one kind in one another fit into a text, and none more.
#[derive(Clone, Copy)]
pub struct Nest {
    /// The number of parts that fit.
    pub fits: usize,
    /// The place of the part too many, where there is one: behind what stands before the parts, and the opening of each that fits.
    pub at: usize,
    /// The answer where there is none.
    pub answer: Answer,
    /// What stands before the parts, what opens one, what they hold, what closes one, and what stands behind them.
    pub pieces: [&'static str; 5],
}

pub const NESTS: [Nest; 28] = [
    // Groups, minus signs, and calls with the inner one as first, second and third argument.
    Nest {
        fits: 32,
        at: 22 + 32,
        answer: Answer::Plan(1),
        pieces: ["kernel a { out y; y = ", "(", "1", ")", "; }"],
    },
    Nest {
        fits: 32,
        at: 22 + 32,
        answer: Answer::Plan(1),
        pieces: ["kernel a { out y; y = ", "-", "1", "", "; }"],
    },
    Nest {
        fits: 32,
        at: 22 + 32 * 4,
        answer: Answer::Plan(1),
        pieces: ["kernel a { out y; y = ", "min(", "1", ",1)", "; }"],
    },
    Nest {
        fits: 32,
        at: 22 + 32 * 6,
        answer: Answer::Plan(1),
        pieces: ["kernel a { out y; y = ", "max(1,", "1", ")", "; }"],
    },
    Nest {
        fits: 32,
        at: 22 + 32 * 8,
        answer: Answer::Plan(1),
        pieces: ["kernel a { out y; y = ", "sel(1,2,", "1", ")", "; }"],
    },
    Nest {
        fits: 32,
        at: 22 + 32 * 6,
        answer: Answer::Plan(1),
        pieces: ["kernel a { out y; y = ", "mad(1,", "1", ",1)", "; }"],
    },
    // A minus sign and a group are two parts.
    Nest {
        fits: 16,
        at: 22 + 16 * 2,
        answer: Answer::Plan(1),
        pieces: ["kernel a { out y; y = ", "-(", "1", ")", "; }"],
    },
    // The parenthesis of a call opens no part.
    Nest {
        fits: 31,
        at: 26 + 31,
        answer: Answer::Plan(1),
        pieces: ["kernel a { out y; y = min(", "(", "1", ")", ", 1); }"],
    },
    Nest {
        fits: 31,
        at: 28 + 31,
        answer: Answer::Plan(1),
        pieces: ["kernel a { out y; y = max(1,", "(", "1", ")", "); }"],
    },
    // One minus sign is a part round the groups behind it.
    Nest {
        fits: 31,
        at: 23 + 31,
        answer: Answer::Plan(1),
        pieces: ["kernel a { out y; y = -", "(", "1", ")", "; }"],
    },
    // A part that is closed counts no more, and a minus sign holds its own operand alone.
    Nest {
        fits: 32,
        at: 26 + 32,
        answer: Answer::Plan(1),
        pieces: ["kernel a { out y; y = (1)+", "(", "1", ")", "; }"],
    },
    Nest {
        fits: 32,
        at: 25 + 32,
        answer: Answer::Plan(1),
        pieces: ["kernel a { out y; y = -1*", "(", "1", ")", "; }"],
    },
    // An operator opens no part.
    Nest {
        fits: 32,
        at: 22 + 32 * 3 + 2,
        answer: Answer::Plan(1),
        pieces: ["kernel a { out y; y = ", "1+(", "1", ")", "; }"],
    },
    // Brackets open no part: in a place that is read, and in a target.
    Nest {
        fits: 32,
        at: 33 + 32,
        answer: Answer::Plan(0),
        pieces: ["kernel a { in A[1]; out y; y = A[", "(", "0", ")", "]; }"],
    },
    Nest {
        fits: 32,
        at: 33 + 32,
        answer: Answer::Plan(0),
        pieces: ["kernel a { in A[1]; out y; y = A[", "-", "0", "", "]; }"],
    },
    Nest {
        fits: 32,
        at: 23 + 32,
        answer: Answer::Plan(1),
        pieces: ["kernel a { out y[1]; y[", "(", "0", ")", "] = 1; }"],
    },
    // A loop is a part round its bounds and its body.
    Nest {
        fits: 31,
        at: 20 + 31,
        answer: Answer::Plan(0),
        pieces: ["kernel a { for i in ", "(", "0", ")", "..1 { } }"],
    },
    Nest {
        fits: 31,
        at: 23 + 31,
        answer: Answer::Plan(0),
        pieces: ["kernel a { for i in 0..", "-", "1", "", " { } }"],
    },
    Nest {
        fits: 31,
        at: 38 + 31,
        answer: Answer::Plan(1),
        pieces: [
            "kernel a { out y; for i in 0..1 { y = ",
            "(",
            "1",
            ")",
            "; } }",
        ],
    },
    // A loop that has ended counts no more.
    Nest {
        fits: 32,
        at: 40 + 32,
        answer: Answer::Plan(1),
        pieces: [
            "kernel a { out y; for i in 0..1 { } y = ",
            "(",
            "1",
            ")",
            "; }",
        ],
    },
    // Branches: the first block and the second hold the next one.
    Nest {
        fits: 32,
        at: 18 + 32 * 12,
        answer: Answer::Plan(1),
        pieces: ["kernel a { out y; ", "if 0 == 0 { ", "y = 1; ", "} ", "}"],
    },
    Nest {
        fits: 32,
        at: 18 + 32 * 21,
        answer: Answer::Plan(1),
        pieces: [
            "kernel a { out y; ",
            "if 0 == 1 { } else { ",
            "y = 1; ",
            "} ",
            "}",
        ],
    },
    // A branch is a part round its sides and both its blocks, and a loop round its step.
    Nest {
        fits: 31,
        at: 14 + 31,
        answer: Answer::Plan(0),
        pieces: ["kernel a { if ", "(", "0", ")", " == 0 { } }"],
    },
    Nest {
        fits: 31,
        at: 19 + 31,
        answer: Answer::Plan(0),
        pieces: ["kernel a { if 0 == ", "-", "0", "", " { } }"],
    },
    Nest {
        fits: 31,
        at: 34 + 31,
        answer: Answer::Plan(1),
        pieces: ["kernel a { out y; if 0 == 0 { y = ", "(", "1", ")", "; } }"],
    },
    Nest {
        fits: 31,
        at: 43 + 31,
        answer: Answer::Plan(1),
        pieces: [
            "kernel a { out y; if 0 == 1 { } else { y = ",
            "(",
            "1",
            ")",
            "; } }",
        ],
    },
    Nest {
        fits: 31,
        at: 28 + 31,
        answer: Answer::Plan(0),
        pieces: ["kernel a { for i in 0..1 by ", "(", "1", ")", " { } }"],
    },
    // A branch that has ended counts no more.
    Nest {
        fits: 32,
        at: 36 + 32,
        answer: Answer::Plan(1),
        pieces: ["kernel a { out y; if 0 == 0 { } y = ", "(", "1", ")", "; }"],
    },
];

impl Nest {
    /// The text with so many parts in one another.
    pub fn text(&self, alloc: Global, count: usize) -> Result<String, AllocError> {
        let [before, open, inside, close, after] = self.pieces;
        let mut text = String::from_str(alloc, before)?;
        push_times(&mut text, open, count)?;
        text.push_str(inside)?;
        push_times(&mut text, close, count)?;
        text.push_str(after)?;
        Ok(text)
    }
}

/// What stands in 32 groups, behind `kernel a { out y; y = ` and 32 parentheses, so at byte 22 + 32, and the fault there: too deep where
/// a kernel of more levels goes on so, whatever comes later, and else one of the syntax.
pub const IN_32_GROUPS: [(u8, &str); 12] = [
    (13, "("),
    (13, "(1))) = ]"),
    (13, "-"),
    (13, "min"),
    (13, "max;"),
    (13, "sel(1)"),
    (13, "mad 1 2 3"),
    (3, ")"),
    (3, "for i in 0..1 { }"),
    (3, "if 0 == 0 { }"),
    (3, "+1"),
    (3, ""),
];

/// So many loops in one another, what stands in the innermost one, and the answer. The first loop is at byte 18, and each has 16 bytes.
pub const LOOPS: [(usize, &str, Answer); 21] = [
    (31, "Y = (1); ", Answer::Plan(1)),
    (31, "Y = -(1); ", Answer::Fault(13, 18 + 31 * 16 + 5)),
    (32, "Y = 1; ", Answer::Plan(1)),
    (32, "Y = (1); ", Answer::Fault(13, 18 + 32 * 16 + 4)),
    (33, "Y = 1; ", Answer::Fault(13, 18 + 32 * 16)),
    (34, "Y = 1; ", Answer::Fault(13, 18 + 32 * 16)),
    // A branch at level 31, with what stands in it at level 32: its sides, its blocks, and a loop's step.
    (31, "if 0 == 0 { Y = 1; } ", Answer::Plan(1)),
    (31, "if 0 == 1 { } else { Y = 1; } ", Answer::Plan(1)),
    (31, "if 0 == 0 { } Y = (1); ", Answer::Plan(1)),
    (31, "if (0) == 0 { } ", Answer::Fault(13, 18 + 31 * 16 + 3)),
    (31, "if 0 == -0 { } ", Answer::Fault(13, 18 + 31 * 16 + 8)),
    (
        31,
        "if 0 == 0 { Y = (1); } ",
        Answer::Fault(13, 18 + 31 * 16 + 16),
    ),
    (
        31,
        "if 0 == 0 { } else { Y = -1; } ",
        Answer::Fault(13, 18 + 31 * 16 + 25),
    ),
    (
        31,
        "if 0 == 0 { if 0 == 0 { } } ",
        Answer::Fault(13, 18 + 31 * 16 + 12),
    ),
    (
        31,
        "if 0 == 0 { } else { for Z in 0..1 { } } ",
        Answer::Fault(13, 18 + 31 * 16 + 21),
    ),
    (30, "for Z in 0..1 by (1) { Y = 1; } ", Answer::Plan(1)),
    (
        31,
        "for Z in 0..1 by (1) { } ",
        Answer::Fault(13, 18 + 31 * 16 + 17),
    ),
    // A branch at level 32, and where none could stand.
    (32, "if 0 == 0 { Y = 1; } ", Answer::Fault(13, 18 + 32 * 16)),
    (32, "if", Answer::Fault(13, 18 + 32 * 16)),
    (32, "else { } ", Answer::Fault(3, 18 + 32 * 16)),
    (32, "Y = if 0 == 0 { } ", Answer::Fault(3, 18 + 32 * 16 + 4)),
];

/// Names for loops in one another, one byte each.
const LETTERS: &str = "abcdefghijklmnopqrstuvwxyzABCDEFGHIJ";

/// `kernel a { out Y; ` and loops in one another, each `for L in 0..1 { ` with the next letter, and then this body.
pub fn loops(alloc: Global, count: usize, body: &str) -> Result<String, AllocError> {
    let mut text = String::from_str(alloc, "kernel a { out Y; ")?;
    for letter in LETTERS.chars().take(count) {
        text.push_str("for ")?;
        text.push(letter)?;
        text.push_str(" in 0..1 { ")?;
    }
    text.push_str(body)?;
    push_times(&mut text, "}", count)?;
    text.push_str("}")?;
    Ok(text)
}
