//! Long texts.
use super::{Answer, push_times};
use std::alloc::{AllocError, Global};

/// A text in which one piece is repeated.
#[derive(Clone, Copy)]
pub struct Long {
    /// What stands first, the piece, and what stands behind.
    pub pieces: [&'static str; 3],
    pub count: usize,
    /// The length of the text in bytes.
    pub length: usize,
    pub answer: Answer,
}

/// The kernel y = x + 1 in 36 bytes.
const KERNEL: &str = "kernel p { in x; out y; y = x + 1; }";

pub const LONG: [Long; 14] = [
    // A text of 65,536 bytes is read, and one byte more is too long, even if it is a space.
    Long {
        pieces: [KERNEL, " ", ""],
        count: 65500,
        length: 65536,
        answer: Answer::Plan(2),
    },
    Long {
        pieces: [KERNEL, " ", ""],
        count: 65501,
        length: 65537,
        answer: Answer::Fault(15, 65536),
    },
    Long {
        pieces: ["//", " ", KERNEL],
        count: 65498,
        length: 65536,
        answer: Answer::Fault(3, 65536),
    },
    // The length stands before the tokens and all else.
    Long {
        pieces: ["", "?", ""],
        count: 65536,
        length: 65536,
        answer: Answer::Fault(1, 0),
    },
    Long {
        pieces: ["", "?", ""],
        count: 65537,
        length: 65537,
        answer: Answer::Fault(15, 65536),
    },
    Long {
        pieces: ["", " ", "? 9223372036854775808 }"],
        count: 70000,
        length: 70023,
        answer: Answer::Fault(15, 65536),
    },
    // The length is in bytes, of which é has two: 2 + 2 * 32767 are read, as a comment and nothing else, and one more is too long.
    Long {
        pieces: ["//", "é", ""],
        count: 32767,
        length: 65536,
        answer: Answer::Fault(3, 65536),
    },
    Long {
        pieces: ["//", "é", "\n"],
        count: 32767,
        length: 65537,
        answer: Answer::Fault(15, 65536),
    },
    // A name of 65,536 bytes, and a number of 22 + 60,000 bytes.
    Long {
        pieces: ["", "a", ""],
        count: 65536,
        length: 65536,
        answer: Answer::Fault(2, 0),
    },
    Long {
        pieces: ["kernel a { out y; y = ", "9", "; }"],
        count: 60000,
        length: 60025,
        answer: Answer::Fault(2, 22),
    },
    // Any number of leading zeros.
    Long {
        pieces: ["kernel a { out y; y = ", "0", "7; }"],
        count: 60000,
        length: 60026,
        answer: Answer::Plan(1),
    },
    // As many groups in one another as the text holds, and minus signs.
    Long {
        pieces: ["kernel a { out y; y = ", "(", ""],
        count: 65514,
        length: 65536,
        answer: Answer::Fault(13, 54),
    },
    Long {
        pieces: ["kernel a { out y; y = ", "-", ""],
        count: 65514,
        length: 65536,
        answer: Answer::Fault(13, 54),
    },
    // A chain of 32,000 operators and no parts.
    Long {
        pieces: ["kernel a { out y; y = ", "1+", "1; }"],
        count: 32000,
        length: 64026,
        answer: Answer::Plan(1),
    },
];

impl Long {
    /// The text with its piece so many times.
    pub fn text(&self, alloc: Global) -> Result<String, AllocError> {
        let [first, piece, last] = self.pieces;
        let mut text = String::from_str(alloc, first)?;
        push_times(&mut text, piece, self.count)?;
        text.push_str(last)?;
        Ok(text)
    }
}
