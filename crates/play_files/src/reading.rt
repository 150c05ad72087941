//! The moves that a text spells.
ghost use Rattle.std.specs.Prelude.{◌≤◌, length};
ghost use Rattle.play_files.specs.Reading.{IsReadAnswer};

use crate::draft::Draft;
use line_texts::next_line;
use pebble_rules::Move;
use std::alloc::Global;

/// Why a text is no list of moves.
#[derive(Clone, Copy, PartialEq, Eq, Debug)]
pub enum PlayEnd {
    /// The bad line of the text, counted from 1 with the comments.
    BadLine { line: u32 },

    /// Memory was wanted and not found.
    NoMemory,
}

/// The moves that a text of at most 20,000,000 bytes reads as, by the rules at the head of this crate, on a graph of so many vertices.
///
/// # Errors
///
/// [`PlayEnd::BadLine`] exactly where it reads as none, with the bad line: the first, counted from 1 with the comments, such that the lines
/// up to and with it begin no play text. A last piece without a line feed is a bad line, and where the text ends too early it is the number
/// of its lines plus 1. [`PlayEnd::NoMemory`] where memory was wanted and not found.
pub fn read_play(alloc: Global, text: &[u8], vertices: u16) -> Result<Vec<Move>, PlayEnd>
    requires { length text.now ≤ 20000000 }
    ensures { IsReadAnswer vertices result text.now }
{
    let mut draft = Draft::new(alloc);
    let mut rest = text;
    let mut line: u32 = 1;
    'lines: while let Some((next, after)) = next_line(rest) {
        match draft.read_line(next, vertices) {
            Ok(true) => {}
            Ok(false) => return Err(PlayEnd::BadLine { line }),
            Err(_) => return Err(PlayEnd::NoMemory),
        }
        rest = after;
        line += 1;
    }
    if !rest.is_empty() {
        return Err(PlayEnd::BadLine { line });
    }
    if !draft.done {
        return Err(PlayEnd::BadLine { line });
    }
    Ok(draft.moves)
}
