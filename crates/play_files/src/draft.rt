//! Moves that are being read.
ghost use Rattle.std.specs.Prelude.{◌≡◌, IfOk};
ghost use Rattle.line_texts.specs.Steps.{IsLineAnswer};
ghost use Rattle.play_files.specs.Reading.{none_read, state_of, IsNextLine, IsMoveOf, IsMoveLine};

use comp_graph::NoMemory;
use line_texts::{is_comment, last_number, up_to};
use pebble_rules::Move;
use std::alloc::Global;

/// The moves so far, and whether `end` was read.
#[derive(Drop)]
pub(crate) struct Draft {
    pub(crate) moves: Vec<Move>,
    pub(crate) done: bool,
}

// The move of a vertex that a word names.
fn move_of(word: &[u8], vertex: u16) -> Option<Move>
    ensures { IsMoveOf word.now vertex result }
{
    if word == b"load".as_slice() {
        Some(Move::Load(vertex))
    } else if word == b"store".as_slice() {
        Some(Move::Store(vertex))
    } else if word == b"compute".as_slice() {
        Some(Move::Compute(vertex))
    } else if word == b"drop".as_slice() {
        Some(Move::DropRed(vertex))
    } else if word == b"unblue".as_slice() {
        Some(Move::DropBlue(vertex))
    } else {
        None
    }
}

// The move that a line says, where its vertex is below the limit.
fn read_move(line: &[u8], vertices: u16) -> Option<Move>
    ensures { IsMoveLine vertices line.now result }
{
    let (word, rest) = up_to(line, b' ');
    let Some(vertex) = last_number(rest, vertices) else {
        return None;
    };
    move_of(word, vertex)
}

impl Draft {
    /// Nothing is read yet.
    pub(crate) fn new(alloc: Global) -> Draft
        ensures { state_of result ≡ none_read }
    {
        Draft {
            moves: Vec::new(alloc),
            done: false,
        }
    }

    /// Reads a line: passes a comment over, and takes what any other line says, where that may come next.
    pub(crate) fn read_line(&mut self, line: &[u8], vertices: u16) -> Result<bool, NoMemory>
        ensures { IfOk result (λ b. IsLineAnswer (IsNextLine vertices) b (state_of self.old) line.now (state_of self.new)) }
    {
        if is_comment(line) {
            return Ok(true);
        }
        if self.done {
            return Ok(false);
        }
        if line == b"end".as_slice() {
            self.done = true;
            return Ok(true);
        }
        match read_move(line, vertices) {
            Some(mv) => {
                self.moves.push(mv)?;
                Ok(true)
            }
            None => Ok(false),
        }
    }
}
