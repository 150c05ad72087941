//! What a play file holds: a complete pebbling of a game, or the answer that says why it holds none.
ghost use Rattle.std.specs.Prelude.{◌≡◌, ◌≤◌, ℕ, List, length, IfOk, None};
ghost use Rattle.std.specs.declared.option.Option.{Option};
ghost use Rattle.comp_graph.specs.Games.{IsGame};
ghost use Rattle.desk_io.specs.Known.{ToldFile, TellsFile, file_items};
ghost use Rattle.command_answers.specs.MadeAnswers.{IsFileOf, IsFilePlay, IsPlayOf};
ghost use Rattle.command_answers.specs.PlayAnswers.{bad_line_text, play_fault_text};

use crate::answer::{Answer, FileBytes};
use crate::status::Status;
use comp_graph::{Game, NoMemory};
use pebble_rules::Move;
use play_files::{PlayEnd, PlayFault, judge, read_play};
use std::alloc::Global;

/// The most bytes of a play file.
pub const PLAY_LIMIT: u32 = 20_000_000;

// What a play file holds.
#[derive(Drop)]
pub(crate) enum FilePlay {
    // The moves of a complete pebbling, and their cost.
    Complete { moves: Vec<Move>, cost: u32 },

    // No complete pebbling, and this is the whole answer.
    NoPlay(Answer),
}

// The answer where a file is no play text, with the number of its bad line, which is 0 where it has too many bytes.
fn bad_line(alloc: Global, line: u32) -> Result<Answer, NoMemory>
    ensures status { IfOk result (λ answer. answer.status ≡ Status.Play) }
    ensures text { IfOk result (λ answer. answer.text.items ≡ bad_line_text line) }
    ensures none { IfOk result (λ answer. file_items answer.table ≡ None) }
{
    let line = format!(in alloc; "play fault line {line}\n")?;
    Ok(Answer {
        status: Status::Play,
        text: line.into_bytes(),
        table: None,
    })
}

// The line that says a fault of moves.
fn fault_line(alloc: Global, fault: PlayFault) -> Result<Vec<u8>, NoMemory>
    ensures { IfOk result (λ line. line.items ≡ play_fault_text fault) }
{
    let line = match fault {
        PlayFault::Bad { at, rule, vertex } => {
            let rule = rule.number();
            format!(in alloc; "play fault move {at} rule {rule} vertex {vertex}\n")?
        }
        PlayFault::Incomplete { vertex } => {
            format!(in alloc; "play incomplete vertex {vertex}\n")?
        }
    };
    Ok(line.into_bytes())
}

// The answer where the moves of a play file have a fault.
fn faulty(alloc: Global, fault: PlayFault) -> Result<Answer, NoMemory>
    ensures status { IfOk result (λ answer. answer.status ≡ Status.Play) }
    ensures text { IfOk result (λ answer. answer.text.items ≡ play_fault_text fault) }
    ensures none { IfOk result (λ answer. file_items answer.table ≡ None) }
{
    Ok(Answer {
        status: Status::Play,
        text: fault_line(alloc, fault)?,
        table: None,
    })
}

// What the bytes of a file hold.
fn bytes_play(alloc: Global, game: &Game, bytes: &[u8]) -> Result<FilePlay, NoMemory>
    requires short { length bytes.now ≤ 20000000 }
    ensures { IfOk result (λ play. IsPlayOf game.now bytes.now play) }
{
    let moves = match read_play(alloc, bytes, game.graph().len()) {
        Ok(moves) => moves,
        Err(PlayEnd::BadLine { line }) => return Ok(FilePlay::NoPlay(bad_line(alloc, line)?)),
        Err(PlayEnd::NoMemory) => return Err(NoMemory),
    };
    match judge(game, &moves) {
        Ok(cost) => Ok(FilePlay::Complete { moves, cost }),
        Err(fault) => Ok(FilePlay::NoPlay(faulty(alloc, fault)?)),
    }
}

// What a file holds.
pub(crate) fn file_play(alloc: Global, game: &Game, file: &FileBytes) -> Result<FilePlay, NoMemory>
    requires limit { (held : ToldFile) × IsFileOf held 20000000 file.now }
    ensures play { IfOk result (λ play. (held : ToldFile) → IsFileOf held 20000000 file.now → IsFilePlay game.now held play) }
{
    match file {
        FileBytes::Whole(bytes) => bytes_play(alloc, game, bytes),
        FileBytes::TooLong => Ok(FilePlay::NoPlay(bad_line(alloc, 0)?)),
    }
}
