//! The answer of `check`.
ghost use Rattle.std.specs.Prelude.{◌≡◌, ◌≤◌, ◌<◌, ℕ, List, length, IfOk, None};
ghost use Rattle.comp_graph.specs.Dags.{degree};
ghost use Rattle.comp_graph.specs.Games.{game_of};
ghost use Rattle.comp_graph.specs.Graphs.{dag_of};
ghost use Rattle.desk_io.specs.Known.{ToldFile, file_items};
ghost use Rattle.kernel_ast.specs.KernelParts.{KernelParts};
ghost use Rattle.command_answers.specs.Accepted.{IsAccepted};
ghost use Rattle.command_answers.specs.CheckAnswers.{Checks, IsCheckOf, IsCheckOfFile, accepted_text, refused_text};
ghost use Rattle.command_answers.specs.MadeAnswers.{Meets, IsFileOf};

use crate::answer::{Answer, FileBytes};
use crate::status::Status;
use cert_checker::{Refused, check};
use command_words::Checking;
use comp_graph::{Game, NoMemory};
use potential_cert::{TableEnd, read_table};
use std::alloc::Global;

/// The most bytes of a table file.
pub const TABLE_LIMIT: u32 = 20_000_000;

/// The number of the reason to refuse a file that is no table file.
pub(super) const NO_TABLE: u8 = 1;

// The answer where a table with this bound is accepted.
pub(super) fn accepted(alloc: Global, bound: u32) -> Result<Answer, NoMemory>
    ensures status { IfOk result (λ answer. answer.status ≡ Status.Done) }
    ensures text { IfOk result (λ answer. answer.text.items ≡ accepted_text bound) }
    ensures none { IfOk result (λ answer. file_items answer.table ≡ None) }
{
    let line = format!(in alloc; "accepted bound {bound}\n")?;
    Ok(Answer {
        status: Status::Done,
        text: line.into_bytes(),
        table: None,
    })
}

/// The answer if the file is refused for the reason of this number, by this row.
pub fn refused(alloc: Global, reason: u8, row: u32) -> Result<Answer, NoMemory>
    ensures status { IfOk result (λ answer. answer.status ≡ Status.Refused) }
    ensures text { IfOk result (λ answer. answer.text.items ≡ refused_text reason row) }
    ensures none { IfOk result (λ answer. file_items answer.table ≡ None) }
{
    let line = format!(in alloc; "refused reason {reason} row {row}\n")?;
    Ok(Answer {
        status: Status::Refused,
        text: line.into_bytes(),
        table: None,
    })
}

/// What a file proves of a game.
#[derive(Clone, Copy)]
pub enum Checked {
    /// It is a table file of the game, with this bound.
    Accepted(u32),
    /// It is refused for the reason of this number, by this row.
    Refused { reason: u8, row: u32 },
}

// What the bytes of a file prove of a game.
fn checked_bytes(alloc: Global, game: &Game, bytes: &[u8]) -> Result<Checked, NoMemory>
    requires { length bytes.now ≤ 20000000 }
    ensures { IfOk result (IsCheckOf (game_of game.now) bytes.now) }
{
    let table = match read_table(alloc, bytes) {
        Ok(table) => table,
        Err(TableEnd::Shape { .. }) => {
            return Ok(Checked::Refused {
                reason: NO_TABLE,
                row: 0,
            });
        }
        Err(TableEnd::NoMemory) => return Err(NoMemory),
    };
    match check(game, &table) {
        Ok(bound) => Ok(Checked::Accepted(bound)),
        Err(Refused { reason, row }) => Ok(Checked::Refused {
            reason: reason.number(),
            row,
        }),
    }
}

/// What a file of at most 20,000,000 bytes, or one that is longer, proves of a game: a bound, or why it proves none. It prints nothing.
pub fn checked_file(alloc: Global, game: &Game, file: &FileBytes) -> Result<Checked, NoMemory>
    requires { (told : ToldFile) × IsFileOf told 20000000 file.now }
    ensures { IfOk result (λ checked. (told : ToldFile) → IsFileOf told 20000000 file.now →
        IsCheckOfFile (game_of game.now) told checked) }
{
    match file {
        FileBytes::Whole(bytes) => checked_bytes(alloc, game, bytes),
        FileBytes::TooLong => Ok(Checked::Refused {
            reason: NO_TABLE,
            row: 0,
        }),
    }
}

/// The answer of `check` to the game of an accepted kernel and what its file holds: the bound that the file proves, or why it proves none.
pub fn check_answer(
    alloc: Global,
    game: &Game,
    asked: Checking,
    file: &FileBytes,
) -> Result<Answer, NoMemory>
    requires slots { game.now.slots ≡ asked.slots }
    requires weights { game.now.weights ≡ asked.weights }
    requires room { degree (dag_of game.now.graph) < asked.slots }
    requires limit { (held : ToldFile) × IsFileOf held 20000000 file.now }
    ensures { IfOk result (λ answer. (text : List ℕ) (kernel : KernelParts) (held : ToldFile) →
        IsAccepted text kernel game.now.graph → IsFileOf held 20000000 file.now →
        Meets (Checks asked text held) answer) }
{
    let checked = checked_file(alloc, game, file)?;
    match checked {
        Checked::Accepted(bound) => accepted(alloc, bound),
        Checked::Refused { reason, row } => refused(alloc, reason, row),
    }
}
