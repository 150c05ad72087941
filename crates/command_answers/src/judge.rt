//! The answer of `judge`.
ghost use Rattle.std.specs.Prelude.{◌≡◌, ◌<◌, ℕ, List, IfOk, None};
ghost use Rattle.std.specs.declared.option.Option.{Option};
ghost use Rattle.comp_graph.specs.Dags.{degree};
ghost use Rattle.comp_graph.specs.Games.{unit_weights};
ghost use Rattle.comp_graph.specs.Graphs.{dag_of};
ghost use Rattle.desk_io.specs.Known.{ToldFile, file_items};
ghost use Rattle.kernel_ast.specs.KernelParts.{KernelParts};
ghost use Rattle.command_answers.specs.Accepted.{IsAccepted};
ghost use Rattle.command_answers.specs.MadeAnswers.{Meets, IsFileOf};
ghost use Rattle.command_answers.specs.PlayAnswers.{Judges, complete_text};

use crate::answer::{Answer, FileBytes};
use crate::play::{FilePlay, file_play};
use crate::status::Status;
use comp_graph::{Game, NoMemory};
use std::alloc::Global;

// The answer where the file holds a complete pebbling of this cost.
fn complete(alloc: Global, cost: u32) -> Result<Answer, NoMemory>
    ensures status { IfOk result (λ answer. answer.status ≡ Status.Done) }
    ensures text { IfOk result (λ answer. answer.text.items ≡ complete_text cost) }
    ensures none { IfOk result (λ answer. file_items answer.table ≡ None) }
{
    let line = format!(in alloc; "play complete cost {cost}\n")?;
    Ok(Answer {
        status: Status::Done,
        text: line.into_bytes(),
        table: None,
    })
}

/// The answer of `judge` to the game of an accepted kernel, where a load and a store cost 1, and what its file holds: the cost of the
/// complete pebbling that the file spells, or why it spells none.
pub fn judge_answer(alloc: Global, game: &Game, file: &FileBytes) -> Result<Answer, NoMemory>
    requires weights { game.now.weights ≡ unit_weights }
    requires room { degree (dag_of game.now.graph) < game.now.slots }
    requires limit { (held : ToldFile) × IsFileOf held 20000000 file.now }
    ensures { IfOk result (λ answer. (text : List ℕ) (kernel : KernelParts) (held : ToldFile) →
        IsAccepted text kernel game.now.graph → IsFileOf held 20000000 file.now →
        Meets (Judges game.now.slots text held) answer) }
{
    match file_play(alloc, game, file)? {
        FilePlay::Complete { moves: _, cost } => complete(alloc, cost),
        FilePlay::NoPlay(answer) => Ok(answer),
    }
}
