//! The answer of `confirm`.
ghost use Rattle.std.specs.Prelude.{◌≡◌, ◌<◌, ℕ, List, IfOk, None};
ghost use Rattle.comp_graph.specs.Dags.{degree};
ghost use Rattle.comp_graph.specs.Graphs.{dag_of};
ghost use Rattle.desk_io.specs.Known.{ToldFile, file_items};
ghost use Rattle.kernel_ast.specs.KernelParts.{KernelParts};
ghost use Rattle.command_answers.specs.Accepted.{IsAccepted};
ghost use Rattle.command_answers.specs.MadeAnswers.{Meets, IsFileOf};
ghost use Rattle.improve_answers.specs.Confirms.{Confirms, confirmed_text};

use command_answers::check::{Checked, checked_file, refused};
use command_answers::{Answer, FileBytes, Status};
use command_words::Checking;
use comp_graph::{Game, NoMemory};
use std::alloc::Global;

// The answer if a table with this bound is accepted.
fn confirmed(alloc: Global, bound: u32) -> Result<Answer, NoMemory>
    ensures status { IfOk result (λ answer. answer.status ≡ Status.Done) }
    ensures text { IfOk result (λ answer. answer.text.items ≡ confirmed_text bound) }
    ensures none { IfOk result (λ answer. file_items answer.table ≡ None) }
{
    let line = format!(in alloc; "confirmed bound {bound}\n")?;
    Ok(Answer {
        status: Status::Done,
        text: line.into_bytes(),
        table: None,
    })
}

/// The answer of `confirm` to the game of an accepted kernel and what its file holds: the bound that the file proves, or why it proves none.
pub fn confirm_answer(
    alloc: Global,
    game: &Game,
    asked: Checking,
    file: &FileBytes,
) -> Result<Answer, NoMemory>
    requires slots { game.now.slots ≡ asked.slots }
    requires weights { game.now.weights ≡ asked.weights }
    requires room { degree (dag_of game.now.graph) < asked.slots }
    requires limit { (held : ToldFile) × IsFileOf held 20000000 file.now }
    ensures { IfOk result (λ answer. (text : List ℕ) (kernel : KernelParts) (held : ToldFile) →
        IsAccepted text kernel game.now.graph → IsFileOf held 20000000 file.now →
        Meets (Confirms asked text held) answer) }
{
    let checked = checked_file(alloc, game, file)?;
    match checked {
        Checked::Accepted(bound) => confirmed(alloc, bound),
        Checked::Refused { reason, row } => refused(alloc, reason, row),
    }
}
