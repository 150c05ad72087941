//! The answer of `tidy`.
ghost use Rattle.std.specs.Prelude.{◌≡◌, ◌<◌, ◌≤◌, ℕ, List, length, IfOk, None, All};
ghost use Rattle.std.specs.declared.option.Option.{Option};
ghost use Rattle.comp_graph.specs.Dags.{degree};
ghost use Rattle.comp_graph.specs.Games.{game_of, unit_weights};
ghost use Rattle.comp_graph.specs.Graphs.{dag_of};
ghost use Rattle.desk_io.specs.Known.{ToldFile, file_items};
ghost use Rattle.kernel_ast.specs.KernelParts.{KernelParts};
ghost use Rattle.normal_steps.specs.Plans.{PlanParts};
ghost use Rattle.pebble_rules.specs.Refusals.{vertex_of};
ghost use Rattle.pebble_rules.specs.Rules.{start, IsComplete};
ghost use Rattle.slot_alloc.specs.PlanCode.{IsPlanCode};
ghost use Rattle.command_answers.specs.Accepted.{IsAccepted};
ghost use Rattle.command_answers.specs.MadeAnswers.{Meets, IsFileOf};
ghost use Rattle.command_answers.specs.PlayAnswers.{IsTidyPlan, Tidies, tidied_text};

use crate::answer::{Answer, FileBytes};
use crate::play::{FilePlay, file_play};
use crate::status::Status;
use comp_graph::{Game, NoMemory};
use pebble_rules::Move;
use play_files::tidy;
use scratch_code::write_code;
use slot_alloc::emit;
use std::alloc::Global;

// The answer where the file holds a complete pebbling, which has this cost: the code of a plan that costs no more.
fn tidied(alloc: Global, game: &Game, moves: &[Move], cost: u32) -> Result<Answer, NoMemory>
    requires vertices { All (λ m. vertex_of m < length game.now.graph.nodes) moves.now }
    requires few { length moves.now ≤ 250000000 }
    requires complete { IsComplete (game_of game.now) (start (game_of game.now)) moves.now }
    ensures status { IfOk result (λ answer. answer.status ≡ Status.Done) }
    ensures text { IfOk result (λ answer. (plan : PlanParts)
        × IsTidyPlan game.now moves.now plan × IsPlanCode plan × (answer.text.items ≡ tidied_text cost plan)) }
    ensures none { IfOk result (λ answer. file_items answer.table ≡ None) }
{
    let plan = tidy(alloc, game, moves)?;
    let total = plan.total();
    let head = format!(in alloc; "; play {cost}\n; cost {total}\n")?;
    let code = emit(alloc, &plan)?;
    let code_text = write_code(alloc, &code)?;
    let mut text = head.into_bytes();
    text.extend_from_slice(&code_text)?;
    Ok(Answer {
        status: Status::Done,
        text,
        table: None,
    })
}

/// The answer of `tidy` to the game of an accepted kernel, where a load and a store cost 1, and what its file holds: the cost of the
/// complete pebbling that the file spells, and the cost and the code of a plan that costs no more; or why the file spells none.
pub fn tidy_answer(alloc: Global, game: &Game, file: &FileBytes) -> Result<Answer, NoMemory>
    requires weights { game.now.weights ≡ unit_weights }
    requires room { degree (dag_of game.now.graph) < game.now.slots }
    requires limit { (held : ToldFile) × IsFileOf held 20000000 file.now }
    ensures { IfOk result (λ answer. (text : List ℕ) (kernel : KernelParts) (held : ToldFile) →
        IsAccepted text kernel game.now.graph → IsFileOf held 20000000 file.now →
        Meets (Tidies game.now.slots text held) answer) }
{
    match file_play(alloc, game, file)? {
        FilePlay::Complete { moves, cost } => tidied(alloc, game, &moves, cost),
        FilePlay::NoPlay(answer) => Ok(answer),
    }
}
