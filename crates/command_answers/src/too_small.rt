//! The game of a graph with so many slots, or the answer that they are too few.
ghost use Rattle.std.specs.Prelude.{◌≡◌, ◌≢◌, ◌<◌, ◌≤◌, ℕ, List, IfOk, Err, None};
ghost use Rattle.comp_graph.specs.Dags.{degree};
ghost use Rattle.comp_graph.specs.Games.{AreWeights};
ghost use Rattle.comp_graph.specs.Graphs.{dag_of};
ghost use Rattle.desk_io.specs.Known.{file_items};
ghost use Rattle.kernel_ast.specs.KernelParts.{KernelParts};
ghost use Rattle.command_answers.specs.Accepted.{IsAccepted};
ghost use Rattle.command_answers.specs.MadeAnswers.{Meets, IfRefused};
ghost use Rattle.command_answers.specs.PlayedGames.{game_parts};
ghost use Rattle.command_answers.specs.Refusals.{IsTooSmall, too_small_text};

use crate::answer::{Answer, EarlyEnd};
use crate::status::Status;
use comp_graph::{Game, Graph, NoMemory, TooSmall, Weights};
use std::alloc::Global;

// The answer where this many slots are needed.
fn too_small_answer(alloc: Global, needs: u16) -> Result<Answer, NoMemory>
    ensures status { IfOk result (λ answer. answer.status ≡ Status.TooSmall) }
    ensures text { IfOk result (λ answer. answer.text.items ≡ too_small_text needs) }
    ensures none { IfOk result (λ answer. file_items answer.table ≡ None) }
{
    let line = format!(in alloc; "too small needs {needs}\n")?;
    Ok(Answer {
        status: Status::TooSmall,
        text: line.into_bytes(),
        table: None,
    })
}

/// The game that a command plays on a graph with its slots and its weights.
///
/// # Errors
///
/// [`EarlyEnd::Refused`] with the line that says how many slots are needed, exactly where they are at most the graph's degree, and
/// [`EarlyEnd::NoMemory`].
pub fn played_game(
    alloc: Global,
    graph: Graph,
    slots: u16,
    weights: Weights,
) -> Result<Game, EarlyEnd>
    requires some { 0 < slots }
    requires few { slots ≤ 64 }
    requires weights { AreWeights weights }
    ensures game { IfOk result (λ game. game ≡ game_parts graph slots weights) }
    ensures room { IfOk result (λ _. degree (dag_of graph) < slots) }
    ensures refused { (text : List ℕ) (kernel : KernelParts) → IsAccepted text kernel graph →
        IfRefused result (Meets (IsTooSmall slots text)) }
    ensures no_fault { result ≢ Err EarlyEnd.ReadFault }
{
    match Game::new(graph, slots, weights) {
        Ok(game) => Ok(game),
        Err(TooSmall { needs, graph: _ }) => {
            Err(EarlyEnd::Refused(too_small_answer(alloc, needs)?))
        }
    }
}
