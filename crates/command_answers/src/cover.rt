//! The answer of `cover`.
ghost use Rattle.std.specs.Prelude.{◌≡◌, ◌≢◌, ◌⊎◌, ◌<◌, ◌≤◌, ◌^◌, ℕ, List, length, IfOk, Err, Some};
ghost use Rattle.cover_cert.specs.CoverBytes.{IsCoverInRange, IsCoverSpelling};
ghost use Rattle.desk_io.specs.Known.{file_items};
ghost use Rattle.kernel_ast.specs.KernelParts.{KernelParts};
ghost use Rattle.normal_steps.specs.Plans.{IsPlan};
ghost use Rattle.command_answers.specs.Accepted.{IsAccepted};
ghost use Rattle.command_answers.specs.CoverAnswers.{IsCovered, planning_covered};
ghost use Rattle.command_answers.specs.MadeAnswers.{Meets, IfAnswer, is_optimal};
ghost use Rattle.command_answers.specs.MadeCovers.{cover_numbers_of, cover_printed_of};
ghost use Rattle.command_answers.specs.PlanAnswers.{facts_of, plan_text, verdict_status};
ghost use Rattle.command_answers.specs.PlayedGames.{game_asked};
ghost use Rattle.command_answers.specs.Refusals.{IsTooSmall};

use crate::answer::{Answer, EarlyEnd};
use crate::plan::{is_optimal, plan_text, status_of};
use crate::too_small::played_game;
use command_words::{Covering, UNIT_WEIGHTS};
use comp_graph::{Game, Graph, NoMemory};
use cover_cert::{CoverFound, cover_search, write_cover};
use first_plan::first;
use plan_report::Facts;
use std::alloc::Global;

// The values of the report's lines for what a search found.
fn facts_of_found<'g>(game: &Game, found: &CoverFound<'g>, asked: Covering) -> Facts
    requires game { game.now ≡ game_asked (planning_covered asked) game.now.graph }
    requires few { length found.now.table.rows < 2 ^ 32 }
    ensures value { result ≡ facts_of game.now.graph (planning_covered asked) (cover_numbers_of found.now) }
    ensures valid { IsPlan found.now.plan }
{
    let graph = game.graph();
    Facts {
        vertices: graph.len(),
        inputs: graph.inputs(),
        degree: graph.degree(),
        slots: game.slots(),
        weights: game.weights(),
        first: found.first_cost,
        cost: found.plan.total(),
        bound: found.table.bound,
        expanded: found.table.rows.len() as u32,
        budget: asked.budget,
        optimal: is_optimal(found.verdict),
    }
}

// The answer by what a search found: the verdict, the report and the code, and the covered table.
fn found_answer<'g>(
    alloc: Global,
    game: &Game,
    found: &CoverFound<'g>,
    asked: Covering,
) -> Result<Answer, NoMemory>
    requires game { game.now ≡ game_asked (planning_covered asked) game.now.graph }
    requires table { IsCoverInRange found.now.table }
    ensures plan { IsPlan found.now.plan }
    ensures status { IfOk result (λ answer. answer.status ≡ verdict_status (is_optimal found.now.verdict)) }
    ensures text { IfOk result (λ answer. answer.text.items
        ≡ plan_text game.now.graph.title game.now.graph (planning_covered asked) (cover_printed_of found.now)) }
    ensures table { IfOk result (λ answer. (bytes : List ℕ)
        × (file_items answer.table ≡ Some bytes) × IsCoverSpelling bytes found.now.table) }
{
    let facts = facts_of_found(game, found, asked);
    let text = plan_text(alloc, game.graph().title(), &found.plan, &facts)?;
    let table = write_cover(alloc, &found.table)?;
    Ok(Answer {
        status: status_of(found.verdict),
        text,
        table: Some(table),
    })
}

// The answer to a kernel with enough slots, by the search from its first plan.
fn covered(alloc: Global, game: &Game, asked: Covering) -> Result<Answer, NoMemory>
    requires game { game.now ≡ game_asked (planning_covered asked) game.now.graph }
    requires budget { asked.budget ≤ 8000 }
    ensures { IfOk result (λ answer. (text : List ℕ) (kernel : KernelParts) →
        IsAccepted text kernel game.now.graph → Meets (IsCovered asked text) answer) }
{
    let _slots = game.slots();
    let first = first(alloc, game)?;
    let found = cover_search(alloc, first, asked.budget)?;
    found_answer(alloc, game, &found, asked)
}

/// The answer of `cover` to an accepted kernel by its graph: that more slots are needed, or a plan with a covered table.
pub fn cover_answer(alloc: Global, graph: Graph, asked: Covering) -> Result<Answer, EarlyEnd>
    requires some { 0 < asked.slots }
    requires few { asked.slots ≤ 64 }
    requires budget { asked.budget ≤ 8000 }
    ensures answers { (text : List ℕ) (kernel : KernelParts) → IsAccepted text kernel graph →
        IfAnswer result (λ answer. Meets (IsTooSmall asked.slots text) answer ⊎ Meets (IsCovered asked text) answer) }
    ensures no_fault { result ≢ Err EarlyEnd.ReadFault }
{
    let game = played_game(alloc, graph, asked.slots, UNIT_WEIGHTS)?;
    Ok(covered(alloc, &game, asked)?)
}
