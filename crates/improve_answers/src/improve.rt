//! The answer of `improve`.
ghost use Rattle.std.specs.Prelude.{◌≡◌, ◌==◌, ◌≢◌, ◌⊎◌, ◌<◌, ◌≤◌, ◌^◌, ◌++◌, ℕ, List, length, IfOk, Err, Some};
ghost use Rattle.comp_graph.specs.Games.{AreWeights};
ghost use Rattle.desk_io.specs.Known.{file_items};
ghost use Rattle.kernel_ast.specs.KernelParts.{KernelParts};
ghost use Rattle.normal_steps.specs.Plans.{IsPlan};
ghost use Rattle.potential_cert.specs.TableBytes.{IsInRange, IsSpelling};
ghost use Rattle.command_answers.specs.Accepted.{IsAccepted};
ghost use Rattle.command_answers.specs.MadeAnswers.{Meets, IfAnswer};
ghost use Rattle.command_answers.specs.PlanAnswers.{verdict_status};
ghost use Rattle.command_answers.specs.Refusals.{IsTooSmall};
ghost use Rattle.improve_answers.specs.Improved.{IsFoundFor, IsImproved, facts_improved, game_improved, improved_text, numbers_found};

use crate::commands::Improving;
use crate::finding::{Improvement, found_for, rows_allowed};
use command_answers::too_small::played_game;
use command_answers::{Answer, EarlyEnd, Status};
use comp_graph::{Game, Graph, NoMemory};
use plan_report::{Facts, effort_report};
use potential_cert::write_table;
use scratch_code::write_code;
use slot_alloc::emit;
use std::alloc::Global;

// The status of a plan that costs so much, with this bound.
fn status_of(bound: u32, cost: u32) -> Status
    ensures { result ≡ verdict_status (bound == cost) }
{
    if bound == cost {
        Status::Optimal
    } else {
        Status::Open
    }
}

// The values of the report's lines.
fn facts_of<'g>(game: &Game, found: &Improvement<'g>, asked: Improving) -> Facts
    requires game { game.now ≡ game_improved asked game.now.graph }
    requires effort { asked.effort ≤ 200 }
    requires few { length found.now.table.rows < 2 ^ 32 }
    ensures value { result ≡ facts_improved game.now.graph asked (numbers_found found.now) }
    ensures valid { IsPlan found.now.plan }
{
    let graph = game.graph();
    let cost = found.plan.total();
    Facts {
        vertices: graph.len(),
        inputs: graph.inputs(),
        degree: graph.degree(),
        slots: game.slots(),
        weights: game.weights(),
        first: found.first_cost,
        cost,
        bound: found.table.bound,
        expanded: found.table.rows.len() as u32,
        budget: rows_allowed(asked.effort),
        optimal: found.table.bound == cost,
    }
}

// The report and the code.
fn text_of<'g>(
    alloc: Global,
    game: &Game,
    found: &Improvement<'g>,
    asked: Improving,
) -> Result<Vec<u8>, NoMemory>
    requires game { game.now ≡ game_improved asked game.now.graph }
    requires effort { asked.effort ≤ 200 }
    requires few { length found.now.table.rows < 2 ^ 32 }
    ensures text { IfOk result (λ text. text.items ≡
        improved_text game.now.graph.title game.now.graph asked (numbers_found found.now) found.now.plan) }
    ensures valid { IsPlan found.now.plan }
{
    let facts = facts_of(game, found, asked);
    let code = emit(alloc, &found.plan)?;
    let code_text = write_code(alloc, &code)?;
    let mut text = effort_report(alloc, game.graph().title(), &facts, asked.effort)?;
    text.extend_from_slice(&code_text)?;
    Ok(text)
}

// The answer by what was found.
fn found_answer<'g>(
    alloc: Global,
    game: &Game,
    found: &Improvement<'g>,
    asked: Improving,
) -> Result<Answer, NoMemory>
    requires game { game.now ≡ game_improved asked game.now.graph }
    requires effort { asked.effort ≤ 200 }
    requires found { IsFoundFor game.now asked.effort found.now }
    ensures plan { IsPlan found.now.plan }
    ensures status { IfOk result (λ answer. answer.status ≡ verdict_status (found.now.table.bound == found.now.plan.total)) }
    ensures text { IfOk result (λ answer. answer.text.items ≡
        improved_text game.now.graph.title game.now.graph asked (numbers_found found.now) found.now.plan) }
    ensures table { IfOk result (λ answer. (bytes : List ℕ)
        × (file_items answer.table ≡ Some bytes) × IsSpelling bytes found.now.table) }
{
    let text = text_of(alloc, game, found, asked)?;
    let table = write_table(alloc, &found.table)?;
    Ok(Answer {
        status: status_of(found.table.bound, found.plan.total()),
        text,
        table: Some(table),
    })
}

// The answer to a kernel with enough slots.
fn improved_answer(alloc: Global, game: &Game, asked: Improving) -> Result<Answer, NoMemory>
    requires game { game.now ≡ game_improved asked game.now.graph }
    requires effort { asked.effort ≤ 200 }
    ensures { IfOk result (λ answer. (text : List ℕ) (kernel : KernelParts) →
        IsAccepted text kernel game.now.graph → Meets (IsImproved asked text) answer) }
{
    // For the proof: a game is one of its rules.
    let _slots = game.slots();
    let found = found_for(alloc, game, asked.effort)?;
    found_answer(alloc, game, &found, asked)
}

/// The answer of `improve` to an accepted kernel by its graph: that more slots are needed, or a plan with a table.
pub fn improve_answer(alloc: Global, graph: Graph, asked: Improving) -> Result<Answer, EarlyEnd>
    requires some { 0 < asked.slots }
    requires few { asked.slots ≤ 64 }
    requires effort { asked.effort ≤ 200 }
    requires weights { AreWeights asked.weights }
    ensures answers { (text : List ℕ) (kernel : KernelParts) → IsAccepted text kernel graph →
        IfAnswer result (λ answer. Meets (IsTooSmall asked.slots text) answer ⊎ Meets (IsImproved asked text) answer) }
    ensures no_fault { result ≢ Err EarlyEnd.ReadFault }
{
    let game = played_game(alloc, graph, asked.slots, asked.weights)?;
    Ok(improved_answer(alloc, &game, asked)?)
}
