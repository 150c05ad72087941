//! The answer of `plan`.
ghost use Rattle.std.specs.Prelude.{◌≡◌, ◌≢◌, ◌⊎◌, ◌<◌, ◌≤◌, ◌^◌, ◌++◌, ℕ, List, length, IfOk, Err, Some};
ghost use Rattle.comp_graph.specs.Games.{AreWeights};
ghost use Rattle.desk_io.specs.Known.{file_items};
ghost use Rattle.kernel_ast.specs.KernelParts.{KernelParts};
ghost use Rattle.normal_steps.specs.Plans.{IsPlan};
ghost use Rattle.plan_report.specs.ReportText.{report_text};
ghost use Rattle.potential_cert.specs.TableBytes.{IsInRange, IsSpelling};
ghost use Rattle.scratch_code.specs.CodeText.{code_text};
ghost use Rattle.slot_alloc.specs.PlanCode.{plan_code};
ghost use Rattle.command_answers.specs.Accepted.{IsAccepted};
ghost use Rattle.command_answers.specs.MadeAnswers.{Meets, IfAnswer, is_optimal, numbers_of, printed_of};
ghost use Rattle.command_answers.specs.PlanAnswers.{IsPlanned, facts_of, plan_text, verdict_status};
ghost use Rattle.command_answers.specs.PlayedGames.{game_asked};
ghost use Rattle.command_answers.specs.Refusals.{IsTooSmall};

use crate::answer::{Answer, EarlyEnd};
use crate::status::Status;
use crate::too_small::played_game;
use branch_bound::{Found, Verdict, search};
use command_words::Planning;
use comp_graph::{Game, Graph, Label, NoMemory};
use first_plan::first;
use normal_steps::Plan;
use plan_report::{Facts, report};
use potential_cert::write_table;
use scratch_code::write_code;
use slot_alloc::emit;
use std::alloc::Global;

// Whether the verdict is Optimal.
pub(super) fn is_optimal(verdict: Verdict) -> bool
    ensures { result ≡ is_optimal verdict }
{
    match verdict {
        Verdict::Optimal => true,
        Verdict::Open => false,
    }
}

// The status of a verdict.
pub(super) fn status_of(verdict: Verdict) -> Status
    ensures { result ≡ verdict_status (is_optimal verdict) }
{
    match verdict {
        Verdict::Optimal => Status::Optimal,
        Verdict::Open => Status::Open,
    }
}

// The values of the report's lines for what a search found.
pub(super) fn facts_of_found<'g>(game: &Game, found: &Found<'g>, asked: Planning) -> Facts
    requires game { game.now ≡ game_asked asked game.now.graph }
    requires few { length found.now.table.rows < 2 ^ 32 }
    ensures value { result ≡ facts_of game.now.graph asked (numbers_of found.now) }
    ensures valid { IsPlan found.now.plan }
{
    let graph = game.graph();
    Facts {
        vertices: graph.len(),
        inputs: graph.inputs(),
        degree: graph.degree(),
        slots: game.slots(),
        weights: game.weights(),
        first: found.first_cost,
        cost: found.plan.total(),
        bound: found.table.bound,
        expanded: found.table.rows.len() as u32,
        budget: asked.budget,
        optimal: is_optimal(found.verdict),
    }
}

// The report and the code of a plan.
pub(super) fn plan_text<'g>(
    alloc: Global,
    title: &Label,
    plan: &Plan<'g>,
    facts: &Facts,
) -> Result<Vec<u8>, NoMemory>
    ensures { IfOk result (λ text.
        text.items ≡ report_text title.now facts.now ++ code_text (plan_code plan.now)) }
{
    let code = emit(alloc, plan)?;
    let code_text = write_code(alloc, &code)?;
    let mut text = report(alloc, title, facts)?;
    text.extend_from_slice(&code_text)?;
    Ok(text)
}

// The answer by what a search found: the verdict, the report and the code, and the table.
fn found_answer<'g>(
    alloc: Global,
    game: &Game,
    found: &Found<'g>,
    asked: Planning,
) -> Result<Answer, NoMemory>
    requires game { game.now ≡ game_asked asked game.now.graph }
    requires table { IsInRange found.now.table }
    ensures plan { IsPlan found.now.plan }
    ensures status { IfOk result (λ answer. answer.status ≡ verdict_status (is_optimal found.now.verdict)) }
    ensures text { IfOk result (λ answer.
        answer.text.items ≡ plan_text game.now.graph.title game.now.graph asked (printed_of found.now)) }
    ensures table { IfOk result (λ answer. (bytes : List ℕ)
        × (file_items answer.table ≡ Some bytes) × IsSpelling bytes found.now.table) }
{
    let facts = facts_of_found(game, found, asked);
    let text = plan_text(alloc, game.graph().title(), &found.plan, &facts)?;
    let table = write_table(alloc, &found.table)?;
    Ok(Answer {
        status: status_of(found.verdict),
        text,
        table: Some(table),
    })
}

// The answer to a kernel with enough slots, by the search from its first plan.
fn planned(alloc: Global, game: &Game, asked: Planning) -> Result<Answer, NoMemory>
    requires game { game.now ≡ game_asked asked game.now.graph }
    requires budget { asked.budget ≤ 150000 }
    ensures { IfOk result (λ answer. (text : List ℕ) (kernel : KernelParts) →
        IsAccepted text kernel game.now.graph → Meets (IsPlanned asked text) answer) }
{
    let _slots = game.slots();
    let first = first(alloc, game)?;
    let found = search(alloc, first, asked.budget)?;
    found_answer(alloc, game, &found, asked)
}

/// The answer of `plan` to an accepted kernel by its graph: that more slots are needed, or a plan.
pub fn plan_answer(alloc: Global, graph: Graph, asked: Planning) -> Result<Answer, EarlyEnd>
    requires some { 0 < asked.slots }
    requires few { asked.slots ≤ 64 }
    requires budget { asked.budget ≤ 150000 }
    requires weights { AreWeights asked.weights }
    ensures answers { (text : List ℕ) (kernel : KernelParts) → IsAccepted text kernel graph →
        IfAnswer result (λ answer. Meets (IsTooSmall asked.slots text) answer ⊎ Meets (IsPlanned asked text) answer) }
    ensures no_fault { result ≢ Err EarlyEnd.ReadFault }
{
    let game = played_game(alloc, graph, asked.slots, asked.weights)?;
    Ok(planned(alloc, &game, asked)?)
}
