//! The answer of `trial`.
ghost use Rattle.std.specs.Prelude.{◌≡◌, ◌≢◌, ◌⊎◌, ◌<◌, ◌≤◌, ℕ, List, IfOk, Err, Some};
ghost use Rattle.desk_io.specs.Known.{file_items};
ghost use Rattle.kernel_ast.specs.KernelParts.{KernelParts};
ghost use Rattle.kernel_gen.specs.Trials.{trial_kernel};
ghost use Rattle.normal_steps.specs.Plans.{IsPlan};
ghost use Rattle.plan_report.specs.TrialText.{trial_text};
ghost use Rattle.potential_cert.specs.TableBytes.{IsInRange, IsSpelling};
ghost use Rattle.command_answers.specs.Accepted.{IsAccepted};
ghost use Rattle.command_answers.specs.MadeAnswers.{Meets, IfAnswer, numbers_of};
ghost use Rattle.command_answers.specs.PlanAnswers.{facts_of};
ghost use Rattle.command_answers.specs.PlayedGames.{game_asked};
ghost use Rattle.command_answers.specs.Refusals.{IsTooSmall};
ghost use Rattle.command_answers.specs.TrialAnswers.{IsTried, planning_of};

use crate::answer::{Answer, EarlyEnd};
use crate::plan::facts_of_found;
use crate::status::Status;
use crate::too_small::played_game;
use branch_bound::{Found, search};
use command_words::{Planning, TrialPlanning, UNIT_WEIGHTS};
use comp_graph::{Game, Graph, NoMemory};
use first_plan::first;
use plan_report::trial_text;
use potential_cert::write_table;
use std::alloc::Global;

/// The budget of positions that a trial kernel is planned with.
const TRIAL_BUDGET: u32 = 2000;

// What is asked for of the plan of a trial kernel.
fn planning_of(asked: TrialPlanning) -> Planning
    ensures { result ≡ planning_of asked }
{
    Planning {
        slots: asked.slots,
        budget: TRIAL_BUDGET,
        weights: UNIT_WEIGHTS,
    }
}

// The answer by what a search found: the five lines, and the table.
fn found_answer<'g>(
    alloc: Global,
    game: &Game,
    found: &Found<'g>,
    asked: TrialPlanning,
) -> Result<Answer, NoMemory>
    requires game { game.now ≡ game_asked (planning_of asked) game.now.graph }
    requires table { IsInRange found.now.table }
    ensures plan { IsPlan found.now.plan }
    ensures status { IfOk result (λ answer. answer.status ≡ Status.Done) }
    ensures text { IfOk result (λ answer. answer.text.items
        ≡ trial_text asked.statements (facts_of game.now.graph (planning_of asked) (numbers_of found.now))) }
    ensures table { IfOk result (λ answer. (bytes : List ℕ)
        × (file_items answer.table ≡ Some bytes) × IsSpelling bytes found.now.table) }
{
    let facts = facts_of_found(game, found, planning_of(asked));
    let text = trial_text(alloc, asked.statements, &facts)?;
    let table = write_table(alloc, &found.table)?;
    Ok(Answer {
        status: Status::Done,
        text,
        table: Some(table),
    })
}

// The answer to a trial kernel with enough slots, by the search from its first plan.
fn tried(alloc: Global, game: &Game, asked: TrialPlanning) -> Result<Answer, NoMemory>
    requires game { game.now ≡ game_asked (planning_of asked) game.now.graph }
    requires some { 1 ≤ asked.statements }
    requires few { asked.statements ≤ 200 }
    ensures { IfOk result (λ answer. (kernel : KernelParts) →
        IsAccepted (trial_kernel asked.statements) kernel game.now.graph → Meets (IsTried asked) answer) }
{
    let _slots = game.slots();
    let first = first(alloc, game)?;
    let found = search(alloc, first, TRIAL_BUDGET)?;
    found_answer(alloc, game, &found, asked)
}

/// The answer of `trial` to its kernel by the graph: that more slots are needed, or the lines and the table of a plan.
pub fn trial_answer(alloc: Global, graph: Graph, asked: TrialPlanning) -> Result<Answer, EarlyEnd>
    requires statements { (1 ≤ asked.statements) × (asked.statements ≤ 200) }
    requires slots { (0 < asked.slots) × (asked.slots ≤ 64) }
    ensures answers { (kernel : KernelParts) → IsAccepted (trial_kernel asked.statements) kernel graph →
        IfAnswer result (λ answer. Meets (IsTooSmall asked.slots (trial_kernel asked.statements)) answer
        ⊎ Meets (IsTried asked) answer) }
    ensures no_fault { result ≢ Err EarlyEnd.ReadFault }
{
    let game = played_game(alloc, graph, asked.slots, UNIT_WEIGHTS)?;
    Ok(tried(alloc, &game, asked)?)
}
