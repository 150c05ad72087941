//! The answer of `cache`.
ghost use Rattle.std.specs.Prelude.{◌≡◌, ◌≢◌, ◌⊎◌, ◌+◌, ◌<◌, ◌≤◌, ◌^◌, ℕ, List, IfOk, Err, Some};
ghost use Rattle.cache_model.specs.CacheRuns.{IsCacheRun};
ghost use Rattle.desk_io.specs.Known.{file_items};
ghost use Rattle.kernel_ast.specs.KernelParts.{KernelParts};
ghost use Rattle.normal_steps.specs.Plans.{IsPlan};
ghost use Rattle.plan_report.specs.CacheText.{cache_text};
ghost use Rattle.potential_cert.specs.TableBytes.{IsInRange, IsSpelling};
ghost use Rattle.command_answers.specs.Accepted.{IsAccepted};
ghost use Rattle.command_answers.specs.CacheAnswers.{IsCached, cache_facts, planning_beside};
ghost use Rattle.command_answers.specs.MadeAnswers.{Meets, IfAnswer, is_optimal, numbers_of};
ghost use Rattle.command_answers.specs.PlanAnswers.{verdict_status};
ghost use Rattle.command_answers.specs.PlayedGames.{game_asked};
ghost use Rattle.command_answers.specs.Refusals.{IsTooSmall};

use crate::answer::{Answer, EarlyEnd};
use crate::plan::status_of;
use crate::too_small::played_game;
use branch_bound::{Found, search};
use cache_model::{CacheRun, cached};
use command_words::{Caching, UNIT_WEIGHTS};
use comp_graph::{Game, Graph, NoMemory};
use first_plan::first;
use plan_report::{CacheFacts, cache_text};
use potential_cert::write_table;
use std::alloc::Global;

// The values of the lines for the run of a cache and what a search found, where a load and a store cost 1.
fn facts_beside<'g>(run: &CacheRun, found: &Found<'g>) -> CacheFacts
    requires few { run.now.loads + run.now.stores < 2 ^ 32 }
    ensures value { result ≡ cache_facts run.now.loads run.now.stores run.now.hits (numbers_of found.now) }
    ensures valid { IsPlan found.now.plan }
{
    CacheFacts {
        loads: run.loads,
        stores: run.stores,
        hits: run.hits,
        cost: run.loads + run.stores,
        plan_cost: found.plan.total(),
        bound: found.table.bound,
    }
}

// The answer by the run of a cache and what a search found: the verdict, the five lines, and the table.
fn found_answer<'g>(alloc: Global, run: &CacheRun, found: &Found<'g>) -> Result<Answer, NoMemory>
    requires few { run.now.loads + run.now.stores < 2 ^ 32 }
    requires table { IsInRange found.now.table }
    ensures plan { IsPlan found.now.plan }
    ensures status { IfOk result (λ answer. answer.status ≡ verdict_status (is_optimal found.now.verdict)) }
    ensures text { IfOk result (λ answer. answer.text.items
        ≡ cache_text (cache_facts run.now.loads run.now.stores run.now.hits (numbers_of found.now))) }
    ensures table { IfOk result (λ answer. (bytes : List ℕ)
        × (file_items answer.table ≡ Some bytes) × IsSpelling bytes found.now.table) }
{
    let facts = facts_beside(run, found);
    let text = cache_text(alloc, &facts)?;
    let table = write_table(alloc, &found.table)?;
    Ok(Answer {
        status: status_of(found.verdict),
        text,
        table: Some(table),
    })
}

// The answer to a kernel with enough slots, by the run of the cache and the search from the first plan.
fn compared(alloc: Global, game: &Game, asked: Caching) -> Result<Answer, NoMemory>
    requires game { game.now ≡ game_asked (planning_beside asked) game.now.graph }
    requires budget { asked.budget ≤ 150000 }
    ensures { IfOk result (λ answer. (text : List ℕ) (kernel : KernelParts) →
        IsAccepted text kernel game.now.graph → Meets (IsCached asked text) answer) }
{
    let _slots = game.slots();
    let ran = cached(alloc, game)?;
    let first = first(alloc, game)?;
    let found = search(alloc, first, asked.budget)?;
    found_answer(alloc, &ran, &found)
}

/// The answer of `cache` to an accepted kernel by its graph: that more slots are needed, or what a cache does beside a plan.
pub fn cache_answer(alloc: Global, graph: Graph, asked: Caching) -> Result<Answer, EarlyEnd>
    requires some { 0 < asked.slots }
    requires few { asked.slots ≤ 64 }
    requires budget { asked.budget ≤ 150000 }
    ensures answers { (text : List ℕ) (kernel : KernelParts) → IsAccepted text kernel graph →
        IfAnswer result (λ answer. Meets (IsTooSmall asked.slots text) answer ⊎ Meets (IsCached asked text) answer) }
    ensures no_fault { result ≢ Err EarlyEnd.ReadFault }
{
    let game = played_game(alloc, graph, asked.slots, UNIT_WEIGHTS)?;
    Ok(compared(alloc, &game, asked)?)
}
