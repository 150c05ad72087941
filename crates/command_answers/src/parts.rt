//! The answer of `parts`.
ghost use Rattle.std.specs.Prelude.{◌≡◌, ◌≢◌, ◌⊎◌, ◌<◌, ◌≤◌, ℕ, List, map, IfOk, Err, Some};
ghost use Rattle.desk_io.specs.Known.{file_items};
ghost use Rattle.kernel_ast.specs.KernelParts.{KernelParts};
ghost use Rattle.part_bounds.specs.Bounds.{AreInRange, AreSpellings, sum_of_bounds};
ghost use Rattle.command_answers.specs.Accepted.{IsAccepted};
ghost use Rattle.command_answers.specs.MadeAnswers.{Meets, IfAnswer};
ghost use Rattle.command_answers.specs.PartAnswers.{IsParted, bounds_text, game_in_parts, part_facts};
ghost use Rattle.command_answers.specs.Refusals.{IsTooSmall};

use crate::answer::{Answer, EarlyEnd};
use crate::status::Status;
use crate::too_small::played_game;
use command_words::{PartPlanning, UNIT_WEIGHTS};
use comp_graph::{Game, Graph, NoMemory};
use part_bounds::{PartBound, part_search, sum_of_bounds, write_tables};
use plan_report::{PartFacts, parts_text};
use std::alloc::Global;

// The values of the lines of the parts.
fn facts_of_parts(alloc: Global, found: &[PartBound]) -> Result<Vec<PartFacts>, NoMemory>
    ensures { IfOk result (λ facts. facts.items ≡ map part_facts found.now) }
{
    let facts = found.iter().map(|one| PartFacts {
        vertices: one.table.vertices,
        cost: one.cost,
        bound: one.table.bound,
    });
    Ok(facts.collect(alloc)?)
}

// The lines of the parts, and the sum of their bounds.
fn bounds_text(alloc: Global, found: &[PartBound]) -> Result<Vec<u8>, NoMemory>
    requires { sum_of_bounds found.now ≤ 4294967295 }
    ensures { IfOk result (λ text. text.items ≡ bounds_text found.now) }
{
    let facts = facts_of_parts(alloc, found)?;
    parts_text(alloc, &facts, sum_of_bounds(found))
}

// The answer by what was found of the parts: the lines, and the tables one after another.
fn found_answer(alloc: Global, found: &[PartBound]) -> Result<Answer, NoMemory>
    requires fits { sum_of_bounds found.now ≤ 4294967295 }
    requires tables { AreInRange found.now }
    ensures status { IfOk result (λ answer. answer.status ≡ Status.Done) }
    ensures text { IfOk result (λ answer. answer.text.items ≡ bounds_text found.now) }
    ensures table { IfOk result (λ answer. (bytes : List ℕ)
        × (file_items answer.table ≡ Some bytes) × AreSpellings bytes found.now) }
{
    let text = bounds_text(alloc, found)?;
    let tables = write_tables(alloc, found)?;
    Ok(Answer {
        status: Status::Done,
        text,
        table: Some(tables),
    })
}

// The answer to a kernel with enough slots, by the searches of the games on the parts.
fn parted(alloc: Global, game: &Game, asked: PartPlanning) -> Result<Answer, NoMemory>
    requires game { game.now ≡ game_in_parts asked game.now.graph }
    requires some { 0 < asked.parts }
    requires few { asked.parts ≤ 16 }
    requires budget { asked.budget ≤ 8000 }
    ensures { IfOk result (λ answer. (text : List ℕ) (kernel : KernelParts) →
        IsAccepted text kernel game.now.graph → Meets (IsParted asked text) answer) }
{
    let _slots = game.slots();
    let found = part_search(alloc, game, asked.parts, asked.budget)?;
    found_answer(alloc, &found)
}

/// The answer of `parts` to an accepted kernel by its graph: that more slots are needed, or a bound for each part, with their sum.
pub fn parts_answer(alloc: Global, graph: Graph, asked: PartPlanning) -> Result<Answer, EarlyEnd>
    requires some { 0 < asked.slots }
    requires few { asked.slots ≤ 64 }
    requires some_parts { 0 < asked.parts }
    requires few_parts { asked.parts ≤ 16 }
    requires budget { asked.budget ≤ 8000 }
    ensures answers { (text : List ℕ) (kernel : KernelParts) → IsAccepted text kernel graph →
        IfAnswer result (λ answer. Meets (IsTooSmall asked.slots text) answer ⊎ Meets (IsParted asked text) answer) }
    ensures no_fault { result ≢ Err EarlyEnd.ReadFault }
{
    let game = played_game(alloc, graph, asked.slots, UNIT_WEIGHTS)?;
    Ok(parted(alloc, &game, asked)?)
}
