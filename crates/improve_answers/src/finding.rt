//! The plan and the table of an improvement: by the search over orders, and by the search for a bound from the plan that it found.
ghost use Rattle.std.specs.Prelude.{◌≡◌, ◌≤◌, ℕ, IfOk};
ghost use Rattle.comp_graph.specs.Games.{game_of};
ghost use Rattle.pebble_rules.specs.Rules.{start};
ghost use Rattle.forced_bounds.specs.Floor as floors;
ghost use Rattle.normal_steps.specs.Plans.{IsPlan};
ghost use Rattle.improve_answers.specs.Improved.{IsFoundFor, IsTableFor, rows_allowed};

use branch_bound::{Found, search};
use comp_graph::{Game, NoMemory};
use first_plan::first;
use forced_bounds::floor;
use normal_steps::Plan;
use order_search::improved;
use pebble_rules::Position;
use potential_cert::Table;
use std::alloc::Global;

/// The places of orders that are followed for each unit of effort.
const PLACES_A_UNIT: u32 = 100_000;

/// The positions that are expanded for each unit of effort.
const ROWS_A_UNIT: u32 = 1_000;

/// The most positions that are expanded.
const MOST_ROWS: u32 = 150_000;

/// What was found for a game.
#[derive(Drop)]
pub(super) struct Improvement<'g> {
    /// The cost of the first plan, by the weights of loads and stores.
    pub first_cost: u32,
    /// A plan that costs no more.
    pub plan: Plan<'g>,
    /// A table that proves a bound.
    pub table: Table,
}

/// The most positions that are expanded with an effort.
pub(super) fn rows_allowed(effort: u32) -> u32
    requires { effort ≤ 200 }
    ensures value { result ≡ rows_allowed effort }
    ensures most { result ≤ 150000 }
{
    (effort * ROWS_A_UNIT).min(MOST_ROWS)
}

/// What is found for a game with an effort. Without effort it is the first plan, with the table without rows and the floor of the start.
pub(super) fn found_for<'g>(
    alloc: Global,
    game: &'g Game,
    effort: u32,
) -> Result<Improvement<'g>, NoMemory>
    requires { effort ≤ 200 }
    ensures { IfOk result (IsFoundFor game.now effort) }
{
    // For the proof: a game is one of its rules, and a plan costs what its steps cost.
    let _slots = game.slots();
    let first = first(alloc, game)?;
    let first_cost = first.total();
    let plan = cheaper(alloc, first, effort)?;
    let Found { plan, table, .. } = search(alloc, plan, rows_allowed(effort))?;
    let _cost = plan.total();
    let table = no_less_than_the_floor(alloc, game, table);
    Ok(Improvement {
        first_cost,
        plan,
        table,
    })
}

// The first plan without effort, and else the cheapest that the search over orders finds from it.
fn cheaper<'g>(alloc: Global, first: Plan<'g>, effort: u32) -> Result<Plan<'g>, NoMemory>
    requires { effort ≤ 200 }
    ensures valid { IfOk result IsPlan }
    ensures game { IfOk result (λ plan. plan.game ≡ first.entry.game) }
    ensures no_more { IfOk result (λ plan. plan.total ≤ first.entry.total) }
    ensures still { effort ≡ 0 → IfOk result (λ plan. plan ≡ first.entry) }
{
    if effort == 0 {
        return Ok(first);
    }
    improved(alloc, first, effort * PLACES_A_UNIT)
}

// The table, or the one without rows if the floor of the start is a greater bound.
fn no_less_than_the_floor(alloc: Global, game: &Game, table: Table) -> Table
    ensures one { (most cost : ℕ) → floors.floor (game_of game.now) (start (game_of game.now)) ≤ cost →
        IsTableFor game.now most cost table → IsTableFor game.now most cost result }
    ensures floored { floors.floor (game_of game.now) (start (game_of game.now)) ≤ result.bound }
{
    let bound = floor(game, &Position::start(game));
    if bound <= table.bound {
        return table;
    }
    Table {
        slots: game.slots(),
        vertices: game.graph().len(),
        weights: game.weights(),
        bound,
        rows: Vec::new(alloc),
    }
}
