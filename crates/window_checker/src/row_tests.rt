//! What the start and each row of a table are tested for.
ghost use Rattle.std.specs.Prelude.{◌≡◌, ℕ, ◌≤◌, ◌↔◌, IsTrue, length};
ghost use Rattle.comp_graph.specs.Vertices.{◌∈◌};
ghost use Rattle.comp_graph.specs.Games.{game_of};
ghost use Rattle.normal_steps.specs.declared.step.Step.TheVariants.{Work, Drop, Spill};
ghost use Rattle.potential_cert.specs.Table.{HasRowWithin, IsRising};
ghost use Rattle.potential_cert.specs.Order.{precedes};
ghost use Rattle.window_game.specs.Plays.{IsStepIn};
ghost use Rattle.window_steps.specs.Sets.{window_of};
ghost use Rattle.window_checker.specs.Readiness.{IsReady, IsSettledIn, StepSettlesIn, StepsSettleIn, StartSettlesIn, FinishReachesIn};

use crate::table::Table;
use comp_graph::{Game, VertexSet};
use normal_steps::Step;
use pebble_rules::Position;
use potential_cert::{Row, row_cost};
use window_floor::{WindowFloor, floor};
use window_images::least_image;
use window_steps::{WindowSets, after, can_finish, cost, finish_cost, step_sets};

// Whether the start of a window is settled at no cost.
pub(crate) fn start_settles(
    game: &Game,
    window: &WindowSets,
    made: &WindowFloor,
    table: &Table,
) -> bool
    requires ready { IsReady game.now window.now made.now }
    requires rise { IsRising precedes table.now.rows.now }
    ensures { IsTrue result ↔ StartSettlesIn game.now window.now table.now }
{
    let start = Position {
        red: VertexSet::empty(),
        blue: game.graph().in_set().meet(&window.tracked),
    };
    is_settled(game, window, made, table, &start, 0)
}

// Whether each legal step from a row leads to a settled position.
pub(crate) fn steps_settle(
    game: &Game,
    window: &WindowSets,
    made: &WindowFloor,
    table: &Table,
    row: &Row,
) -> bool
    requires ready { IsReady game.now window.now made.now }
    requires rise { IsRising precedes table.now.rows.now }
    ensures { IsTrue result ↔ StepsSettleIn game.now window.now table.now row.now }
{
    let sets = step_sets(game, window, &row.position);
    if !works_settle(game, window, made, table, row, &sets.works) {
        return false;
    }
    if !drops_settle(game, window, made, table, row, &sets.drops) {
        return false;
    }
    spills_settle(game, window, made, table, row, &sets.spills)
}

// Whether the Works of some vertices lead from a row to settled positions.
fn works_settle(
    game: &Game,
    window: &WindowSets,
    made: &WindowFloor,
    table: &Table,
    row: &Row,
    works: &VertexSet,
) -> bool
    requires ready { IsReady game.now window.now made.now }
    requires rise { IsRising precedes table.now.rows.now }
    requires steps { (v : ℕ) → v ∈ works.now → IsStepIn (game_of game.now) (window_of window.now) row.now.position (Work v) }
    ensures { IsTrue result ↔ ((v : ℕ) → v ∈ works.now → StepSettlesIn game.now window.now table.now row.now (Work v)) }
{
    prove!(works.count() <= 256);
    for v in 0..256u16 {
        if works.has(v) && !step_settles(game, window, made, table, row, Step::Work(v)) {
            return false;
        }
    }
    true
}

// Whether the Drops of some vertices lead from a row to settled positions.
fn drops_settle(
    game: &Game,
    window: &WindowSets,
    made: &WindowFloor,
    table: &Table,
    row: &Row,
    drops: &VertexSet,
) -> bool
    requires ready { IsReady game.now window.now made.now }
    requires rise { IsRising precedes table.now.rows.now }
    requires steps { (v : ℕ) → v ∈ drops.now → IsStepIn (game_of game.now) (window_of window.now) row.now.position (Drop v) }
    ensures { IsTrue result ↔ ((v : ℕ) → v ∈ drops.now → StepSettlesIn game.now window.now table.now row.now (Drop v)) }
{
    prove!(drops.count() <= 256);
    for v in 0..256u16 {
        if drops.has(v) && !step_settles(game, window, made, table, row, Step::Drop(v)) {
            return false;
        }
    }
    true
}

// Whether the Spills of some vertices lead from a row to settled positions.
fn spills_settle(
    game: &Game,
    window: &WindowSets,
    made: &WindowFloor,
    table: &Table,
    row: &Row,
    spills: &VertexSet,
) -> bool
    requires ready { IsReady game.now window.now made.now }
    requires rise { IsRising precedes table.now.rows.now }
    requires steps { (v : ℕ) → v ∈ spills.now → IsStepIn (game_of game.now) (window_of window.now) row.now.position (Spill v) }
    ensures { IsTrue result ↔ ((v : ℕ) → v ∈ spills.now → StepSettlesIn game.now window.now table.now row.now (Spill v)) }
{
    prove!(spills.count() <= 256);
    for v in 0..256u16 {
        if spills.has(v) && !step_settles(game, window, made, table, row, Step::Spill(v)) {
            return false;
        }
    }
    true
}

// Whether a legal step leads from a row to a settled position.
fn step_settles(
    game: &Game,
    window: &WindowSets,
    made: &WindowFloor,
    table: &Table,
    row: &Row,
    step: Step,
) -> bool
    requires ready { IsReady game.now window.now made.now }
    requires rise { IsRising precedes table.now.rows.now }
    requires step { IsStepIn (game_of game.now) (window_of window.now) row.now.position step }
    ensures { IsTrue result ↔ StepSettlesIn game.now window.now table.now row.now step }
{
    let paid = row.cost as u64 + cost(game, window, &row.position, step) as u64;
    let there = after(game, window, &row.position, step);
    is_settled(game, window, made, table, &there, paid)
}

// Whether the position at which a position is looked up is a row of at most this cost, or the bound is at most the cost and the floor there.
fn is_settled(
    game: &Game,
    window: &WindowSets,
    made: &WindowFloor,
    table: &Table,
    position: &Position,
    paid: u64,
) -> bool
    requires ready { IsReady game.now window.now made.now }
    requires rise { IsRising precedes table.now.rows.now }
    requires paid { paid ≤ 8589934590 }
    ensures { IsTrue result ↔ IsSettledIn game.now window.now table.now position.now paid }
{
    let image = least_image(table.permutations, position);
    has_row_within(table.rows, &image, paid)
        || table.bound as u64 <= paid + floor(game, window, made, &image) as u64
}

// Whether the position is a row of at most this cost.
fn has_row_within(rows: &[Row], position: &Position, most: u64) -> bool
    requires rise { IsRising precedes rows.now }
    ensures { IsTrue result ↔ HasRowWithin rows.now position.now most }
{
    match row_cost(rows, position) {
        Some(cost) => cost as u64 <= most,
        None => false,
    }
}

// Whether the bound is at most what a row costs with the finish, if a play can finish there.
pub(crate) fn finish_reaches(game: &Game, window: &WindowSets, table: &Table, row: &Row) -> bool
    ensures { IsTrue result ↔ FinishReachesIn game.now window.now table.now row.now }
{
    if !can_finish(game, window, &row.position) {
        return true;
    }
    table.bound as u64 <= row.cost as u64 + finish_cost(game, window, &row.position) as u64
}
