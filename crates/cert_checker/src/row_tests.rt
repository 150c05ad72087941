//! What each row of a table is tested for.
ghost use Rattle.std.specs.Prelude.{◌≡◌, true, ℕ, ◌≤◌, ◌<◌, ◌↔◌, IsTrue};
ghost use Rattle.std.specs.FinSet as set;
ghost use Rattle.comp_graph.specs.Games.{game_of};
ghost use Rattle.normal_steps.specs.Steps.{IsStep};
ghost use Rattle.normal_steps.specs.Sound.{IsSound};
ghost use Rattle.potential_cert.specs.Table.{HasRowWithin, IsRising, StartHolds, StepHolds, StepsHold, FinishHolds};
ghost use Rattle.potential_cert.specs.Order.{precedes};

use comp_graph::{Game, VertexSet};
use forced_bounds::floor;
use normal_steps::{Step, Steps, after, cost, finish};
use pebble_rules::Position;
use potential_cert::{Row, row_cost};

/// Whether the pebbles of a position stand on vertices, the inputs are blue, and the red pebbles fit the slots. It takes no memory.
pub fn is_sound(game: &Game, p: &Position) -> bool
    ensures { IsTrue result ↔ IsSound (game_of game.now) p.now }
{
    let graph = game.graph();
    let all = numbers_below(graph.len());
    p.red.within(&all)
        && p.blue.within(&all)
        && graph.in_set().within(&p.blue)
        && p.red.count() <= game.slots()
}

// The numbers below n.
fn numbers_below(n: u16) -> VertexSet
    requires { n ≤ 256 }
    ensures { (v : ℕ) → (set.contains result v ≡ true) ↔ (v < n) }
{
    let mut all = VertexSet::empty();
    for v in 0..n {
        all = all.with(v);
    }
    all
}

// Whether each step of a row is good.
pub(crate) fn steps_hold(game: &Game, rows: &[Row], bound: u32, row: &Row) -> bool
    requires rise { IsRising precedes rows.now }
    ensures { IsTrue result ↔ StepsHold (game_of game.now) rows.now bound row.now }
{
    for step in Steps::new(game, &row.position) {
        if !step_holds(game, rows, bound, row, step) {
            return false;
        }
    }
    true
}

// Whether a step leads to a row that costs no more than the cost there, or the bound is at most what it offers. The row is looked for only
// where the bound is above what is paid, and the floor is worked out only where no row answers.
fn step_holds(game: &Game, rows: &[Row], bound: u32, row: &Row, step: Step) -> bool
    requires rise { IsRising precedes rows.now }
    requires step { IsStep (game_of game.now) row.now.position step }
    ensures { IsTrue result ↔ StepHolds (game_of game.now) rows.now bound row.now step }
{
    let paid = row.cost as u64 + cost(game, &row.position, step) as u64;
    if bound as u64 <= paid {
        return true;
    }
    let there = after(game, &row.position, step);
    has_row_within(rows, &there, paid) || bound as u64 <= paid + floor(game, &there) as u64
}

// Whether the position is a row of at most this cost.
fn has_row_within(rows: &[Row], position: &Position, most: u64) -> bool
    requires rise { IsRising precedes rows.now }
    ensures { IsTrue result ↔ HasRowWithin rows.now position.now most }
{
    match row_cost(rows, position) {
        Some(cost) => cost as u64 <= most,
        None => false,
    }
}

/// Whether the bound is at most what a row costs with the finish, where it can finish. It takes no memory.
pub fn finish_holds(game: &Game, bound: u32, row: &Row) -> bool
    ensures { IsTrue result ↔ FinishHolds (game_of game.now) bound row.now }
{
    match finish(game, &row.position) {
        None => true,
        Some(rest) => bound as u64 <= row.cost as u64 + rest as u64,
    }
}

// Whether the bound is at most the floor of the start, or the start is a row that costs nothing.
pub(crate) fn start_holds(game: &Game, rows: &[Row], bound: u32) -> bool
    requires rise { IsRising precedes rows.now }
    ensures { IsTrue result ↔ StartHolds (game_of game.now) rows.now bound }
{
    let start = Position::start(game);
    bound <= floor(game, &start) || has_row_within(rows, &start, 0)
}
