//! What each row of a covered table is tested for.
ghost use Rattle.std.specs.Prelude.{◌↔◌, IfNone, IfSome, IsTrue};
ghost use Rattle.comp_graph.specs.Games.{IsGame, game_of};
ghost use Rattle.normal_steps.specs.Steps.{IsStep};
ghost use Rattle.normal_steps.specs.Sound.{IsSound};
ghost use Rattle.potential_cert.specs.Order.{precedes};
ghost use Rattle.potential_cert.specs.Table.{HasRow, HasRowAt, HasRowWithin, IsRising};
ghost use Rattle.cover_cert.specs.CoverTable.{CanBeNamed, HasFreeRow, IsCoveredBy, IsNamed, NamesHold, StartHolds, StepHolds, StepsHold, plain_rows};

use crate::covering::covers;
use crate::tables::{Cover, CoverRow};
use comp_graph::Game;
use forced_bounds::floor;
use normal_steps::{Step, Steps, after, cost};
use pebble_rules::Position;
use std::cmp::Ordering;

// Whether the names of a row are good.
pub(crate) fn names_hold(game: &Game, rows: &[CoverRow], row: &CoverRow) -> bool
    requires game { IsGame game.now }
    requires sound { IsSound (game_of game.now) row.now.position }
    ensures { IsTrue result ↔ NamesHold (game_of game.now) rows.now row.now }
{
    let names: &[Cover] = &row.names;
    let mut next: usize = 0;
    let mut place: u16 = 0;
    for step in Steps::new(game, &row.position) {
        if next < names.len() && names[next].step == place {
            if !is_covered(game, rows, row, step, names[next].row) {
                return false;
            }
            next += 1;
        }
        place += 1;
    }
    next == names.len()
}

// Whether a step can have this name.
fn is_covered(game: &Game, rows: &[CoverRow], row: &CoverRow, step: Step, number: u32) -> bool
    requires { IsStep (game_of game.now) row.now.position step }
    ensures { IsTrue result ↔ IsCoveredBy (game_of game.now) rows.now row.now step number }
{
    if !can_be_named(step) || number as usize >= rows.len() {
        return false;
    }
    let by = &rows[number as usize];
    let there = after(game, &row.position, step);
    covers(game, &by.position, &there)
        && by.cost as u64 <= row.cost as u64 + cost(game, &row.position, step) as u64
}

// Whether each step of a row without a name is good.
pub(crate) fn steps_hold(game: &Game, rows: &[CoverRow], bound: u32, row: &CoverRow) -> bool
    requires game { IsGame game.now }
    requires rise { IsRising precedes (plain_rows rows.now) }
    requires sound { IsSound (game_of game.now) row.now.position }
    ensures { IsTrue result ↔ StepsHold (game_of game.now) rows.now bound row.now }
{
    let mut place: u16 = 0;
    for step in Steps::new(game, &row.position) {
        if !is_named(&row.names, place) && !step_holds(game, rows, bound, row, step) {
            return false;
        }
        place += 1;
    }
    true
}

// Whether the step at this place has a name.
pub(crate) fn is_named(names: &[Cover], place: u16) -> bool
    ensures { IsTrue result ↔ IsNamed names.now place }
{
    for name in names {
        if name.step == place {
            return true;
        }
    }
    false
}

// Whether a step without a name leads to a row that costs no more than the cost there, or the bound is at most what it offers. The row is
// looked for only where the bound is above what is paid, and the floor is worked out only where no row answers.
fn step_holds(game: &Game, rows: &[CoverRow], bound: u32, row: &CoverRow, step: Step) -> bool
    requires rise { IsRising precedes (plain_rows rows.now) }
    requires step { IsStep (game_of game.now) row.now.position step }
    ensures { IsTrue result ↔ StepHolds (game_of game.now) rows.now bound row.now step }
{
    let paid = row.cost as u64 + cost(game, &row.position, step) as u64;
    if bound as u64 <= paid {
        return true;
    }
    let there = after(game, &row.position, step);
    has_row_within(rows, &there, paid) || bound as u64 <= paid + floor(game, &there) as u64
}

// Whether the position is a row of at most this cost.
fn has_row_within(rows: &[CoverRow], position: &Position, most: u64) -> bool
    requires { IsRising precedes (plain_rows rows.now) }
    ensures { IsTrue result ↔ HasRowWithin (plain_rows rows.now) position.now most }
{
    match cover_row_cost(rows, position) {
        Some(cost) => cost as u64 <= most,
        None => false,
    }
}

// The cost of the row with this position, where there is one: rows are looked for by halves.
pub(crate) fn cover_row_cost(rows: &[CoverRow], position: &Position) -> Option<u32>
    requires { IsRising precedes (plain_rows rows.now) }
    ensures none { IfNone result (HasRow (plain_rows rows.now) position.now → ⊥) }
    ensures some { IfSome result (HasRowAt (plain_rows rows.now) position.now) }
{
    let mut low: usize = 0;
    let mut high: usize = rows.len();
    while low < high {
        let middle = low + (high - low) / 2;
        let row = &rows[middle];
        match row.position.order(position) {
            Ordering::Less => low = middle + 1,
            Ordering::Greater => high = middle,
            Ordering::Equal => return Some(row.cost),
        }
    }
    None
}

// Whether the bound is at most the floor of the start, or some row costs nothing.
pub(crate) fn start_holds(game: &Game, rows: &[CoverRow], bound: u32) -> bool
    ensures { IsTrue result ↔ StartHolds (game_of game.now) rows.now bound }
{
    bound <= floor(game, &Position::start(game)) || has_free_row(rows)
}

// Whether some row costs nothing.
fn has_free_row(rows: &[CoverRow]) -> bool
    ensures { IsTrue result ↔ HasFreeRow rows.now }
{
    for row in rows {
        if row.cost == 0 {
            return true;
        }
    }
    false
}

// Whether a step can have a name.
pub(crate) fn can_be_named(step: Step) -> bool
    ensures { IsTrue result ↔ CanBeNamed step }
{
    match step {
        Step::Work(_) | Step::Spill(_) => true,
        Step::Drop(_) => false,
    }
}
