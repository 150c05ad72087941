//! The rows that a search makes, each with the rows that its steps name.
ghost use Rattle.std.specs.Prelude.{◌≡◌, ◌+◌, ◌*◌, ◌<◌, ◌≤◌, ◌↔◌, ◌∷◌, IfOk, IsTrue, length};
ghost use Rattle.comp_graph.specs.Games.{IsGame, game_of};
ghost use Rattle.normal_steps.specs.Sound.{IsSound};
ghost use Rattle.normal_steps.specs.Steps.{IsStep};
ghost use Rattle.search_laws.specs.Turning.{IsExpanding};
ghost use Rattle.branch_bound.specs.Frontiers.{IsFrontier, place_at, store_of};
ghost use Rattle.cover_cert.specs.CoverMaking.{FitsFirst, IsFit, IsSooner, NamesFirst, made_rows};
ghost use Rattle.cover_cert.specs.CoverTurns.{AreMade, HasMade, row_at};

use crate::covering::{has_pebbles, live_part};
use crate::row_tests::can_be_named;
use branch_bound::frontier::{Best, Frontier};
use comp_graph::{Game, NoMemory};
use normal_steps::{Step, Steps, after, cost};
use pebble_rules::Position;
use potential_cert::Row;
use std::alloc::Global;
use std::cmp::Ordering;
use std::sync::ledger::Ledger;

/// A name: the step at this place of the legal steps of a row, counted from 0, leads to a position that the row at `by` covers.
#[derive(Clone, Copy)]
pub struct Name {
    pub step: u16,
    pub by: Position,
}

/// A row that was made, with its names.
#[derive(Drop)]
pub struct Made {
    pub position: Position,
    pub cost: u32,
    pub names: Vec<Name>,
}

// Whether a row costs at most so much and has these pebbles.
fn is_fit(row: &Row, wanted: &Position, most: u64) -> bool
    ensures { IsTrue result ↔ IsFit wanted.now most row.now }
{
    row.cost as u64 <= most && has_pebbles(&row.position, wanted)
}

// The one of two positions that comes first.
fn sooner(first: Option<Position>, position: &Position) -> Position
    ensures { IsSooner first position.now result }
{
    match first {
        None => *position,
        Some(other) => match position.order(&other) {
            Ordering::Less => *position,
            Ordering::Equal => other,
            Ordering::Greater => other,
        },
    }
}

// Where the first in the order of positions stands, of this row and those that were made, that costs at most so much and has these pebbles.
fn first_fit(made: &[Made], row: &Row, wanted: &Position, most: u64) -> Option<Position>
    ensures { FitsFirst (row.now ∷ made_rows made.now) wanted.now most result }
{
    let mut first = None;
    if is_fit(row, wanted, most) {
        first = Some(row.position);
    }
    for k in 0..made.len() {
        let other = made_row(&made[k]);
        if is_fit(&other, wanted, most) {
            first = Some(sooner(first, &other.position));
        }
    }
    first
}

// A row that was made, without its names.
pub(crate) fn made_row(made: &Made) -> Row
    ensures { result ≡ Rattle.cover_cert.specs.CoverMaking.made_row made.now }
{
    Row {
        position: made.position,
        cost: made.cost,
    }
}

// Where the row stands that a step from this row names, of this row and those that were made.
fn row_named(game: &Game, made: &[Made], row: &Row, step: Step) -> Option<Position>
    requires { IsStep (game_of game.now) row.now.position step }
    ensures { NamesFirst (game_of game.now) (row.now ∷ made_rows made.now) row.now step result }
{
    if !can_be_named(step) {
        return None;
    }
    let wanted = live_part(game, &after(game, &row.position, step));
    let most = row.cost as u64 + cost(game, &row.position, step) as u64;
    first_fit(made, row, &wanted, most)
}

// Makes the row at the place `k`: each legal step from it gets a name, or is tried; `steps` counts one more.
pub(crate) fn make<L: Ledger>(
    alloc: Global,
    game: &Game,
    frontier: &mut Frontier,
    best: &mut Best,
    made: &[Made],
    k: u32,
    steps: &mut step_count::Steps<L>,
) -> Result<Made, NoMemory>
    requires game { IsGame game.now }
    requires frontier { IsFrontier frontier.old }
    requires wide { length game.now.graph.nodes ≤ 64 * frontier.old.rows.words }
    requires expanding { IsExpanding (store_of frontier.old) k }
    requires current { frontier.old.queues.current ≡ (place_at frontier.old k).cost }
    requires sound { IsSound (game_of game.now) (place_at frontier.old k).position }
    requires room { length frontier.old.rows.slots < 4000000000 }
    requires made { AreMade (store_of frontier.old) (row_at (store_of frontier.old) k ∷ made_rows made.now) }
    ensures made { IfOk result (HasMade (game_of game.now) k frontier.old frontier.new best.old best.new) }
    ensures steps { steps.new ≡ steps.old + 1 }
{
    steps.tick();
    let position = frontier.rows.position(k);
    let row = Row {
        position,
        cost: frontier.rows.head(k).cost,
    };
    let mut names = Vec::new(alloc);
    let mut place: u16 = 0;
    for step in Steps::new(game, &row.position) {
        match row_named(game, made, &row, step) {
            Some(by) => names.push(Name { step: place, by })?,
            None => frontier.try_step(game, k, &row.position, row.cost, step, best)?,
        }
        place += 1;
    }
    Ok(Made {
        position: row.position,
        cost: row.cost,
        names,
    })
}
