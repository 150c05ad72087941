//! The support of rows with names: the least of the cost and of what the steps without a name offer that leave the rows.
ghost use Rattle.std.specs.Prelude.{◌≡◌, ◌≤◌, ℕ, List};
ghost use Rattle.comp_graph.specs.Games.{IsGame, game_of};
ghost use Rattle.normal_steps.specs.Sound.{IsSound};
ghost use Rattle.normal_steps.specs.StepTests.{legal_steps};
ghost use Rattle.comp_graph.specs.Lists.{IsIn};
ghost use Rattle.potential_cert.specs.Order.{precedes};
ghost use Rattle.potential_cert.specs.Places.{IsAt};
ghost use Rattle.potential_cert.specs.Table.{IsRising};
ghost use Rattle.normal_steps.specs.Steps.{IsStep};
ghost use Rattle.cover_cert.specs.CoverOffers.{IsWithCoverOffer, IsWithCoverOffers};
ghost use Rattle.cover_cert.specs.CoverTable.{CoverRowParts, IsCoverSupport, plain_rows};

use crate::row_tests::{cover_row_cost, is_named};
use crate::tables::CoverRow;
use comp_graph::Game;
use forced_bounds::floor;
use normal_steps::{Step, Steps, after, cost as step_cost};
use pebble_rules::Position;

/// The support of rows with names and a cost: the least of the cost and of what each step without a name offers that leaves the rows, and
/// with no row the lesser of the cost and the floor of the start. It takes no memory.
pub(crate) fn cover_support(game: &Game, rows: &[CoverRow], cost: u32) -> u32
    requires game { IsGame game.now }
    requires rise { IsRising precedes (plain_rows rows.now) }
    requires sound { (r : CoverRowParts) → IsIn r rows.now → IsSound (game_of game.now) r.position }
    ensures { IsCoverSupport (game_of game.now) rows.now cost result }
{
    if rows.is_empty() {
        return cost.min(floor(game, &Position::start(game)));
    }
    let mut least = cost;
    for k in 0..rows.len() {
        least = with_offers_of_row(game, rows, &rows[k], least);
    }
    least
}

// The least of a number and of what the steps from a row offer that leave the rows without a name.
fn with_offers_of_row(game: &Game, rows: &[CoverRow], row: &CoverRow, most: u32) -> u32
    requires game { IsGame game.now }
    requires rise { IsRising precedes (plain_rows rows.now) }
    requires row { IsIn row.now rows.now }
    requires sound { IsSound (game_of game.now) row.now.position }
    ensures { IsWithCoverOffers (game_of game.now) rows.now row.now most result }
{
    let mut least = most;
    let mut place: u16 = 0;
    for step in Steps::new(game, &row.position) {
        least = with_offer_of_step(game, rows, row, place, step, least);
        place += 1;
    }
    least
}

// The lesser of a number and of what a step from a row offers, where it leaves the rows without a name. The floor is worked out only where
// it counts.
fn with_offer_of_step(
    game: &Game,
    rows: &[CoverRow],
    row: &CoverRow,
    place: u16,
    step: Step,
    most: u32,
) -> u32
    requires rise { IsRising precedes (plain_rows rows.now) }
    requires row { IsIn row.now rows.now }
    requires step { IsStep (game_of game.now) row.now.position step }
    requires at { IsAt step place (legal_steps (game_of game.now) row.now.position) }
    ensures { IsWithCoverOffer (game_of game.now) rows.now row.now place step most result }
{
    let paid = row.cost as u64 + step_cost(game, &row.position, step) as u64;
    if paid >= most as u64 || is_named(&row.names, place) {
        return most;
    }
    let there = after(game, &row.position, step);
    if let Some(_) = cover_row_cost(rows, &there) {
        return most;
    }
    let offer = paid + floor(game, &there) as u64;
    if offer < most as u64 {
        offer as u32
    } else {
        most
    }
}
