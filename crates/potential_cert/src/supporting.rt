//! The support of rows: the least of the cost and of what the steps that leave the rows offer.
ghost use Rattle.std.specs.Prelude.{◌≡◌, ◌≤◌, List};
ghost use Rattle.comp_graph.specs.Games.{game_of};
ghost use Rattle.normal_steps.specs.Steps.{IsStep};
ghost use Rattle.comp_graph.specs.Lists.{IsIn};
ghost use Rattle.potential_cert.specs.Order.{precedes};
ghost use Rattle.potential_cert.specs.Table.{IsRising, IsSupport};
ghost use Rattle.potential_cert.specs.Offers.{IsWithOffersOfStep, IsWithOffersOfRow};

use crate::row_search::row_cost;
use crate::tables::Row;
use comp_graph::Game;
use forced_bounds::floor;
use normal_steps::{Step, Steps, after, cost as step_cost};
use pebble_rules::Position;

/// The support of rows and a cost: the least of the cost and of what each step that leaves the rows offers, and with no row the lesser
/// of the cost and the floor of the start. It takes no memory.
pub fn support(game: &Game, rows: &[Row], cost: u32) -> u32
    requires rise { IsRising precedes rows.now }
    ensures { IsSupport (game_of game.now) rows.now cost result }
{
    prove!(game.slots() <= 64);
    if rows.is_empty() {
        return cost.min(floor(game, &Position::start(game)));
    }
    let mut least = cost;
    for k in 0..rows.len() {
        least = with_offers_of_row(game, rows, &rows[k], least);
    }
    least
}

// The least of a number and of what the steps from a row that leave the rows offer.
fn with_offers_of_row(game: &Game, rows: &[Row], row: &Row, most: u32) -> u32
    requires rise { IsRising precedes rows.now }
    requires row { IsIn row.now rows.now }
    ensures { IsWithOffersOfRow (game_of game.now) rows.now row.now most result }
{
    let mut least = most;
    for step in Steps::new(game, &row.position) {
        least = with_offer_of_step(game, rows, row, step, least);
    }
    least
}

// The lesser of a number and of what a step from a row offers, where it leaves the rows. The floor is worked out only where it counts.
fn with_offer_of_step(game: &Game, rows: &[Row], row: &Row, step: Step, most: u32) -> u32
    requires rise { IsRising precedes rows.now }
    requires row { IsIn row.now rows.now }
    requires step { IsStep (game_of game.now) row.now.position step }
    ensures { IsWithOffersOfStep (game_of game.now) rows.now row.now step most result }
{
    let paid = row.cost as u64 + step_cost(game, &row.position, step) as u64;
    if paid >= most as u64 {
        return most;
    }
    let there = after(game, &row.position, step);
    if let Some(_) = row_cost(rows, &there) {
        return most;
    }
    let offer = paid + floor(game, &there) as u64;
    if offer < most as u64 {
        offer as u32
    } else {
        most
    }
}
