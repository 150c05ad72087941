//! The check of a table.
ghost use Rattle.std.specs.Prelude.{◌≡◌, ◌≤◌, length, IfOk, IfErr, IfSome, IfNone, MatchOption};
ghost use Rattle.comp_graph.specs.Games.{game_of};
ghost use Rattle.normal_steps.specs.Sound.{IsSound};
ghost use Rattle.potential_cert.specs.Table.{IsRising, StepsHold, FinishHolds};
ghost use Rattle.potential_cert.specs.Order.{precedes};
ghost use Rattle.potential_cert.specs.GameTables.{IsTableOf};
ghost use Rattle.cert_checker.specs.Refusals.{EachRow, IsFirstWithout, IsFirstFall, IsRefusal, PassesBefore};

use crate::refusal::{Reason, Refused};
use crate::row_tests::{finish_holds, is_sound, start_holds, steps_hold};
use comp_graph::Game;
use potential_cert::{Row, Table};
use std::cmp::Ordering;

/// Checks a table against a game. Ok gives its bound, exactly where it is a table of the game: it has the numbers of its graph, slots and
/// weights, and its rows rise and are valid with its bound. Else the first reason in the order of `Reason` is given, and the least row
/// for it. It takes no memory.
pub fn check(game: &Game, table: &Table) -> Result<u32, Refused>
    requires few { length table.now.rows ≤ 4294967295 }
    ensures bound { IfOk result (λ bound. bound ≡ table.now.bound) }
    ensures holds { IfOk result (λ bound. IsTableOf (game_of game.now) table.now) }
    ensures refused { IfErr result (λ refused. IsRefusal (game_of game.now) table.now refused.reason refused.row) }
{
    if let Some(reason) = wrong_number(game, table) {
        return Err(Refused { reason, row: 0 });
    }
    match wrong_rows(game, table) {
        Some(refused) => Err(refused),
        None => Ok(table.bound),
    }
}

// The first of a table's numbers of vertices and slots and its weights that is not the game's.
fn wrong_number(game: &Game, table: &Table) -> Option<Reason>
    ensures none { IfNone result (PassesBefore (game_of game.now) table.now 3) }
    ensures some { IfSome result (λ reason. IsRefusal (game_of game.now) table.now reason 0) }
{
    let weights = game.weights();
    if table.vertices != game.graph().len() {
        return Some(Reason::Graph);
    }
    if table.slots != game.slots() {
        return Some(Reason::Slots);
    }
    if table.weights.load != weights.load || table.weights.store != weights.store {
        return Some(Reason::Weights);
    }
    None
}

// The first reason of its rows and its bound for which a table with the game's numbers is refused, and the least row for it.
fn wrong_rows(game: &Game, table: &Table) -> Option<Refused>
    requires few { length table.now.rows ≤ 4294967295 }
    requires numbers { PassesBefore (game_of game.now) table.now 3 }
    ensures none { IfNone result (IsTableOf (game_of game.now) table.now) }
    ensures some { IfSome result (λ refused. IsRefusal (game_of game.now) table.now refused.reason refused.row) }
{
    let rows: &[Row] = &table.rows;
    let bound = table.bound;
    if let Some(row) = first_fall(rows) {
        return Some(Refused::new(Reason::Order, row));
    }
    if let Some(row) = first_unsound(game, rows) {
        return Some(Refused::new(Reason::Position, row));
    }
    if !start_holds(game, rows, bound) {
        return Some(Refused::new(Reason::Start, 0));
    }
    if let Some(row) = first_bad_steps(game, rows, bound) {
        return Some(Refused::new(Reason::Step, row));
    }
    if let Some(row) = first_bad_finish(game, rows, bound) {
        return Some(Refused::new(Reason::Finish, row));
    }
    None
}

// The first row that does not come after the one before it.
fn first_fall(rows: &[Row]) -> Option<u32>
    requires few { length rows.now ≤ 4294967295 }
    ensures { MatchOption result (IsRising precedes rows.now) (IsFirstFall rows.now) }
{
    for k in 1..rows.len() {
        let low = &rows[k - 1];
        let high = &rows[k];
        match low.position.order(&high.position) {
            Ordering::Less => {}
            Ordering::Equal => return Some(k as u32),
            Ordering::Greater => return Some(k as u32),
        }
    }
    None
}

// The first row whose position is not sound.
fn first_unsound(game: &Game, rows: &[Row]) -> Option<u32>
    requires few { length rows.now ≤ 4294967295 }
    ensures { MatchOption result (EachRow (λ r. IsSound (game_of game.now) r.position) rows.now) (IsFirstWithout (λ r. IsSound (game_of game.now) r.position) rows.now) }
{
    for k in 0..rows.len() {
        let row = &rows[k];
        if !is_sound(game, &row.position) {
            return Some(k as u32);
        }
    }
    None
}

// The first row with a step that is not good.
fn first_bad_steps(game: &Game, rows: &[Row], bound: u32) -> Option<u32>
    requires few { length rows.now ≤ 4294967295 }
    requires rise { IsRising precedes rows.now }
    ensures { MatchOption result (EachRow (StepsHold (game_of game.now) rows.now bound) rows.now) (IsFirstWithout (StepsHold (game_of game.now) rows.now bound) rows.now) }
{
    for k in 0..rows.len() {
        if !steps_hold(game, rows, bound, &rows[k]) {
            return Some(k as u32);
        }
    }
    None
}

// The first row that can finish for less than the bound.
fn first_bad_finish(game: &Game, rows: &[Row], bound: u32) -> Option<u32>
    requires few { length rows.now ≤ 4294967295 }
    ensures { MatchOption result (EachRow (FinishHolds (game_of game.now) bound) rows.now) (IsFirstWithout (FinishHolds (game_of game.now) bound) rows.now) }
{
    for k in 0..rows.len() {
        if !finish_holds(game, bound, &rows[k]) {
            return Some(k as u32);
        }
    }
    None
}
