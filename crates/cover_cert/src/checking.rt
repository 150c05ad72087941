//! The check of a covered table.
ghost use Rattle.std.specs.Prelude.{◌≡◌, ◌≤◌, length, IfOk, IfErr, IfSome, IfNone, MatchOption};
ghost use Rattle.comp_graph.specs.Games.{IsGame, game_of};
ghost use Rattle.normal_steps.specs.Sound.{IsSound};
ghost use Rattle.potential_cert.specs.Order.{precedes};
ghost use Rattle.potential_cert.specs.Table.{IsRising, FinishHolds};
ghost use Rattle.cert_checker.specs.Refusals.{EachRow, IsFirstFall, IsFirstWithout};
ghost use Rattle.cover_cert.specs.CoverTable.{IsCoverTableOf, NamesHold, StepsHold, plain, plain_rows};
ghost use Rattle.cover_cert.specs.Refusals.{IsCoverRefusal, PassesBefore};

use crate::row_tests::{names_hold, start_holds, steps_hold};
use crate::tables::{CoverRow, CoverTable};
use cert_checker::row_tests::{finish_holds, is_sound};
use cert_checker::{Reason, Refused};
use comp_graph::Game;
use std::cmp::Ordering;

/// Checks a covered table against a game. Ok gives its bound, exactly where it is a covered table of the game: it has the numbers of its
/// graph, slots and weights, its rows rise, and they and their names are valid with its bound. Else the first reason in the order of
/// `Reason` is given, and the least row for it. It takes no memory.
pub fn check_cover(game: &Game, table: &CoverTable) -> Result<u32, Refused>
    requires few { length table.now.rows ≤ 4294967295 }
    ensures bound { IfOk result (λ bound. bound ≡ table.now.bound) }
    ensures holds { IfOk result (λ bound. IsCoverTableOf (game_of game.now) table.now) }
    ensures refused { IfErr result (λ refused. IsCoverRefusal (game_of game.now) table.now refused.reason refused.row) }
{
    if let Some(reason) = wrong_number(game, table) {
        return Err(Refused { reason, row: 0 });
    }
    match wrong_rows(game, table) {
        Some(refused) => Err(refused),
        None => Ok(table.bound),
    }
}

// The first of a table's numbers of vertices and slots and its weights that is not the game's.
fn wrong_number(game: &Game, table: &CoverTable) -> Option<Reason>
    ensures none { IfNone result (PassesBefore (game_of game.now) table.now 3) }
    ensures some { IfSome result (λ reason. IsCoverRefusal (game_of game.now) table.now reason 0) }
{
    let weights = game.weights();
    if table.vertices != game.graph().len() {
        return Some(Reason::Graph);
    }
    if table.slots != game.slots() {
        return Some(Reason::Slots);
    }
    if table.weights.load != weights.load || table.weights.store != weights.store {
        return Some(Reason::Weights);
    }
    None
}

// The first reason of its rows and its bound for which a table with the game's numbers is refused, and the least row for it.
fn wrong_rows(game: &Game, table: &CoverTable) -> Option<Refused>
    requires few { length table.now.rows ≤ 4294967295 }
    requires numbers { PassesBefore (game_of game.now) table.now 3 }
    ensures none { IfNone result (IsCoverTableOf (game_of game.now) table.now) }
    ensures some { IfSome result (λ refused. IsCoverRefusal (game_of game.now) table.now refused.reason refused.row) }
{
    let _graph = game.graph();
    let rows: &[CoverRow] = &table.rows;
    let bound = table.bound;
    if let Some(row) = first_fall(rows) {
        return Some(Refused::new(Reason::Order, row));
    }
    if let Some(row) = first_unsound(game, rows) {
        return Some(Refused::new(Reason::Position, row));
    }
    if !start_holds(game, rows, bound) {
        return Some(Refused::new(Reason::Start, 0));
    }
    if let Some(row) = first_bad_names(game, rows) {
        return Some(Refused::new(Reason::Cover, row));
    }
    if let Some(row) = first_bad_steps(game, rows, bound) {
        return Some(Refused::new(Reason::Step, row));
    }
    if let Some(row) = first_bad_finish(game, rows, bound) {
        return Some(Refused::new(Reason::Finish, row));
    }
    None
}

// The first row that does not come after the one before it.
fn first_fall(rows: &[CoverRow]) -> Option<u32>
    requires few { length rows.now ≤ 4294967295 }
    ensures { MatchOption result (IsRising precedes (plain_rows rows.now)) (IsFirstFall (plain_rows rows.now)) }
{
    for k in 1..rows.len() {
        let low = &rows[k - 1];
        let high = &rows[k];
        match low.position.order(&high.position) {
            Ordering::Less => {}
            Ordering::Equal => return Some(k as u32),
            Ordering::Greater => return Some(k as u32),
        }
    }
    None
}

// The first row whose position is not sound.
fn first_unsound(game: &Game, rows: &[CoverRow]) -> Option<u32>
    requires few { length rows.now ≤ 4294967295 }
    ensures { MatchOption result (EachRow (λ r. IsSound (game_of game.now) r.position) rows.now) (IsFirstWithout (λ r. IsSound (game_of game.now) r.position) rows.now) }
{
    for k in 0..rows.len() {
        let row = &rows[k];
        if !is_sound(game, &row.position) {
            return Some(k as u32);
        }
    }
    None
}

// The first row with a name that is not good.
fn first_bad_names(game: &Game, rows: &[CoverRow]) -> Option<u32>
    requires game { IsGame game.now }
    requires few { length rows.now ≤ 4294967295 }
    requires sound { EachRow (λ r. IsSound (game_of game.now) r.position) rows.now }
    ensures { MatchOption result (EachRow (NamesHold (game_of game.now) rows.now) rows.now) (IsFirstWithout (NamesHold (game_of game.now) rows.now) rows.now) }
{
    for k in 0..rows.len() {
        if !names_hold(game, rows, &rows[k]) {
            return Some(k as u32);
        }
    }
    None
}

// The first row with a step without a name that is not good.
fn first_bad_steps(game: &Game, rows: &[CoverRow], bound: u32) -> Option<u32>
    requires game { IsGame game.now }
    requires few { length rows.now ≤ 4294967295 }
    requires rise { IsRising precedes (plain_rows rows.now) }
    requires sound { EachRow (λ r. IsSound (game_of game.now) r.position) rows.now }
    ensures { MatchOption result (EachRow (StepsHold (game_of game.now) rows.now bound) rows.now) (IsFirstWithout (StepsHold (game_of game.now) rows.now bound) rows.now) }
{
    for k in 0..rows.len() {
        if !steps_hold(game, rows, bound, &rows[k]) {
            return Some(k as u32);
        }
    }
    None
}

// The first row that can finish for less than the bound.
fn first_bad_finish(game: &Game, rows: &[CoverRow], bound: u32) -> Option<u32>
    requires few { length rows.now ≤ 4294967295 }
    ensures { MatchOption result (EachRow (λ r. FinishHolds (game_of game.now) bound (plain r)) rows.now) (IsFirstWithout (λ r. FinishHolds (game_of game.now) bound (plain r)) rows.now) }
{
    for k in 0..rows.len() {
        let row = rows[k].plain();
        if !finish_holds(game, bound, &row) {
            return Some(k as u32);
        }
    }
    None
}
