//! The first row of a table that fails a test.
ghost use Rattle.std.specs.Prelude.{MatchOption};
ghost use Rattle.potential_cert.specs.Table.{IsRising};
ghost use Rattle.potential_cert.specs.Order.{precedes};
ghost use Rattle.cert_checker.specs.Refusals.{EachRow, IsFirstWithout, IsFirstFall};
ghost use Rattle.window_checker.specs.Readiness.{IsReady, StepsSettleIn, FinishReachesIn};

use crate::row_tests::{finish_reaches, steps_settle};
use crate::table::Table;
use comp_graph::Game;
use potential_cert::Row;
use std::cmp::Ordering;
use window_floor::WindowFloor;
use window_steps::WindowSets;

// The first row that does not come after the one before it.
pub(crate) fn first_fall(rows: &[Row]) -> Option<usize>
    ensures { MatchOption result (IsRising precedes rows.now) (IsFirstFall rows.now) }
{
    for k in 1..rows.len() {
        let low = &rows[k - 1];
        let high = &rows[k];
        match low.position.order(&high.position) {
            Ordering::Less => {}
            Ordering::Equal => return Some(k),
            Ordering::Greater => return Some(k),
        }
    }
    None
}

// The first row with a legal step that leads to a position that is not settled.
pub(crate) fn first_bad_steps(
    game: &Game,
    window: &WindowSets,
    made: &WindowFloor,
    table: &Table,
) -> Option<usize>
    requires ready { IsReady game.now window.now made.now }
    requires rise { IsRising precedes table.now.rows.now }
    ensures { MatchOption result (EachRow (StepsSettleIn game.now window.now table.now) table.now.rows.now)
        (IsFirstWithout (StepsSettleIn game.now window.now table.now) table.now.rows.now) }
{
    let rows = table.rows;
    for k in 0..rows.len() {
        if !steps_settle(game, window, made, table, &rows[k]) {
            return Some(k);
        }
    }
    None
}

// The first row at which a play can finish for less than the bound.
pub(crate) fn first_bad_finish(game: &Game, window: &WindowSets, table: &Table) -> Option<usize>
    ensures { MatchOption result (EachRow (FinishReachesIn game.now window.now table.now) table.now.rows.now)
        (IsFirstWithout (FinishReachesIn game.now window.now table.now) table.now.rows.now) }
{
    let rows = table.rows;
    for k in 0..rows.len() {
        if !finish_reaches(game, window, table, &rows[k]) {
            return Some(k);
        }
    }
    None
}
