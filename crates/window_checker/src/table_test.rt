//! Whether a table is valid.
ghost use Rattle.std.specs.Prelude.{◌↔◌, IsTrue};
ghost use Rattle.window_checker.specs.Readiness.{IsReady, IsValidTableIn};

use crate::row_order::{first_bad_finish, first_bad_steps, first_fall};
use crate::row_tests::start_settles;
use crate::table::Table;
use comp_graph::Game;
use window_floor::WindowFloor;
use window_steps::WindowSets;

/// Whether a table of a window is valid. It takes no memory.
pub fn is_valid_table(game: &Game, window: &WindowSets, made: &WindowFloor, table: &Table) -> bool
    requires { IsReady game.now window.now made.now }
    ensures { IsTrue result ↔ IsValidTableIn game.now window.now table.now }
{
    if let Some(_row) = first_fall(table.rows) {
        return false;
    }
    if !start_settles(game, window, made, table) {
        return false;
    }
    if let Some(_row) = first_bad_steps(game, window, made, table) {
        return false;
    }
    if let Some(_row) = first_bad_finish(game, window, table) {
        return false;
    }
    true
}
