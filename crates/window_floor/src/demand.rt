//! What has still to be worked on.
ghost use Rattle.std.specs.Prelude.{◌≡◌, length};
ghost use Rattle.comp_graph.specs.Graphs.{IsGraph, dag_of};
ghost use Rattle.comp_graph.specs.Games.{game_of};
ghost use Rattle.forced_bounds.specs.Floor as floors;
ghost use Rattle.window_game.specs.Windows.{IsWindow};
ghost use Rattle.window_laws.specs.Entry.{known_dag, needed_in};
ghost use Rattle.window_steps.specs.Sets.{window_of};

use crate::operands::{operands, outputs};
use comp_graph::{Game, VertexSet};
use pebble_rules::Position;
use window_steps::WindowSets;

// The needed vertices; and the wanted ones, which are these and their operands that are not red.
#[derive(Clone, Copy)]
pub(crate) struct Demand {
    pub needed: VertexSet,
    pub wanted: VertexSet,
}

// The vertices that are needed and wanted at a position. One pass from the last vertex down.
pub(crate) fn demanded(game: &Game, window: &WindowSets, position: &Position) -> Demand
    requires { IsWindow (game_of game.now) (window_of window.now) }
    ensures needed { result.needed
        ≡ needed_in (game_of game.now) (window_of window.now) position.now }
    ensures wanted { result.wanted
        ≡ floors.wanted (known_dag (game_of game.now) (window_of window.now)) position.now }
    ensures valid { IsGraph game.now.graph }
{
    let end = game.graph().len();
    let held = position.red.union(&position.blue);
    let mut needed = outputs(game, window).minus(&held);
    let mut read = VertexSet::empty();
    for v in (0..end).rev() {
        if needed.has(v) {
            let of_v = operands(game, window, v);
            needed = needed.union(&of_v.minus(&held));
            read = read.union(&of_v);
        }
    }
    let wanted = needed.union(&read.minus(&position.red));
    Demand { needed, wanted }
}
