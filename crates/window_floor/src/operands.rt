//! What a window knows of the graph.
ghost use Rattle.std.specs.Prelude.{◌≡◌, ◌<◌, length};
ghost use Rattle.comp_graph.specs.Graphs.{dag_of};
ghost use Rattle.comp_graph.specs.Games.{game_of};
ghost use Rattle.window_laws.specs.Entry.{known_dag};
ghost use Rattle.window_steps.specs.Sets.{window_of};

use comp_graph::{Game, VertexSet};
use window_steps::WindowSets;

// The operands of a vertex that can have a pebble.
pub(crate) fn operands(game: &Game, window: &WindowSets, v: u16) -> VertexSet
    requires { v < length game.now.graph.nodes }
    ensures { result ≡ (known_dag (game_of game.now) (window_of window.now)).preds v }
{
    let known = window.tracked.union(&window.required);
    game.graph().preds(v).meet(&known)
}

// The outputs whose pebbles are tracked and the required vertices.
pub(crate) fn outputs(game: &Game, window: &WindowSets) -> VertexSet
    ensures { result ≡ (known_dag (game_of game.now) (window_of window.now)).outputs }
{
    game.graph()
        .out_set()
        .meet(&window.tracked)
        .union(&window.required)
}
