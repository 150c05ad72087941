//! The vertices whose Works a window can show.
ghost use Rattle.std.specs.Prelude.{◌≡◌, ◌<◌, length};
ghost use Rattle.comp_graph.specs.Vertices.{AllBelow};
ghost use Rattle.comp_graph.specs.Dags.{is_live};
ghost use Rattle.comp_graph.specs.Graphs.{dag_of};
ghost use Rattle.comp_graph.specs.Games.{game_of};
ghost use Rattle.window_game.specs.Windows.{sees};
ghost use Rattle.window_laws.specs.Entry.{held_for};
ghost use Rattle.window_steps.specs.Sets.{window_of};
ghost use Rattle.window_floor.specs.Workers.{AreWorkers, is_worker, workers_of};

use comp_graph::{Game, VertexSet};
use window_steps::WindowSets;

/// The vertices whose Works a window can show. It takes no memory.
pub fn workers(game: &Game, window: &WindowSets) -> VertexSet
    ensures exact { AreWorkers (game_of game.now) (window_of window.now) result }
    ensures value { result ≡ workers_of (game_of game.now) (window_of window.now) }
    ensures bounded { AllBelow 256 result }
{
    let mut found = VertexSet::empty();
    for v in 0..game.graph().len() {
        if is_worker(game, window, v) {
            found = found.with(v);
        }
    }
    found
}

// Whether the window can show a Work of a vertex.
fn is_worker(game: &Game, window: &WindowSets, v: u16) -> bool
    requires { v < length game.now.graph.nodes }
    ensures { result ≡ is_worker (game_of game.now) (window_of window.now) v }
{
    sees(game, window, v)
        && is_live(game, v)
        && !game.graph().in_set().has(v)
        && held_for(game, v).count() <= game.slots()
}

// Whether the window sees the Work of a vertex.
fn sees(game: &Game, window: &WindowSets, v: u16) -> bool
    requires { v < length game.now.graph.nodes }
    ensures { result ≡ sees (game_of game.now) (window_of window.now) v }
{
    let operands = game.graph().preds(v).meet(&window.tracked);
    window.tracked.union(&window.required).has(v) || 0 < operands.count()
}

// Whether a vertex is live.
fn is_live(game: &Game, v: u16) -> bool
    requires { v < length game.now.graph.nodes }
    ensures { result ≡ is_live (game_of game.now).dag v }
{
    game.graph().live().has(v)
}

// The vertex and its operands.
pub(crate) fn held_for(game: &Game, v: u16) -> VertexSet
    requires { v < length game.now.graph.nodes }
    ensures { result ≡ held_for (game_of game.now) v }
{
    game.graph().preds(v).with(v)
}
