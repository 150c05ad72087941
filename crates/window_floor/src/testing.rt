//! Whether sets are a window of a game.
ghost use Rattle.std.specs.Prelude.{◌≡◌, ℕ, ◌↔◌, IsTrue, length};
ghost use Rattle.std.specs.FinSet as set;
ghost use Rattle.comp_graph.specs.Vertices.{◌∈◌, IsWithin, IsOutside};
ghost use Rattle.comp_graph.specs.Dags.{is_live};
ghost use Rattle.comp_graph.specs.Graphs.{dag_of};
ghost use Rattle.comp_graph.specs.Games.{game_of};
ghost use Rattle.window_game.specs.Windows.{IsWindow};
ghost use Rattle.window_steps.specs.Sets.{window_of};
ghost use Rattle.window_floor.specs.WindowTests.{AreLoads, AreRequired};

use comp_graph::Game;
use window_steps::WindowSets;

/// Whether sets are a window of a game: charged loads are of tracked operands and charged stores of tracked vertices; a required
/// vertex is live, is no input, and its store is not charged. It takes no memory.
pub fn is_window(game: &Game, window: &WindowSets) -> bool
    requires { length window.now.loads.now ≡ length game.now.graph.nodes }
    ensures { IsTrue result ↔ IsWindow (game_of game.now) (window_of window.now) }
{
    are_loads(game, window) && window.stores.within(&window.tracked) && are_required(game, window)
}

// Whether charged loads are of tracked operands.
fn are_loads(game: &Game, window: &WindowSets) -> bool
    requires { length window.now.loads.now ≡ length game.now.graph.nodes }
    ensures { IsTrue result ↔ AreLoads (game_of game.now) (window_of window.now) }
{
    for v in 0..game.graph().len() {
        let readable = game.graph().preds(v).meet(&window.tracked);
        if !window.loads[v as usize].within(&readable) {
            return false;
        }
    }
    true
}

// Whether each required vertex is live, no input, and its store is not charged.
fn are_required(game: &Game, window: &WindowSets) -> bool
    ensures { IsTrue result ↔ AreRequired (game_of game.now) (window_of window.now) }
{
    let others = game.graph().in_set().union(&window.stores);
    window.required.within(&game.graph().live().minus(&others))
}
