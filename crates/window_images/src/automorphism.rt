//! The test of an automorphism of a window.
ghost use Rattle.std.specs.Prelude.{◌≡◌, ℕ, ◌<◌, ◌↔◌, IsTrue, length};
ghost use Rattle.std.specs.FinSet as set;
ghost use Rattle.comp_graph.specs.Vertices.{◌∈◌, size};
ghost use Rattle.comp_graph.specs.Graphs.{dag_of};
ghost use Rattle.comp_graph.specs.Games.{game_of};
ghost use Rattle.window_game.specs.Windows.{known};
ghost use Rattle.window_laws.specs.Entry.{held_for};
ghost use Rattle.window_laws.specs.Images.{IsImage, IsAutomorphism, AreAutomorphisms};
ghost use Rattle.window_steps.specs.Sets.{window_of};
ghost use Rattle.window_floor.specs.Workers.{AreWorkers};
ghost use Rattle.window_images.specs.Permutations.{renaming, renamings};
ghost use Rattle.window_images.specs.Automorphisms.{KeepsSets, IsLike, KeepsWork};

use crate::permutation::Permutation;
use comp_graph::{Game, VertexSet};
use window_steps::WindowSets;

/// Whether each of some permutations is an automorphism of a window, whose workers are given. It takes no memory.
pub fn are_automorphisms(
    game: &Game,
    window: &WindowSets,
    workers: &VertexSet,
    permutations: &[Permutation],
) -> bool
    requires loads { length window.now.loads.now ≡ length game.now.graph.nodes }
    requires workers { AreWorkers (game_of game.now) (window_of window.now) workers.now }
    ensures { IsTrue result ↔ AreAutomorphisms (game_of game.now) (window_of window.now) (renamings permutations.now) }
{
    for permutation in permutations {
        if !is_automorphism(game, window, workers, permutation) {
            return false;
        }
    }
    true
}

/// Whether a permutation is an automorphism of a window, whose workers are given. It takes no memory.
pub fn is_automorphism(
    game: &Game,
    window: &WindowSets,
    workers: &VertexSet,
    permutation: &Permutation,
) -> bool
    requires loads { length window.now.loads.now ≡ length game.now.graph.nodes }
    requires workers { AreWorkers (game_of game.now) (window_of window.now) workers.now }
    ensures { IsTrue result ↔ IsAutomorphism (game_of game.now) (window_of window.now) (renaming permutation.now) }
{
    prove!(permutation.there(0) < 256);
    keeps_sets(game, window, permutation) && keeps_workers(game, window, workers, permutation)
}

// Whether a permutation takes each set of the window to itself.
fn keeps_sets(game: &Game, window: &WindowSets, permutation: &Permutation) -> bool
    ensures { IsTrue result ↔ KeepsSets (game_of game.now) (window_of window.now) (renaming permutation.now) }
{
    let inputs = game.graph().in_set().meet(&window.tracked);
    let outputs = game.graph().out_set().meet(&window.tracked);
    takes(permutation, &window.tracked, &window.tracked)
        && takes(permutation, &window.required, &window.required)
        && takes(permutation, &window.stores, &window.stores)
        && takes(permutation, &inputs, &inputs)
        && takes(permutation, &outputs, &outputs)
}

// Whether a permutation takes each worker to a worker that is its image.
fn keeps_workers(
    game: &Game,
    window: &WindowSets,
    workers: &VertexSet,
    permutation: &Permutation,
) -> bool
    requires loads { length window.now.loads.now ≡ length game.now.graph.nodes }
    requires workers { AreWorkers (game_of game.now) (window_of window.now) workers.now }
    ensures { IsTrue result ↔ ((v : ℕ) → v ∈ workers.now
        → KeepsWork (game_of game.now) (window_of window.now) workers.now (renaming permutation.now) v) }
{
    for v in 0..game.graph().len() {
        if workers.has(v) && !keeps_work(game, window, workers, permutation, v) {
            return false;
        }
    }
    true
}

// Whether a permutation takes a vertex to a worker that is its image.
fn keeps_work(
    game: &Game,
    window: &WindowSets,
    workers: &VertexSet,
    permutation: &Permutation,
    v: u16,
) -> bool
    requires vertex { v < length game.now.graph.nodes }
    requires loads { length window.now.loads.now ≡ length game.now.graph.nodes }
    requires workers { AreWorkers (game_of game.now) (window_of window.now) workers.now }
    ensures { IsTrue result
        ↔ KeepsWork (game_of game.now) (window_of window.now) workers.now (renaming permutation.now) v }
{
    prove!(game.graph().len() <= 256);
    let image = permutation.there(v);
    workers.has(image) && is_like(game, window, permutation, v, image)
}

// Whether a permutation takes the operands and the charged loads of a vertex to those of another, which has as many operands that are
// not tracked.
fn is_like(game: &Game, window: &WindowSets, permutation: &Permutation, v: u16, image: u16) -> bool
    requires vertex { v < length game.now.graph.nodes }
    requires image { image < length game.now.graph.nodes }
    requires loads { length window.now.loads.now ≡ length game.now.graph.nodes }
    ensures { IsTrue result ↔ IsLike (game_of game.now) (window_of window.now) (renaming permutation.now) v image }
{
    rest(game, window, image) == rest(game, window, v)
        && takes(
            permutation,
            &operands(game, window, v),
            &operands(game, window, image),
        )
        && takes(permutation, &charged(window, v), &charged(window, image))
}

// The operands of a vertex that can have a pebble.
fn operands(game: &Game, window: &WindowSets, v: u16) -> VertexSet
    requires { v < length game.now.graph.nodes }
    ensures { result ≡ set.intersection ((game_of game.now).dag.preds v) (known (window_of window.now)) }
{
    let known = window.tracked.union(&window.required);
    game.graph().preds(v).meet(&known)
}

// The operands of a vertex whose load is charged.
fn charged(window: &WindowSets, v: u16) -> VertexSet
    requires { v < length window.now.loads.now }
    ensures { result ≡ (window_of window.now).loads v }
{
    window.loads[v as usize]
}

// How many vertices that are not tracked are among a vertex and its operands.
fn rest(game: &Game, window: &WindowSets, v: u16) -> u16
    requires { v < length game.now.graph.nodes }
    ensures { result ≡ size (set.difference (held_for (game_of game.now) v) (window_of window.now).tracked) }
{
    let held = game.graph().preds(v).with(v);
    held.minus(&window.tracked).count()
}

// Whether a permutation takes a set to another.
fn takes(permutation: &Permutation, from: &VertexSet, to: &VertexSet) -> bool
    ensures { IsTrue result ↔ IsImage (renaming permutation.now) from.now to.now }
{
    permutation.image(from) == *to
}
