//! Cones that have no vertex in common.
ghost use Rattle.std.specs.Prelude.{◌≡◌, suc, ◌<◌, ◌≤◌, ◌&&◌, true, false, length, MatchOption};
ghost use Rattle.std.specs.FinSet as set;
ghost use Rattle.comp_graph.specs.Graphs.{IsGraph, dag_of};
ghost use Rattle.comp_graph.specs.Games.{game_of};
ghost use Rattle.normal_steps.specs.StepTests.{is_within};
ghost use Rattle.forced_bounds.specs.Floor.{only, meets};
ghost use Rattle.window_laws.specs.Entry.{known_dag};
ghost use Rattle.window_steps.specs.Sets.{window_of};
ghost use Rattle.window_floor.specs.Workers.{workers_of};
ghost use Rattle.window_floor.specs.GreedyCones.{free_of, cheap_at, walked_back, wanted_at, taken_cones};

use crate::operands::operands;
use comp_graph::{Game, VertexSet};
use pebble_rules::Position;
use window_steps::WindowSets;

// The tracked vertices that some Work loads without a charge.
pub(crate) fn free(game: &Game, window: &WindowSets, workers: &VertexSet) -> VertexSet
    requires loads { length window.now.loads.now ≡ length game.now.graph.nodes }
    requires workers { workers.now ≡ workers_of (game_of game.now) (window_of window.now) }
    ensures { result ≡ free_of (game_of game.now) (window_of window.now) }
{
    let mut found = VertexSet::empty();
    for v in 0..game.graph().len() {
        if workers.has(v) {
            let free = game.graph().preds(v).minus(&window.loads[v as usize]);
            found = found.union(&free);
        }
    }
    window.tracked.meet(&found)
}

// The vertices that need no charged load. One pass from the first vertex up.
pub(crate) fn cheap(
    game: &Game,
    window: &WindowSets,
    workers: &VertexSet,
    free: &VertexSet,
    position: &Position,
) -> VertexSet
    requires workers { workers.now ≡ workers_of (game_of game.now) (window_of window.now) }
    requires free { free.now ≡ free_of (game_of game.now) (window_of window.now) }
    ensures { result ≡ cheap_at (game_of game.now) (window_of window.now) position.now }
{
    let done = position.blue.minus(&window.tracked);
    let mut found = position.red.union(&done.union(free));
    for v in 0..game.graph().len() {
        if is_cheap(game, window, workers, &found, v) {
            found = found.with(v);
        }
    }
    found
}

// Whether a vertex is a worker all of whose known operands are in a set.
fn is_cheap(
    game: &Game,
    window: &WindowSets,
    workers: &VertexSet,
    found: &VertexSet,
    v: u16,
) -> bool
    requires number { v < 256 }
    requires vertex { v < length game.now.graph.nodes }
    ensures { result ≡ (set.contains workers.now v
        && is_within ((known_dag (game_of game.now) (window_of window.now)).preds v) found.now) }
{
    workers.has(v) && operands(game, window, v).minus(found).count() == 0
}

// How many cones of wanted vertices have no vertex in common.
pub(crate) fn all_cones(
    game: &Game,
    window: &WindowSets,
    position: &Position,
    wanted: &VertexSet,
    cheap: &VertexSet,
) -> u16
    requires wanted { wanted.now ≡ wanted_at (game_of game.now) (window_of window.now) position.now }
    requires cheap { cheap.now ≡ cheap_at (game_of game.now) (window_of window.now) position.now }
    ensures value { result ≡ length (taken_cones (game_of game.now) (window_of window.now)
        position.now set.empty (length game.now.graph.nodes)) }
    ensures few { result ≤ 256 }
{
    cones(game, window, position, wanted, cheap, &VertexSet::empty())
}

// How many such cones have no vertex in common with `avoid` either. `all` is their number if `avoid` has no member.
pub(crate) fn cones_apart(
    game: &Game,
    window: &WindowSets,
    position: &Position,
    wanted: &VertexSet,
    cheap: &VertexSet,
    avoid: &VertexSet,
    all: u16,
) -> u16
    requires wanted { wanted.now ≡ wanted_at (game_of game.now) (window_of window.now) position.now }
    requires cheap { cheap.now ≡ cheap_at (game_of game.now) (window_of window.now) position.now }
    requires all { all ≡ length (taken_cones (game_of game.now) (window_of window.now)
        position.now set.empty (length game.now.graph.nodes)) }
    requires few { all ≤ 256 }
    ensures value { result ≡ length (taken_cones (game_of game.now) (window_of window.now)
        position.now avoid.now (length game.now.graph.nodes)) }
    ensures few { result ≤ 256 }
{
    if avoid.least().is_none() {
        return all;
    }
    cones(game, window, position, wanted, cheap, avoid)
}

// How many cones of wanted vertices have no vertex in common with each other and with `avoid`. Each vertex of `met` has a cone with a
// vertex in `avoid` or in a cone that was counted, and all these vertices are in `met`.
fn cones(
    game: &Game,
    window: &WindowSets,
    position: &Position,
    wanted: &VertexSet,
    cheap: &VertexSet,
    avoid: &VertexSet,
) -> u16
    requires wanted { wanted.now ≡ wanted_at (game_of game.now) (window_of window.now) position.now }
    requires cheap { cheap.now ≡ cheap_at (game_of game.now) (window_of window.now) position.now }
    ensures value { result ≡ length (taken_cones (game_of game.now) (window_of window.now)
        position.now avoid.now (length game.now.graph.nodes)) }
    ensures few { result ≤ 256 }
{
    let mut met = *avoid;
    let mut count: u16 = 0;
    for v in 0..game.graph().len() {
        if wanted.has(v) {
            match free_cone(game, window, cheap, &met, v) {
                Some(cone) => {
                    met = met.union(&cone);
                    count += 1;
                }
                None => met = met.with(v),
            }
        }
    }
    count
}

// The walk back from a vertex outside the cheap vertices, or None if it comes to a vertex that is met.
fn free_cone(
    game: &Game,
    window: &WindowSets,
    cheap: &VertexSet,
    met: &VertexSet,
    v: u16,
) -> Option<VertexSet>
    requires graph { IsGraph game.now.graph }
    requires number { v < 256 }
    requires vertex { v < length game.now.graph.nodes }
    ensures { let cone =
        walked_back (game_of game.now) (window_of window.now) cheap.now (suc v) (only v) in
        MatchOption result (meets cone met.now ≡ true)
        (λ found. (found ≡ cone) × (meets cone met.now ≡ false)) }
{
    let first = operands(game, window, v).minus(cheap).with(v);
    if meets(&first, met) {
        return None;
    }
    let cone = cone(game, window, cheap, v);
    if meets(&cone, met) {
        return None;
    }
    Some(cone)
}

// The walk back from a vertex outside the cheap vertices.
fn cone(game: &Game, window: &WindowSets, cheap: &VertexSet, v: u16) -> VertexSet
    requires number { v < 256 }
    requires vertex { v < length game.now.graph.nodes }
    ensures { result
        ≡ walked_back (game_of game.now) (window_of window.now) cheap.now (suc v) (only v) }
{
    let mut found = VertexSet::empty().with(v);
    for u in (0..v + 1).rev() {
        if found.has(u) {
            found = found.union(&operands(game, window, u).minus(cheap));
        }
    }
    found
}

// Whether two sets have a common member.
fn meets(some: &VertexSet, others: &VertexSet) -> bool
    ensures { result ≡ meets some.now others.now }
{
    some.meet(others).count() != 0
}
