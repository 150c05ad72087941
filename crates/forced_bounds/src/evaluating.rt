//! The floor of a position, by passes over masks in the order of numbers.
ghost use Rattle.std.specs.Prelude.{◌≡◌, ◌*◌, ◌<◌, ◌≤◌, length};
ghost use Rattle.comp_graph.specs.Graphs.{dag_of};
ghost use Rattle.comp_graph.specs.Games.{game_of};
ghost use Rattle.forced_bounds.specs.Floor as floors;

use crate::demand::wanted;
use crate::operands::{all_in, read_by, some_in};
use crate::spread::free_cone;
use comp_graph::{Game, Graph, VertexSet};
use pebble_rules::Position;

/// The floor of a position: the store weight times the outputs that are not blue, plus the load weight times the loads that are forced. No
/// play from the position that finishes costs less ([`crate::laws::floor_is_below_plays`]). It takes no memory.
pub fn floor(game: &Game, p: &Position) -> u32
    ensures value { result ≡ floors.floor (game_of game.now) p.now }
    ensures few { result ≤ 8192 }
{
    floor_below(game, p, 8193)
}

/// The floor of a position where it is below `enough`, and else a number that is at least `enough` and at most the floor: the loads are
/// counted no further than that. It takes no memory.
pub fn floor_below(game: &Game, p: &Position, enough: u32) -> u32
    ensures exact { result < enough → result ≡ floors.floor (game_of game.now) p.now }
    ensures under { result ≤ floors.floor (game_of game.now) p.now }
    ensures few { result ≤ 8192 }
{
    let graph = game.graph();
    let weights = game.weights();
    let stores = graph.out_set().minus(&p.blue).count();
    let least = weights.store as u32 * stores as u32;
    if enough <= least {
        return least;
    }
    let load = weights.load as u32;
    least + load * forced_loads(graph, p, load, enough - least) as u32
}

// How many loads are forced: the vertices are gone through in rising number, and one is taken that must become red, cannot without a
// load, and whose cone meets no cone of one that was taken. The cone of an input is the input. `computed` are the vertices so far that can become red without a load, and
// each vertex of `met` has a cone that meets one that was taken. The count stops where the loads, at `load` each, cost `enough`.
fn forced_loads(graph: &Graph, p: &Position, load: u32, enough: u32) -> u16
    requires { load ≤ 16 }
    ensures exact { load * result < enough → result ≡ length (floors.taken (dag_of graph.now) p.now (length graph.now.nodes)) }
    ensures under { result ≤ length (floors.taken (dag_of graph.now) p.now (length graph.now.nodes)) }
    ensures few { result ≤ 256 }
{
    let targets = wanted(graph, p);
    let inputs = graph.inputs();
    let mut computed = p.red;
    let mut met = VertexSet::empty();
    let mut taken: u16 = 0;
    for v in 0..targets.top {
        if enough <= load * taken as u32 {
            return taken;
        }
        if computed.has(v) {
            continue;
        }
        if v < inputs {
            if targets.vertices.has(v) {
                met = met.with(v);
                taken += 1;
            }
            continue;
        }
        let operands = read_by(graph, v);
        if all_in(operands, &computed) {
            computed = computed.with(v);
        } else if some_in(operands, &met) {
            met = met.with(v);
        } else if targets.vertices.has(v) {
            let first = graph.preds(v).minus(&computed);
            match free_cone(graph, v, &first, &computed, &met) {
                Some(cone) => {
                    met = met.union(&cone);
                    taken += 1;
                }
                None => met = met.with(v),
            }
        }
    }
    taken
}
