//! Which red pebble is removed to make room.
ghost use Rattle.std.specs.Prelude.{◌≡◌, ◌<◌, length, true, not, ◌&&◌, ◌||◌, nat_lt};
ghost use Rattle.std.specs.FinSet as set;
ghost use Rattle.comp_graph.specs.Vertices.{size, AllBelow};
ghost use Rattle.comp_graph.specs.Graphs.{dag_of};
ghost use Rattle.comp_graph.specs.Games.{game_of};
ghost use Rattle.first_plan.specs.NextUses.{next_use};
ghost use Rattle.first_plan.specs.Victims.{last_needed, removal};
ghost use Rattle.first_plan.specs.FirstPlan.{is_short};
ghost use Rattle.first_plan.specs.Ready.{IsTurn, IsReady};

use crate::uses::least_or;
use comp_graph::{Game, Graph, VertexSet};
use normal_steps::Step;
use pebble_rules::Position;

/// The turn of a vertex: the readers of each vertex, and the vertices after this one that the plan works on.
#[derive(Clone, Copy)]
pub struct Turn<'a> {
    pub vertex: u16,
    pub readers: &'a [VertexSet],
    pub ahead: VertexSet,
}

// A vertex, and its next use or the number of vertices.
#[derive(Clone, Copy)]
struct Candidate {
    vertex: u16,
    next_use: u16,
}

/// The step that removes the victim before the turn of a vertex. The victim is, of the red vertices that this one does not read, the one
/// whose next use lies furthest, where no next use is further than any, and of equally far ones the greatest. It is spilled if it is not
/// blue, and has a next use or is an output; else it is dropped. It takes no memory.
pub fn removal(game: &Game, turn: &Turn, position: &Position) -> Step
    requires turn { IsTurn (dag_of game.now.graph) turn.now.vertex turn.now.readers.now turn.now.ahead }
    requires ready { IsReady (game_of game.now) turn.now.vertex position.now }
    requires short { is_short (game_of game.now) position.now turn.now.vertex ≡ true }
    ensures { result ≡ removal (game_of game.now) position.now turn.now.vertex }
{
    let graph = game.graph();
    let spare = position.red.minus(&graph.preds(turn.vertex));
    let victim = last_needed(graph, turn, &spare);
    if is_missed(graph, position, &victim) {
        Step::Spill(victim.vertex)
    } else {
        Step::Drop(victim.vertex)
    }
}

// Whether a vertex is not blue, and has a next use or is an output.
fn is_missed(graph: &Graph, position: &Position, victim: &Candidate) -> bool
    requires { victim.now.vertex < length graph.now.nodes }
    ensures { result ≡ (not (set.contains position.now.blue victim.now.vertex) && (nat_lt victim.now.next_use (length graph.now.nodes) || set.contains (dag_of graph.now).outputs victim.now.vertex)) }
{
    let u = victim.vertex;
    let count = graph.len();
    !position.blue.has(u) && (victim.next_use < count || graph.out_set().has(u))
}

// Of the members of a set, the one whose next use lies furthest, and of equally far ones the greatest.
fn last_needed(graph: &Graph, turn: &Turn, members: &VertexSet) -> Candidate
    requires turn { IsTurn (dag_of graph.now) turn.now.vertex turn.now.readers.now turn.now.ahead }
    requires below { AllBelow (length graph.now.nodes) members.now }
    requires some { 0 < size members.now }
    ensures vertex { result.vertex ≡ last_needed (dag_of graph.now) turn.now.vertex members.now }
    ensures next_use { result.next_use ≡ next_use (dag_of graph.now) turn.now.vertex result.vertex }
    ensures member { set.contains members.now result.vertex ≡ true }
{
    let mut vertex = 0;
    let mut furthest = 0;
    for u in 0..graph.len() {
        if members.has(u) {
            let next_use = next_use(graph, turn, u);
            if furthest <= next_use {
                vertex = u;
                furthest = next_use;
            }
        }
    }
    Candidate {
        vertex,
        next_use: furthest,
    }
}

// The next use of a vertex, or the number of vertices if it has none.
fn next_use(graph: &Graph, turn: &Turn, u: u16) -> u16
    requires turn { IsTurn (dag_of graph.now) turn.now.vertex turn.now.readers.now turn.now.ahead }
    requires vertex { u < length graph.now.nodes }
    ensures { result ≡ next_use (dag_of graph.now) turn.now.vertex u }
{
    let uses = turn.readers[u as usize].meet(&turn.ahead);
    least_or(&uses, graph.len())
}
