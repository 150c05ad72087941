//! One normal step, and the finish of a play.
ghost use Rattle.std.specs.Prelude.{◌≡◌, ◌+◌, ◌<◌, length, IsTrue, ◌↔◌, IfNone, IfSome};
ghost use Rattle.std.specs.FinSet as set;
ghost use Rattle.comp_graph.specs.Vertices.{AllBelow, size};
ghost use Rattle.comp_graph.specs.Dags.{degree, live_of};
ghost use Rattle.comp_graph.specs.Graphs.{dag_of};
ghost use Rattle.comp_graph.specs.Games.{game_of};
ghost use Rattle.normal_steps.specs.Steps.{CanWork, IsStep, stepped, step_cost, CanFinish, finish_cost};
ghost use Rattle.normal_steps.specs.Plans.{HasBareOutput};

use crate::step::Step;
use comp_graph::{Game, VertexSet};
use pebble_rules::Position;

/// Whether a step is legal at a position. `Work(v)` is where v is live, no input and not red, its predecessors all have a pebble, and the
/// red vertices, the predecessors and v are no more than the slots. `Drop(u)` is where u is red, and the number of red vertices plus the
/// degree plus 1 is above the number of slots. `Spill(u)` is as `Drop(u)`, and u is not blue. It takes no memory.
pub fn legal(game: &Game, position: &Position, step: Step) -> bool
    ensures { IsTrue result ↔ IsStep (game_of game.now) position.now step }
{
    match step {
        Step::Work(v) => v < game.graph().len()
            && is_workable(game, position, &game.graph().live(), v),
        Step::Drop(u) => is_crowded(game, position) && is_member(&position.red, u),
        Step::Spill(u) => is_crowded(game, position)
            && is_member(&position.red, u)
            && !is_member(&position.blue, u),
    }
}

// Whether Work is legal for a vertex, where the live vertices are known.
pub(crate) fn is_workable(game: &Game, position: &Position, live: &VertexSet, v: u16) -> bool
    requires vertex { v < length game.now.graph.nodes }
    requires live { live.now ≡ live_of (dag_of game.now.graph) }
    ensures { IsTrue result ↔ CanWork (game_of game.now) position.now v }
{
    let graph = game.graph();
    if v < graph.inputs() || !live.has(v) || position.red.has(v) {
        return false;
    }
    let preds = graph.preds(v);
    if !preds.within(&position.red.union(&position.blue)) {
        return false;
    }
    let worked = position.red.union(&preds).with(v);
    worked.count() <= game.slots()
}

// Whether some Work could lack a slot.
pub(crate) fn is_crowded(game: &Game, position: &Position) -> bool
    ensures crowded { IsTrue result ↔ (game.now.slots < size position.now.red + degree (dag_of game.now.graph) + 1) }
    ensures bounded { AllBelow 256 position.now.red }
{
    game.slots() < position.red.count() + game.graph().degree() + 1
}

// Whether a number is in a set.
fn is_member(vertices: &VertexSet, v: u16) -> bool
    ensures { result ≡ set.contains vertices.now v }
{
    prove!(vertices.count() <= 256);
    v < 256 && vertices.has(v)
}

/// The position after a legal step: after `Work(v)` the predecessors of v and v are red too, after `Drop(u)` u is no longer red, and after
/// `Spill(u)` it is blue in place of red. It takes no memory.
pub fn after(game: &Game, position: &Position, step: Step) -> Position
    requires { IsStep (game_of game.now) position.now step }
    ensures { result ≡ stepped (game_of game.now) position.now step }
{
    let Position { red, blue } = *position;
    prove!(red.count() <= 256);
    match step {
        Step::Work(v) => Position {
            red: red.union(&game.graph().preds(v)).with(v),
            blue,
        },
        Step::Drop(u) => Position {
            red: red.without(u),
            blue,
        },
        Step::Spill(u) => Position {
            red: red.without(u),
            blue: blue.with(u),
        },
    }
}

/// What a legal step costs by the game's weights: `Work(v)` a load of each predecessor of v that is not red, `Drop(u)` nothing, and
/// `Spill(u)` a store. It takes no memory.
pub fn cost(game: &Game, position: &Position, step: Step) -> u32
    requires { IsStep (game_of game.now) position.now step }
    ensures { result ≡ step_cost (game_of game.now) position.now step }
{
    let weights = game.weights();
    match step {
        Step::Work(v) => {
            let missing = game.graph().preds(v).minus(&position.red);
            u32::from(weights.load) * u32::from(missing.count())
        }
        Step::Drop(_) => 0,
        Step::Spill(_) => u32::from(weights.store),
    }
}

/// What it costs to finish at a position, by the game's weights: a store of each output that is not blue. None comes exactly where some output has neither
/// pebble, so that a play cannot finish there. It takes no memory.
pub fn finish(game: &Game, position: &Position) -> Option<u32>
    ensures bare { IfNone result (HasBareOutput (game_of game.now) position.now) }
    ensures finishes { IfSome result (λ cost. CanFinish (game_of game.now) position.now) }
    ensures cost { IfSome result (λ cost. cost ≡ finish_cost (game_of game.now) position.now) }
{
    let outputs = game.graph().out_set();
    let bare = outputs.minus(&position.red.union(&position.blue));
    match bare.least() {
        Some(_) => None,
        None => {
            let missing = outputs.minus(&position.blue);
            Some(u32::from(game.weights().store) * u32::from(missing.count()))
        }
    }
}
