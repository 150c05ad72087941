//! The steps of the first plan.
ghost use Rattle.std.specs.Prelude.{◌≡◌, ◌<◌, ◌++◌, length, IfOk, OnOk};
ghost use Rattle.comp_graph.specs.Graphs.{dag_of};
ghost use Rattle.comp_graph.specs.Games.{game_of, IsGame};
ghost use Rattle.pebble_rules.specs.Rules.{start};
ghost use Rattle.normal_steps.specs.Steps.{play_after, total_cost};
ghost use Rattle.normal_steps.specs.Plans.{IsPlan};
ghost use Rattle.first_plan.specs.FirstPlan.{is_short, room_steps, turn_steps, first_steps};
ghost use Rattle.first_plan.specs.Ready.{IsTurn, IsReady};

use crate::uses::{all_readers, wanted_vertices};
use crate::victims::{Turn, removal};
use comp_graph::{Game, NoMemory};
use normal_steps::{Plan, Step, after};
use pebble_rules::Position;
use std::alloc::Global;

/// The first plan of a game, with its cost. The live vertices that are no inputs are worked on in rising number. Before each, while the red
/// vertices, its predecessors and itself are more than the slots, a victim is removed: of the red vertices that are no predecessors of it,
/// the one whose next use among the vertices still to be worked on lies furthest, where no next use is further than any, and of equally far
/// ones the greatest. It is spilled if it is not blue, and has a next use or is an output; else it is dropped. At the end the play finishes,
/// and the finish is counted. `NoMemory` may come at any allocation.
pub fn first<'g>(alloc: Global, game: &'g Game) -> Result<Plan<'g>, NoMemory>
    ensures valid { IfOk result IsPlan }
    ensures game { IfOk result (λ plan. plan.game ≡ game.now) }
    ensures steps { IfOk result (λ plan. plan.steps ≡ first_steps (game_of game.now)) }
    ensures total { IfOk result (λ plan. plan.total ≡ total_cost (game_of game.now) (start (game_of game.now)) (first_steps (game_of game.now))) }
{
    let steps = all_steps(alloc, game)?;
    Ok(Plan::new(game, steps).unwrap())
}

// The steps of the first plan.
fn all_steps(alloc: Global, game: &Game) -> Result<Vec<Step>, NoMemory>
    ensures steps { IfOk result (λ steps. steps.items ≡ first_steps (game_of game.now)) }
    ensures valid { IsGame game.now }
{
    let graph = game.graph();
    let readers = all_readers(alloc, graph)?;
    let mut ahead = wanted_vertices(graph);
    let mut position = Position::start(game);
    let mut steps = Vec::new(alloc);
    for v in 0..graph.len() {
        if ahead.has(v) {
            ahead = ahead.without(v);
            let turn = Turn {
                vertex: v,
                readers: &readers,
                ahead,
            };
            position = take_turn(game, &turn, position, &mut steps)?;
        }
    }
    Ok(steps)
}

// Makes room for the vertex of a turn and works on it. Answers the position after that.
fn take_turn(
    game: &Game,
    turn: &Turn,
    position: Position,
    steps: &mut Vec<Step>,
) -> Result<Position, NoMemory>
    requires valid { IsGame game.now }
    requires turn { IsTurn (dag_of game.now.graph) turn.now.vertex turn.now.readers.now turn.now.ahead }
    requires ready { IsReady (game_of game.now) turn.now.vertex position }
    ensures steps { OnOk result (steps.new.items ≡ steps.old.items ++ turn_steps (game_of game.now) turn.now.vertex position) }
    ensures position { IfOk result (λ after. after ≡ play_after (game_of game.now) position (turn_steps (game_of game.now) turn.now.vertex position)) }
{
    let position = make_room(game, turn, position, steps)?;
    let work = Step::Work(turn.vertex);
    steps.push(work)?;
    Ok(after(game, &position, work))
}

// Removes victims until the slots are enough for the vertex of a turn. Answers the position after that.
fn make_room(
    game: &Game,
    turn: &Turn,
    position: Position,
    steps: &mut Vec<Step>,
) -> Result<Position, NoMemory>
    requires valid { IsGame game.now }
    requires turn { IsTurn (dag_of game.now.graph) turn.now.vertex turn.now.readers.now turn.now.ahead }
    requires ready { IsReady (game_of game.now) turn.now.vertex position }
    ensures steps { OnOk result (steps.new.items ≡ steps.old.items ++ room_steps (game_of game.now) turn.now.vertex position) }
    ensures position { IfOk result (λ after. after ≡ play_after (game_of game.now) position (room_steps (game_of game.now) turn.now.vertex position)) }
{
    let mut position = position;
    while is_short(game, turn.vertex, &position) {
        let step = removal(game, turn, &position);
        steps.push(step)?;
        position = after(game, &position, step);
    }
    Ok(position)
}

// Whether the red vertices, the predecessors of v and v are more than the slots.
fn is_short(game: &Game, v: u16, position: &Position) -> bool
    requires { v < length game.now.graph.nodes }
    ensures { result ≡ is_short (game_of game.now) position.now v }
{
    let worked = position.red.union(&game.graph().preds(v)).with(v);
    game.slots() < worked.count()
}
