//! The moves of a plan.
ghost use Rattle.std.specs.Prelude.{◌≡◌, ◌<◌, ◌≤◌, ◌++◌, length, map, IfOk, OnOk};
ghost use Rattle.comp_graph.specs.Vertices.{rising};
ghost use Rattle.comp_graph.specs.Games.{game_of};
ghost use Rattle.normal_steps.specs.Steps.{IsStep};
ghost use Rattle.normal_steps.specs.declared.step.Step.{Step};
ghost use Rattle.normal_steps.specs.PlanMoves.{step_moves, finish_moves};
ghost use Rattle.slot_alloc.specs.PlanCode.{plan_moves};

use comp_graph::{Game, NoMemory, VertexSet};
use normal_steps::{Plan, Step, after};
use pebble_rules::{Move, Position};
use std::alloc::Global;

/// The moves of a plan, in order, those of the finish at the end, or want of memory. They are a complete pebbling of the plan's cost.
pub fn plan_moves<'g>(alloc: Global, plan: &Plan<'g>) -> Result<Vec<Move>, NoMemory>
    ensures { IfOk result (λ moves. moves.items ≡ plan_moves plan.now) }
{
    let game = plan.game();
    let mut position = Position::start(game);
    let mut moves = Vec::new(alloc);
    for step in plan.steps() {
        add_step(&mut moves, game, &position, *step)?;
        position = after(game, &position, *step);
    }
    add_finish(&mut moves, game, &position)?;
    Ok(moves)
}

// The moves of a legal step.
fn add_step(
    moves: &mut Vec<Move>,
    game: &Game,
    position: &Position,
    step: Step,
) -> Result<(), NoMemory>
    requires { IsStep (game_of game.now) position.now step }
    ensures { OnOk result (moves.new.items ≡ moves.old.items ++ step_moves (game_of game.now) position.now step) }
{
    match step {
        Step::Work(v) => add_work(moves, game, position, v),
        Step::Drop(u) => {
            moves.push(Move::DropRed(u))?;
            Ok(())
        }
        Step::Spill(u) => {
            moves.push(Move::Store(u))?;
            moves.push(Move::DropRed(u))?;
            Ok(())
        }
    }
}

// A load of each predecessor that is not red, and the computation.
fn add_work(moves: &mut Vec<Move>, game: &Game, position: &Position, v: u16) -> Result<(), NoMemory>
    requires { IsStep (game_of game.now) position.now (Step.Work v) }
    ensures { OnOk result (moves.new.items ≡ moves.old.items ++ step_moves (game_of game.now) position.now (Step.Work v)) }
{
    let graph = game.graph();
    let missing = graph.preds(v).minus(&position.red);
    add_loads(moves, &missing, graph.len())?;
    moves.push(Move::Compute(v))?;
    Ok(())
}

// A store of each output that is not blue.
fn add_finish(moves: &mut Vec<Move>, game: &Game, position: &Position) -> Result<(), NoMemory>
    ensures { OnOk result (moves.new.items ≡ moves.old.items ++ finish_moves (game_of game.now) position.now) }
{
    let graph = game.graph();
    let missing = graph.out_set().minus(&position.blue);
    add_stores(moves, &missing, graph.len())
}

// A load of each member of a set of vertices below `count`, in rising number.
fn add_loads(moves: &mut Vec<Move>, vertices: &VertexSet, count: u16) -> Result<(), NoMemory>
    requires { count ≤ 256 }
    ensures { OnOk result (moves.new.items ≡ moves.old.items ++ map Move.Load (rising count vertices.now)) }
{
    for u in 0..count {
        if vertices.has(u) {
            moves.push(Move::Load(u))?;
        }
    }
    Ok(())
}

// A store of each member of a set of vertices below `count`, in rising number.
fn add_stores(moves: &mut Vec<Move>, vertices: &VertexSet, count: u16) -> Result<(), NoMemory>
    requires { count ≤ 256 }
    ensures { OnOk result (moves.new.items ≡ moves.old.items ++ map Move.Store (rising count vertices.now)) }
{
    for v in 0..count {
        if vertices.has(v) {
            moves.push(Move::Store(v))?;
        }
    }
    Ok(())
}
