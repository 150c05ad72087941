//! The code of a plan, by the code of its moves.
ghost use Rattle.std.specs.Prelude.{◌≡◌, ◌<◌, ◌≤◌, IfOk};
ghost use Rattle.scratch_machine.specs.CodePlays.{CodePlays};
ghost use Rattle.slot_alloc.specs.Emitted.{code_of};
ghost use Rattle.slot_alloc.specs.PlanCode.{plan_code, plan_moves, CanBeEmitted, IsPlanCode};

use crate::emitter::Emitter;
use crate::moves::plan_moves;
use comp_graph::{Graph, Label, NoMemory};
use normal_steps::Plan;
use pebble_rules::Move;
use scratch_machine::Code;
use std::alloc::Global;

/// The code of a plan, with as many slots as its game has. Input k stands in word k, and each further vertex that is stored takes the
/// next word. A pebble that is placed takes the lowest free slot. `Work(v)` is a load of each missing predecessor in rising number and
/// then the operation of v, `Drop(u)` is no instruction, `Spill(u)` is a store of u, and the finish is a store of each output vertex that
/// is not blue, in rising number. The slot of a vertex that is dropped or spilled is free again. So its runs give the graph's outputs, and
/// the load weight times their loads plus the store weight times their stores is what the plan costs. [`NoMemory`] comes where memory was
/// wanted and not found.
pub fn emit<'g>(alloc: Global, plan: &Plan<'g>) -> Result<Code, NoMemory>
    ensures value { IfOk result (λ code. code ≡ plan_code plan.now) }
    ensures plays { IfOk result (λ code. CodePlays plan.now.game.graph code (plan_moves plan.now)) }
    ensures right { IfOk result (λ code. IsPlanCode plan.now) }
{
    let game = plan.game();
    let moves = plan_moves(alloc, plan)?;
    code_of_moves(alloc, game.graph(), game.slots(), &moves)
}

// The code that plays these moves with this many slots, from 1 to 64. The moves are a complete pebbling from the start that places no
// pebble where one of its colour stands and takes no blue one away.
fn code_of_moves(alloc: Global, graph: &Graph, slots: u16, moves: &[Move]) -> Result<Code, NoMemory>
    requires some { 0 < slots }
    requires few { slots ≤ 64 }
    requires moves { CanBeEmitted graph.now slots moves.now }
    ensures { IfOk result (λ code. code ≡ code_of graph.now slots moves.now) }
{
    let _valid = graph.len();
    let mut emitter = Emitter::begin(alloc, graph, slots);
    for mv in moves {
        emitter.play(graph, *mv)?;
    }
    let inputs = copied(alloc, graph.names())?;
    let outputs = emitter.output_words(alloc, graph.outputs())?;
    let words = emitter.words;
    Ok(Code::new(slots, words, inputs, outputs, emitter.instructions))
}

// Second labels of the same bytes.
fn copied(alloc: Global, labels: &[Label]) -> Result<Vec<Label>, NoMemory>
    ensures { IfOk result (λ copies. copies.items ≡ labels.now) }
{
    let mut copies = Vec::new(alloc);
    for label in labels {
        copies.push(label.copy(alloc)?)?;
    }
    Ok(copies)
}
