//! Executed assignments, over operands.
ghost use Rattle.std.specs.Prelude.{◌≡◌, ◌++◌, ◌∷◌, [], Ok};
ghost use Rattle.kernel_ast.specs.Machine as machine;
ghost use Rattle.kernel_ast.specs.Steps.{each};
ghost use Rattle.kernel_walk.specs.Outcomes.{Gives, Yields};
ghost use Rattle.kernel_walk.specs.SetElements.{elements};
ghost use Rattle.loop_unroll.specs.Plays as plays;
ghost use Rattle.three_address.specs.Lowering as spec;

use crate::vertices::operate;
use comp_graph::{Node, Operand};
use kernel_ast::{Cell, RunRule};
use kernel_walk::{Stop, Written};
use loop_unroll::{Flat, Item};
use std::alloc::Global;

fn push(stack: &mut Vec<Operand>, operand: Operand) -> Result<(), Stop>
    ensures { Gives (Ok (stack.old.items ++ operand ∷ [])) stack.new.items result }
{
    stack.push(operand)?;
    Ok(())
}

fn read(
    cell: Cell,
    at: u32,
    written: &Written<Operand>,
    nodes: &mut Vec<Node>,
) -> Result<Operand, Stop>
    ensures { Yields (machine.read_option (machine.unset at) (elements written.now cell) nodes.old.items) nodes.new.items result }
{
    match written.get(cell) {
        Some(operand) => Ok(operand),
        None => Err(Stop::Fault(RunRule::Unset.at(at))),
    }
}

fn play(
    item: &Item,
    written: &Written<Operand>,
    stack: &mut Vec<Operand>,
    nodes: &mut Vec<Node>,
) -> Result<(), Stop>
    ensures { Gives (plays.play spec.lowering (elements written.now) item.now (stack.old.items, nodes.old.items)) (stack.new.items, nodes.new.items) result }
{
    match item {
        Item::Number(n) => push(stack, Operand::Const(*n)),
        Item::Read { cell, at } => {
            let operand = read(*cell, *at, written, nodes)?;
            push(stack, operand)
        }
        Item::Apply { op, at } => {
            let below = stack.len().saturating_sub(op.arity() as usize);
            let operand = operate(*op, *at, stack.as_slice().split_at(below).1, nodes)?;
            stack.truncate(below);
            push(stack, operand)
        }
    }
}

fn play_all(
    items: &[Item],
    written: &Written<Operand>,
    stack: &mut Vec<Operand>,
    nodes: &mut Vec<Node>,
) -> Result<(), Stop>
    ensures { Gives (each (plays.play spec.lowering (elements written.now)) items.now (stack.old.items, nodes.old.items)) (stack.new.items, nodes.new.items) result }
{
    for item in items {
        play(item, written, stack, nodes)?;
    }
    Ok(())
}

fn bottom(stack: &[Operand]) -> Operand
    ensures { result ≡ plays.bottom spec.lowering stack.now }
{
    match stack {
        [operand, ..] => *operand,
        [] => Operand::Const(0),
    }
}

fn put(written: &mut Written<Operand>, cell: Cell, operand: Operand) -> Result<(), Stop>
    ensures { Gives (Ok (machine.put (elements written.old) cell operand)) (elements written.new) result }
{
    written.put(cell, operand)?;
    Ok(())
}

/// Executes an assignment: goes through its right side with a stack, and sets its element.
#[tactic(auto, unfolding(loop_unroll::specs::Plays::play_flat))]
fn assignment(
    alloc: Global,
    flat: &Flat,
    written: &mut Written<Operand>,
    nodes: &mut Vec<Node>,
) -> Result<(), Stop>
    ensures { Gives (plays.play_flat spec.lowering flat.now (elements written.old, nodes.old.items)) (elements written.new, nodes.new.items) result }
{
    let mut stack = Vec::new(alloc);
    play_all(flat.items.as_slice(), written, &mut stack, nodes)?;
    put(written, flat.target, bottom(stack.as_slice()))
}

/// Executes assignments in order: sets their elements to operands, and appends the nodes of their operations.
pub fn assignments(
    alloc: Global,
    flats: &[Flat],
    written: &mut Written<Operand>,
    nodes: &mut Vec<Node>,
) -> Result<(), Stop>
    ensures { Gives (each (plays.play_flat spec.lowering) flats.now (elements written.old, nodes.old.items)) (elements written.new, nodes.new.items) result }
{
    for flat in flats {
        assignment(alloc, flat, written, nodes)?;
    }
    Ok(())
}
