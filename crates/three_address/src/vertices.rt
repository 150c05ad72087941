//! The vertices of a graph that is made.
ghost use Rattle.std.specs.Prelude.{◌≡◌, map, pos, slice_index_or};
ghost use Rattle.kernel_walk.specs.Outcomes.{Yields};
ghost use Rattle.three_address.specs.Lowering as spec;

use comp_graph::{Node, Op, Operand};
use kernel_ast::{MAX_VERTICES, RunRule};
use kernel_walk::Stop;

fn operand_at(args: &[Operand], k: usize) -> Operand
    ensures { result ≡ spec.operand_at args.now k }
{
    match args.get(k) {
        Some(operand) => *operand,
        None => Operand::Const(0),
    }
}

/// Appends the node of an operation, which is a new vertex. Its place in the text is `at`.
fn append_node(at: u32, op: Op, args: &[Operand], nodes: &mut Vec<Node>) -> Result<Operand, Stop>
    ensures { Yields (spec.append_node at op args.now nodes.old.items) nodes.new.items result }
{
    let vertex = nodes.len();
    if vertex >= MAX_VERTICES as usize {
        return Err(Stop::Fault(RunRule::TooManyVertices.at(at)));
    }
    let args = [
        operand_at(args, 0),
        operand_at(args, 1),
        operand_at(args, 2),
    ];
    nodes.push(Node { op, args })?;
    Ok(Operand::Vertex(vertex as u16))
}

fn are_constants(args: &[Operand]) -> bool
    ensures { result ≡ spec.are_constants args.now }
{
    for arg in args {
        if let Operand::Vertex(_) = arg {
            return false;
        }
    }
    true
}

fn number_at(args: &[Operand], k: usize) -> i64
    ensures { result ≡ slice_index_or (map spec.number_of args.now) k (pos 0) }
{
    match args.get(k) {
        Some(Operand::Const(n)) => *n,
        _ => 0,
    }
}

/// The value of an operation on constants. An input, which no kernel's text can write, counts as 0.
fn folded_value(op: Op, args: &[Operand]) -> i64
    ensures { result ≡ spec.folded_value op args.now }
{
    let numbers = [number_at(args, 0), number_at(args, 1), number_at(args, 2)];
    match op {
        Op::Input => 0,
        _ => op.value(numbers),
    }
}

/// What an operation makes of its operands: a constant where all of them are, and else a new vertex.
pub fn operate(op: Op, at: u32, args: &[Operand], nodes: &mut Vec<Node>) -> Result<Operand, Stop>
    ensures { Yields (spec.operate op at args.now nodes.old.items) nodes.new.items result }
{
    if are_constants(args) {
        Ok(Operand::Const(folded_value(op, args)))
    } else {
        append_node(at, op, args, nodes)
    }
}

/// The vertex of an output element. A constant gets one of its own.
pub fn settle(at: u32, origin: Operand, nodes: &mut Vec<Node>) -> Result<Operand, Stop>
    ensures { Yields (spec.settle at origin nodes.old.items) nodes.new.items result }
{
    match origin {
        Operand::Vertex(_) => Ok(origin),
        Operand::Const(_) => append_node(at, Op::Set, &[origin], nodes),
    }
}

/// The vertex of an input element.
pub fn input_node(at: u32, nodes: &mut Vec<Node>) -> Result<Operand, Stop>
    ensures { Yields (spec.input_node at nodes.old.items) nodes.new.items result }
{
    append_node(at, Op::Input, &[], nodes)
}
