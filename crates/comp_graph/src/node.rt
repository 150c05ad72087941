//! The parts of a graph: operands, nodes and output elements.
use crate::label::Label;
use crate::operation::Op;

/// An operand of a vertex: an earlier vertex, or a constant.
#[derive(Clone, Copy)]
pub enum Operand {
    Vertex(u16),
    Const(i64),
}

/// A vertex: its operation and its operands. The operation takes the first `op.arity()` places, and the places from there on
/// hold `Const(0)`.
#[derive(Clone, Copy)]
pub struct Node {
    pub op: Op,
    pub args: [Operand; 3],
}

/// An output element of the program, and the vertex whose value it is.
#[derive(Drop)]
pub struct Output {
    pub label: Label,
    pub vertex: u16,
}
