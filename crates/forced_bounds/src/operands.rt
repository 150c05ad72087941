//! The operands of a vertex against sets. To look at them one by one is cheaper than to make the set of the predecessors.
ghost use Rattle.std.specs.Prelude.{◌≡◌, ◌<◌, length, true, false, ℕ};
ghost use Rattle.std.specs.List.{All};
ghost use Rattle.comp_graph.specs.Vertices.{◌∈◌, IsWithin, IsOutside};
ghost use Rattle.comp_graph.specs.Graphs.{IsGraph, IsOperandBelow, vertices_of, dag_of};

use comp_graph::{Graph, Operand, VertexSet};

// The operands of a vertex.
pub(crate) fn read_by(graph: &Graph, v: u16) -> &[Operand]
    requires { v < length graph.now.nodes }
    ensures preds { vertices_of result.now ≡ (dag_of graph.now).preds v }
    ensures below { All (IsOperandBelow 256) result.now }
{
    let nodes = graph.nodes();
    let node = &nodes[v as usize];
    let arity = node.op.arity();
    &node.args[..arity as usize]
}

// Whether all vertices among the operands are in the set.
pub(crate) fn all_in(operands: &[Operand], set: &VertexSet) -> bool
    requires { All (IsOperandBelow 256) operands.now }
    ensures within { result ≡ true → IsWithin (vertices_of operands.now) set.now }
    ensures outside { IsWithin (vertices_of operands.now) set.now → result ≡ true }
{
    let mut all = true;
    for operand in operands {
        if let Operand::Vertex(u) = *operand {
            all = all & set.has(u);
        }
    }
    all
}

// Whether a vertex among the operands is in the set.
pub(crate) fn some_in(operands: &[Operand], set: &VertexSet) -> bool
    requires { All (IsOperandBelow 256) operands.now }
    ensures some { result ≡ true → (u : ℕ) × (u ∈ vertices_of operands.now) × (u ∈ set.now) }
    ensures none { result ≡ false → IsOutside (vertices_of operands.now) set.now }
{
    let mut some = false;
    for operand in operands {
        if let Operand::Vertex(u) = *operand {
            some = some | set.has(u);
        }
    }
    some
}
