//! The lists of a graph, and what they give.
ghost use Rattle.std.specs.Prelude.{◌≡◌, ℕ, ◌<◌, ◌≤◌, length};
ghost use Rattle.std.specs.FinSet as set;
ghost use Rattle.comp_graph.specs.Dags.{live_of, degree};
ghost use Rattle.comp_graph.specs.Graphs.{GraphParts, IsGraph, dag_of, vertices_of, IsOperandBelow};
ghost use Rattle.comp_graph.specs.Kept.{AreNear};
ghost use Rattle.std.specs.List.{All};

use crate::label::Label;
use crate::node::{Node, Operand, Output};
use crate::vertex_set::VertexSet;
use std::marker::Model;

/// The program's title, the nodes, the labels of the inputs, and the output elements of a graph. Contracts see them as a record of lists.
/// Each call but the accessors goes over the lists anew.
#[derive(Drop)]
pub(crate) struct GraphLists {
    title: Label,
    nodes: Vec<Node>,
    names: Vec<Label>,
    outputs: Vec<Output>,
}

impl Model for GraphLists {
    ghost use Rattle.comp_graph.specs.Graphs.{GraphParts, IsGraph};

    ghost Value = { GraphParts };

    ghost use Rattle.comp_graph.specs.GraphView.{parts};

    ghost view = { parts };

    ghost invariant = { λ a. IsGraph (parts a) };
}

impl GraphLists {
    /// The graph of these parts: at most 256 nodes; the first `names.len()` nodes and no others have operation `Input`; an
    /// operand is a constant or a vertex below its own; a `Set` has a constant; each output names a vertex.
    pub(crate) fn new(
        title: Label,
        nodes: Vec<Node>,
        names: Vec<Label>,
        outputs: Vec<Output>,
    ) -> GraphLists
        requires { IsGraph (record { title = title; nodes = nodes.items; names = names.items; outputs = outputs.items }) }
        ensures { result ≡ record { title = title; nodes = nodes.items; names = names.items; outputs = outputs.items } }
    {
        GraphLists {
            title,
            nodes,
            names,
            outputs,
        }
    }

    /// The name of the program.
    pub(crate) fn title(&self) -> &Label
        ensures { result.now ≡ self.now.title }
    {
        &self.title
    }

    /// The vertices in rising number.
    pub(crate) fn nodes(&self) -> &[Node]
        ensures value { result.now ≡ self.now.nodes }
        ensures valid { IsGraph self.now }
    {
        &self.nodes
    }

    /// The labels of the inputs: the k-th is that of vertex k.
    pub(crate) fn names(&self) -> &[Label]
        ensures { result.now ≡ self.now.names }
    {
        &self.names
    }

    /// The output elements in order of declaration.
    pub(crate) fn outputs(&self) -> &[Output]
        ensures { result.now ≡ self.now.outputs }
    {
        &self.outputs
    }

    /// The number of vertices, from 0 to 256: they are the numbers below it.
    pub(crate) fn len(&self) -> u16
        ensures value { result ≡ length self.now.nodes }
        ensures valid { IsGraph self.now }
    {
        self.nodes.len() as u16
    }

    /// The number of inputs: they are the vertices below it.
    pub(crate) fn inputs(&self) -> u16
        ensures value { result ≡ length self.now.names }
        ensures valid { IsGraph self.now }
    {
        self.names.len() as u16
    }

    /// The immediate predecessors of a vertex: the vertices among its operands, each once.
    pub(crate) fn preds(&self, v: u16) -> VertexSet
        requires { v < length self.now.nodes }
        ensures { result ≡ (dag_of self.now).preds v }
    {
        let node = &self.nodes[v as usize];
        let arity = node.op.arity();
        vertices(&node.args[..arity as usize])
    }

    /// For each of the first 64 vertices the first word of its predecessors. They all stand in it, since they are below the vertex.
    pub(crate) fn near(&self) -> [u64; 64]
        ensures { AreNear self.now result }
    {
        let mut near = [0; 64];
        let end = self.len().min(64);
        for v in 0..end {
            near[v as usize] = self.preds(v).word(0);
        }
        near
    }

    /// The vertices that are inputs.
    pub(crate) fn in_set(&self) -> VertexSet
        ensures { result ≡ (dag_of self.now).inputs }
    {
        let mut inputs = VertexSet::empty();
        for v in 0..self.inputs() {
            inputs = inputs.with(v);
        }
        inputs
    }

    /// The vertices that an output element names.
    pub(crate) fn out_set(&self) -> VertexSet
        ensures { result ≡ (dag_of self.now).outputs }
    {
        let mut outputs = VertexSet::empty();
        for output in &self.outputs {
            outputs = outputs.with(output.vertex);
        }
        outputs
    }

    /// The live vertices: the outputs, and the vertices from which a path leads to one. One pass from the last vertex down.
    pub(crate) fn live(&self) -> VertexSet
        ensures { result ≡ live_of (dag_of self.now) }
    {
        let mut live = self.out_set();
        for v in (0..self.len()).rev() {
            if live.has(v) {
                live = live.union(&self.preds(v));
            }
        }
        live
    }

    /// The greatest number of predecessors of a live vertex, and 0 if there is none, where the live vertices are known.
    pub(crate) fn degree(&self, live: &VertexSet) -> u16
        requires { live.now ≡ live_of (dag_of self.now) }
        ensures { result ≡ degree (dag_of self.now) }
    {
        let mut most = 0;
        for v in 0..self.len() {
            if live.has(v) {
                most = most.max(self.preds(v).count());
            }
        }
        most
    }
}

// The vertices among operands.
fn vertices(operands: &[Operand]) -> VertexSet
    requires { All (IsOperandBelow 256) operands.now }
    ensures { result ≡ vertices_of operands.now }
{
    let mut found = VertexSet::empty();
    for operand in operands {
        if let Operand::Vertex(v) = *operand {
            found = found.with(v);
        }
    }
    found
}
