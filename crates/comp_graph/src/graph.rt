//! Computation graphs.
ghost use Rattle.std.specs.Prelude.{◌≡◌, ◌<◌, length};
ghost use Rattle.comp_graph.specs.Dags.{IsLiveSet, IsDegree, live_of, degree};
ghost use Rattle.comp_graph.specs.Graphs.{GraphParts, IsGraph, dag_of};

use crate::graph_lists::GraphLists;
use crate::label::Label;
use crate::node::{Node, Output};
use crate::vertex_set::VertexSet;
use std::marker::Model;

/// The graph of a program. Its vertices are the places of a list of nodes: first the inputs, and then operations on constants and
/// earlier vertices. It keeps the program's title, the labels of the inputs, and the output elements. Contracts see it as a record of
/// lists. The sets of its inputs, its outputs and its live vertices, its degree, and the predecessors of its first 64 vertices are found
/// once, when the graph is made.
#[derive(Drop)]
pub struct Graph {
    lists: GraphLists,
    near: [u64; 64],
    in_set: VertexSet,
    out_set: VertexSet,
    live: VertexSet,
    degree: u16,
}

impl Model for Graph {
    ghost use Rattle.comp_graph.specs.Graphs.{GraphParts};

    ghost Value = { GraphParts };

    ghost use Rattle.comp_graph.specs.Kept.{IsKept};

    ghost view = { λ a. a.lists };

    ghost invariant = { IsKept };
}

impl Graph {
    /// The graph of these parts: at most 256 nodes; the first `names.len()` nodes and no others have operation `Input`; an
    /// operand is a constant or a vertex below its own; a `Set` has a constant; places from the arity of a node on hold `Const(0)`; each
    /// output names a vertex. It takes no memory.
    pub fn new(title: Label, nodes: Vec<Node>, names: Vec<Label>, outputs: Vec<Output>) -> Graph
        requires { IsGraph (record { title = title; nodes = nodes.items; names = names.items; outputs = outputs.items }) }
        ensures { result ≡ record { title = title; nodes = nodes.items; names = names.items; outputs = outputs.items } }
    {
        let lists = GraphLists::new(title, nodes, names, outputs);
        let near = lists.near();
        let in_set = lists.in_set();
        let out_set = lists.out_set();
        let live = lists.live();
        let degree = lists.degree(&live);
        Graph {
            lists,
            near,
            in_set,
            out_set,
            live,
            degree,
        }
    }

    /// The name of the program.
    pub fn title(&self) -> &Label
        ensures { result.now ≡ self.now.title }
    {
        self.lists.title()
    }

    /// The vertices in rising number.
    pub fn nodes(&self) -> &[Node]
        ensures value { result.now ≡ self.now.nodes }
        ensures valid { IsGraph self.now }
    {
        self.lists.nodes()
    }

    /// The labels of the inputs: the k-th is that of vertex k.
    pub fn names(&self) -> &[Label]
        ensures { result.now ≡ self.now.names }
    {
        self.lists.names()
    }

    /// The output elements in order of declaration.
    pub fn outputs(&self) -> &[Output]
        ensures { result.now ≡ self.now.outputs }
    {
        self.lists.outputs()
    }

    /// The number of vertices, from 0 to 256: they are the numbers below it.
    pub fn len(&self) -> u16
        ensures value { result ≡ length self.now.nodes }
        ensures valid { IsGraph self.now }
    {
        self.lists.len()
    }

    /// The number of inputs: they are the vertices below it.
    pub fn inputs(&self) -> u16
        ensures value { result ≡ length self.now.names }
        ensures valid { IsGraph self.now }
    {
        self.lists.inputs()
    }

    /// The immediate predecessors of a vertex: the vertices among its operands, each once.
    pub fn preds(&self, v: u16) -> VertexSet
        requires { v < length self.now.nodes }
        ensures { result ≡ (dag_of self.now).preds v }
    {
        if v < 64 {
            VertexSet::from_words([self.near[v as usize], 0, 0, 0])
        } else {
            self.lists.preds(v)
        }
    }

    /// The vertices that are inputs.
    pub fn in_set(&self) -> VertexSet
        ensures { result ≡ (dag_of self.now).inputs }
    {
        self.in_set
    }

    /// The vertices that an output element names.
    pub fn out_set(&self) -> VertexSet
        ensures { result ≡ (dag_of self.now).outputs }
    {
        self.out_set
    }

    /// The live vertices: the outputs, and the vertices from which a path leads to one.
    pub fn live(&self) -> VertexSet
        ensures paths { IsLiveSet (dag_of self.now) result }
        ensures value { result ≡ live_of (dag_of self.now) }
    {
        self.live
    }

    /// The greatest number of predecessors of a live vertex, and 0 if there is none.
    pub fn degree(&self) -> u16
        ensures greatest { IsDegree (dag_of self.now) result }
        ensures value { result ≡ degree (dag_of self.now) }
        ensures small { result < 256 }
    {
        self.degree
    }
}
