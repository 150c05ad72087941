//! The game on a part.
ghost use Rattle.std.specs.Prelude.{◌≡◌, ℕ, ◌<◌, ◌≤◌, length, map, IfOk};
ghost use Rattle.std.specs.List.{All};
ghost use Rattle.comp_graph.specs.Vertices.{AllBelow};
ghost use Rattle.comp_graph.specs.Graphs.{IsGraph, IsOperandBelow};
ghost use Rattle.part_bounds.specs.Cuts.{place};
ghost use Rattle.part_bounds.specs.Parts.{part};
ghost use Rattle.part_bounds.specs.Induced.{cut_operand, cut_node, kept, cut_outputs, induced, induced_game};

use crate::parts::part_sets;
use comp_graph::{Game, Graph, Label, NoMemory, Node, Operand, Output, VertexSet};
use std::alloc::Global;

/// The game on part k, of so many parts, from 1 to 16: its graph has the vertices of the part, renumbered in rising order, with the operands
/// outside the part written as the constant 0, and the input labels and outputs that lie in the part, in their order. The title, the slots
/// and the weights are those of the game, and it is never too small. `NoMemory` may come at any allocation.
pub fn induced(alloc: Global, game: &Game, parts: u8, k: u8) -> Result<Game, NoMemory>
    requires part { k < parts }
    requires most { parts ≤ 16 }
    ensures { IfOk result (λ on_part. on_part ≡ induced_game game.now (part game.now.graph parts k)) }
{
    let sets = part_sets(alloc, game, parts)?;
    cut_game(alloc, game, &sets[k as usize])
}

/// The game on some of the vertices, made so. It has the slots and the weights of the game, and is never too small. `NoMemory` may come at
/// any allocation.
pub fn cut_game(alloc: Global, game: &Game, part: &VertexSet) -> Result<Game, NoMemory>
    requires { AllBelow (length game.now.graph.nodes) part.now }
    ensures { IfOk result (λ on_part. on_part ≡ induced_game game.now part.now) }
{
    let slots = game.slots();
    let weights = game.weights();
    let graph = cut_graph(alloc, game.graph(), part)?;
    match Game::new(graph, slots, weights) {
        Ok(on_part) => Ok(on_part),
        Err(_) => unreachable!(),
    }
}

// The graph of the vertices of a part.
fn cut_graph(alloc: Global, graph: &Graph, part: &VertexSet) -> Result<Graph, NoMemory>
    requires valid { IsGraph graph.now }
    requires below { AllBelow (length graph.now.nodes) part.now }
    ensures { IfOk result (λ cut. cut ≡ induced graph.now part.now) }
{
    let title = graph.title().copy(alloc)?;
    let nodes = cut_nodes(alloc, graph, part)?;
    let names = cut_names(alloc, graph, part)?;
    let outputs = cut_outputs(alloc, graph, part)?;
    Ok(Graph::new(title, nodes, names, outputs))
}

// The nodes of the part.
fn cut_nodes(alloc: Global, graph: &Graph, part: &VertexSet) -> Result<Vec<Node>, NoMemory>
    ensures { IfOk result (λ nodes. nodes.items ≡ map (cut_node part.now) (kept part.now 0 graph.now.nodes)) }
{
    let nodes = graph.nodes();
    let mut on_part = Vec::new(alloc);
    for v in 0..graph.len() {
        if part.has(v) {
            on_part.push(cut_node(part, &nodes[v as usize]))?;
        }
    }
    Ok(on_part)
}

// A node with its operands cut.
fn cut_node(part: &VertexSet, node: &Node) -> Node
    requires three { length node.now.args ≡ 3 }
    requires below { All (IsOperandBelow 256) node.now.args }
    ensures { result ≡ cut_node part.now node.now }
{
    let [a, b, c] = node.args;
    Node {
        op: node.op,
        args: [
            cut_operand(part, a),
            cut_operand(part, b),
            cut_operand(part, c),
        ],
    }
}

// An operand in the part, or the constant 0 for one outside.
fn cut_operand(part: &VertexSet, operand: Operand) -> Operand
    requires { IsOperandBelow 256 operand }
    ensures { result ≡ cut_operand part.now operand }
{
    match operand {
        Operand::Vertex(v) => {
            if part.has(v) {
                return Operand::Vertex(place(part, v));
            }
            Operand::Const(0)
        }
        Operand::Const(value) => Operand::Const(value),
    }
}

// How many vertices of the part lie below v.
fn place(part: &VertexSet, v: u16) -> u16
    requires { v ≤ 256 }
    ensures { result ≡ place part.now v }
{
    let mut count = 0;
    for u in 0..v {
        if part.has(u) {
            count += 1;
        }
    }
    count
}

// The names of the inputs of the part.
fn cut_names(alloc: Global, graph: &Graph, part: &VertexSet) -> Result<Vec<Label>, NoMemory>
    ensures { IfOk result (λ names. names.items ≡ kept part.now 0 graph.now.names) }
{
    let names = graph.names();
    let mut on_part = Vec::new(alloc);
    for v in 0..graph.inputs() {
        if part.has(v) {
            on_part.push(names[v as usize].copy(alloc)?)?;
        }
    }
    Ok(on_part)
}

// The output elements of the part.
fn cut_outputs(alloc: Global, graph: &Graph, part: &VertexSet) -> Result<Vec<Output>, NoMemory>
    requires { IsGraph graph.now }
    ensures { IfOk result (λ outputs. outputs.items ≡ cut_outputs part.now graph.now.outputs) }
{
    let mut on_part = Vec::new(alloc);
    for output in graph.outputs() {
        if part.has(output.vertex) {
            on_part.push(Output {
                label: output.label.copy(alloc)?,
                vertex: place(part, output.vertex),
            })?;
        }
    }
    Ok(on_part)
}
