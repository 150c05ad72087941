//! When each vertex is read again.
ghost use Rattle.std.specs.Prelude.{◌≡◌, ◌<◌, length, IfOk};
ghost use Rattle.std.specs.FinSet as set;
ghost use Rattle.comp_graph.specs.Vertices.{AllBelow};
ghost use Rattle.comp_graph.specs.Dags.{live_of};
ghost use Rattle.comp_graph.specs.Graphs.{dag_of};
ghost use Rattle.first_plan.specs.Passing.{least_passing};
ghost use Rattle.first_plan.specs.Ready.{readers_of, AreReaders};

use comp_graph::{Graph, NoMemory, VertexSet};
use std::alloc::Global;

/// The vertices that the plan works on: the live ones that are no inputs.
pub fn wanted_vertices(graph: &Graph) -> VertexSet
    ensures { result ≡ set.difference (live_of (dag_of graph.now)) (dag_of graph.now).inputs }
{
    graph.live().minus(&graph.in_set())
}

/// The readers of each vertex: the vertices that it is a predecessor of.
pub fn all_readers(alloc: Global, graph: &Graph) -> Result<Vec<VertexSet>, NoMemory>
    ensures { IfOk result (λ readers. AreReaders (dag_of graph.now) readers.items) }
{
    let mut readers = Vec::new(alloc);
    for u in 0..graph.len() {
        readers.push(readers_of(graph, u))?;
    }
    Ok(readers)
}

// The vertices that u is a predecessor of.
fn readers_of(graph: &Graph, u: u16) -> VertexSet
    requires { u < length graph.now.nodes }
    ensures { result ≡ readers_of (dag_of graph.now) u }
{
    let mut readers = VertexSet::empty();
    for w in 0..graph.len() {
        if graph.preds(w).has(u) {
            readers = readers.with(w);
        }
    }
    readers
}

/// The least member of a set of numbers below `count`, or `count` if it is empty.
pub fn least_or(members: &VertexSet, count: u16) -> u16
    requires { AllBelow count members.now }
    ensures { result ≡ least_passing count (set.contains members.now) }
{
    match members.least() {
        Some(w) => w,
        None => count,
    }
}
