//! What has still to become red.
ghost use Rattle.std.specs.Prelude.{◌≡◌, ◌≤◌, length};
ghost use Rattle.comp_graph.specs.Vertices.{AllBelow};
ghost use Rattle.comp_graph.specs.Graphs.{IsGraph, dag_of};
ghost use Rattle.forced_bounds.specs.Floor as floors;

use comp_graph::{Graph, VertexSet};
use pebble_rules::Position;

/// The vertices that have still to become red, and a number above all of them, 0 where there are none.
#[derive(Clone, Copy)]
pub(crate) struct Targets {
    pub vertices: VertexSet,
    pub top: u16,
}

// The vertices that have still to become red: those without a pebble from which a path without pebbles leads to an output, and the
// predecessors of these that are not red. One pass from the last vertex down.
pub(crate) fn wanted(graph: &Graph, p: &Position) -> Targets
    ensures value { result.vertices ≡ floors.wanted (dag_of graph.now) p.now }
    ensures below { AllBelow result.top result.vertices }
    ensures top { result.top ≤ length graph.now.nodes }
    ensures valid { IsGraph graph.now }
{
    let end = graph.len();
    let held = p.red.union(&p.blue);
    let outputs = graph.out_set();
    let mut needed = outputs.minus(&held);
    if needed.least().is_none() {
        return Targets {
            vertices: needed,
            top: 0,
        };
    }
    let mut read = VertexSet::empty();
    let mut top: u16 = 0;
    for v in (0..end).rev() {
        if needed.has(v) {
            let preds = graph.preds(v);
            needed = needed.union(&preds.minus(&held));
            read = read.union(&preds);
            top = top.max(v + 1);
        }
    }
    let vertices = needed.union(&read.minus(&p.red));
    Targets { vertices, top }
}
