//! Cones that do not meet others.
ghost use Rattle.std.specs.Prelude.{◌≡◌, ◌<◌, length, MatchOption};
ghost use Rattle.std.specs.FinSet as set;
ghost use Rattle.comp_graph.specs.Vertices.{◌∉◌, IsOutside};
ghost use Rattle.comp_graph.specs.Graphs.{IsGraph, dag_of};
ghost use Rattle.forced_bounds.specs.Reached.{IsFreeCone, IsMetCone};

use comp_graph::{Graph, VertexSet};

// The vertices from which a path outside `avoid` leads to v, or None where one of them is in `met`. `first` are the predecessors of v
// outside `avoid`, which are not in `met`, nor is v.
pub(crate) fn free_cone(
    graph: &Graph,
    v: u16,
    first: &VertexSet,
    avoid: &VertexSet,
    met: &VertexSet,
) -> Option<VertexSet>
    requires graph { IsGraph graph.now }
    requires vertex { v < length graph.now.nodes }
    requires first { first.now ≡ set.difference ((dag_of graph.now).preds v) avoid.now }
    requires itself { v ∉ met.now }
    requires apart { IsOutside first.now met.now }
    ensures { MatchOption result (IsMetCone (dag_of graph.now) v avoid.now met.now) (IsFreeCone (dag_of graph.now) v avoid.now met.now) }
{
    let mut cone = VertexSet::empty().with(v);
    let mut ahead = *first;
    while let Some(w) = ahead.least() {
        cone = cone.with(w);
        let more = graph.preds(w).minus(avoid).minus(&cone);
        if more.meet(met).least().is_some() {
            return None;
        }
        ahead = ahead.without(w).union(&more);
    }
    Some(cone)
}
