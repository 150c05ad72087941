//! Laws of all graphs. A call does nothing: its contract is the law.

ghost use Rattle.comp_graph.specs.Laws.{LiveByPaths, DegreeIsGreatest, GraphsAreDags};

/// Live vertices are those from which a path leads to an output, and the degree is the greatest number of predecessors of one.
pub fn live_vertices_and_degree()
    ensures live { LiveByPaths }
    ensures degree { DegreeIsGreatest }
{}

/// Each graph is one as the game sees it: predecessors lie below their vertex, inputs have none, inputs and outputs are vertices.
pub fn graphs_are_dags()
    ensures { GraphsAreDags }
{}
