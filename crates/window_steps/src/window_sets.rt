//! Windows as sets of vertices.

use comp_graph::VertexSet;

/// A window. At place v of `loads` are the operands whose load by the Work of v is charged. `stores` are the vertices whose
/// store is charged, `tracked` those whose pebbles the window follows, and `required` those that each play has to work on.
#[derive(Clone, Copy)]
pub struct WindowSets<'a> {
    pub loads: &'a [VertexSet],
    pub stores: VertexSet,
    pub tracked: VertexSet,
    pub required: VertexSet,
}
