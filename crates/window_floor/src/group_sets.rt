//! Groups as sets of vertices.

use comp_graph::VertexSet;

/// A group of a window. The Work of each member is charged for the same `loads`, and at least `least` of these are loaded each
/// time that a Work of a member follows a Work of a vertex that is no member.
#[derive(Clone, Copy)]
pub struct GroupSets {
    pub members: VertexSet,
    pub loads: VertexSet,
    pub least: u16,
}
