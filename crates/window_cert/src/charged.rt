//! The charged loads of a window.
use comp_graph::VertexSet;

/// The charged loads of a window, in one of three forms: for each vertex the operands whose load by its Work is charged, in order of the
/// vertices; all loads of tracked values; or all loads of tracked values by a set of operations.
#[derive(Drop)]
pub enum ChargedLoads {
    Each(Vec<VertexSet>),
    OfTracked,
    By(VertexSet),
}
