//! Graphs of kernels: their sizes or faults, a label, and the vertex of an output.
use crate::builders::kernel;
use comp_graph::Graph;
use loop_unroll::{ShapeEnd, unroll};
use std::alloc::Global;
use std::test::Fail;
use three_address::lower;

const TWO_PRODUCTS: &[u8] =
    b"kernel p { in A[2][3]; out y[2]; for i in 0..2 { y[i] = A[i][2] * i; } }";

// The graph of a text's kernel, or its fault.
fn graph(alloc: Global, text: &[u8]) -> Result<Result<Graph, ShapeEnd>, Fail> {
    let kernel = kernel(alloc, text)?;
    match unroll(alloc, &kernel) {
        Ok(flats) => Ok(lower(alloc, &kernel, &flats)),
        Err(end) => Ok(Err(end)),
    }
}

// Six inputs and two products; y[1] is not set; A[2][2] is out of range.
const SIZES: [(&[u8], Result<u16, ShapeEnd>); 3] = [
    (TWO_PRODUCTS, Ok(8)),
    (
        b"kernel p { in A[2][3]; out y[2]; for i in 0..1 { y[i] = A[i][2] * i; } }",
        Err(ShapeEnd::Fault { code: 10, at: 27 }),
    ),
    (
        b"kernel p { in A[2][3]; out y[2]; for i in 0..3 { y[i] = A[i][2] * i; } }",
        Err(ShapeEnd::Fault { code: 7, at: 56 }),
    ),
];

// How many vertices it has.
fn size_of(alloc: Global, text: &[u8]) -> Result<Result<u16, ShapeEnd>, Fail> {
    Ok(graph(alloc, text)?.map(|graph| graph.len()))
}

#[test]
fn sizes(rt: HostRuntime) -> Result<(), Fail> {
    for (text, size) in &SIZES {
        assert!(rt; size_of(rt.alloc(), text)? == *size);
    }
    Ok(())
}

// Whether the k-th name of a graph is this one.
fn is_named(graph: &Graph, k: usize, name: &[u8]) -> bool {
    match graph.names().get(k) {
        Some(label) => label.bytes() == name,
        None => false,
    }
}

// Vertex 5 is A[1][2], and vertex 7 its product, which y[1] holds.
#[test]
fn products(rt: HostRuntime) -> Result<(), Fail> {
    let graph = graph(rt.alloc(), TWO_PRODUCTS)??;
    assert!(rt; is_named(&graph, 5, b"A[1][2]"));
    let vertex = graph.outputs().get(1).map(|output| output.vertex);
    assert!(rt; vertex == Some(7));
    Ok(())
}
