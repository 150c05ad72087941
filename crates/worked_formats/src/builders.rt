//! Labels, and graphs and games from the texts of kernels.
use comp_graph::{Game, Graph, Label, Weights};
use kernel_parser::parse;
use loop_unroll::unroll;
use std::alloc::{AllocError, Global};
use std::process::Abort;
use std::test::Fail;
use three_address::lower;

/// The label that is printed so.
pub fn label(alloc: Global, text: &str) -> Result<Label, AllocError> {
    Ok(Label::new(Vec::from_slice(alloc, text.as_bytes())?))
}

/// The graph of a kernel's text.
pub fn graph(alloc: Global, text: &[u8]) -> Result<Graph, Fail> {
    let kernel = parse(alloc, text)?;
    let flats = unroll(alloc, &kernel)?;
    Ok(lower(alloc, &kernel, &flats)?)
}

/// The game on the graph of a kernel's text, with so many slots, where a load and a store cost so much.
pub fn game(
    rt: &impl Abort,
    alloc: Global,
    text: &[u8],
    slots: u16,
    weights: Weights,
) -> Result<Game, Fail> {
    let Weights { load, store } = weights;
    assert!(rt; slots > 0 && slots <= 64);
    assert!(rt; load > 0 && load <= 16 && store > 0 && store <= 16);
    let graph = graph(alloc, text)?;
    Ok(
        Game::new(graph, slots, weights)
            .ok()
            .ok_or("too few slots")?,
    )
}
