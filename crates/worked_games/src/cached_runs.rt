//! Runs of the cache worked out by hand.
use crate::builders::{WEIGHTS, game, knot, one_sum, two_outputs};
use cache_model::cached;
use comp_graph::Graph;
use pebble_rules::Move::{self, Compute, DropRed, Load, Store};
use std::alloc::Global;
use std::process::Abort;
use std::test::Fail;

// The sum comes from one load and is stored.
fn moves_of_one_sum() -> &'static [Move] {
    &[Load(0), Compute(1), Store(1)]
}

// The first output leaves before the end, and is stored once.
fn moves_of_two_outputs() -> &'static [Move] {
    &[
        Load(0),
        Compute(1),
        Store(1),
        DropRed(1),
        Compute(2),
        Store(2),
    ]
}

// The value of `a` and that of `x * 2` leave dirty, and the latter is loaded again.
fn moves_of_the_knot() -> &'static [Move] {
    &[
        Load(0),
        Compute(1),
        Compute(2),
        DropRed(0),
        Compute(3),
        Store(2),
        DropRed(2),
        Compute(4),
        Store(1),
        DropRed(1),
        Load(2),
        Store(3),
        DropRed(3),
        Compute(5),
        Store(5),
    ]
}

// Compares the run on a graph with the expected moves, and with the numbers of loads, stores and hits.
fn compare(
    rt: &impl Abort,
    alloc: Global,
    graph: Graph,
    slots: u16,
    moves: &[Move],
    counts: (u32, u32, u32),
) -> Result<(), Fail> {
    let game = game(rt, graph, slots, WEIGHTS);
    let run = cached(alloc, &game)?;
    assert!(rt; run.moves.as_slice() == moves);
    assert_eq!(rt; (run.loads, run.stores, run.hits), counts);
    Ok(())
}

#[test]
fn runs_by_hand(rt: HostRuntime) -> Result<(), Fail> {
    let alloc = rt.alloc();
    compare(
        &rt,
        alloc,
        one_sum(alloc)?,
        2,
        moves_of_one_sum(),
        (1, 1, 0),
    )?;
    compare(
        &rt,
        alloc,
        two_outputs(alloc)?,
        2,
        moves_of_two_outputs(),
        (1, 2, 1),
    )?;
    compare(&rt, alloc, knot(alloc)?, 3, moves_of_the_knot(), (2, 4, 6))
}
