//! First plans worked out by hand.
use crate::builders::{WEIGHTS, chain, game, two_outputs};
use comp_graph::Graph;
use first_plan::first;
use normal_steps::Step::{self, Drop, Spill, Work};
use std::alloc::Global;
use std::process::Abort;
use std::test::Fail;

// With three slots, 2 and 1 are saved before 4, the one that is used later first, and before 6 the two used-up values are dropped, the
// greater one first. Four loads and three stores are paid.
fn plan_of_the_chain() -> &'static [Step] {
    &[
        Work(1),
        Work(2),
        Drop(0),
        Work(3),
        Spill(2),
        Spill(1),
        Work(4),
        Drop(0),
        Work(5),
        Drop(4),
        Drop(3),
        Work(6),
        Drop(5),
        Drop(1),
        Work(7),
    ]
}

// With four slots, 2 alone is saved and loaded again, so that with x and the store of 7 two loads and two stores are paid.
fn plan_of_the_roomy_chain() -> &'static [Step] {
    &[
        Work(1),
        Work(2),
        Work(3),
        Spill(2),
        Work(4),
        Drop(0),
        Work(5),
        Drop(4),
        Work(6),
        Drop(5),
        Drop(3),
        Work(7),
    ]
}

// With two slots, the first output is saved before it leaves.
fn plan_of_two_outputs() -> &'static [Step] {
    &[Work(1), Spill(1), Work(2)]
}

// Compares the first plan of a graph with the expected steps and cost.
fn compare(
    rt: &impl Abort,
    alloc: Global,
    graph: Graph,
    slots: u16,
    steps: &[Step],
    cost: u32,
) -> Result<(), Fail> {
    let game = game(rt, graph, slots, WEIGHTS);
    let plan = first(alloc, &game)?;
    assert!(rt; plan.steps() == steps);
    assert_eq!(rt; plan.total(), cost);
    Ok(())
}

#[test]
fn plans_by_hand(rt: HostRuntime) -> Result<(), Fail> {
    let alloc = rt.alloc();
    compare(&rt, alloc, chain(alloc)?, 3, plan_of_the_chain(), 17)?;
    compare(&rt, alloc, chain(alloc)?, 4, plan_of_the_roomy_chain(), 10)?;
    compare(&rt, alloc, two_outputs(alloc)?, 2, plan_of_two_outputs(), 8)
}
