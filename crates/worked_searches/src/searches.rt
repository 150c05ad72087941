//! Searches whose answers are known from outside: by a counting argument where they are Optimal, and by hand where they are Open.
use crate::builders::{KNOT_IN_THREE, PLAIN, chain, dot, game, knot, plan, position};
use branch_bound::{Found, Verdict, search};
use comp_graph::{Game, Graph, Weights};
use normal_steps::Step::{self, Drop, Spill, Work};
use potential_cert::Row;
use std::alloc::Global;
use std::process::Abort;
use std::test::Fail;

/// A plan of the chain with three slots: 2 and 1 are saved, x is loaded twice, and 3 + 4 transfers are paid.
const CHAIN_IN_THREE: [Step; 15] = [
    Work(1),
    Work(2),
    Drop(0),
    Work(3),
    Spill(2),
    Spill(1),
    Work(4),
    Drop(0),
    Work(5),
    Drop(4),
    Drop(3),
    Work(6),
    Drop(5),
    Drop(1),
    Work(7),
];

/// A plan of the chain with four slots: 2 is saved, and 2 + 2 transfers are paid.
const CHAIN_IN_FOUR: [Step; 12] = [
    Work(1),
    Work(2),
    Work(3),
    Spill(2),
    Work(4),
    Drop(0),
    Work(5),
    Drop(4),
    Work(6),
    Drop(5),
    Drop(3),
    Work(7),
];

/// A plan of the dot product with four slots, in which each input is loaded once and the sum is stored.
const DOT_IN_FOUR: [Step; 6] = [Work(4), Drop(2), Drop(0), Work(5), Drop(3), Work(6)];

/// A plan of the dot product with three slots: the first product is saved and loaded again besides.
const DOT_IN_THREE: [Step; 8] = [
    Work(4),
    Drop(2),
    Drop(0),
    Spill(4),
    Work(5),
    Drop(3),
    Drop(1),
    Work(6),
];

/// A row by its red and its blue vertices and its cost.
type Line = (u64, u64, u32);

/// A plan that is handed in with its number of slots and its cost, a budget, and what the search answers: the cost of its plan, the bound,
/// the verdict, and the rows, where they are known.
#[derive(Clone, Copy)]
struct Case {
    slots: u16,
    first: &'static [Step],
    first_cost: u32,
    budget: u32,
    cost: u32,
    bound: u32,
    verdict: Verdict,
    rows: Option<&'static [Line]>,
}

/// With three slots each operation of the chain but the first two fills all slots, with values of which one is in the next one's at
/// most: four loads and the store are needed. Before it knows, the search has only the floor of the start, a load and a store.
const CHAIN: [Case; 5] = [
    Case {
        slots: 3,
        first: &CHAIN_IN_THREE,
        first_cost: 7,
        budget: 0,
        cost: 7,
        bound: 2,
        verdict: Verdict::Open,
        rows: Some(&[]),
    },
    Case {
        slots: 3,
        first: &CHAIN_IN_THREE,
        first_cost: 7,
        budget: 1,
        cost: 7,
        bound: 2,
        verdict: Verdict::Open,
        rows: Some(&[(0, 1, 0)]),
    },
    Case {
        slots: 3,
        first: &CHAIN_IN_THREE,
        first_cost: 7,
        budget: 2,
        cost: 7,
        bound: 2,
        verdict: Verdict::Open,
        rows: Some(&[(0, 1, 0), (3, 1, 1)]),
    },
    Case {
        slots: 3,
        first: &CHAIN_IN_THREE,
        first_cost: 7,
        budget: 20000,
        cost: 5,
        bound: 5,
        verdict: Verdict::Optimal,
        rows: None,
    },
    Case {
        slots: 4,
        first: &CHAIN_IN_FOUR,
        first_cost: 4,
        budget: 20000,
        cost: 2,
        bound: 2,
        verdict: Verdict::Optimal,
        rows: None,
    },
];

/// The chain with four slots, where a load costs 2 and a store 3: the plan that is handed in pays two of each, and the cheapest one of each.
const HEAVY_CHAIN: Case = Case {
    slots: 4,
    first: &CHAIN_IN_FOUR,
    first_cost: 10,
    budget: 20000,
    cost: 5,
    bound: 5,
    verdict: Verdict::Optimal,
    rows: None,
};

/// The knot loads x twice, so that neither 1 nor 2 is stored.
const KNOT: Case = Case {
    slots: 3,
    first: KNOT_IN_THREE,
    first_cost: 4,
    budget: 20000,
    cost: 3,
    bound: 3,
    verdict: Verdict::Optimal,
    rows: None,
};

/// With four slots the plan meets the floor of the start. With three it is cheapest too, since each product fills all slots, so the one that
/// comes first is stored and loaded again, or computed again with two loads. One turn does not show it: either product may come first, for two
/// loads, and then two loads and the store are still to come.
const DOT: [Case; 3] = [
    Case {
        slots: 4,
        first: &DOT_IN_FOUR,
        first_cost: 5,
        budget: 20000,
        cost: 5,
        bound: 5,
        verdict: Verdict::Optimal,
        rows: Some(&[]),
    },
    Case {
        slots: 3,
        first: &DOT_IN_THREE,
        first_cost: 7,
        budget: 1,
        cost: 7,
        bound: 5,
        verdict: Verdict::Open,
        rows: Some(&[(0, 0b1111, 0)]),
    },
    Case {
        slots: 3,
        first: &DOT_IN_THREE,
        first_cost: 7,
        budget: 20000,
        cost: 7,
        bound: 7,
        verdict: Verdict::Optimal,
        rows: None,
    },
];

// What a search from a plan of these steps finds.
fn searched<'g>(
    rt: &impl Abort,
    alloc: Global,
    game: &'g Game,
    steps: &[Step],
    budget: u32,
) -> Result<Found<'g>, Fail> {
    assert!(rt; budget <= 150000);
    let first = plan(rt, alloc, game, steps)?;
    Ok(search(alloc, first, budget)?)
}

// The cost of the first plan, the cost of the best plan, the bound, and the slots of the table.
fn numbers(found: &Found<'_>) -> (u32, u32, u32, u16) {
    (
        found.first_cost,
        found.plan.total(),
        found.table.bound,
        found.table.slots,
    )
}

// Whether a row is that of the line.
fn is_line(row: Row, line: Line) -> bool {
    let (red, blue, cost) = line;
    row.position == position(red, blue) && row.cost == cost
}

// Whether the rows are those of the lines.
fn are_lines(rows: &[Row], lines: &[Line]) -> bool {
    for (row, line) in rows.iter().zip(lines) {
        if !is_line(*row, *line) {
            return false;
        }
    }
    rows.len() == lines.len()
}

// Searches from a plan of a graph, and compares the answer.
fn compare(
    rt: &impl Abort,
    alloc: Global,
    graph: Graph,
    weights: Weights,
    case: Case,
) -> Result<(), Fail> {
    let Case {
        slots,
        first_cost,
        cost,
        bound,
        ..
    } = case;
    let game = game(rt, graph, slots, weights);
    let found = searched(rt, alloc, &game, case.first, case.budget)?;
    assert_eq!(rt; numbers(&found), (first_cost, cost, bound, slots));
    assert_eq!(rt; found.verdict, case.verdict);
    if let Some(lines) = case.rows {
        assert!(rt; are_lines(&found.table.rows, lines));
    }
    Ok(())
}

fn chains() -> [Case; 5] {
    CHAIN
}

fn heavy_chain() -> Case {
    HEAVY_CHAIN
}

fn one_knot() -> Case {
    KNOT
}

fn dots() -> [Case; 3] {
    DOT
}

#[test]
fn searches_on_the_chain(rt: HostRuntime) -> Result<(), Fail> {
    for case in chains() {
        compare(&rt, rt.alloc(), chain(rt.alloc())?, PLAIN, case)?;
    }
    Ok(())
}

#[test]
fn a_search_with_weights(rt: HostRuntime) -> Result<(), Fail> {
    let weights = Weights { load: 2, store: 3 };
    compare(&rt, rt.alloc(), chain(rt.alloc())?, weights, heavy_chain())
}

#[test]
fn a_search_on_the_knot(rt: HostRuntime) -> Result<(), Fail> {
    compare(&rt, rt.alloc(), knot(rt.alloc())?, PLAIN, one_knot())
}

#[test]
fn searches_on_the_dot_product(rt: HostRuntime) -> Result<(), Fail> {
    for case in dots() {
        compare(&rt, rt.alloc(), dot(rt.alloc())?, PLAIN, case)?;
    }
    Ok(())
}
