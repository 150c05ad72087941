//! Parts, and their bounds, worked out by hand.
use crate::builders::{PLAIN, dot, game, knot, one_sum, two_products};
use comp_graph::{Game, Graph, NoMemory, VertexSet, Weights};
use part_bounds::{PartBound, induced, part_of, part_search, sum_of_bounds, write_tables};
use std::alloc::{AllocError, Global};
use std::process::Abort;
use std::test::Fail;

// The part of each vertex where there are two.
fn halves(alloc: Global, game: &Game) -> Result<Vec<u8>, AllocError> {
    let mut halves = Vec::new(alloc);
    for v in 0..game.graph().len() {
        halves.push(part_of(game, 2, v))?;
    }
    Ok(halves)
}

#[test]
fn vertices_have_parts(rt: HostRuntime) -> Result<(), Fail> {
    let alloc = rt.alloc();
    let knot = game(&rt, knot(alloc)?, 3, PLAIN);
    assert_eq!(rt;
        halves(alloc, &knot)?.as_slice(),
        [0, 0, 0, 0, 1, 1].as_slice()
    );
    let products = game(&rt, two_products(alloc)?, 3, PLAIN);
    assert_eq!(rt;
        halves(alloc, &products)?.as_slice(),
        [0, 1, 0, 0, 1].as_slice()
    );
    Ok(())
}

// The game on the second of two parts.
fn second_half(alloc: Global, game: &Game) -> Result<Game, NoMemory> {
    induced(alloc, game, 2, 1)
}

// The only member of a set.
fn only(set: &VertexSet) -> Option<u16> {
    if set.count() == 1 { set.least() } else { None }
}

// The only predecessor of a vertex.
fn only_before(graph: &Graph, v: u16) -> Option<u16> {
    if v < graph.len() {
        only(&graph.preds(v))
    } else {
        None
    }
}

#[test]
fn the_second_of_two_products(rt: HostRuntime) -> Result<(), Fail> {
    let products = game(&rt, two_products(rt.alloc())?, 3, PLAIN);
    let second = second_half(rt.alloc(), &products)?;
    let graph = second.graph();
    assert_eq!(rt; (graph.len(), graph.inputs(), second.slots()), (2, 1, 3));
    assert_eq!(rt; only_before(graph, 1), Some(0));
    assert_eq!(rt; only(&graph.out_set()), Some(1));
    Ok(())
}

/// The vertices of a part, what its plan costs, and its bound.
#[derive(Clone, Copy)]
struct Bound(u16, u32, u32);

/// A search of parts with its numbers, and what it answers: the bounds of the first parts, after which each part has no vertex, the sum of
/// all bounds, and how many bytes the tables have, where that is known. A table has 18 bytes, and 20 for each row.
#[derive(Clone, Copy)]
struct Case {
    slots: u16,
    weights: Weights,
    parts: u8,
    budget: u32,
    bounds: &'static [Bound],
    sum: u32,
    bytes: Option<usize>,
}

/// In one part the search of the knot finds that x is loaded twice. Where a store costs 3 and a load 2, that is still cheapest.
const KNOT: [Case; 2] = [
    Case {
        slots: 3,
        weights: PLAIN,
        parts: 1,
        budget: 2000,
        bounds: &[Bound(6, 3, 3)],
        sum: 3,
        bytes: None,
    },
    Case {
        slots: 3,
        weights: Weights { load: 2, store: 3 },
        parts: 1,
        budget: 8000,
        bounds: &[Bound(6, 7, 7)],
        sum: 7,
        bytes: None,
    },
];

/// Of sixteen parts all but the first have no vertex.
const ONE_SUM: Case = Case {
    slots: 2,
    weights: PLAIN,
    parts: 16,
    budget: 8000,
    bounds: &[Bound(2, 2, 2)],
    sum: 2,
    bytes: Some(288),
};

/// The first part has x, for two loads and a store, and the second a load and a store. The whole costs as much as both.
const TWO_PRODUCTS: Case = Case {
    slots: 3,
    weights: PLAIN,
    parts: 2,
    budget: 2000,
    bounds: &[Bound(3, 3, 3), Bound(2, 2, 2)],
    sum: 5,
    bytes: Some(36),
};

/// In two parts the first has no output, and the second stores a sum of constants. In one part a product is stored and loaded again, since
/// each product fills the three slots, and one row does not show it.
const DOT: [Case; 3] = [
    Case {
        slots: 3,
        weights: PLAIN,
        parts: 2,
        budget: 2000,
        bounds: &[Bound(6, 0, 0), Bound(1, 1, 1)],
        sum: 1,
        bytes: Some(36),
    },
    Case {
        slots: 3,
        weights: PLAIN,
        parts: 1,
        budget: 1,
        bounds: &[Bound(7, 7, 5)],
        sum: 5,
        bytes: Some(38),
    },
    Case {
        slots: 3,
        weights: PLAIN,
        parts: 1,
        budget: 8000,
        bounds: &[Bound(7, 7, 7)],
        sum: 7,
        bytes: None,
    },
];

/// What a search of parts answers, the sum of its bounds, and the bytes of its tables.
#[derive(Drop)]
struct Searched {
    found: Vec<PartBound>,
    sum: u32,
    bytes: Vec<u8>,
}

// Searches the parts of a game.
fn search_parts(
    rt: &impl Abort,
    alloc: Global,
    game: &Game,
    parts: u8,
    budget: u32,
) -> Result<Searched, Fail> {
    assert!(rt; 0 < parts && parts <= 16 && budget <= 8000);
    let found = part_search(alloc, game, parts, budget)?;
    let sum = sum_of_bounds(&found);
    let bytes = write_tables(alloc, &found)?;
    Ok(Searched { found, sum, bytes })
}

// Whether a part has this bound.
fn is_bound(part: &PartBound, bound: Bound) -> bool {
    let Bound(vertices, cost, least) = bound;
    part.table.vertices == vertices && part.cost == cost && part.table.bound == least
}

// Whether the first parts have these bounds, and each part after them no vertex.
fn are_bounds(found: &[PartBound], bounds: &[Bound]) -> bool {
    for (k, part) in found.iter().enumerate() {
        let bound = if k < bounds.len() {
            bounds[k]
        } else {
            Bound(0, 0, 0)
        };
        if !is_bound(part, bound) {
            return false;
        }
    }
    true
}

// Searches the parts of a graph, compares the answer, and gives the bytes of the tables.
fn tables_of(rt: &impl Abort, alloc: Global, graph: Graph, case: Case) -> Result<Vec<u8>, Fail> {
    let game = game(rt, graph, case.slots, case.weights);
    let Searched { found, sum, bytes } = search_parts(rt, alloc, &game, case.parts, case.budget)?;
    assert_eq!(rt; found.len(), case.parts as usize);
    assert!(rt; are_bounds(&found, case.bounds));
    assert_eq!(rt; sum, case.sum);
    if let Some(length) = case.bytes {
        assert_eq!(rt; bytes.len(), length);
    }
    Ok(bytes)
}

/// The tables of the two products: the mark, version 1, the vertices, the slots and the bound, and no row.
const TWO_TABLES: &[u8] =
    b"RBPT\0\x01\0\x03\0\x03\0\0\0\x03\0\0\0\0RBPT\0\x01\0\x02\0\x03\0\0\0\x02\0\0\0\0";

fn knots() -> &'static [Case] {
    &KNOT
}

fn dots() -> &'static [Case] {
    &DOT
}

fn sixteen_parts() -> Case {
    ONE_SUM
}

fn two_parts() -> Case {
    TWO_PRODUCTS
}

#[test]
fn bounds_of_the_knot(rt: HostRuntime) -> Result<(), Fail> {
    for case in knots() {
        tables_of(&rt, rt.alloc(), knot(rt.alloc())?, *case)?;
    }
    Ok(())
}

#[test]
fn bounds_of_two_products(rt: HostRuntime) -> Result<(), Fail> {
    let graph = two_products(rt.alloc())?;
    let tables = tables_of(&rt, rt.alloc(), graph, two_parts())?;
    assert_eq!(rt; tables.as_slice(), TWO_TABLES);
    Ok(())
}

#[test]
fn bounds_of_the_dot_product(rt: HostRuntime) -> Result<(), Fail> {
    for case in dots() {
        tables_of(&rt, rt.alloc(), dot(rt.alloc())?, *case)?;
    }
    Ok(())
}

#[test]
fn bounds_of_sixteen_parts(rt: HostRuntime) -> Result<(), Fail> {
    let graph = one_sum(rt.alloc())?;
    tables_of(&rt, rt.alloc(), graph, sixteen_parts())?;
    Ok(())
}
