//! Sets of vertices, operations, labels, graphs and games, with values from outside: what the clauses are meant to say.
use crate::builders::one_sum;
use comp_graph::{Game, Graph, Label, Op, TooSmall, VertexSet, Weights};
use std::test::Fail;

// The set of these vertices.
fn set_of(vertices: &[u16]) -> VertexSet {
    let mut set = VertexSet::empty();
    for v in vertices {
        if *v < 256 {
            set = set.with(*v);
        }
    }
    set
}

// How many members a set has, and the least.
fn summary(set: &VertexSet) -> (u16, Option<u16>) {
    (set.count(), set.least())
}

#[test]
fn sets(rt: HostRuntime) -> Result<(), Fail> {
    let some = set_of(&[3, 64, 255, 64]);
    let low = set_of(&[3, 5]);
    for (set, wanted) in [
        (VertexSet::empty(), (0, None)),
        (some, (3, Some(3))),
        (some.without(3), (2, Some(64))),
        (some.union(&low), (4, Some(3))),
        (some.meet(&low), (1, Some(3))),
        (low.minus(&some), (1, Some(5))),
        (VertexSet::from_words([0, 6, 0, 0]), (2, Some(65))),
    ] {
        assert_eq!(rt; summary(&set), wanted);
    }
    Ok(())
}

#[test]
fn tests_of_sets(rt: HostRuntime) -> Result<(), Fail> {
    let some = set_of(&[3, 64, 255]);
    let low = set_of(&[3, 5]);
    assert!(rt; some.has(255) && !some.has(254));
    assert!(rt; set_of(&[3]).within(&some) && !low.within(&some));
    assert_eq!(rt; some.word(1), 1);
    assert!(rt; low.without(3).without(5) == VertexSet::empty());
    Ok(())
}

/// An operation, its three arguments, of which it reads the first few, and its value.
const VALUES: [(Op, [i64; 3], i64); 14] = [
    (Op::Set, [7, 1, 2], 7),
    (Op::Add, [i64::MAX, 1, 9], i64::MIN),
    (Op::Sub, [i64::MIN, 1, 9], i64::MAX),
    (Op::Mul, [i64::MAX, 2, 9], -2),
    (Op::And, [-2, 7, 9], 6),
    (Op::Or, [6, 3, 9], 7),
    (Op::Xor, [6, 3, 9], 5),
    (Op::Neg, [i64::MIN, 1, 9], i64::MIN),
    (Op::Min, [-1, 4, -9], -1),
    (Op::Max, [-1, 4, 9], 4),
    (Op::Sel, [0, 4, 5], 5),
    (Op::Sel, [-1, 4, 5], 4),
    (Op::Mad, [3, 4, 5], 17),
    (Op::Mad, [i64::MAX, 1, 1], i64::MIN),
];

// The value of an operation that is none of `Input`.
fn value(op: Op, args: [i64; 3]) -> Option<i64> {
    match op {
        Op::Input => None,
        _ => Some(op.value(args)),
    }
}

#[test]
fn values(rt: HostRuntime) -> Result<(), Fail> {
    for (op, args, wanted) in VALUES {
        assert_eq!(rt; value(op, args), Some(wanted));
    }
    Ok(())
}

#[test]
fn arities_and_words(rt: HostRuntime) -> Result<(), Fail> {
    for (op, arity, word) in [
        (Op::Input, 0, "in"),
        (Op::Set, 1, "set"),
        (Op::Neg, 1, "neg"),
        (Op::Xor, 2, "xor"),
        (Op::Max, 2, "max"),
        (Op::Sel, 3, "sel"),
        (Op::Mad, 3, "mad"),
    ] {
        assert_eq!(rt; op.arity(), arity);
        assert_eq!(rt; op.word(), word);
    }
    Ok(())
}

#[test]
fn labels(rt: HostRuntime) -> Result<(), Fail> {
    let label = Label::new(b"A[0][2]".to_vec(rt.alloc())?);
    match label.copy(rt.alloc()) {
        Ok(second) => assert_eq!(rt; second.bytes(), b"A[0][2]".as_slice()),
        Err(_) => assert!(rt; false),
    }
    Ok(())
}

// The numbers of vertices and inputs, the degree, and the number of live vertices.
fn numbers(graph: &Graph) -> (u16, u16, u16, u16) {
    (
        graph.len(),
        graph.inputs(),
        graph.degree(),
        graph.live().count(),
    )
}

// The least predecessor of a vertex.
fn least_before(graph: &Graph, v: u16) -> Option<u16> {
    if v < graph.len() {
        graph.preds(v).least()
    } else {
        None
    }
}

#[test]
fn graph_of_one_sum(rt: HostRuntime) -> Result<(), Fail> {
    let graph = one_sum(rt.alloc())?;
    assert_eq!(rt; numbers(&graph), (2, 1, 1, 2));
    assert_eq!(rt; least_before(&graph, 0), None);
    assert_eq!(rt; least_before(&graph, 1), Some(0));
    assert_eq!(rt; graph.in_set().least(), Some(0));
    assert_eq!(rt; graph.out_set().least(), Some(1));
    Ok(())
}

// What a load and a store cost in these games.
const WEIGHTS: Weights = Weights { load: 2, store: 16 };

// The game with one slot, or else with one slot more.
fn retried(graph: Graph) -> Result<Game, TooSmall> {
    match Game::new(graph, 1, WEIGHTS) {
        Ok(game) => Ok(game),
        Err(small) => Game::new(small.graph, 2, WEIGHTS),
    }
}

// How many slots a graph needs, if one is too few.
fn needs(graph: Graph) -> Option<u16> {
    match Game::new(graph, 1, WEIGHTS) {
        Ok(_) => None,
        Err(small) => Some(small.needs),
    }
}

#[test]
fn games(rt: HostRuntime) -> Result<(), Fail> {
    assert_eq!(rt; needs(one_sum(rt.alloc())?), Some(2));
    match retried(one_sum(rt.alloc())?) {
        Ok(game) => {
            assert_eq!(rt; game.slots(), 2);
            assert_eq!(rt; game.weights(), WEIGHTS);
        }
        Err(_) => assert!(rt; false),
    }
    Ok(())
}
