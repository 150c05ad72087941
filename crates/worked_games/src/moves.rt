//! Moves from the start, lists of moves and the order of positions, with values from outside.
use crate::builders::{WEIGHTS, game, one_sum, spare_input};
use comp_graph::{Game, VertexSet};
use pebble_rules::{BadMove, Illegal, Move, Position, Rule, apply, moved, replay};
use std::cmp::Ordering;
use std::process::Abort;
use std::test::Fail;

// A move from the start, and the number of the rule that it breaks, if it breaks one.
fn from_start() -> &'static [(Move, Option<u8>)] {
    &[
        (Move::Load(0), None),
        (Move::Load(1), Some(1)),
        (Move::Store(0), Some(2)),
        (Move::Compute(1), Some(3)),
        (Move::Compute(0), Some(3)),
        (Move::DropRed(0), Some(4)),
        (Move::DropBlue(1), Some(4)),
        (Move::DropBlue(0), None),
    ]
}

// The number of the rule that a move from the start breaks, if it breaks one.
fn broken(rt: &impl Abort, game: &Game, mv: Move) -> Option<u8> {
    let start = Position::start(game);
    assert!(rt; mv.vertex() < game.graph().len());
    match apply(game, &start, mv) {
        Ok(after) => {
            assert!(rt; after == moved(&start, mv));
            None
        }
        Err(Illegal { rule, vertex }) => {
            assert_eq!(rt; vertex, mv.vertex());
            Some(rule.number())
        }
    }
}

#[test]
fn moves_from_the_start(rt: HostRuntime) -> Result<(), Fail> {
    let game = game(&rt, one_sum(rt.alloc())?, 2, WEIGHTS);
    for (mv, rule) in from_start() {
        assert_eq!(rt; broken(&rt, &game, *mv), *rule);
    }
    Ok(())
}

// The number of red pebbles at the end and the cost, or the first bad move.
fn played(rt: &impl Abort, game: &Game, moves: &[Move]) -> Result<(u16, u32), BadMove> {
    let count = game.graph().len();
    assert!(rt; moves.len() < 10);
    assert!(rt; moves.iter().all(|mv| mv.vertex() < count));
    let end = replay(game, moves)?;
    Ok((end.position.red.count(), end.cost))
}

// The first bad move is this one, by this rule at this vertex.
fn bad(at: u32, rule: Rule, vertex: u16) -> Result<(u16, u32), BadMove> {
    let why = Illegal { rule, vertex };
    Err(BadMove { at, why })
}

#[test]
fn lists_of_moves(rt: HostRuntime) -> Result<(), Fail> {
    let game = game(&rt, one_sum(rt.alloc())?, 2, WEIGHTS);
    let again = [Move::Load(0), Move::Compute(1), Move::Load(0)];
    assert_eq!(rt; played(&rt, &game, &again), Ok((2, 4)));
    let stored = [Move::Load(0), Move::Compute(1), Move::Store(1)];
    assert_eq!(rt; played(&rt, &game, &stored), Ok((2, 5)));
    assert_eq!(rt; played(&rt, &game, &[]), Ok((0, 0)));
    let early = [Move::Compute(1), Move::Load(0)];
    assert_eq!(rt; played(&rt, &game, &early), bad(0, Rule::Computation, 1));
    Ok(())
}

#[test]
fn a_third_red_pebble(rt: HostRuntime) -> Result<(), Fail> {
    let game = game(&rt, spare_input(rt.alloc())?, 2, WEIGHTS);
    let full = [
        Move::Load(0),
        Move::Load(1),
        Move::Compute(2),
        Move::DropRed(1),
    ];
    assert_eq!(rt; played(&rt, &game, &full), bad(2, Rule::RedPebbles, 2));
    Ok(())
}

// Two positions, each by the first two words of its red set and the first two of its blue set, and their order.
fn pairs() -> &'static [([u64; 4], [u64; 4], Ordering)] {
    &[
        ([3, 0, 1, 0], [3, 0, 1, 0], Ordering::Equal),
        ([0, 9, 0, 0], [1, 0, 0, 0], Ordering::Less),
        ([2, 0, 0, 0], [1, 7, 7, 7], Ordering::Greater),
        ([2, 0, 5, 0], [2, 0, 4, 9], Ordering::Greater),
        ([2, 0, 5, 8], [2, 0, 5, 9], Ordering::Less),
    ]
}

// The position of the first two words of the red set, and those of the blue set.
fn position_of([r0, r1, b0, b1]: [u64; 4]) -> Position {
    Position {
        red: VertexSet::from_words([r0, r1, 0, 0]),
        blue: VertexSet::from_words([b0, b1, 0, 0]),
    }
}

// Whether each comparison of two positions answers by this order.
fn compare_so(first: Position, second: Position, order: Ordering) -> bool {
    first.order(&second) == order
        && first.cmp(&second) == order
        && (first == second) == order.is_eq()
        && (first < second) == order.is_lt()
}

#[test]
fn orders(rt: HostRuntime) -> Result<(), Fail> {
    for (first, second, order) in pairs() {
        assert!(rt; compare_so(position_of(*first), position_of(*second), *order));
    }
    Ok(())
}
