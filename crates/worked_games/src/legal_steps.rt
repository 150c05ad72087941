//! The legal steps of thirty positions, plans and a play, written out by hand.
use crate::builders::{WEIGHTS, diamond, game, mixed, one_sum, plan};
use comp_graph::{Game, Graph, VertexSet, Weights};
use normal_steps::Step::{self, Drop, Spill, Work};
use normal_steps::{Steps, after, cost, finish, legal};
use pebble_rules::Position;
use std::alloc::{AllocError, Global};
use std::process::Abort;
use std::test::Fail;

/// A position by its red and its blue vertices (vertex v is bit v), its legal steps in order, and the cost of the finish.
#[derive(Clone, Copy)]
struct Row(u64, u64, &'static [Step], Option<u32>);

/// One sum with two slots: a red pebble may be in the way as soon as there is one.
const ONE_SUM: [Row; 10] = [
    Row(0b00, 0b01, &[Work(1)], None),
    Row(0b01, 0b01, &[Work(1), Drop(0)], None),
    Row(0b10, 0b01, &[Drop(1), Spill(1)], Some(3)),
    Row(0b11, 0b01, &[Drop(0), Drop(1), Spill(1)], Some(3)),
    Row(0b10, 0b11, &[Drop(1)], Some(0)),
    Row(0b00, 0b11, &[Work(1)], Some(0)),
    Row(0b00, 0b00, &[], None),
    Row(0b01, 0b00, &[Work(1), Drop(0), Spill(0)], None),
    Row(0b11, 0b00, &[Drop(0), Drop(1), Spill(0), Spill(1)], Some(3)),
    Row(0b00, 0b10, &[], Some(0)),
];

/// The diamond with three slots: a red pebble may be in the way as soon as there is one.
const DIAMOND: [Row; 12] = [
    Row(0b0000, 0b0001, &[Work(1), Work(2)], None),
    Row(0b0011, 0b0001, &[Work(2), Drop(0), Drop(1), Spill(1)], None),
    Row(
        0b0111,
        0b0001,
        &[Drop(0), Drop(1), Drop(2), Spill(1), Spill(2)],
        None,
    ),
    Row(
        0b0110,
        0b0001,
        &[Work(3), Drop(1), Drop(2), Spill(1), Spill(2)],
        None,
    ),
    Row(0b0010, 0b0001, &[Work(2), Drop(1), Spill(1)], None),
    Row(0b0100, 0b0001, &[Work(1), Drop(2), Spill(2)], None),
    Row(
        0b1110,
        0b0001,
        &[Drop(1), Drop(2), Drop(3), Spill(1), Spill(2), Spill(3)],
        Some(3),
    ),
    Row(
        0b1000,
        0b0001,
        &[Work(1), Work(2), Drop(3), Spill(3)],
        Some(3),
    ),
    Row(0b0000, 0b0111, &[Work(1), Work(2), Work(3)], None),
    Row(0b0001, 0b0111, &[Work(1), Work(2), Drop(0)], None),
    Row(0b0010, 0b0111, &[Work(2), Work(3), Drop(1)], None),
    Row(0b0101, 0b0001, &[Work(1), Drop(0), Drop(2), Spill(2)], None),
];

/// The mixed graph with four slots: a red pebble may be in the way from two red pebbles on.
const MIXED: [Row; 8] = [
    Row(0b00000, 0b00011, &[Work(3), Work(4)], None),
    Row(0b00000, 0b00001, &[Work(4)], None),
    Row(0b00001, 0b00011, &[Work(3), Work(4)], None),
    Row(
        0b01011,
        0b00011,
        &[Work(4), Drop(0), Drop(1), Drop(3), Spill(3)],
        None,
    ),
    Row(
        0b11011,
        0b00011,
        &[Drop(0), Drop(1), Drop(3), Drop(4), Spill(3), Spill(4)],
        Some(6),
    ),
    Row(
        0b11000,
        0b00011,
        &[Drop(3), Drop(4), Spill(3), Spill(4)],
        Some(6),
    ),
    Row(
        0b10100,
        0b00011,
        &[Drop(2), Drop(4), Spill(2), Spill(4)],
        None,
    ),
    Row(0b10000, 0b00011, &[Work(3)], None),
];

// The position of these red and blue vertices.
fn position(red: u64, blue: u64) -> Position {
    Position {
        red: VertexSet::from_words([red, 0, 0, 0]),
        blue: VertexSet::from_words([blue, 0, 0, 0]),
    }
}

// The legal steps of a position.
fn steps_at(alloc: Global, game: &Game, p: &Position) -> Result<Vec<Step>, AllocError> {
    Steps::new(game, p).collect(alloc)
}

// The cost of the finish, or `None` where an output has no pebble.
fn finish_at(game: &Game, p: &Position) -> Option<u32> {
    finish(game, p)
}

// Whether a step is legal just where it is one of these.
fn is_one_of(game: &Game, p: &Position, steps: &[Step], step: Step) -> bool {
    legal(game, p, step) == steps.contains(&step)
}

// Compares the legal steps and the finish of a position, and each answer of `legal` on the first eight numbers.
fn compare(rt: &impl Abort, alloc: Global, game: &Game, row: Row) -> Result<(), AllocError> {
    let Row(red, blue, steps, cost) = row;
    let p = position(red, blue);
    assert!(rt; steps_at(alloc, game, &p)?.as_slice() == steps);
    assert_eq!(rt; finish_at(game, &p), cost);
    for v in 0..8 {
        for step in [Work(v), Drop(v), Spill(v)] {
            assert!(rt; is_one_of(game, &p, steps, step));
        }
    }
    Ok(())
}

// Compares each row of the game on a graph.
fn compare_all(
    rt: &impl Abort,
    alloc: Global,
    graph: Graph,
    slots: u16,
    rows: &[Row],
) -> Result<(), Fail> {
    let game = game(rt, graph, slots, WEIGHTS);
    for row in rows {
        compare(rt, alloc, &game, *row)?;
    }
    Ok(())
}

fn rows_of_one_sum() -> &'static [Row] {
    &ONE_SUM
}

fn rows_of_the_diamond() -> &'static [Row] {
    &DIAMOND
}

fn rows_of_the_mixed_graph() -> &'static [Row] {
    &MIXED
}

#[test]
fn legal_steps_of_one_sum(rt: HostRuntime) -> Result<(), Fail> {
    let graph = one_sum(rt.alloc())?;
    compare_all(&rt, rt.alloc(), graph, 2, rows_of_one_sum())
}

#[test]
fn legal_steps_of_the_diamond(rt: HostRuntime) -> Result<(), Fail> {
    let graph = diamond(rt.alloc())?;
    compare_all(&rt, rt.alloc(), graph, 3, rows_of_the_diamond())
}

#[test]
fn legal_steps_of_the_mixed_graph(rt: HostRuntime) -> Result<(), Fail> {
    let graph = mixed(rt.alloc())?;
    compare_all(&rt, rt.alloc(), graph, 4, rows_of_the_mixed_graph())
}

/// What a load and a store cost, some steps, and the cost of the plan that they are, if they are one.
#[derive(Clone, Copy)]
struct Planned(u8, u8, &'static [Step], Option<u32>);

// Plans of one sum with two slots.
fn plans() -> &'static [Planned] {
    &[
        Planned(2, 3, &[Work(1)], Some(5)),
        Planned(1, 1, &[Work(1)], Some(2)),
        Planned(2, 3, &[], None),
        Planned(2, 3, &[Work(1), Work(1)], None),
    ]
}

// The cost of the plan of these steps, which keeps them and the game, if they are one.
fn total(
    rt: &impl Abort,
    alloc: Global,
    game: &Game,
    steps: &[Step],
) -> Result<Option<u32>, AllocError> {
    match plan(alloc, game, steps)? {
        Some(plan) => {
            assert!(rt; plan.steps() == steps);
            assert_eq!(rt; plan.game().slots(), 2);
            Ok(Some(plan.total()))
        }
        None => Ok(None),
    }
}

// Compares the cost of a plan.
fn compare_plan(rt: &impl Abort, alloc: Global, planned: Planned) -> Result<(), Fail> {
    let Planned(load, store, steps, cost) = planned;
    let game = game(rt, one_sum(alloc)?, 2, Weights { load, store });
    assert_eq!(rt; total(rt, alloc, &game, steps)?, cost);
    Ok(())
}

#[test]
fn plans_of_one_sum(rt: HostRuntime) -> Result<(), Fail> {
    for planned in plans() {
        compare_plan(&rt, rt.alloc(), *planned)?;
    }
    Ok(())
}

// The steps of a play on the diamond, and what each of them costs: the loads of the missing predecessors, or a store.
fn play() -> &'static [(Step, u32)] {
    &[
        (Work(1), 2),
        (Work(2), 0),
        (Spill(1), 3),
        (Drop(0), 0),
        (Work(3), 2),
        (Drop(2), 0),
        (Drop(1), 0),
        (Work(2), 2),
    ]
}

// The cost of a step, which is legal, and the position after it.
fn taken(rt: &impl Abort, game: &Game, p: &Position, step: Step) -> (u32, Position) {
    assert!(rt; legal(game, p, step));
    (cost(game, p, step), after(game, p, step))
}

// Plays some steps from a position, and compares what they cost.
fn check_play(rt: &impl Abort, game: &Game, first: Position, play: &[(Step, u32)]) {
    let mut p = first;
    for (step, expected) in play {
        let (paid, next) = taken(rt, game, &p, *step);
        assert_eq!(rt; paid, *expected);
        p = next;
    }
}

// The start of a game.
fn start(game: &Game) -> Position {
    Position::start(game)
}

#[test]
fn a_play_on_the_diamond(rt: HostRuntime) -> Result<(), Fail> {
    let game = game(&rt, diamond(rt.alloc())?, 3, WEIGHTS);
    let steps = steps_at(rt.alloc(), &game, &start(&game))?;
    assert!(rt; steps.as_slice() == [Work(1), Work(2)].as_slice());
    check_play(&rt, &game, start(&game), play());
    Ok(())
}
