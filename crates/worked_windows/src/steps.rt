//! Legal steps, costs and the finish of positions of windows with three slots and the weights 1 and 1, worked out by hand.
use crate::builders::{butterfly, game, position, set};
use crate::windows::{Case, FIRST, ONE_LOAD, OUTPUTS, charged, window};
use comp_graph::Game;
use normal_steps::Step::{self, Drop, Spill, Work};
use pebble_rules::Position;
use std::alloc::{AllocError, Global};
use std::process::Abort;
use std::test::Fail;
use window_steps::{StepSets, WindowSets, after, can_finish, cost, finish_cost, legal, step_sets};

/// A window, a position by its red and its blue vertices (vertex v is bit v), the vertices for which `Work`, `Drop` and `Spill` are legal,
/// whether the play can finish, and what the finish costs.
#[derive(Clone, Copy)]
struct Row(Case, u64, u64, [u64; 3], bool, u32);

/// Positions and their steps.
fn rows() -> [Row; 11] {
    [
        // 8 and 9 have no operand, and no pebble is in the way
        Row(FIRST, 0, 0, [0b101_0000, 0, 0], false, 0),
        // 4, 2, 3 and 6 are more than three
        Row(FIRST, 0b1_0000, 0, [0, 0b1_0000, 0b1_0000], false, 0),
        // 4 may be made again
        Row(FIRST, 0, 0b1_0000, [0b101_0000, 0, 0], false, 0),
        // 8 and 9 have their operands
        Row(
            FIRST,
            0b100_0000,
            0b1_0000,
            [0b11_0000_0000, 0b100_0000, 0b100_0000],
            false,
            0,
        ),
        // 4 is stored already
        Row(
            FIRST,
            0b101_0000,
            0b1_0001_0000,
            [0b10_0000_0000, 0b101_0000, 0b100_0000],
            false,
            0,
        ),
        Row(
            FIRST,
            0b101_0000,
            0b11_0001_0000,
            [0, 0b101_0000, 0b100_0000],
            true,
            0,
        ),
        // 5 loads 0 without a charge
        Row(ONE_LOAD, 0, 0b1, [0b11_0000, 0, 0], false, 0),
        Row(ONE_LOAD, 0b1, 0b1, [0b1_0000, 0b1, 0], false, 0),
        Row(ONE_LOAD, 0b1, 0b1_0001, [0, 0b1, 0], true, 0),
        // 11 has no pebble, and 8 and 11 are not blue
        Row(
            OUTPUTS,
            0b1_0000_0000,
            0b110_0000_0000,
            [0, 0b1_0000_0000, 0b1_0000_0000],
            false,
            2,
        ),
        Row(
            OUTPUTS,
            0b1_0000_0000,
            0b1110_0000_0000,
            [0, 0b1_0000_0000, 0b1_0000_0000],
            true,
            1,
        ),
    ]
}

/// The steps that a plan of cost 14 shows in the window on 4 and 6, and what each costs.
fn play() -> [(Step, u32); 7] {
    [
        (Work(4), 0),
        (Spill(4), 1),
        (Work(6), 0),
        // 4 is loaded
        (Work(8), 1),
        (Work(9), 0),
        (Drop(4), 0),
        (Drop(6), 0),
    ]
}

// Whether the steps are these.
fn are_steps(steps: &StepSets, wanted: &[u64; 3]) -> bool {
    let [works, drops, spills] = *wanted;
    steps.works == set(works) && steps.drops == set(drops) && steps.spills == set(spills)
}

// Whether the steps and the finish of a row's position of the window are those by hand.
fn agree(rt: &impl Abort, game: &Game, window: &WindowSets, row: &Row) -> bool {
    let Row(_, red, blue, steps, finishes, finish) = *row;
    assert!(rt; window.loads.len() == game.graph().len() as usize);
    let p = position(red, blue);
    are_steps(&step_sets(game, window, &p), &steps)
        && can_finish(game, window, &p) == finishes
        && finish_cost(game, window, &p) == finish
}

// Whether a row holds in the game.
fn holds(rt: &impl Abort, alloc: Global, game: &Game, row: &Row) -> Result<bool, AllocError> {
    let case = row.0;
    let loads = charged(alloc, game, &case)?;
    Ok(agree(rt, game, &window(&case, &loads), row))
}

// The cost of a step, which is legal, and the position after it.
fn taken(
    rt: &impl Abort,
    game: &Game,
    window: &WindowSets,
    p: &Position,
    step: Step,
) -> (u32, Position) {
    assert!(rt; window.loads.len() == game.graph().len() as usize);
    assert!(rt; legal(game, window, p, step));
    (cost(game, window, p, step), after(game, window, p, step))
}

// The position after the steps of the play, each of which costs what it has to.
fn played(rt: &impl Abort, game: &Game, window: &WindowSets) -> Position {
    let mut p = position(0, 0);
    for (step, wanted) in play() {
        let (paid, next) = taken(rt, game, window, &p, step);
        assert_eq!(rt; paid, wanted);
        p = next;
    }
    p
}

// The last position of the play.
fn last_position(rt: &impl Abort, alloc: Global, game: &Game) -> Result<Position, AllocError> {
    let loads = charged(alloc, game, &FIRST)?;
    Ok(played(rt, game, &window(&FIRST, &loads)))
}

#[test]
fn steps_of_positions(rt: HostRuntime) -> Result<(), Fail> {
    let game = game(&rt, butterfly(rt.alloc())?, 3, 1, 1);
    for row in &rows() {
        assert!(rt; holds(&rt, rt.alloc(), &game, row)?);
    }
    Ok(())
}

#[test]
fn a_play_of_a_window(rt: HostRuntime) -> Result<(), Fail> {
    let game = game(&rt, butterfly(rt.alloc())?, 3, 1, 1);
    let last = last_position(&rt, rt.alloc(), &game)?;
    assert!(rt; last.red == set(0) && last.blue == set(0b11_0001_0000));
    Ok(())
}
