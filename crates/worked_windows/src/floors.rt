//! Floors of positions of windows, worked out by hand.

use crate::builders::{butterfly, game, position};
use crate::windows::{Case, FIRST, INPUTS, ONE_LOAD, OUTPUTS, SECOND, WHOLE, charged, window};
use comp_graph::{Game, NoMemory};
use pebble_rules::Position;
use std::alloc::Global;
use std::process::Abort;
use std::test::Fail;
use window_floor::{WindowFloor, floor, is_window};

/// A window, the slots, the weights of a load and a store, a position by its red and its blue vertices, and its floor.
type Row = (Case, u16, u8, u8, u64, u64, u32);

/// Floors of the start.
fn starts() -> [Row; 11] {
    [
        // each of two groups is entered by two loads at least
        (INPUTS, 3, 1, 1, 0, 0b1111, 4),
        // one value is loaded for 8 and 9, and stored before that
        (FIRST, 3, 1, 1, 0, 0, 2),
        (SECOND, 3, 1, 1, 0, 0, 2),
        // nothing is loaded
        (OUTPUTS, 3, 1, 1, 0, 0, 4),
        (WHOLE, 3, 1, 1, 0, 0b1111, 12),
        // 6 + 6 for the inputs, 5 + 5 for the values, and 2 for each output
        (WHOLE, 3, 3, 2, 0, 0b1111, 30),
        // an entry loads one value at least, but each input is a cone
        (INPUTS, 4, 1, 1, 0, 0b1111, 4),
        // no entry has to load a value
        (INPUTS, 5, 2, 1, 0, 0b1111, 8),
        (FIRST, 5, 1, 1, 0, 0, 0),
        (WHOLE, 5, 1, 1, 0, 0b1111, 8),
        // 5 loads 0 without a charge
        (ONE_LOAD, 3, 1, 1, 0, 0b1, 0),
    ]
}

/// Floors of other positions.
fn positions() -> [Row; 9] {
    [
        // the first Work may find 4 red
        (FIRST, 3, 1, 1, 0b1_0000, 0, 1),
        // 4 is stored
        (FIRST, 3, 1, 1, 0, 0b1_0000, 1),
        (FIRST, 3, 1, 1, 0b100_0000, 0b1_0000, 1),
        (FIRST, 3, 1, 1, 0b101_0000, 0b1_0000, 0),
        (FIRST, 3, 1, 1, 0, 0b11_0000_0000, 0),
        // one of four inputs is red: three cones are left
        (INPUTS, 5, 2, 1, 0b0001, 0b1111, 6),
        // 4 and 5 are done: 6 and 7 are left
        (INPUTS, 3, 1, 1, 0, 0b0011_1111, 2),
        // two outputs are blue already
        (OUTPUTS, 3, 1, 7, 0b1_0000_0000, 0b1100_0000_0000, 14),
        (WHOLE, 3, 1, 1, 0, 0b1111_0000_1111, 0),
    ]
}

// The floor of a position of a window.
fn floor_of(
    rt: &impl Abort,
    alloc: Global,
    game: &Game,
    case: &Case,
    p: &Position,
) -> Result<u32, NoMemory> {
    let loads = charged(alloc, game, case)?;
    let window = window(case, &loads);
    assert!(rt; window.loads.len() == game.graph().len() as usize);
    assert!(rt; is_window(game, &window));
    let made = WindowFloor::new(alloc, game, &window)?;
    Ok(floor(game, &window, &made, p))
}

// Whether the floor of a row is the one by hand.
fn holds(rt: &impl Abort, alloc: Global, row: &Row) -> Result<bool, NoMemory> {
    let (case, slots, load, store, red, blue, wanted) = *row;
    let game = game(rt, butterfly(alloc)?, slots, load, store);
    Ok(floor_of(rt, alloc, &game, &case, &position(red, blue))? == wanted)
}

#[test]
fn floors_of_starts(rt: HostRuntime) -> Result<(), Fail> {
    for row in &starts() {
        assert!(rt; holds(&rt, rt.alloc(), row)?);
    }
    Ok(())
}

#[test]
fn floors_of_positions(rt: HostRuntime) -> Result<(), Fail> {
    for row in &positions() {
        assert!(rt; holds(&rt, rt.alloc(), row)?);
    }
    Ok(())
}
