//! Floors worked out by hand.
use crate::builders::{game, position, two_steps};
use comp_graph::{Game, Weights};
use forced_bounds::{floor, floor_below};
use pebble_rules::Position;
use std::process::Abort;
use std::test::Fail;

/// A position by its red and its blue vertices, the weights of a load and a store, and the floor.
const FLOORS: [(u64, u64, u8, u8, u32); 9] = [
    // the start: x is loaded and y is stored
    (0b000, 0b001, 1, 1, 2),
    // y is stored, and x or t is loaded: the cone of y meets that of t, so y counts no further load
    (0b000, 0b011, 1, 1, 2),
    (0b000, 0b011, 2, 3, 5),
    (0b000, 0b011, 3, 2, 5),
    (0b000, 0b011, 16, 1, 17),
    // t is red, and y comes without a load
    (0b010, 0b001, 16, 1, 1),
    // x is red, and t and y come without a load
    (0b001, 0b001, 16, 3, 3),
    // y is red, and blue already
    (0b100, 0b001, 16, 3, 3),
    (0b000, 0b101, 16, 3, 0),
];

// Whether the floor is this one.
fn is_floor(game: &Game, p: &Position, wanted: u32) -> bool {
    floor(game, p) == wanted
}

// Whether the count that stops at `enough` is the floor, or else between the two.
fn is_counted(game: &Game, p: &Position, enough: u32, wanted: u32) -> bool {
    let counted = floor_below(game, p, enough);
    counted == wanted || (enough <= counted && counted < wanted)
}

// Compares the floor of a position, and what is counted up to some numbers.
fn compare(rt: &impl Abort, game: &Game, p: Position, wanted: u32) {
    assert!(rt; is_floor(game, &p, wanted));
    for enough in [0, 1, 2, 3, 5, 6, 18] {
        assert!(rt; is_counted(game, &p, enough, wanted));
    }
}

fn known_floors() -> &'static [(u64, u64, u8, u8, u32)] {
    &FLOORS
}

#[test]
fn floors(rt: HostRuntime) -> Result<(), Fail> {
    for (red, blue, load, store, wanted) in known_floors() {
        let weights = Weights {
            load: *load,
            store: *store,
        };
        let game = game(&rt, two_steps(rt.alloc())?, 2, weights);
        compare(&rt, &game, position(*red, *blue), *wanted);
    }
    Ok(())
}
