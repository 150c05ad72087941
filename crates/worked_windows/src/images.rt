//! Automorphisms of the window on 4 and 6 of the butterfly, and images of its positions, worked out by hand.
use crate::builders::{butterfly, game, position};
use crate::windows::{FIRST, charged, window};
use comp_graph::Game;
use pebble_rules::Position;
use std::alloc::{AllocError, Global};
use std::process::Abort;
use std::test::Fail;
use window_floor::workers;
use window_images::{Permutation, is_automorphism, least_image};
use window_steps::WindowSets;

/// 4 and 6 change places.
const VALUES: &[u8] = &[0, 1, 2, 3, 6, 5, 4, 7];

/// 8 and 9 change places.
const READERS: &[u8] = &[0, 1, 2, 3, 4, 5, 6, 7, 9, 8, 10, 11];

/// Permutations, and whether they are automorphisms.
fn renamings() -> [(&'static [u8], bool); 8] {
    [
        (&[], true),
        (VALUES, true),
        (READERS, true),
        // 0 and 1 are not known
        (&[1, 0], true),
        // 6 and 9 go to 4 and 8
        (&[0, 1, 2, 3, 6, 5, 4, 7, 9, 8], true),
        // 4 and 8 change places: 8 is not tracked
        (&[0, 1, 2, 3, 8, 5, 6, 7, 4], false),
        // 4 and 5 change places: 5 is not tracked
        (&[0, 1, 2, 3, 5, 4], false),
        // 8 and 10 change places: 10 is not required
        (&[0, 1, 2, 3, 4, 5, 6, 7, 10, 9, 8], false),
    ]
}

/// Lists, and whether they are permutations.
fn lists() -> [(&'static [u8], bool); 6] {
    [
        (&[], true),
        (&[2, 0, 1], true),
        // 1 is in it twice
        (&[0, 1, 1], false),
        (&[5, 5, 5, 5, 5, 5], false),
        // 3 is not below 3
        (&[1, 2, 3], false),
        (&[255], false),
    ]
}

/// Positions by their red and their blue vertices (vertex v is bit v), and their images under the exchange of 4 and 6.
fn images() -> [[u64; 4]; 4] {
    [
        [0b1_0000, 0b100_0000, 0b100_0000, 0b1_0000],
        [0b101_0000, 0b1_0000_0000, 0b101_0000, 0b1_0000_0000],
        [0, 0b1_0001_0000, 0, 0b1_0100_0000],
        [0b100_0000, 0b10_0000_0000, 0b1_0000, 0b10_0000_0000],
    ]
}

/// Positions, and the least images under the exchanges of 4 and 6 and of 8 and 9.
fn least_images() -> [[u64; 4]; 6] {
    [
        [0b100_0000, 0b1_0000, 0b1_0000, 0b100_0000],
        [0b1_0000, 0b100_0000, 0b1_0000, 0b100_0000],
        // the red vertices stay, so the blue ones decide
        [0b101_0000, 0b100_0000, 0b101_0000, 0b1_0000],
        [0, 0b1_0100_0000, 0, 0b1_0001_0000],
        [0, 0b10_0001_0000, 0, 0b1_0001_0000],
        // the first round exchanges 4 and 6, the second 8 and 9
        [0b100_0000, 0b10_0000_0000, 0b1_0000, 0b1_0000_0000],
    ]
}

// The permutation that a list is.
fn permutation(rt: &impl Abort, list: &[u8]) -> Permutation {
    assert!(rt; list.len() <= 256);
    match Permutation::new(list) {
        Some(permutation) => permutation,
        None => panic!(rt; "the list is a permutation"),
    }
}

// Whether a list is a permutation.
fn is_permutation(rt: &impl Abort, list: &[u8]) -> bool {
    assert!(rt; list.len() <= 256);
    Permutation::new(list).is_some()
}

// Whether a permutation is an automorphism of a window.
fn keeps(rt: &impl Abort, game: &Game, window: &WindowSets, permutation: &Permutation) -> bool {
    assert!(rt; window.loads.len() == game.graph().len() as usize);
    let workers = workers(game, window);
    is_automorphism(game, window, &workers, permutation)
}

// Whether a permutation is an automorphism of the window on 4 and 6.
fn is_kept(rt: &impl Abort, alloc: Global, game: &Game, list: &[u8]) -> Result<bool, AllocError> {
    let loads = charged(alloc, game, &FIRST)?;
    Ok(keeps(rt, game, &window(&FIRST, &loads), &permutation(rt, list)))
}

// Whether two positions are the same.
fn are_same(p: &Position, q: &Position) -> bool {
    p.red == q.red && p.blue == q.blue
}

// Whether the image of the position of a row is the one by hand.
fn has_image(permutation: &Permutation, row: &[u64; 4]) -> bool {
    let [red, blue, red_image, blue_image] = *row;
    let image = permutation.image_of_position(&position(red, blue));
    are_same(&image, &position(red_image, blue_image))
}

// Whether the least image of the position of a row is the one by hand.
fn has_least(permutations: &[Permutation], row: &[u64; 4]) -> bool {
    let [red, blue, red_image, blue_image] = *row;
    let image = least_image(permutations, &position(red, blue));
    are_same(&image, &position(red_image, blue_image))
}

#[test]
fn automorphisms_of_the_window(rt: HostRuntime) -> Result<(), Fail> {
    let game = game(&rt, butterfly(rt.alloc())?, 3, 1, 1);
    for (list, wanted) in renamings() {
        assert!(rt; is_kept(&rt, rt.alloc(), &game, list)? == wanted);
    }
    Ok(())
}

#[test]
fn lists_that_are_permutations(rt: HostRuntime) -> Result<(), Fail> {
    for (list, wanted) in lists() {
        assert!(rt; is_permutation(&rt, list) == wanted);
    }
    Ok(())
}

#[test]
fn images_of_positions(rt: HostRuntime) -> Result<(), Fail> {
    let exchange = permutation(&rt, VALUES);
    for row in &images() {
        assert!(rt; has_image(&exchange, row));
    }
    Ok(())
}

#[test]
fn least_images_of_positions(rt: HostRuntime) -> Result<(), Fail> {
    let exchanges = [permutation(&rt, VALUES), permutation(&rt, READERS)];
    for row in &least_images() {
        assert!(rt; has_least(&exchanges, row));
    }
    Ok(())
}
