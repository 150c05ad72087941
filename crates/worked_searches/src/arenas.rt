//! Worked examples with values from outside. `past_a_chunk` holds also where one allocation is refused, whichever it is, as under
//! `rt try --test --fail-alloc N`: a push that is refused leaves everything as it was, and can be made again. `two_rows` has ample memory.

use crate::builders::position;
use comp_graph::{NoMemory, VertexSet};
use normal_steps::Step;
use pebble_rules::Position;
use position_arena::{Head, Positions};
use std::test::Fail;

// The first word of the red set and that of the blue set of a position without vertices from 64 on, and a head.
#[derive(Clone, Copy)]
struct Given {
    red: u64,
    blue: u64,
    head: Head,
}

fn case(red: u64, blue: u64, cost: u32, parent: u32, step: Step) -> Given {
    Given {
        red,
        blue,
        head: Head { cost, parent, step },
    }
}

// 4,097 rows: one red and one blue vertex each, and for the last two red ones.
fn row(k: u32) -> Given {
    let step = Step::Spill((k % 256) as u16);
    if k < 4096 {
        case(1 << (k % 64), 1 << (k / 64), k, k / 2, step)
    } else {
        case(3, 1, k, k / 2, step)
    }
}

// Pushes a position that fits and is not there, and answers its place, or else a number that is no place.
fn put(rows: &mut Positions, row: Given) -> Result<u32, NoMemory> {
    let p = position(row.red, row.blue);
    if rows.len() == 4294967295 {
        return Ok(4294967295);
    }
    if !rows.fits(&p) {
        return Ok(4294967295);
    }
    match rows.find(&p) {
        Some(_) => Ok(4294967295),
        None => rows.push(&p, row.head),
    }
}

// Gives a row that is there another head.
fn change(rows: &mut Positions, k: u32, head: Head) {
    if k < rows.len() {
        rows.set_head(k, head);
    }
}

// Whether no row has these words.
fn is_new(rows: &Positions, red: u64, blue: u64) -> bool {
    rows.find(&position(red, blue)).is_none()
}

// Whether row k is found by its position.
fn is_found(rows: &Positions, k: u32, row: Given) -> bool {
    rows.find(&position(row.red, row.blue)) == Some(k)
}

// Whether row k has these words and this head, and is found by its position.
fn is_row(rows: &Positions, k: u32, row: Given) -> bool {
    k < rows.len()
        && rows.words_at(k) == [row.red, row.blue].as_slice()
        && rows.head(k) == row.head
        && rows.position(k) == position(row.red, row.blue)
        && is_found(rows, k, row)
}

// Whether there are just the first `count` rows.
fn are_rows(rows: &Positions, count: u32) -> bool {
    for k in 0..count {
        if !is_row(rows, k, row(k)) {
            return false;
        }
    }
    let next = row(count);
    rows.len() == count && is_new(rows, next.red, next.blue)
}

// Pushes row k. Where it is refused all must be as before, and it is pushed once more.
fn add(rows: &mut Positions, k: u32) -> Result<u32, NoMemory> {
    match put(rows, row(k)) {
        Ok(place) => Ok(place),
        Err(_) if are_rows(rows, k) => put(rows, row(k)),
        Err(error) => Err(error),
    }
}

#[test]
fn two_rows(rt: HostRuntime) -> Result<(), Fail> {
    let start = case(0, 1, 0, 0, Step::Work(1));
    let next = case(3, 1, 1, 0, Step::Work(1));
    let changed = case(0, 1, 5, 1, Step::Drop(0));
    let mut rows = Positions::new(rt.alloc(), 1);
    assert!(rt; is_new(&rows, 0, 1));
    assert_eq!(rt; put(&mut rows, start)?, 0);
    assert!(rt; is_row(&rows, 0, start));
    assert_eq!(rt; put(&mut rows, next)?, 1);
    assert!(rt; is_row(&rows, 0, start) && is_row(&rows, 1, next));
    change(&mut rows, 0, changed.head);
    assert!(rt; is_row(&rows, 0, changed) && is_row(&rows, 1, next));
    assert!(rt; is_new(&rows, 32, 1));
    let far = Position {
        red: VertexSet::from_words([0, 1, 0, 0]),
        blue: VertexSet::from_words([1, 0, 0, 0]),
    };
    assert!(rt; rows.find(&far).is_none());
    Ok(())
}

#[test]
fn past_a_chunk(rt: HostRuntime) -> Result<(), Fail> {
    let mut rows = Positions::new(rt.alloc(), 1);
    for k in 0..4097 {
        assert_eq!(rt; add(&mut rows, k)?, k);
    }
    for k in 0..4097 {
        assert!(rt; is_row(&rows, k, row(k)), "row {k}");
    }
    let changed = Head {
        cost: 7,
        parent: 0,
        step: Step::Drop(0),
    };
    change(&mut rows, 4095, changed);
    let last = case(1 << 63, 1 << 63, 7, 0, Step::Drop(0));
    assert!(rt; is_row(&rows, 4095, last));
    assert!(rt; is_row(&rows, 4094, row(4094)) && is_row(&rows, 4096, row(4096)));
    Ok(())
}
