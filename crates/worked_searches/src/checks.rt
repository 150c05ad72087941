//! Tables of small kernels, worked out by hand: none of them is what a search made.
use crate::builders::{PLAIN, game, input_read_twice, one_sum, position};
use cert_checker::{Reason, Refused, check};
use comp_graph::{Game, Weights};
use potential_cert::{Row, Table};
use std::alloc::{AllocError, Global};
use std::process::Abort;
use std::test::Fail;

/// The numbers of vertices and slots, the weights of a load and a store, and the bound of a table.
type Numbers = (u16, u16, u8, u8, u32);

/// A row by its red and its blue vertices and its cost.
type Line = (u64, u64, u32);

/// The bound that is accepted, or the reason and the row.
type Answer = Result<u32, (Reason, u32)>;

/// A table, and what the check answers to it.
#[derive(Clone, Copy)]
struct Case(Numbers, &'static [Line], Answer);

/// Tables without rows, for one sum with two slots, a load of 2 and a store of 3. Each is refused for its first reason.
const NUMBERS: [Case; 8] = [
    Case((2, 2, 2, 3, 5), &[], Ok(5)),
    Case((2, 2, 2, 3, 0), &[], Ok(0)),
    Case((2, 2, 2, 3, 6), &[], Err((Reason::Start, 0))),
    Case((3, 2, 2, 3, 5), &[], Err((Reason::Graph, 0))),
    Case((2, 3, 2, 3, 5), &[], Err((Reason::Slots, 0))),
    Case((2, 2, 1, 3, 5), &[], Err((Reason::Weights, 0))),
    Case((2, 2, 2, 1, 5), &[], Err((Reason::Weights, 0))),
    Case((8, 3, 1, 1, 9), &[], Err((Reason::Graph, 0))),
];

// The start of one sum, and what `Work(1)` leads to.
const START: Line = (0b00, 0b01, 0);

const WORKED: Line = (0b11, 0b01, 1);

/// Tables for one sum with two slots: a load and a store are the least.
const SUMS: [Case; 11] = [
    Case((2, 2, 1, 1, 2), &[START], Ok(2)),
    Case((2, 2, 1, 1, 2), &[START, WORKED], Ok(2)),
    // no start, and a row of a cost that no play has: the floor of the start is enough
    Case((2, 2, 1, 1, 2), &[(0b11, 0b01, 7)], Ok(2)),
    // a lower bound than the rows support
    Case((2, 2, 1, 1, 1), &[START, (0b11, 0b01, 5)], Ok(1)),
    Case((2, 2, 1, 1, 3), &[START], Err((Reason::Step, 0))),
    Case((2, 2, 1, 1, 3), &[START, WORKED], Err((Reason::Step, 1))),
    Case((2, 2, 1, 1, 2), &[WORKED, START], Err((Reason::Order, 1))),
    Case(
        (2, 2, 1, 1, 2),
        &[START, START, WORKED],
        Err((Reason::Order, 1)),
    ),
    Case(
        (2, 2, 1, 1, 2),
        &[(0b100, 0b01, 0)],
        Err((Reason::Position, 0)),
    ),
    Case(
        (2, 2, 1, 1, 2),
        &[(0b00, 0b00, 0), WORKED],
        Err((Reason::Position, 0)),
    ),
    // the first row has both vertices blue and pays 1: it can finish
    Case(
        (2, 2, 1, 1, 2),
        &[(0b00, 0b11, 1), (0b10, 0b01, 0)],
        Err((Reason::Finish, 0)),
    ),
];

// Rows for the kernel that reads an input early and late.
const EARLY: Line = (0b000, 0b11, 0);

const MIDDLE: Line = (0b010, 0b11, 1);

const LATE: Line = (0b110, 0b11, 1);

/// Tables for the kernel that reads an input early and late, with three slots. Its floor is 3, and three rows support 4. A search makes
/// twelve rows for that.
const READ_TWICE: [Case; 5] = [
    Case((5, 3, 1, 1, 4), &[EARLY, MIDDLE, LATE], Ok(4)),
    Case(
        (5, 3, 1, 1, 5),
        &[EARLY, MIDDLE, LATE],
        Err((Reason::Step, 2)),
    ),
    Case((5, 3, 1, 1, 4), &[EARLY, MIDDLE], Err((Reason::Step, 0))),
    Case(
        (5, 3, 1, 1, 4),
        &[EARLY, MIDDLE, (0b110, 0b11, 2)],
        Err((Reason::Step, 0)),
    ),
    Case(
        (5, 3, 1, 1, 3),
        &[(0b1111, 0b11, 0)],
        Err((Reason::Position, 0)),
    ),
];

// The rows of these lines.
fn rows(alloc: Global, lines: &[Line]) -> Result<Vec<Row>, AllocError> {
    let mut rows = Vec::new(alloc);
    for (red, blue, cost) in lines {
        rows.push(Row {
            position: position(*red, *blue),
            cost: *cost,
        })?;
    }
    Ok(rows)
}

// The table of these numbers and lines.
fn table(alloc: Global, numbers: Numbers, lines: &[Line]) -> Result<Table, AllocError> {
    let (vertices, slots, load, store, bound) = numbers;
    Ok(Table {
        slots,
        vertices,
        weights: Weights { load, store },
        bound,
        rows: rows(alloc, lines)?,
    })
}

// What the check answers on a small table.
fn answer(rt: &impl Abort, game: &Game, table: &Table) -> Answer {
    assert!(rt; table.rows.len() <= 3);
    match check(game, table) {
        Ok(bound) => Ok(bound),
        Err(Refused { reason, row }) => Err((reason, row)),
    }
}

// Compares what the check answers on each table.
fn compare(rt: &impl Abort, alloc: Global, game: &Game, cases: &[Case]) -> Result<(), Fail> {
    for case in cases {
        let Case(numbers, lines, wanted) = *case;
        let table = table(alloc, numbers, lines)?;
        assert_eq!(rt; answer(rt, game, &table), wanted);
    }
    Ok(())
}

fn numbers() -> [Case; 8] {
    NUMBERS
}

fn sums() -> [Case; 11] {
    SUMS
}

fn read_twice() -> [Case; 5] {
    READ_TWICE
}

#[test]
fn numbers_of_tables(rt: HostRuntime) -> Result<(), Fail> {
    let sum = game(&rt, one_sum(rt.alloc())?, 2, Weights { load: 2, store: 3 });
    compare(&rt, rt.alloc(), &sum, &numbers())
}

#[test]
fn rows_for_one_sum(rt: HostRuntime) -> Result<(), Fail> {
    let sum = game(&rt, one_sum(rt.alloc())?, 2, PLAIN);
    compare(&rt, rt.alloc(), &sum, &sums())
}

#[test]
fn rows_for_an_input_read_twice(rt: HostRuntime) -> Result<(), Fail> {
    let kernel = game(&rt, input_read_twice(rt.alloc())?, 3, PLAIN);
    compare(&rt, rt.alloc(), &kernel, &read_twice())
}
