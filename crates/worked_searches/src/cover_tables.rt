//! Covered tables of small kernels, worked out by hand: their checks, their bytes and searches that make them.
use crate::builders::{KNOT_IN_THREE, PLAIN, chain, game, knot, one_sum, plan, position};
use branch_bound::Verdict;
use cert_checker::{Reason, Refused};
use comp_graph::{Game, Weights};
use cover_cert::{
    Cover, CoverEnd, CoverFound, CoverRow, CoverTable, check_cover, cover_search, covers,
    read_cover, write_cover,
};
use pebble_rules::Position;
use std::alloc::{AllocError, Global};
use std::process::Abort;
use std::test::Fail;

/// The numbers of vertices and slots, the weights of a load and a store, and the bound of a table.
type Numbers = (u16, u16, u8, u8, u32);

/// A row by its red and its blue vertices, its cost, and the place and the row of its name, if it has one.
type Line = (u64, u64, u32, Option<(u16, u32)>);

/// The bound that is accepted, or the reason and the row.
type Answer = Result<u32, (Reason, u32)>;

/// A table, and what the check answers to it.
#[derive(Clone, Copy)]
struct Case(Numbers, &'static [Line], Answer);

// The numbers of a table for one sum with two slots and the bound 2.
const SUM: Numbers = (2, 2, 1, 1, 2);

/// The start of one sum, and what `Work(1)`, its only step, leads to.
const START: Line = (0b00, 0b01, 0, None);

const WORKED: Line = (0b11, 0b01, 1, None);

/// Tables for one sum with two slots: a load and a store are the least.
const SUMS: [Case; 14] = [
    Case(SUM, &[], Ok(2)),
    Case((2, 2, 1, 1, 3), &[], Err((Reason::Start, 0))),
    Case((2, 3, 1, 1, 2), &[], Err((Reason::Slots, 0))),
    Case((2, 2, 1, 2, 2), &[], Err((Reason::Weights, 0))),
    Case(SUM, &[START], Ok(2)),
    Case((2, 2, 1, 1, 3), &[START], Err((Reason::Step, 0))),
    // the step to the second row has its name
    Case(SUM, &[(0b00, 0b01, 0, Some((0, 1))), WORKED], Ok(2)),
    // a row that names itself, a step that there is not, and a row that there is not
    Case(
        SUM,
        &[(0b00, 0b01, 0, Some((0, 0)))],
        Err((Reason::Cover, 0)),
    ),
    Case(
        SUM,
        &[(0b00, 0b01, 0, Some((1, 1))), WORKED],
        Err((Reason::Cover, 0)),
    ),
    Case(
        SUM,
        &[(0b00, 0b01, 0, Some((0, 2))), WORKED],
        Err((Reason::Cover, 0)),
    ),
    // the second row covers where the step leads, but costs more
    Case(
        SUM,
        &[(0b00, 0b01, 0, Some((0, 1))), (0b11, 0b01, 2, None)],
        Err((Reason::Cover, 0)),
    ),
    Case(SUM, &[WORKED, START], Err((Reason::Order, 1))),
    Case(SUM, &[(0b100, 0b01, 0, None)], Err((Reason::Position, 0))),
    // the first row has both vertices blue and pays 1: it can finish
    Case(
        SUM,
        &[(0b00, 0b11, 1, None), (0b10, 0b01, 0, None)],
        Err((Reason::Finish, 0)),
    ),
];

/// The start of the chain does not cover the position after `Work(1)`, to which its first step leads.
const CHAIN: [Case; 1] = [Case(
    (8, 3, 1, 1, 6),
    &[(0b00, 0b01, 0, Some((0, 0)))],
    Err((Reason::Cover, 0)),
)];

// The names of a row.
fn names(alloc: Global, name: Option<(u16, u32)>) -> Result<Vec<Cover>, AllocError> {
    let mut names = Vec::new(alloc);
    if let Some((step, row)) = name {
        names.push(Cover { step, row })?;
    }
    Ok(names)
}

// The rows of these lines.
fn rows(alloc: Global, lines: &[Line]) -> Result<Vec<CoverRow>, AllocError> {
    let mut rows = Vec::new(alloc);
    for (red, blue, cost, name) in lines {
        rows.push(CoverRow {
            position: position(*red, *blue),
            cost: *cost,
            names: names(alloc, *name)?,
        })?;
    }
    Ok(rows)
}

// The table of these numbers and lines.
fn table(alloc: Global, numbers: Numbers, lines: &[Line]) -> Result<CoverTable, AllocError> {
    let (vertices, slots, load, store, bound) = numbers;
    Ok(CoverTable {
        slots,
        vertices,
        weights: Weights { load, store },
        bound,
        rows: rows(alloc, lines)?,
    })
}

// What the check answers on a table of at most 2000 rows.
fn answer(rt: &impl Abort, game: &Game, table: &CoverTable) -> Answer {
    assert!(rt; table.rows.len() <= 2000);
    match check_cover(game, table) {
        Ok(bound) => Ok(bound),
        Err(Refused { reason, row }) => Err((reason, row)),
    }
}

// Compares what the check answers on each table.
fn compare(rt: &impl Abort, alloc: Global, game: &Game, cases: &[Case]) -> Result<(), Fail> {
    for case in cases {
        let Case(numbers, lines, wanted) = *case;
        let table = table(alloc, numbers, lines)?;
        assert_eq!(rt; answer(rt, game, &table), wanted);
    }
    Ok(())
}

fn sums() -> [Case; 14] {
    SUMS
}

fn chains() -> [Case; 1] {
    CHAIN
}

#[test]
fn tables_of_one_sum_are_checked(rt: HostRuntime) -> Result<(), Fail> {
    let sum = game(&rt, one_sum(rt.alloc())?, 2, PLAIN);
    compare(&rt, rt.alloc(), &sum, &sums())
}

#[test]
fn tables_of_the_chain_are_checked(rt: HostRuntime) -> Result<(), Fail> {
    let chain = game(&rt, chain(rt.alloc())?, 3, PLAIN);
    compare(&rt, rt.alloc(), &chain, &chains())?;
    assert_eq!(rt; Reason::Cover.number(), 10);
    Ok(())
}

/// Two positions of one sum, each by its red and its blue vertices, and whether the first covers the second. The vertex 2 is none.
const COVERED: [([u64; 2], [u64; 2], bool); 3] = [
    ([0b11, 0b01], [0b10, 0b00], true),
    ([0b00, 0b01], [0b11, 0b01], false),
    ([0b00, 0b00], [0b100, 0b100], true),
];

fn covered() -> &'static [([u64; 2], [u64; 2], bool)] {
    &COVERED
}

// Whether a position covers another.
fn is_cover(game: &Game, p: Position, q: Position) -> bool {
    covers(game, &p, &q)
}

// The position of these red and blue vertices.
fn position_of([red, blue]: [u64; 2]) -> Position {
    position(red, blue)
}

#[test]
fn positions_cover(rt: HostRuntime) -> Result<(), Fail> {
    let sum = game(&rt, one_sum(rt.alloc())?, 2, PLAIN);
    for (p, q, wanted) in covered() {
        assert_eq!(rt; is_cover(&sum, position_of(*p), position_of(*q)), *wanted);
    }
    Ok(())
}

/// A table without rows for two vertices, two slots and the bound 2.
const NO_ROWS: &[u8] = b"RBPC\x00\x01\x00\x02\x00\x02\x01\x01\x00\x00\x00\x02\x00\x00\x00\x00";

/// The same with one row: cost 3, 0 and 1 red, 0 blue, and the name of step 5 by row 258.
const ONE_ROW: &[u8] = b"RBPC\x00\x01\x00\x02\x00\x02\x01\x01\x00\x00\x00\x02\x00\x00\x00\x01\
\x00\x00\x00\x03\x00\x00\x00\x00\x00\x00\x00\x03\x00\x00\x00\x00\x00\x00\x00\x01\x00\x01\x00\x05\x00\x00\x01\x02";

#[test]
fn tables_are_written(rt: HostRuntime) -> Result<(), Fail> {
    let alloc = rt.alloc();
    let plain = CoverTable {
        slots: 2,
        vertices: 2,
        weights: PLAIN,
        bound: 2,
        rows: Vec::new(alloc),
    };
    assert!(rt; write_cover(alloc, &plain)?.as_slice() == NO_ROWS);
    Ok(())
}

// The table of these bytes.
fn read(rt: &impl Abort, alloc: Global, bytes: &[u8]) -> Result<CoverTable, CoverEnd> {
    assert!(rt; bytes.len() <= 200);
    read_cover(alloc, bytes)
}

// Whether the row is that of the line.
fn is_line(row: &CoverRow, line: Line) -> bool {
    let (red, blue, cost, name) = line;
    row.position == position(red, blue) && row.cost == cost && has_name(&row.names, name)
}

// Whether this is the only name, or there is none.
fn has_name(names: &[Cover], name: Option<(u16, u32)>) -> bool {
    match name {
        None => names.is_empty(),
        Some((step, row)) => names == [Cover { step, row }].as_slice(),
    }
}

// Whether the rows are those of the lines.
fn are_lines(rows: &[CoverRow], lines: &[Line]) -> bool {
    for (row, line) in rows.iter().zip(lines) {
        if !is_line(row, *line) {
            return false;
        }
    }
    rows.len() == lines.len()
}

fn one_row() -> &'static [u8] {
    ONE_ROW
}

#[test]
fn tables_are_read(rt: HostRuntime) -> Result<(), Fail> {
    match read(&rt, rt.alloc(), one_row()) {
        Ok(table) => {
            assert!(rt; table.vertices == 2 && table.slots == 2 && table.bound == 2);
            assert!(rt; are_lines(&table.rows, &[(0b11, 0b01, 3, Some((5, 258)))]));
        }
        Err(_) => panic!(rt; "the bytes are a table"),
    }
    Ok(())
}

// Whether these bytes are refused for their shape.
fn is_no_table(rt: &impl Abort, alloc: Global, bytes: &[u8]) -> bool {
    match read(rt, alloc, bytes) {
        Err(CoverEnd::Shape) => true,
        _ => false,
    }
}

#[test]
fn beginnings_are_no_tables(rt: HostRuntime) -> Result<(), Fail> {
    let bytes = one_row();
    for length in 0..bytes.len() {
        assert!(rt; is_no_table(&rt, rt.alloc(), &bytes[..length]));
    }
    Ok(())
}

// The first five rows of the knot with three slots by position, with their names. The start leads to those with 0 and 1, and with 0 and 2
// red; the first of these to that with 0, 1 and 2 red, and to that with 1 red, from which `Work(2)` leads to the former at a higher cost.
fn five_rows() -> &'static [Line] {
    &[
        (0b000, 1, 0, None),
        (0b010, 1, 1, Some((0, 4))),
        (0b011, 1, 1, None),
        (0b101, 1, 1, None),
        (0b111, 1, 1, None),
    ]
}

// What a search with at most so many rows finds for the knot.
fn searched<'g>(
    rt: &impl Abort,
    alloc: Global,
    knot: &'g Game,
    budget: u32,
) -> Result<CoverFound<'g>, Fail> {
    assert!(rt; budget <= 2000);
    let first = plan(rt, alloc, knot, KNOT_IN_THREE)?;
    Ok(cover_search(alloc, first, budget)?)
}

// The cost of the first plan, the cost of the best plan, and the bound.
fn numbers(found: &CoverFound<'_>) -> (u32, u32, u32) {
    (found.first_cost, found.plan.total(), found.table.bound)
}

#[test]
fn the_first_rows_of_the_knot(rt: HostRuntime) -> Result<(), Fail> {
    let knot = game(&rt, knot(rt.alloc())?, 3, PLAIN);
    let found = searched(&rt, rt.alloc(), &knot, 5)?;
    assert_eq!(rt; numbers(&found), (4, 4, 2));
    assert_eq!(rt; found.verdict, Verdict::Open);
    assert!(rt; are_lines(&found.table.rows, five_rows()));
    Ok(())
}

/// The knot loads x twice, so that neither 1 nor 2 is stored: 3 transfers are the least.
#[test]
fn the_whole_knot(rt: HostRuntime) -> Result<(), Fail> {
    let knot = game(&rt, knot(rt.alloc())?, 3, PLAIN);
    let found = searched(&rt, rt.alloc(), &knot, 2000)?;
    assert_eq!(rt; numbers(&found), (4, 3, 3));
    assert_eq!(rt; found.verdict, Verdict::Optimal);
    assert_eq!(rt; answer(&rt, &knot, &found.table), Ok(3));
    Ok(())
}
