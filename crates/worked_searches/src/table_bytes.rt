//! The bytes of small tables, worked out by hand.
use crate::builders::{PLAIN, position};
use comp_graph::Weights;
use potential_cert::{Row, Table, TableEnd, read_table, write_table};
use std::alloc::Global;
use std::process::Abort;
use std::test::Fail;

// 2 vertices, 2 slots, weights 1 and 1, bound 2, no row
const UNIT: [u8; 18] = [82, 66, 80, 84, 0, 1, 0, 2, 0, 2, 0, 0, 0, 2, 0, 0, 0, 0];

// 2 vertices, 2 slots, weights 2 and 3, bound 5, no row
const WEIGHTED: [u8; 20] = [
    82, 66, 80, 84, 0, 2, 0, 2, 0, 2, 2, 3, 0, 0, 0, 5, 0, 0, 0, 0,
];

// 8 vertices, 3 slots, bound 2, one row: nothing red, 0 blue, cost 0
const START: [u8; 38] = [
    82, 66, 80, 84, 0, 1, 0, 8, 0, 3, 0, 0, 0, 2, 0, 0, 0, 1, 0, 0, 0, 0, 0, 0, 0, 0, 0, 0, 0, 0,
    0, 0, 0, 0, 0, 0, 0, 1,
];

fn start() -> &'static [u8] {
    &START
}

fn weighted() -> &'static [u8] {
    &WEIGHTED
}

// The bytes of the table without rows for two vertices and two slots, with these weights and this bound.
fn written(rt: &impl Abort, alloc: Global, weights: Weights, bound: u32) -> Result<Vec<u8>, Fail> {
    let Weights { load, store } = weights;
    assert!(rt; 1 <= load && load <= 16);
    assert!(rt; 1 <= store && store <= 16);
    let table = Table {
        slots: 2,
        vertices: 2,
        weights: Weights { load, store },
        bound,
        rows: Vec::new(alloc),
    };
    Ok(write_table(alloc, &table)?)
}

// The bytes of the table that these bytes spell.
fn written_again(rt: &impl Abort, alloc: Global, bytes: &[u8]) -> Result<Vec<u8>, Fail> {
    assert!(rt; bytes.len() <= 20000000);
    match read_table(alloc, bytes) {
        Ok(table) => Ok(write_table(alloc, &table)?),
        Err(_) => panic!(rt; "the bytes spell a table"),
    }
}

// The table of these bytes, or the place where they fail to spell one.
fn read(rt: &impl Abort, alloc: Global, bytes: &[u8]) -> Result<Table, u32> {
    assert!(rt; bytes.len() <= 20000000);
    match read_table(alloc, bytes) {
        Ok(table) => Ok(table),
        Err(TableEnd::Shape { at }) => Err(at),
        Err(TableEnd::NoMemory) => panic!(rt; "there is memory"),
    }
}

#[test]
fn tables_are_written(rt: HostRuntime) -> Result<(), Fail> {
    let alloc = rt.alloc();
    assert!(rt; written(&rt, alloc, PLAIN, 2)?.as_slice() == UNIT.as_slice());
    let other = Weights { load: 2, store: 3 };
    assert!(rt; written(&rt, alloc, other, 5)?.as_slice() == weighted());
    Ok(())
}

// Whether a table has no row but that of a start at which 0 is blue.
fn has_start(table: &Table) -> bool {
    let row = Row {
        position: position(0, 1),
        cost: 0,
    };
    table.rows.as_slice() == [row].as_slice()
}

#[test]
fn tables_are_read(rt: HostRuntime) -> Result<(), Fail> {
    let alloc = rt.alloc();
    match read(&rt, alloc, start()) {
        Ok(table) => {
            assert!(rt; table.vertices == 8 && table.slots == 3 && table.bound == 2);
            assert!(rt; has_start(&table));
        }
        Err(_) => panic!(rt; "the bytes spell a table"),
    }
    assert!(rt; written_again(&rt, alloc, start())?.as_slice() == start());
    Ok(())
}

// The place where bytes fail to spell a table.
fn place(rt: &impl Abort, alloc: Global, bytes: &[u8]) -> Option<u32> {
    match read(rt, alloc, bytes) {
        Ok(_) => None,
        Err(at) => Some(at),
    }
}

// Each beginning of these bytes ends too early.
fn check_beginnings(rt: &impl Abort, alloc: Global, bytes: &[u8]) {
    assert!(rt; bytes.len() <= 38);
    for length in 0..bytes.len() {
        assert_eq!(rt; place(rt, alloc, &bytes[..length]), Some(length as u32));
    }
}

#[test]
fn beginnings_are_no_tables(rt: HostRuntime) -> Result<(), Fail> {
    let alloc = rt.alloc();
    check_beginnings(&rt, alloc, start());
    check_beginnings(&rt, alloc, weighted());
    let mut longer = start().to_vec(alloc)?;
    longer.push(0)?;
    assert_eq!(rt; place(&rt, alloc, &longer), Some(38));
    Ok(())
}

/// Places in the bytes of the table with weights, each with what is there instead, and the place of the fault.
const CHANGES: [(&[(usize, u8)], Option<u32>); 14] = [
    (&[(3, 83)], Some(0)),
    (&[(5, 3)], Some(4)),
    (&[(6, 1)], Some(6)),
    (&[(7, 200)], None),
    (&[(8, 1)], Some(8)),
    (&[(9, 0)], Some(8)),
    (&[(9, 65)], Some(8)),
    (&[(10, 0)], Some(10)),
    (&[(10, 17)], Some(10)),
    (&[(11, 0)], Some(11)),
    (&[(11, 17)], Some(11)),
    (&[(15, 6)], None),
    (&[(19, 1)], Some(20)),
    (&[(10, 1), (11, 1)], Some(10)),
];

// The bytes of the table with weights after some changes.
fn changed(changes: &[(usize, u8)]) -> [u8; 20] {
    let mut bytes = WEIGHTED;
    for (at, byte) in changes {
        if *at < 20 {
            bytes[*at] = *byte;
        }
    }
    bytes
}

fn all_changes() -> [(&'static [(usize, u8)], Option<u32>); 14] {
    CHANGES
}

#[test]
fn faults_have_places(rt: HostRuntime) -> Result<(), Fail> {
    for (changes, wanted) in all_changes() {
        assert_eq!(rt; place(&rt, rt.alloc(), &changed(changes)), wanted);
    }
    Ok(())
}
