//! Walks over kernels, and what a walk asks at each step: elements of places, numbers of loops, conditions, elements that are set. The
//! values are worked out by hand.
use crate::builders::kernel;
use comp_graph::NoMemory;
use kernel_ast::{Cell, Fault, Index, IndexTree, Place, Relation};
use kernel_walk::{LoopNumbers, Stop, Written, condition, locate, loop_numbers, walk};
use sqlite_items::Items;
use std::alloc::{AllocError, Global};
use std::test::Fail;

// Kernels, and the faults of their walks. The loop counts 3, and 1 for each turn.
const WALKS: [(&[u8], Option<Fault>); 5] = [
    (b"kernel p { tmp a[2][3]; for i in 0..0 { } }", None),
    (b"kernel p { tmp a[2][3]; for i in 0..65533 { } }", None),
    (
        b"kernel p { tmp a[2][3]; for i in 0..65534 { } }",
        Some(Fault { code: 12, at: 24 }),
    ),
    (
        b"kernel p { tmp a[2][3]; for i in 0..1000000 { } }",
        Some(Fault { code: 12, at: 24 }),
    ),
    (
        b"kernel p { tmp a[2][3]; for i in 0..1000001 { } }",
        Some(Fault { code: 14, at: 36 }),
    ),
];

// Why the walk of a text's kernel stops, if it does.
fn walk_end(alloc: Global, text: &[u8]) -> Result<Option<Stop>, Fail> {
    let kernel = kernel(alloc, text)?;
    Ok(walk(alloc, &kernel).err())
}

#[test]
fn walks(rt: HostRuntime) -> Result<(), Fail> {
    for (text, fault) in &WALKS {
        assert!(rt; walk_end(rt.alloc(), text)? == fault.map(Stop::Fault));
    }
    Ok(())
}

// The index of the k-th open loop.
fn turn_index(k: u8) -> Index {
    Index {
        at: 50,
        tree: IndexTree::Turn(k),
    }
}

// `a[i][j]`
fn place(alloc: Global) -> Result<Place, AllocError> {
    let mut indices = Items::new(alloc);
    indices.push(turn_index(0))?;
    indices.push(turn_index(1))?;
    Ok(Place {
        decl: 0,
        indices,
        at: 48,
    })
}

// Indices of two loops, and the element that the place names.
const PLACES: [([i64; 2], Result<Cell, Fault>); 5] = [
    ([0, 0], Ok(Cell { decl: 0, offset: 0 })),
    ([1, 2], Ok(Cell { decl: 0, offset: 5 })),
    ([2, 0], Err(Fault { code: 7, at: 48 })),
    ([0, 3], Err(Fault { code: 7, at: 48 })),
    ([-1, 0], Err(Fault { code: 7, at: 48 })),
];

#[test]
fn places(rt: HostRuntime) -> Result<(), Fail> {
    let kernel = kernel(rt.alloc(), b"kernel p { tmp a[2][3]; }")?;
    let place = place(rt.alloc())?;
    for (indices, cell) in &PLACES {
        assert!(rt; locate(&kernel, indices, &place) == *cell);
    }
    Ok(())
}

// 3 as an index.
fn three() -> Index {
    Index {
        at: 52,
        tree: IndexTree::Number(3),
    }
}

// The numbers of a loop between the indices of two open ones.
fn numbers_between(indices: &[i64], step: &Option<Index>) -> Result<LoopNumbers, Fault> {
    loop_numbers(indices, &turn_index(0), &turn_index(1), step)
}

// The first four numbers of a loop.
fn first_four(indices: &[i64], step: &Option<Index>) -> Result<[Option<i64>; 4], Fault> {
    let mut numbers = numbers_between(indices, step)?;
    Ok([
        numbers.next(),
        numbers.next(),
        numbers.next(),
        numbers.next(),
    ])
}

#[test]
fn numbers(rt: HostRuntime) {
    let by_one = first_four(&[4, 7], &None);
    assert!(rt; by_one == Ok([Some(4), Some(5), Some(6), None]));
    let by_three = first_four(&[4, 8], &Some(three()));
    assert!(rt; by_three == Ok([Some(4), Some(7), None, None]));
    let none = first_four(&[7, 7], &Some(three()));
    assert!(rt; none == Ok([None, None, None, None]));
    let still = first_four(&[0, 7], &Some(turn_index(0)));
    assert!(rt; still == Err(Fault { code: 17, at: 50 }));
}

// Relations, and whether they hold between 2, 3 and 4 on the left and 3 on the right.
const RELATIONS: [(Relation, [bool; 3]); 6] = [
    (Relation::Equal, [false, true, false]),
    (Relation::NotEqual, [true, false, true]),
    (Relation::Less, [true, false, false]),
    (Relation::AtMost, [true, true, false]),
    (Relation::More, [false, false, true]),
    (Relation::AtLeast, [false, true, true]),
];

// Whether a relation holds between a number and 3.
fn holds(left: i64, relation: Relation) -> Result<bool, Fault> {
    condition(&[left], &turn_index(0), relation, &three())
}

#[test]
fn conditions(rt: HostRuntime) {
    for (relation, [below, at, above]) in &RELATIONS {
        assert!(rt; holds(2, *relation) == Ok(*below));
        assert!(rt; holds(3, *relation) == Ok(*at));
        assert!(rt; holds(4, *relation) == Ok(*above));
    }
}

// The third element is set twice.
fn three_settings(alloc: Global) -> Result<Written<i64>, NoMemory> {
    let mut written = Written::new(alloc);
    for (offset, value) in [(3, 30), (1, 10), (3, 31)] {
        written.put(Cell { decl: 0, offset }, value)?;
    }
    Ok(written)
}

// Declarations and offsets, with what is set there.
const ELEMENTS: [(u16, u16, Option<i64>); 4] = [
    (0, 1, Some(10)),
    (0, 2, None),
    (0, 3, Some(31)),
    (1, 1, None),
];

#[test]
fn written(rt: HostRuntime) -> Result<(), Fail> {
    let written = three_settings(rt.alloc())?;
    for (decl, offset, value) in &ELEMENTS {
        let cell = Cell {
            decl: *decl,
            offset: *offset,
        };
        assert!(rt; written.get(cell) == *value);
    }
    Ok(())
}
