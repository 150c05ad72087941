//! The executed assignments of a loop.
use crate::builders::kernel;
use loop_unroll::{Flat, Flats, Item, ShapeEnd, unroll};
use std::alloc::Global;
use std::test::Fail;

// Kernels, and how many assignments they execute, or their fault. The loop counts 3, each of its turns 1, and each assignment 3.
const COUNTS: [(&[u8], Result<usize, ShapeEnd>); 5] = [
    (b"kernel p { out y; for i in 0..0 { y = i; } }", Ok(0)),
    (b"kernel p { out y; for i in 0..2 { y = i; } }", Ok(2)),
    (
        b"kernel p { out y; for i in 0..16383 { y = i; } }",
        Ok(16_383),
    ),
    (
        b"kernel p { out y; for i in 0..16384 { y = i; } }",
        Err(ShapeEnd::Fault { code: 12, at: 38 }),
    ),
    (
        b"kernel p { out y; for i in 0..1000001 { y = i; } }",
        Err(ShapeEnd::Fault { code: 14, at: 30 }),
    ),
];

// The executed assignments of a text's kernel, or its fault.
fn flats(alloc: Global, text: &[u8]) -> Result<Result<Flats, ShapeEnd>, Fail> {
    let kernel = kernel(alloc, text)?;
    Ok(unroll(alloc, &kernel))
}

// How many they are.
fn count_of(alloc: Global, text: &[u8]) -> Result<Result<usize, ShapeEnd>, Fail> {
    Ok(flats(alloc, text)?.map(|flats| flats.as_slice().len()))
}

#[test]
fn counts(rt: HostRuntime) -> Result<(), Fail> {
    for (text, count) in &COUNTS {
        assert!(rt; count_of(rt.alloc(), text)? == *count);
    }
    Ok(())
}

// The constant that is assigned, if one is.
fn constant(flat: &Flat) -> Option<i64> {
    match flat.items.as_slice() {
        [Item::Number(number)] => Some(*number),
        _ => None,
    }
}

#[test]
fn constants_in_order(rt: HostRuntime) -> Result<(), Fail> {
    let flats = flats(rt.alloc(), b"kernel p { out y; for i in 0..3 { y = i; } }")??;
    for (flat, number) in flats.as_slice().iter().zip([0, 1, 2]) {
        assert!(rt; flat.target.decl == 0 && constant(flat) == Some(number));
    }
    Ok(())
}
