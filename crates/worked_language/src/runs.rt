//! Runs of kernels on values, with outputs that are worked out by hand.
use crate::builders::kernel;
use source_machine::{RunEnd, run};
use std::test::Fail;

const TWO_PRODUCTS: &[u8] =
    b"kernel p { in x[2]; out y[2]; for i in 0..2 { y[i] = mad(x[i], 3, i); } }";

// The first product of the second row is 2^63 + 1, which wraps.
const RUNS: [([i64; 2], [i64; 2]); 2] = [
    ([4, 5], [12, 16]),
    (
        [3_074_457_345_618_258_603, -1],
        [-9_223_372_036_854_775_807, -2],
    ),
];

#[test]
fn runs(rt: HostRuntime) -> Result<(), Fail> {
    let kernel = kernel(rt.alloc(), TWO_PRODUCTS)?;
    for (values, outputs) in &RUNS {
        let found = run(rt.alloc(), &kernel, values)?;
        assert!(rt; found.as_slice() == outputs.as_slice());
    }
    Ok(())
}

// Kernels and values, and why there is no answer. Places are counted by hand.
const ENDS: [(&[u8], &[i64], RunEnd); 5] = [
    (TWO_PRODUCTS, &[], RunEnd::WrongCount { needs: 2, got: 0 }),
    (
        TWO_PRODUCTS,
        &[1, 2, 3],
        RunEnd::WrongCount { needs: 2, got: 3 },
    ),
    (
        b"kernel p { in x[2]; out y[2]; for i in 0..1 { y[i] = mad(x[i], 3, i); } }",
        &[],
        RunEnd::Shape { code: 10, at: 24 },
    ),
    (
        b"kernel p { in x[2]; out y[2]; for i in 0..3 { y[i] = mad(x[i], 3, i); } }",
        &[1, 2],
        RunEnd::Shape { code: 7, at: 57 },
    ),
    (
        b"kernel p { in x[2]; out y[2]; for i in 0..65536 { y[i] = mad(x[i], 3, i); } }",
        &[1, 2],
        RunEnd::Shape { code: 7, at: 61 },
    ),
];

#[test]
fn ends(rt: HostRuntime) -> Result<(), Fail> {
    for (text, values, end) in &ENDS {
        assert!(rt; values.len() < 10);
        let kernel = kernel(rt.alloc(), text)?;
        assert!(rt; run(rt.alloc(), &kernel, values).err() == Some(*end));
    }
    Ok(())
}
