//! Kernels that are run on values, with the values of their outputs.
use command_answers::Status;
use example_runs::run_line;
use std::alloc::Global;
use std::process::Abort;
use std::test::Fail;

/// A kernel, a values file, and what `run` prints. The outputs were worked out by hand and by a program that shares nothing with this one.
#[derive(Clone, Copy)]
struct Ran(&'static str, &'static str, &'static str);

const RUNS: [Ran; 50] = [
    // A matrix with a vector: 1*10 + 2*20 + 3*30, and 4*10 + 5*20 + 6*30.
    Ran(
        "kernel a { in A[2][3]; in x[3]; out y[2]; for i in 0..2 { y[i] = 0; for j in 0..3 { y[i] = y[i] + A[i][j]*x[j]; } } }",
        "1 2 3 4 5 6 10 20 30",
        "y[0] = 140\ny[1] = 320\n",
    ),
    // Sums of the first elements.
    Ran(
        "kernel a { in x[5]; out s[5]; s[0] = x[0]; for i in 1..5 { s[i] = s[i-1] + x[i]; } }",
        "1 2 3 4 5",
        "s[0] = 1\ns[1] = 3\ns[2] = 6\ns[3] = 10\ns[4] = 15\n",
    ),
    // Two steps of a stencil with two buffers: 1 2 3 4 5, then 1 4 6 8 5, then 1 7 12 11 5.
    Ran(
        "kernel a { in x[5]; out y[5]; tmp u[5]; for i in 0..5 { u[i] = x[i]; y[i] = x[i]; } for t in 0..2 { for i in 1..4 { y[i] = u[i-1] + u[i+1]; } for i in 1..4 { u[i] = y[i]; } } }",
        "1 2 3 4 5",
        "y[0] = 1\ny[1] = 7\ny[2] = 12\ny[3] = 11\ny[4] = 5\n",
    ),
    // The fifth row of the binomial triangle, in place.
    Ran(
        "kernel a { out c[5]; c[0] = 1; for i in 1..5 { c[i] = 1; for k in 1..i { c[i-k] = c[i-k] + c[i-k-1]; } } }",
        "",
        "c[0] = 1\nc[1] = 4\nc[2] = 6\nc[3] = 4\nc[4] = 1\n",
    ),
    // The lowest bit that is set, and an exchange by three sums of bits.
    Ran("kernel a { in x; out y; y = x & -x; }", "40", "y = 8\n"),
    Ran(
        "kernel a { in a; in b; out p; out q; p = a ^ b; q = p ^ b; p = p ^ q; }",
        "5 9",
        "p = 9\nq = 5\n",
    ),
    // 6 | 12 is 14, 6 ^ 10 is 12.
    Ran(
        "kernel a { in x; out y; y = (x | 12) & (x ^ 10) ; }",
        "6",
        "y = 12\n",
    ),
    // 3 + 20 is 23, 2 & 23 is 2, 1 ^ 2 is 3, 8 | 3 is 11.
    Ran(
        "kernel a { in x; out y; y = x | 1 ^ 2 & 3 + 4 * 5; }",
        "8",
        "y = 11\n",
    ),
    // Sorted by exchanges.
    Ran(
        "kernel a { in v[3]; out w[3]; tmp t; w[0] = v[0]; w[1] = v[1]; w[2] = v[2]; for p in 0..3 { for i in 0..2 { t = min(w[i], w[i+1]); w[i+1] = max(w[i], w[i+1]); w[i] = t; } } }",
        "30 -10 20",
        "w[0] = -10\nw[1] = 20\nw[2] = 30\n",
    ),
    // ((1*2 + 2)*2 + 3)*2 + 4.
    Ran(
        "kernel a { in x; in c[4]; out y; y = c[0]; for i in 1..4 { y = mad(y, x, c[i]); } }",
        "2 1 2 3 4",
        "y = 26\n",
    ),
    // (0 + 1 + 2) * (0 + 1 + 2 + 3).
    Ran(
        "kernel a { out y; y = 0; for i in 0..3 { for j in 0..4 { y = y + i*j; } } }",
        "",
        "y = 18\n",
    ),
    // Loops of no turn: equal bounds, and a second bound that is less.
    Ran(
        "kernel a { in x; out y; y = x; for i in 3..3 { y = x + i; } }",
        "5",
        "y = 5\n",
    ),
    Ran(
        "kernel a { in x; out y; y = x; for i in 5..2 { y = 1; } for i in 1..-1 { y = 2; } }",
        "5",
        "y = 5\n",
    ),
    // sel: 0 takes the third, all else the second.
    Ran(
        "kernel a { in x; out y; y = sel(x, 10, 20); }",
        "0",
        "y = 20\n",
    ),
    Ran(
        "kernel a { in x; out y; y = sel(x, 10, 20); }",
        "-1",
        "y = 10\n",
    ),
    Ran(
        "kernel a { in x; in z; out y; y = sel(x - z, x * 2, z + 100); }",
        "7 7",
        "y = 107\n",
    ),
    // Wrapping: each operator at the ends of the range.
    Ran(
        "kernel a { in x; out y; y = x + 1; }",
        "9223372036854775807",
        "y = -9223372036854775808\n",
    ),
    Ran(
        "kernel a { in x; out y; y = x - 1; }",
        "-9223372036854775808",
        "y = 9223372036854775807\n",
    ),
    Ran(
        "kernel a { in x; out y; y = -x; }",
        "-9223372036854775808",
        "y = -9223372036854775808\n",
    ),
    Ran(
        "kernel a { in x; out y; y = x * x; }",
        "4294967296",
        "y = 0\n",
    ),
    Ran(
        "kernel a { in x; in z; out y; y = mad(x, 2, z); }",
        "9223372036854775807 3",
        "y = 1\n",
    ),
    Ran(
        "kernel a { in x; out y; y = x * 3; }",
        "9223372036854775807",
        "y = 9223372036854775805\n",
    ),
    // min and max compare signed numbers.
    Ran(
        "kernel a { in x; out y; y = min(x, 0); }",
        "-9223372036854775808",
        "y = -9223372036854775808\n",
    ),
    Ran(
        "kernel a { in x; in z; out y; out w; y = max(x, z); w = min(x, z); }",
        "-1 1",
        "y = 1\nw = -1\n",
    ),
    // Constants.
    Ran("kernel a { out y; y = 2*3+1; }", "", "y = 7\n"),
    Ran(
        "kernel a { out y; y = 0 - 9223372036854775807 - 2; }",
        "",
        "y = 9223372036854775807\n",
    ),
    Ran(
        "kernel a { out y; out z; y = -5; z = --5; }",
        "",
        "y = -5\nz = 5\n",
    ),
    Ran(
        "kernel a { out y; y = sel(2 - 2, 7, mad(2, 3, 4)); }",
        "",
        "y = 10\n",
    ),
    // Copies, and an element that is assigned again.
    Ran(
        "kernel a { in x; out y; tmp t; tmp u; t = x; u = t; t = 1; y = u; }",
        "77",
        "y = 77\n",
    ),
    Ran(
        "kernel a { in x; out y; out z; y = x; z = y; y = z + y; }",
        "4",
        "y = 8\nz = 4\n",
    ),
    // Arrays of two dimensions stand row by row.
    Ran(
        "kernel a { in A[2][3]; out B[3][2]; for i in 0..2 { for j in 0..3 { B[j][i] = A[i][j]; } } }",
        "1 2 3 4 5 6",
        "B[0][0] = 1\nB[0][1] = 4\nB[1][0] = 2\nB[1][1] = 5\nB[2][0] = 3\nB[2][1] = 6\n",
    ),
    Ran(
        "kernel a { in A[3][3]; out t; t = 0; for i in 0..3 { t = t + A[i][2-i]; } }",
        "1 2 3 4 5 6 7 8 9",
        "t = 15\n",
    ),
    Ran(
        "kernel a { out B[2][2]; for i in 0..2 { for j in 0..2 { B[i][j] = 10*i + j; } } }",
        "",
        "B[0][0] = 0\nB[0][1] = 1\nB[1][0] = 10\nB[1][1] = 11\n",
    ),
    // Elements of a temporary that are never set, and a value that no output needs.
    Ran(
        "kernel a { in x; out y; tmp t[3]; t[1] = x; y = t[1]; }",
        "8",
        "y = 8\n",
    ),
    Ran(
        "kernel a { in x; out y; tmp t; t = x * x; y = x + 1; }",
        "8",
        "y = 9\n",
    ),
    // Bounds and indices with minus signs, products and groups: 1*-2 + 2*-1 + 3*0 + 4*1.
    Ran(
        "kernel a { in x[4]; out y; y = 0; for i in -2..2 { y = y + x[i + 2] * i; } }",
        "1 2 3 4",
        "y = 0\n",
    ),
    Ran(
        "kernel a { in x[6]; out y; y = 0; for i in 0..2*1 + 1 { y = y + x[2*i + 1]; } }",
        "1 2 3 4 5 6",
        "y = 12\n",
    ),
    Ran(
        "kernel a { in x[4]; out y[4]; for i in -(3)..(1) { y[-i] = x[i + 3]; } }",
        "1 2 3 4",
        "y[0] = 4\ny[1] = 3\ny[2] = 2\ny[3] = 1\n",
    ),
    // One name for two loops, after one another and side by side in a loop.
    Ran(
        "kernel a { in x; out y; y = x; for i in 0..2 { y = y * 2; } for i in 0..3 { y = y + i; } }",
        "5",
        "y = 23\n",
    ),
    Ran(
        "kernel a { out y; y = 0; for k in 0..2 { for i in 0..2 { y = y * 10 + i + 1; } for i in 0..2 { y = y * 10 + 5 + i; } } }",
        "",
        "y = 12561256\n",
    ),
    // The bounds of an inner loop are evaluated anew each time it is reached: 012 12 2.
    Ran(
        "kernel a { out y; y = 0; for i in 0..3 { for j in i..3 { y = y * 10 + j; } } }",
        "",
        "y = 12122\n",
    ),
    // Chains are read from the left.
    Ran(
        "kernel a { in a; in b; in c; out y; y = a - b - c; }",
        "10 3 2",
        "y = 5\n",
    ),
    Ran(
        "kernel a { in a; in b; in c; out y; y = a - (b - c) * -a; }",
        "10 3 2",
        "y = 20\n",
    ),
    // The numbers of Fibonacci.
    Ran(
        "kernel a { in n; out f[10]; f[0] = n; f[1] = n; for i in 2..10 { f[i] = f[i-1] + f[i-2]; } }",
        "1",
        "f[0] = 1\nf[1] = 1\nf[2] = 2\nf[3] = 3\nf[4] = 5\nf[5] = 8\nf[6] = 13\nf[7] = 21\nf[8] = 34\nf[9] = 55\n",
    ),
    Ran(
        "kernel dot { in A[4]; in B[4]; out y; tmp s; s = A[0]*B[0]; for i in 1..4 { s = s + A[i]*B[i]; } y = s; }",
        "1 2 3 4 5 6 7 8",
        "y = 70\n",
    ),
    // 2 * 3 * 4 * 2 * 3.
    Ran(
        "kernel chain { in x; out y; tmp a; tmp b; tmp c; a = x+1; b = x+2; c = a*b; c = c*(x+3); c = c*a; y = c*b; }",
        "1",
        "y = 144\n",
    ),
    // Names as they are written.
    Ran(
        "kernel имя { in α; out 名[2]; 名[0] = α; 名[1] = α * α; }",
        "9",
        "名[0] = 9\n名[1] = 81\n",
    ),
    // No outputs, and no inputs.
    Ran("kernel a { in x; }", "3", ""),
    Ran("kernel a { }", "", ""),
    // Spaces of all kinds, a minus sign, leading zeros.
    Ran(
        "kernel a { in a; in b; out y; y = a - b; }",
        " \t-007\r\n  0010\n",
        "y = -17\n",
    ),
];

/// Kernels with branches and steps.
const BRANCHES_AND_STEPS: [Ran; 41] = [
    // Each relation of 0, 1 and 2 with 1; a turn for which it holds puts its digit 1, 2 or 3 behind `y`.
    Ran(
        "kernel a { out y; y = 0; for i in 0..3 { if i == 1 { y = y * 10 + i + 1; } } }",
        "",
        "y = 2\n",
    ),
    Ran(
        "kernel a { out y; y = 0; for i in 0..3 { if i != 1 { y = y * 10 + i + 1; } } }",
        "",
        "y = 13\n",
    ),
    Ran(
        "kernel a { out y; y = 0; for i in 0..3 { if i < 1 { y = y * 10 + i + 1; } } }",
        "",
        "y = 1\n",
    ),
    Ran(
        "kernel a { out y; y = 0; for i in 0..3 { if i <= 1 { y = y * 10 + i + 1; } } }",
        "",
        "y = 12\n",
    ),
    Ran(
        "kernel a { out y; y = 0; for i in 0..3 { if i > 1 { y = y * 10 + i + 1; } } }",
        "",
        "y = 3\n",
    ),
    Ran(
        "kernel a { out y; y = 0; for i in 0..3 { if i >= 1 { y = y * 10 + i + 1; } } }",
        "",
        "y = 23\n",
    ),
    // They compare as whole numbers, below 0 too: -2, -1, 0 and 1 with -1, with digits from 1 to 4.
    Ran(
        "kernel a { out y; y = 0; for i in -2..2 { if i < -1 { y = y * 10 + i + 3; } } }",
        "",
        "y = 1\n",
    ),
    Ran(
        "kernel a { out y; y = 0; for i in -2..2 { if i >= -1 { y = y * 10 + i + 3; } } }",
        "",
        "y = 234\n",
    ),
    Ran(
        "kernel a { out y; y = 0; for i in -2..2 { if -1 > i { y = y * 10 + i + 3; } } }",
        "",
        "y = 1\n",
    ),
    Ran(
        "kernel a { out y; y = 0; if -1000000 < 1000000 { y = 1; } }",
        "",
        "y = 1\n",
    ),
    // Sides with operators: the cells 02, 11 and 20.
    Ran(
        "kernel a { out y; y = 0; for i in 0..3 { for j in 0..3 { if i + j == 2 { y = y * 100 + i * 10 + j; } } } }",
        "",
        "y = 21120\n",
    ),
    Ran(
        "kernel a { out y; y = 0; for i in 0..4 { if 2 * i - 1 <= -(i - 5) { y = y * 10 + i + 1; } } }",
        "",
        "y = 123\n",
    ),
    Ran(
        "kernel a { out y; y = 0; for i in 0..3 { for j in 0..3 { if i > j { y = y * 100 + i * 10 + j; } } } }",
        "",
        "y = 102021\n",
    ),
    // `else`: the second block where the relation does not hold; empty blocks do nothing.
    Ran(
        "kernel a { out y; y = 0; for i in 0..4 { if i < 2 { y = y * 10 + 1; } else { y = y * 10 + 2; } } }",
        "",
        "y = 1122\n",
    ),
    Ran(
        "kernel a { out y; y = 0; for i in 0..4 { if i == 2 { } else { y = y * 10 + i; } } }",
        "",
        "y = 13\n",
    ),
    Ran(
        "kernel a { out y; y = 0; for i in 0..4 { if i == 2 { y = 7; } else { } } }",
        "",
        "y = 7\n",
    ),
    Ran(
        "kernel a { out y; y = 0; if 0 == 0 { } else { } }",
        "",
        "y = 0\n",
    ),
    // `else` in `else`: the sign of a number. `else` belongs to the branch whose block stands just before it.
    Ran(
        "kernel a { out y[3]; for i in -1..2 { if i < 0 { y[i + 1] = -1; } else { if i == 0 { y[i + 1] = 0; } else { y[i + 1] = 1; } } } }",
        "",
        "y[0] = -1\ny[1] = 0\ny[2] = 1\n",
    ),
    Ran(
        "kernel a { out y; y = 0; if 0 == 0 { if 0 == 1 { y = 1; } } else { y = 2; } }",
        "",
        "y = 0\n",
    ),
    Ran(
        "kernel a { out y; y = 0; if 0 == 0 { if 0 == 1 { y = 1; } else { y = 2; } } }",
        "",
        "y = 2\n",
    ),
    Ran(
        "kernel a { out y; y = 0; if 0 == 1 { } else { if 0 == 1 { y = 1; } else { y = 2; } } }",
        "",
        "y = 2\n",
    ),
    Ran(
        "kernel a { out y; y = 0; if 0 == 1 { if 0 == 0 { y = 1; } else { y = 2; } } else { y = 3; } }",
        "",
        "y = 3\n",
    ),
    // Loops in branches in loops: 00 and 01, then 9, then 2 and 3.
    Ran(
        "kernel a { out y; y = 0; for i in 0..3 { if i != 1 { for j in 0..2 { y = y * 10 + i + j; } } else { y = y * 10 + 9; } } }",
        "",
        "y = 1923\n",
    ),
    Ran(
        "kernel a { out y; y = 0; if 0 == 0 { for i in 0..3 { if i == 1 { for j in i..3 { y = y * 10 + j; } } } } }",
        "",
        "y = 12\n",
    ),
    // Inputs in both blocks: the even elements less the odd ones, 1 - 2 + 3 - 4 + 10.
    Ran(
        "kernel a { in x[5]; out y; y = 0; for i in 0..5 { if i == 1 { y = y - x[i]; } else { if i == 3 { y = y - x[i]; } else { y = y + x[i]; } } } }",
        "1 2 3 4 10",
        "y = 8\n",
    ),
    // Each element is set in one of two blocks: a triangle and its mirror.
    Ran(
        "kernel a { in x[3]; out y[3][3]; for i in 0..3 { for j in 0..3 { if i <= j { y[i][j] = x[j - i]; } else { y[i][j] = -x[i - j]; } } } }",
        "1 2 3",
        "y[0][0] = 1\ny[0][1] = 2\ny[0][2] = 3\ny[1][0] = -2\ny[1][1] = 1\ny[1][2] = 2\ny[2][0] = -3\ny[2][1] = -2\ny[2][2] = 1\n",
    ),
    // Steps: 0, 3, 6, 9; 0, 3, and 6 is the end; -5, -1, 3; one that leads beyond the end at once; a loop of no turn.
    Ran(
        "kernel a { out y; y = 0; for i in 0..10 by 3 { y = y * 10 + i; } }",
        "",
        "y = 369\n",
    ),
    Ran(
        "kernel a { out y; y = 0; for i in 0..6 by 3 { y = y * 10 + i + 1; } }",
        "",
        "y = 14\n",
    ),
    Ran(
        "kernel a { out y; y = 0; for i in -5..5 by 4 { y = y * 10 + i + 5; } }",
        "",
        "y = 48\n",
    ),
    Ran(
        "kernel a { out y; y = 0; for i in 2..9 by 100 { y = y * 10 + i; } }",
        "",
        "y = 2\n",
    ),
    Ran(
        "kernel a { out y; y = 0; for i in 3..3 by 5 { y = 1; } for i in 5..2 by 1 { y = 2; } }",
        "",
        "y = 0\n",
    ),
    // A step of 1 is that of a loop without one; steps of operators.
    Ran(
        "kernel a { out y; y = 0; for i in 0..4 by 1 { y = y * 10 + i; } }",
        "",
        "y = 123\n",
    ),
    Ran(
        "kernel a { out y; y = 0; for i in 0..6 by 2 * 3 - 4 { y = y * 10 + i; } }",
        "",
        "y = 24\n",
    ),
    Ran(
        "kernel a { out y; y = 0; for i in 0..6 by (1 + 1) { y = y * 10 + i; } for i in 0..6 by --5 { y = y * 10 + i; } }",
        "",
        "y = 2405\n",
    ),
    // A step by an open index: 0123, then 02, then 03. Both bounds and the step of the inner loop change with the outer one: 12, then 2.
    Ran(
        "kernel a { out y; y = 0; for i in 1..4 { for j in 0..4 by i { y = y * 10 + j; } } }",
        "",
        "y = 1230203\n",
    ),
    Ran(
        "kernel a { out y; y = 0; for i in 1..3 { for j in i..3 by i { y = y * 10 + j; } } }",
        "",
        "y = 122\n",
    ),
    // A step by a product: 01234, then 04.
    Ran(
        "kernel a { out y; y = 0; for r in 1..3 { for i in 0..5 by r * r { y = y * 10 + i; } } }",
        "",
        "y = 123404\n",
    ),
    // Great steps and indices; the index behind the last turn is no value of the text.
    Ran(
        "kernel a { out y; y = 0; for i in -1000000..1000000 by 1000000 { y = y * 10 + 1; } }",
        "",
        "y = 11\n",
    ),
    Ran(
        "kernel a { out y; y = 0; for i in 999999..1000000 by 1000000 { y = i; } }",
        "",
        "y = 999999\n",
    ),
    // No space that can be left out.
    Ran(
        "kernel a{out y;for i in 0..5by 2{if i==4{y=i;}else{y=0;}}}",
        "",
        "y = 4\n",
    ),
    Ran(
        "kernel a{out y;y=0;for i in 0..3{if i!=1{y=y*10+i+1;}if i<=0{y=y+4;}if i>=2{y=y+5;}}}",
        "",
        "y = 58\n",
    ),
];

#[test]
fn outputs_of_kernels(rt: HostRuntime) -> Result<(), Fail> {
    for row in runs() {
        check_run(&rt, rt.alloc(), *row)?;
    }
    for row in branches_and_steps() {
        check_run(&rt, rt.alloc(), *row)?;
    }
    Ok(())
}

// The rows, of which the proof of a loop over them is to know nothing.
fn runs() -> &'static [Ran] {
    &RUNS
}

// The same of branches and steps.
fn branches_and_steps() -> &'static [Ran] {
    &BRANCHES_AND_STEPS
}

// The kernel prints these outputs on the values.
fn check_run(rt: &impl Abort, alloc: Global, row: Ran) -> Result<(), Fail> {
    let Ran(kernel, values, printed) = row;
    let left = run_line(alloc, "run v", kernel.as_bytes(), values.as_bytes())?;
    let bytes = kernel.len();
    assert_eq!(rt;
        left.output.as_slice(),
        printed.as_bytes(),
        "a kernel of {bytes} bytes"
    );
    assert_eq!(rt; left.status, Status::Done);
    let file = left.file.ok_or("no file")?;
    assert_eq!(rt; file.as_slice(), values.as_bytes());
    Ok(())
}
