//! The text of a small trial kernel, written out by hand, and the ends of the smallest, of the largest, and of the first with a second column.
use kernel_gen::trial;
use std::alloc::Global;
use std::process::Abort;
use std::test::Fail;

// Numbers of statements, and the last lines of the kernel, which for three statements are all.
const ENDS: [(u32, &[u8]); 4] = [
    (
        3,
        b"kernel trial {\nin x[16];\nout y;\ntmp t[64][4];\nt[0][0] = x[3] + x[15];\nt[1][0] = x[10] * t[0][0];\nt[2][0] = t[1][0] + t[1][0];\ny = t[2][0];\n}\n",
    ),
    (
        1,
        b"tmp t[64][4];\nt[0][0] = x[1] + x[15];\ny = t[0][0];\n}\n",
    ),
    (
        65,
        b"t[63][0] = t[16][0] * t[62][0];\nt[0][1] = t[17][0] + t[63][0];\ny = t[0][1];\n}\n",
    ),
    (200, b"t[7][3] = t[8][1] * t[6][3];\ny = t[7][3];\n}\n"),
];

// The text of the trial with so many statements.
fn text(rt: &impl Abort, alloc: Global, statements: u32) -> Result<Vec<u8>, Fail> {
    assert!(rt; statements >= 1 && statements <= 200);
    Ok(trial(alloc, statements)?)
}

#[test]
fn trials(rt: HostRuntime) -> Result<(), Fail> {
    for (statements, end) in &ENDS {
        let text = text(&rt, rt.alloc(), *statements)?;
        assert!(rt; text.as_slice().ends_with(end), "{statements} statements");
    }
    assert!(rt; text(&rt, rt.alloc(), 3)?.len() == 141);
    Ok(())
}
