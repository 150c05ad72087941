//! How many turns each kind of statement counts. Each stands in a loop, which is given as many turns as fit in 65,536, and one more.
use crate::builders::kernel;
use kernel_ast::Fault;
use kernel_walk::{Stop, walk};
use std::alloc::Global;
use std::test::Fail;

// Statements, and the most turns of the loop around each. The loops and the turn of the outer one count 7, and each turn of the inner one
// counts 1 and the weight of the statement: 5, 7, 8, 5, 8 and 5.
const MOST: [(&str, u32); 6] = [
    ("y = x + 1;", 10_921),
    ("y = mad(x, -3, x);", 8_191),
    ("A[2 * i][-i] = i;", 7_281),
    ("for j in 0..2 * i { y = x + 1; }", 10_921),
    ("for j in 0..2 * i by 2 + i { }", 7_281),
    ("if 2 * i < 0 { y = x + 1; }", 10_921),
];

// The code of the fault of a walk over a statement in a loop of so many turns, and 0 for none.
fn code(alloc: Global, statement: &str, turns: u32) -> Result<u8, Fail> {
    let text = format!(in alloc;
        "kernel p {{ in x; out y; tmp A[2][2]; for i in 0..1 {{ for k in 0..{turns} {{ {statement} }} }} }}"
    )?;
    let kernel = kernel(alloc, text.as_bytes())?;
    match walk(alloc, &kernel) {
        Ok(()) => Ok(0),
        Err(Stop::Fault(Fault { code, .. })) => Ok(code),
        Err(Stop::NoMemory) => Err(Fail::from("no memory")),
    }
}

#[test]
fn weights(rt: HostRuntime) -> Result<(), Fail> {
    for (statement, most) in &MOST {
        assert!(rt; code(rt.alloc(), statement, *most)? == 0, "{statement}");
        let more = most.saturating_add(1);
        assert!(rt; code(rt.alloc(), statement, more)? == 12, "{statement}");
    }
    Ok(())
}
