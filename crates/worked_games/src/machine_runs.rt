//! A small code by hand, with values from outside, and a run that ends by each fault.
ghost use Rattle.std.specs.Prelude.{◌<◌};

use comp_graph::{Label, Op};
use scratch_machine::{Code, ExecEnd, Instr, OutWord, Source, exec};
use std::alloc::{AllocError, Global};
use std::process::Abort;
use std::test::Fail;

// A code of `y = x + 1`, of two slots and three words. It loads from the word `from`, adds 1 to the slot `read`, and stores to the
// word `to`. With 0, 0 and 1 it is right, and else it reads an empty place.
fn one_sum(alloc: Global, from: u16, read: u16, to: u16) -> Result<Code, AllocError>
    requires from { from < 3 }
    requires read { read < 2 }
    requires to { to < 3 }
{
    let instructions = vec![in alloc;
        Instr::Load {
            slot: 0,
            word: from
        },
        Instr::Apply {
            op: Op::Add,
            slot: 1,
            args: [Source::Slot(read), Source::Const(1), Source::Const(0)]
        },
        Instr::Store { slot: 1, word: to },
    ]?;
    let inputs = vec![in alloc; Label::new(b"x".to_vec(alloc)?)]?;
    let outputs = vec![in alloc;
        OutWord {
            label: Label::new(b"y".to_vec(alloc)?),
            word: 1
        },
    ]?;
    Ok(Code::new(2, 3, inputs, outputs, instructions))
}

// The sum of some numbers.
fn sum(numbers: &[i64]) -> i64 {
    let mut total: i64 = 0;
    for number in numbers {
        total = total.wrapping_add(*number);
    }
    total
}

// The sum of the outputs of a run, and its transfers.
fn outcome(
    rt: &impl Abort,
    alloc: Global,
    code: &Code,
    values: &[i64],
) -> Result<(i64, u32), ExecEnd> {
    assert!(rt; code.instructions().len() <= 3 && code.outputs().len() <= 1 && values.len() <= 2);
    let ran = exec(alloc, code, values)?;
    Ok((sum(&ran.outputs), ran.transfers))
}

/// The word that the code loads, the slot that it reads and the word that it stores to, the values that it gets, and what it answers.
#[derive(Clone, Copy)]
struct Run(u16, u16, u16, &'static [i64], Result<(i64, u32), ExecEnd>);

fn runs() -> &'static [Run] {
    &[
        Run(0, 0, 1, &[41], Ok((42, 2))),
        Run(0, 0, 1, &[], Err(ExecEnd::WrongCount { needs: 1, got: 0 })),
        Run(
            0,
            0,
            1,
            &[41, 7],
            Err(ExecEnd::WrongCount { needs: 1, got: 2 }),
        ),
        Run(1, 0, 1, &[41], Err(ExecEnd::EmptyWord { at: 0 })),
        Run(0, 1, 1, &[41], Err(ExecEnd::EmptySlot { at: 1 })),
        Run(0, 0, 2, &[41], Err(ExecEnd::EmptyWord { at: 3 })),
    ]
}

// Compares what a run answers.
fn compare(rt: &impl Abort, alloc: Global, run: Run) -> Result<(), Fail> {
    let Run(from, read, to, values, wanted) = run;
    assert!(rt; from < 3 && read < 2 && to < 3);
    let code = one_sum(alloc, from, read, to)?;
    assert_eq!(rt; outcome(rt, alloc, &code, values), wanted);
    Ok(())
}

#[test]
fn runs_and_faults(rt: HostRuntime) -> Result<(), Fail> {
    for run in runs() {
        compare(&rt, rt.alloc(), *run)?;
    }
    Ok(())
}
