//! The codes of three plans, written out by hand.
use crate::builders::{WEIGHTS, chain, game, one_sum, plan, three_outputs};
use Line::{Apply, Load, Store};
use comp_graph::{Graph, NoMemory, Op};
use normal_steps::Plan;
use normal_steps::Step::{self, Drop, Spill, Work};
use scratch_machine::Source::{self, Const, Slot};
use scratch_machine::{Code, ExecEnd, Instr, exec};
use slot_alloc::emit;
use std::alloc::Global;
use std::process::Abort;
use std::test::Fail;

/// An instruction: a load to a slot from a word, a store from a slot to a word, or an operation on at most two operands.
#[derive(Clone, Copy)]
enum Line {
    Load(u16, u16),
    Store(u16, u16),
    Apply(Op, u16, Source, Source),
}

/// A plan with its cost, and its code: the number of words, the words of the outputs, and the instructions.
#[derive(Clone, Copy)]
struct Case {
    steps: &'static [Step],
    cost: u32,
    words: u16,
    outputs: &'static [u16],
    lines: &'static [Line],
}

/// The sum with two slots.
const ONE_SUM: Case = Case {
    steps: &[Work(1)],
    cost: 5,
    words: 2,
    outputs: &[1],
    lines: &[
        Load(0, 0),
        Apply(Op::Add, 1, Slot(0), Const(1)),
        Store(1, 1),
    ],
};

/// With three slots: the predecessors are loaded in rising number, and the operands are in the order of the source. The constant takes
/// the slot that is free again, and the finish stores the two outputs that are not blue.
const THREE_OUTPUTS: Case = Case {
    steps: &[Work(2), Drop(1), Work(3)],
    cost: 10,
    words: 4,
    outputs: &[0, 2, 3],
    lines: &[
        Load(0, 0),
        Load(1, 1),
        Apply(Op::Sub, 2, Slot(1), Slot(0)),
        Apply(Op::Set, 1, Const(7), Const(0)),
        Store(2, 2),
        Store(1, 3),
    ],
};

/// The first plan of the chain with three slots: the value that is used last leaves first, and is stored only where it is used again. The
/// stored values take the words 1 and 2 in the order of their stores, and their slots are taken again.
const CHAIN: Case = Case {
    steps: &[
        Work(1),
        Work(2),
        Drop(0),
        Work(3),
        Spill(2),
        Spill(1),
        Work(4),
        Drop(0),
        Work(5),
        Drop(4),
        Drop(3),
        Work(6),
        Drop(5),
        Drop(1),
        Work(7),
    ],
    cost: 17,
    words: 4,
    outputs: &[3],
    lines: &[
        Load(0, 0),
        Apply(Op::Add, 1, Slot(0), Const(1)),
        Apply(Op::Add, 2, Slot(0), Const(2)),
        Apply(Op::Mul, 0, Slot(1), Slot(2)),
        Store(2, 1),
        Store(1, 2),
        Load(1, 0),
        Apply(Op::Add, 2, Slot(1), Const(3)),
        Apply(Op::Mul, 1, Slot(0), Slot(2)),
        Load(0, 2),
        Apply(Op::Mul, 2, Slot(1), Slot(0)),
        Load(0, 1),
        Apply(Op::Mul, 1, Slot(2), Slot(0)),
        Store(1, 3),
    ],
};

// Whether two operands are the same.
fn is_same_source(source: Source, other: Source) -> bool {
    match (source, other) {
        (Slot(j), Slot(k)) => j == k,
        (Const(c), Const(d)) => c == d,
        _ => false,
    }
}

// Whether an instruction is that of the line.
fn is_line(instr: Instr, line: Line) -> bool {
    match (instr, line) {
        (Instr::Load { slot, word }, Load(s, w)) => slot == s && word == w,
        (Instr::Store { slot, word }, Store(s, w)) => slot == s && word == w,
        (Instr::Apply { op, slot, args }, Apply(o, s, first, second)) => op == o
            && slot == s
            && is_same_source(args[0], first)
            && is_same_source(args[1], second)
            && is_same_source(args[2], Const(0)),
        _ => false,
    }
}

// Compares a code with what is expected of it.
fn compare(rt: &impl Abort, code: &Code, case: Case) {
    assert_eq!(rt; code.words(), case.words);
    assert_eq!(rt; code.outputs().len(), case.outputs.len());
    for (output, word) in code.outputs().iter().zip(case.outputs) {
        assert_eq!(rt; output.word, *word);
    }
    assert_eq!(rt; code.instructions().len(), case.lines.len());
    for (instr, line) in code.instructions().iter().zip(case.lines) {
        assert!(rt; is_line(*instr, *line));
    }
}

// The code of a plan.
fn code_of(alloc: Global, plan: &Plan<'_>) -> Result<Code, NoMemory> {
    emit(alloc, plan)
}

// Makes the code of a plan of a graph, and compares it.
fn check(
    rt: &impl Abort,
    alloc: Global,
    graph: Graph,
    slots: u16,
    case: Case,
) -> Result<Code, Fail> {
    let game = game(rt, graph, slots, WEIGHTS);
    match plan(alloc, &game, case.steps)? {
        Some(plan) => {
            assert_eq!(rt; plan.total(), case.cost);
            let code = code_of(alloc, &plan)?;
            assert_eq!(rt; code.slots(), slots);
            compare(rt, &code, case);
            Ok(code)
        }
        None => panic!(rt; "the steps are a plan"),
    }
}

// The first output of a run, and its transfers.
fn outcome(rt: &impl Abort, alloc: Global, code: &Code, x: i64) -> Result<(i64, u32), ExecEnd> {
    assert!(rt; code.instructions().len() <= 14 && code.outputs().len() <= 1);
    let ran = exec(alloc, code, &[x])?;
    assert_eq!(rt; ran.outputs.len(), 1);
    Ok((ran.outputs[0], ran.transfers))
}

fn code_of_one_sum() -> Case {
    ONE_SUM
}

fn code_of_three_outputs() -> Case {
    THREE_OUTPUTS
}

fn code_of_the_chain() -> Case {
    CHAIN
}

#[test]
fn one_sum_with_two_slots(rt: HostRuntime) -> Result<(), Fail> {
    let graph = one_sum(rt.alloc())?;
    check(&rt, rt.alloc(), graph, 2, code_of_one_sum())?;
    Ok(())
}

#[test]
fn three_outputs_with_three_slots(rt: HostRuntime) -> Result<(), Fail> {
    let graph = three_outputs(rt.alloc())?;
    check(&rt, rt.alloc(), graph, 3, code_of_three_outputs())?;
    Ok(())
}

#[test]
fn chain_with_three_slots(rt: HostRuntime) -> Result<(), Fail> {
    let graph = chain(rt.alloc())?;
    let code = check(&rt, rt.alloc(), graph, 3, code_of_the_chain())?;
    assert_eq!(rt; outcome(&rt, rt.alloc(), &code, 1), Ok((144, 7)));
    Ok(())
}
