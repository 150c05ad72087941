//! The kernels of the folder `kernels/`: their graphs, their first plans with three numbers of slots, and their outputs, by the source and
//! by the code.
mod arrays;
mod branches;
mod scalars;

use command_answers::Status;
use comp_graph::{Game, Graph, Weights};
use example_runs::run_line;
use first_plan::first;
use kernel_parser::parse;
use loop_unroll::unroll;
use scratch_machine::{Code, exec};
use slot_alloc::emit;
use std::alloc::Global;
use std::process::Abort;
use std::test::Fail;
use three_address::lower;
use values_text::read_values;

/// A kernel and what is known of it. All of this was worked out by hand and by a program that shares nothing with this one.
#[derive(Clone, Copy)]
pub struct Known {
    text: &'static str,
    vertices: u16,
    inputs: u16,
    degree: u16,
    bound: u32,
    /// With the fewest slots that the kernel can do with, with one slot more, and with eight.
    costs: [Cost; 3],
    /// On two lists of inputs; the numbers of the second wrap.
    runs: [Run; 2],
}

/// A number of slots, and the cost of the first plan with them, in transfers.
#[derive(Clone, Copy)]
pub struct Cost(pub u16, pub u32);

/// A values file with the values of a kernel's inputs, and what is printed of its outputs.
#[derive(Clone, Copy)]
pub struct Run(pub &'static str, pub &'static str);

#[test]
fn kernels_with_arrays(rt: HostRuntime) -> Result<(), Fail> {
    check_kernels(&rt, rt.alloc(), &arrays::ARRAYS)
}

#[test]
fn kernels_without_arrays(rt: HostRuntime) -> Result<(), Fail> {
    check_kernels(&rt, rt.alloc(), &scalars::SCALARS)
}

#[test]
fn kernels_with_branches_and_steps(rt: HostRuntime) -> Result<(), Fail> {
    check_kernels(&rt, rt.alloc(), &branches::BRANCHES)
}

// All that is known of each kernel.
fn check_kernels(rt: &impl Abort, alloc: Global, kernels: &[Known]) -> Result<(), Fail> {
    for known in kernels {
        check_kernel(rt, alloc, known)?;
    }
    Ok(())
}

// All that is known of a kernel.
fn check_kernel(rt: &impl Abort, alloc: Global, known: &Known) -> Result<(), Fail> {
    for run in &known.runs {
        check_outputs(rt, alloc, known.text, *run)?;
    }
    check_graph(rt, alloc, known)?;
    check_too_small(rt, alloc, known)?;
    for cost in &known.costs {
        check_plan(rt, alloc, known, *cost)?;
        check_code(rt, alloc, known, *cost)?;
    }
    Ok(())
}

// `run` prints the outputs.
fn check_outputs(rt: &impl Abort, alloc: Global, text: &str, run: Run) -> Result<(), Fail> {
    let Run(values, printed) = run;
    let left = run_line(alloc, "run v", text.as_bytes(), values.as_bytes())?;
    assert_eq!(rt; left.output.as_slice(), printed.as_bytes());
    assert_eq!(rt; left.status, Status::Done);
    Ok(())
}

// `graph` prints these numbers first.
fn check_graph(rt: &impl Abort, alloc: Global, known: &Known) -> Result<(), Fail> {
    let (vertices, inputs, degree) = (known.vertices, known.inputs, known.degree);
    let first = format!(in alloc; "vertices {vertices}\ninputs {inputs}\ndegree {degree}\n0 in ")?;
    let left = run_line(alloc, "graph", known.text.as_bytes(), b"old")?;
    let output = str::from_utf8(left.output.as_slice())?;
    assert!(rt; output.starts_with(first.as_str()), "{vertices} vertices");
    assert_eq!(rt; left.status, Status::Done);
    Ok(())
}

// With as many slots as the degree `plan` prints how many are wanted.
fn check_too_small(rt: &impl Abort, alloc: Global, known: &Known) -> Result<(), Fail> {
    let degree = known.degree;
    let words = format!(in alloc; "plan {degree} t 0")?;
    let left = run_line(alloc, words.as_str(), known.text.as_bytes(), b"old")?;
    let needs = degree.saturating_add(1);
    let line = format!(in alloc; "too small needs {needs}\n")?;
    assert_eq!(rt; left.output.as_slice(), line.as_bytes());
    assert_eq!(rt; left.status, Status::TooSmall);
    Ok(())
}

// `plan` with these slots prints this cost and the bound, and is Optimal where they are equal.
fn check_plan(rt: &impl Abort, alloc: Global, known: &Known, wanted: Cost) -> Result<(), Fail> {
    let Cost(slots, cost) = wanted;
    let bound = known.bound;
    let words = format!(in alloc; "plan {slots} t 0")?;
    let left = run_line(alloc, words.as_str(), known.text.as_bytes(), b"old")?;
    let lines = format!(in alloc;
        "\n; slots {slots}\n; first {cost}\n; cost {cost}\n; bound {bound}\n"
    )?;
    let output = str::from_utf8(left.output.as_slice())?;
    assert!(rt; output.contains(lines.as_str()), "cost {cost}");
    let status = if cost == bound {
        Status::Optimal
    } else {
        Status::Open
    };
    assert_eq!(rt; left.status, status);
    Ok(())
}

// The code of the first plan with these slots prints what the source prints, with as many transfers as the plan costs.
fn check_code(rt: &impl Abort, alloc: Global, known: &Known, wanted: Cost) -> Result<(), Fail> {
    let Cost(slots, cost) = wanted;
    assert!(rt; 0 < slots && slots <= 64);
    let graph = graph_of(alloc, known.text)?;
    let game = Game::new(graph, slots, Weights { load: 1, store: 1 })
        .ok()
        .ok_or("too few slots")?;
    let plan = first(alloc, &game)?;
    assert_eq!(rt; plan.total(), cost);
    let code = emit(alloc, &plan)?;
    for run in &known.runs {
        check_run(rt, alloc, &code, *run, cost)?;
    }
    Ok(())
}

// The graph of a kernel's text.
fn graph_of(alloc: Global, text: &str) -> Result<Graph, Fail> {
    let kernel = parse(alloc, text.as_bytes())?;
    let flats = unroll(alloc, &kernel)?;
    Ok(lower(alloc, &kernel, &flats)?)
}

// A run of the code gives the outputs, and takes as many transfers as the plan costs.
fn check_run(rt: &impl Abort, alloc: Global, code: &Code, run: Run, cost: u32) -> Result<(), Fail> {
    assert!(rt; code.instructions().len() < 1000 && code.outputs().len() < 1000);
    let Run(values, wanted) = run;
    let values = read_values(alloc, values.as_bytes())
        .ok()
        .ok_or("no values")?;
    assert!(rt; values.len() < 1000);
    let ran = exec(alloc, code, &values)?;
    let mut printed = String::new(alloc);
    for (output, value) in code.outputs().iter().zip(ran.outputs.as_slice()) {
        let label = str::from_utf8(output.label.bytes())?;
        let line = format!(in alloc; "{label} = {value}\n")?;
        printed.push_str(line.as_str())?;
    }
    assert_eq!(rt; printed.as_str(), wanted);
    assert_eq!(rt; ran.transfers, cost);
    Ok(())
}
