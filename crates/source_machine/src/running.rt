//! Runs a kernel on values of its inputs.
ghost use Rattle.std.specs.Prelude.{◌≡◌, ◌≤◌, length, map, IfOk, IfErr};
ghost use Rattle.kernel_walk.specs.Outcomes.{AnswersAs};
ghost use Rattle.source_machine.specs.Inputs.{input_count};
ghost use Rattle.source_machine.specs.Phases.{phases};
ghost use Rattle.source_machine.specs.RunEnds.{IsRun, EndMeans};
ghost use Rattle.source_machine.specs.States.{ended};

use crate::execution::Execution;
use crate::inputs::Inputs;
use crate::outputs::Outputs;
use crate::run_end::RunEnd;
use crate::value::Value;
use comp_graph::NoMemory;
use kernel_ast::Kernel;
use kernel_walk::{Stop, walk};
use std::alloc::Global;

/// What the output elements hold in the end, and how many input elements there are.
#[derive(Drop)]
struct Ended {
    outputs: Outputs,
    inputs: u32,
}

/// Goes through all phases of a run.
fn evaluate(alloc: Global, kernel: &Kernel, values: &[i64]) -> Result<Ended, Stop>
    ensures outputs { AnswersAs (phases kernel.now values.now) ended result }
    ensures inputs { IfOk result (λ e. e.inputs ≡ input_count kernel.now) }
{
    walk(alloc, kernel)?;
    let entered = Inputs::of(alloc, kernel, values)?;
    let inputs = entered.vertices;
    let execution = Execution::of(alloc, kernel, entered)?;
    let outputs = Outputs::of(alloc, kernel, &execution)?;
    Ok(Ended { outputs, inputs })
}

fn numbers_of(alloc: Global, held: &[Value]) -> Result<Vec<i64>, NoMemory>
    ensures { IfOk result (λ numbers. numbers.items ≡ map (λ v. v.number) held.now) }
{
    Ok(held.iter().map(|value| value.number).collect(alloc)?)
}

/// Runs a kernel: sets its input elements to the values, in order of declaration and row by row, executes its statements, and gives the
/// numbers of its output elements, in order of declaration and row by row.
///
/// # Errors
///
/// [`RunEnd::Shape`] with the kernel's first fault, exactly where it has one: first the walk's (12, 14, 17, 7), and then those of the values:
/// 11 at an input's or an output's name in its declaration, or at an operator's sign or function word, where there would be more than 256
/// vertices; 8 at the name of a place that is read and not set; 10 at an output's name in its declaration, where an element is not set in
/// the end. It does not hang on the values.
/// [`RunEnd::WrongCount`] exactly where the kernel has no fault, and there are fewer or more values than input elements.
/// [`RunEnd::NoMemory`] where memory was wanted and not found.
pub fn run(alloc: Global, kernel: &Kernel, values: &[i64]) -> Result<Vec<i64>, RunEnd>
    requires { length values.now ≤ 4294967295 }
    ensures outputs { IfOk result (λ found. IsRun kernel.now values.now found.items) }
    ensures end { IfErr result (EndMeans kernel.now values.now) }
{
    let ended = evaluate(alloc, kernel, values)?;
    let needs = ended.inputs;
    let got = values.len() as u32;
    if needs != got {
        return Err(RunEnd::WrongCount { needs, got });
    }
    Ok(numbers_of(alloc, ended.outputs.held.as_slice())?)
}
