//! The answer of `run`.
ghost use Rattle.std.specs.Prelude.{◌≡◌, ◌≤◌, ℕ, List, map, length, IfOk, None};
ghost use Rattle.std.specs.declared.option.Option.{Option};
ghost use Rattle.comp_graph.specs.declared.node.Output.{Output};
ghost use Rattle.desk_io.specs.Known.{ToldFile, TellsFile, file_items};
ghost use Rattle.plan_report.specs.OutputsText.{outputs_text};
ghost use Rattle.command_answers.specs.Accepted.{IsAccepted};
ghost use Rattle.command_answers.specs.MadeAnswers.{Meets, IsFileOf};
ghost use Rattle.command_answers.specs.RunAnswers.{Runs};

use crate::answer::{Answer, FileBytes};
use crate::kernel::Accepted;
use crate::status::Status;
use crate::values::values_fault;
use comp_graph::{Graph, Label, NoMemory};
use plan_report::outputs_text;
use source_machine::{RunEnd, run};
use std::alloc::Global;
use values_text::{ValuesEnd, read_values};

// The labels of a graph's output elements.
fn output_labels(alloc: Global, graph: &Graph) -> Result<Vec<Label>, NoMemory>
    ensures { IfOk result (λ labels. labels.items ≡ map (λ (o : Output). o.label) graph.now.outputs) }
{
    let mut labels = Vec::new(alloc);
    for output in graph.outputs() {
        let label = output.label.copy(alloc)?;
        labels.push(label)?;
    }
    Ok(labels)
}

// The answer where the kernel has these outputs.
fn valued(alloc: Global, graph: &Graph, outputs: &[i64]) -> Result<Answer, NoMemory>
    requires { length graph.now.outputs ≡ length outputs.now }
    ensures status { IfOk result (λ answer. answer.status ≡ Status.Done) }
    ensures text { IfOk result (λ answer.
        answer.text.items ≡ outputs_text (map (λ (o : Output). o.label) graph.now.outputs) outputs.now) }
    ensures none { IfOk result (λ answer. file_items answer.table ≡ None) }
{
    let labels = output_labels(alloc, graph)?;
    Ok(Answer {
        status: Status::Done,
        text: outputs_text(alloc, &labels, outputs)?,
        table: None,
    })
}

// The answer to a kernel and the bytes of its values file.
fn values_answer(alloc: Global, accepted: &Accepted, bytes: &[u8]) -> Result<Answer, NoMemory>
    requires short { length bytes.now ≤ 1000000 }
    requires accepted { (text : List ℕ) × IsAccepted text accepted.now.kernel accepted.now.graph }
    ensures { IfOk result (λ answer. (text : List ℕ) (file : ToldFile) →
        IsAccepted text accepted.now.kernel accepted.now.graph → TellsFile file bytes.now →
        Meets (Runs text file) answer) }
{
    let values = match read_values(alloc, bytes) {
        Ok(values) => values,
        Err(ValuesEnd::Shape) => return values_fault(alloc),
        Err(ValuesEnd::NoMemory) => return Err(NoMemory),
    };
    match run(alloc, &accepted.kernel, &values) {
        Ok(outputs) => valued(alloc, &accepted.graph, &outputs),
        Err(RunEnd::WrongCount { .. }) => values_fault(alloc),
        // The kernel has a graph, so its run has no fault.
        Err(RunEnd::Shape { .. }) => unreachable!(),
        Err(RunEnd::NoMemory) => Err(NoMemory),
    }
}

/// The answer of `run` to an accepted kernel and what its file holds: the outputs on the values, or that they are no values of the kernel.
pub fn run_answer(alloc: Global, accepted: &Accepted, file: &FileBytes) -> Result<Answer, NoMemory>
    requires limit { (held : ToldFile) × IsFileOf held 1000000 file.now }
    requires accepted { (text : List ℕ) × IsAccepted text accepted.now.kernel accepted.now.graph }
    ensures { IfOk result (λ answer. (text : List ℕ) (held : ToldFile) →
        IsAccepted text accepted.now.kernel accepted.now.graph → IsFileOf held 1000000 file.now →
        Meets (Runs text held) answer) }
{
    match file {
        FileBytes::Whole(bytes) => values_answer(alloc, accepted, bytes),
        FileBytes::TooLong => values_fault(alloc),
    }
}
