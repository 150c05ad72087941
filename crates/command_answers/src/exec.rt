//! The answer of `exec`.
ghost use Rattle.std.specs.Prelude.{◌≡◌, ◌≤◌, ◌++◌, ℕ, List, map, length, IfOk, None};
ghost use Rattle.std.specs.declared.option.Option.{Option};
ghost use Rattle.desk_io.specs.Known.{ToldFile, TellsFile, file_items};
ghost use Rattle.plan_report.specs.OutputsText.{outputs_text};
ghost use Rattle.scratch_machine.specs.declared.code.OutWord.{OutWord};
ghost use Rattle.command_answers.specs.CodeInputs.{IsCodeInput};
ghost use Rattle.command_answers.specs.ExecAnswers.{Executes, exec_fault_text, transfers_text};
ghost use Rattle.command_answers.specs.MadeAnswers.{Meets, IsFileOf};

use crate::answer::{Answer, FileBytes};
use crate::status::Status;
use crate::values::values_fault;
use comp_graph::{Label, NoMemory};
use plan_report::outputs_text;
use scratch_machine::{Code, ExecEnd, OutWord, Ran, exec};
use std::alloc::Global;
use values_text::{ValuesEnd, read_values};

// The answer where the run reads what is empty: the number of the instruction, or past them of the output, from 0.
fn exec_fault(alloc: Global, at: u32) -> Result<Answer, NoMemory>
    ensures status { IfOk result (λ answer. answer.status ≡ Status.ExecFault) }
    ensures text { IfOk result (λ answer. answer.text.items ≡ exec_fault_text at) }
    ensures none { IfOk result (λ answer. file_items answer.table ≡ None) }
{
    let text = format!(in alloc; "exec fault at {at}\n")?;
    Ok(Answer {
        status: Status::ExecFault,
        text: text.into_bytes(),
        table: None,
    })
}

// The labels of a code's outputs.
fn code_labels(alloc: Global, outputs: &[OutWord]) -> Result<Vec<Label>, NoMemory>
    ensures { IfOk result (λ labels. labels.items ≡ map (λ (o : OutWord). o.label) outputs.now) }
{
    let mut labels = Vec::new(alloc);
    for output in outputs {
        let label = output.label.copy(alloc)?;
        labels.push(label)?;
    }
    Ok(labels)
}

// The answer where the run of a code comes to an end.
fn executed(alloc: Global, code: &Code, ran: &Ran) -> Result<Answer, NoMemory>
    requires { length code.now.outputs ≡ length ran.now.outputs.items }
    ensures status { IfOk result (λ answer. answer.status ≡ Status.Done) }
    ensures text { IfOk result (λ answer. answer.text.items
        ≡ outputs_text (map (λ (o : OutWord). o.label) code.now.outputs) ran.now.outputs.items
        ++ transfers_text ran.now.transfers) }
    ensures none { IfOk result (λ answer. file_items answer.table ≡ None) }
{
    let labels = code_labels(alloc, code.outputs())?;
    let mut text = outputs_text(alloc, &labels, &ran.outputs)?;
    let transfers = ran.transfers;
    let line = format!(in alloc; "; transfers {transfers}\n")?;
    text.extend_from_slice(line.as_bytes())?;
    Ok(Answer {
        status: Status::Done,
        text,
        table: None,
    })
}

// The answer to a code and the bytes of its values file.
fn values_answer(alloc: Global, code: &Code, bytes: &[u8]) -> Result<Answer, NoMemory>
    requires short { length bytes.now ≤ 1000000 }
    requires input { (text : List ℕ) × IsCodeInput text code.now }
    ensures { IfOk result (λ answer. (text : List ℕ) (file : ToldFile) →
        IsCodeInput text code.now → TellsFile file bytes.now → Meets (Executes text file) answer) }
{
    let values = match read_values(alloc, bytes) {
        Ok(values) => values,
        Err(ValuesEnd::Shape) => return values_fault(alloc),
        Err(ValuesEnd::NoMemory) => return Err(NoMemory),
    };
    match exec(alloc, code, &values) {
        Ok(ran) => executed(alloc, code, &ran),
        Err(ExecEnd::WrongCount { .. }) => values_fault(alloc),
        Err(ExecEnd::EmptySlot { at }) => exec_fault(alloc, at),
        Err(ExecEnd::EmptyWord { at }) => exec_fault(alloc, at),
        Err(ExecEnd::NoMemory) => Err(NoMemory),
    }
}

/// The answer of `exec` to a code and what its file holds: the outputs of its run on the values, with the number of transfers; where the
/// run reads what is empty; or that they are no values of the code.
pub fn exec_answer(alloc: Global, code: &Code, file: &FileBytes) -> Result<Answer, NoMemory>
    requires limit { (held : ToldFile) × IsFileOf held 1000000 file.now }
    requires input { (text : List ℕ) × IsCodeInput text code.now }
    ensures { IfOk result (λ answer. (text : List ℕ) (held : ToldFile) →
        IsCodeInput text code.now → IsFileOf held 1000000 file.now →
        Meets (Executes text held) answer) }
{
    match file {
        FileBytes::Whole(bytes) => values_answer(alloc, code, bytes),
        FileBytes::TooLong => values_fault(alloc),
    }
}
