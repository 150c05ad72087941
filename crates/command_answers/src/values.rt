//! The answer where a values file does not hold what a command asks for.
ghost use Rattle.std.specs.Prelude.{◌≡◌, IfOk, None};
ghost use Rattle.desk_io.specs.Known.{file_items};
ghost use Rattle.command_answers.specs.ValuesFiles.{values_fault_text};

use crate::answer::Answer;
use crate::status::Status;
use comp_graph::NoMemory;
use std::alloc::Global;

/// The most bytes of a values file.
pub const VALUES_LIMIT: u32 = 1_000_000;

/// The answer where the file is too long, spells no list of numbers, or spells another number of them than there are inputs.
pub fn values_fault(alloc: Global) -> Result<Answer, NoMemory>
    ensures status { IfOk result (λ answer. answer.status ≡ Status.Values) }
    ensures text { IfOk result (λ answer. answer.text.items ≡ values_fault_text) }
    ensures none { IfOk result (λ answer. file_items answer.table ≡ None) }
{
    Ok(Answer {
        status: Status::Values,
        text: Vec::from_slice(alloc, b"values fault\n")?,
        table: None,
    })
}
