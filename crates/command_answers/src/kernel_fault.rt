//! The kernel of a text, or the answer to its fault.
ghost use Rattle.std.specs.Prelude.{◌≡◌, ◌≢◌, ℕ, List, IfOk, Err};
ghost use Rattle.command_answers.specs.Accepted.{IsAccepted, IsKernelFault};
ghost use Rattle.command_answers.specs.MadeAnswers.{Meets, IfRefused};
ghost use Rattle.command_answers.specs.Refusals.{IsFaulty};

use crate::answer::{Answer, EarlyEnd};
use crate::kernel::{Accepted, KernelEnd, accept};
use crate::status::Status;
use comp_graph::NoMemory;
use std::alloc::Global;

/// The answer to a kernel's text with this fault: its code, and its place in bytes from 0.
pub fn kernel_fault_answer(alloc: Global, code: u8, at: u32) -> Result<Answer, NoMemory>
    ensures { IfOk result (λ answer. (text : List ℕ) →
        IsKernelFault text code at → Meets (IsFaulty text) answer) }
{
    let line = format!(in alloc; "kernel fault K{code} at {at}\n")?;
    Ok(Answer {
        status: Status::Kernel,
        text: line.into_bytes(),
        table: None,
    })
}

/// The kernel of a text, with its graph.
///
/// # Errors
///
/// [`EarlyEnd::Refused`] with the line of the first fault, exactly where there is one, and [`EarlyEnd::NoMemory`].
pub fn accepted_kernel(alloc: Global, text: &[u8]) -> Result<Accepted, EarlyEnd>
    ensures accepted { IfOk result (λ accepted. IsAccepted text.now accepted.kernel accepted.graph) }
    ensures refused { IfRefused result (Meets (IsFaulty text.now)) }
    ensures no_fault { result ≢ Err EarlyEnd.ReadFault }
{
    match accept(alloc, text) {
        Ok(accepted) => Ok(accepted),
        Err(KernelEnd::Fault { code, at }) => {
            Err(EarlyEnd::Refused(kernel_fault_answer(alloc, code, at)?))
        }
        Err(KernelEnd::NoMemory) => Err(EarlyEnd::NoMemory),
    }
}
