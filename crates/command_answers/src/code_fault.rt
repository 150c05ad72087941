//! The code of a text, or the answer that it is none.
ghost use Rattle.std.specs.Prelude.{◌≡◌, ◌≢◌, ◌≤◌, ℕ, List, length, IfOk, Err};
ghost use Rattle.command_answers.specs.CodeInputs.{IsCodeInput, IsCodeFault, IsNoCode};
ghost use Rattle.command_answers.specs.MadeAnswers.{Meets, IfRefused};

use crate::answer::{Answer, EarlyEnd};
use crate::status::Status;
use comp_graph::NoMemory;
use scratch_code::{CodeEnd, read_code};
use scratch_machine::Code;
use std::alloc::Global;

/// The answer to a text that is no code: its bad line, counted from 1, or 0 where it is too long.
pub fn code_fault_answer(alloc: Global, line: u32) -> Result<Answer, NoMemory>
    ensures { IfOk result (λ answer. (text : List ℕ) →
        IsCodeFault text line → Meets (IsNoCode text) answer) }
{
    let text = format!(in alloc; "code fault line {line}\n")?;
    Ok(Answer {
        status: Status::Code,
        text: text.into_bytes(),
        table: None,
    })
}

/// The code that a text of at most 20,000,000 bytes reads as.
///
/// # Errors
///
/// [`EarlyEnd::Refused`] with its bad line, exactly where it reads as none, and [`EarlyEnd::NoMemory`].
pub fn readable_code(alloc: Global, text: &[u8]) -> Result<Code, EarlyEnd>
    requires { length text.now ≤ 20000000 }
    ensures reads { IfOk result (λ code. IsCodeInput text.now code) }
    ensures refused { IfRefused result (Meets (IsNoCode text.now)) }
    ensures no_fault { result ≢ Err EarlyEnd.ReadFault }
{
    match read_code(alloc, text) {
        Ok(code) => Ok(code),
        Err(CodeEnd::BadLine { line }) => Err(EarlyEnd::Refused(code_fault_answer(alloc, line)?)),
        Err(CodeEnd::NoMemory) => Err(EarlyEnd::NoMemory),
    }
}
