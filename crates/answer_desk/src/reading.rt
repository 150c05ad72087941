//! What is read before an answer is made: the input, and the file for each command that reads one. Nothing is written.
ghost use Rattle.std.specs.Prelude.{◌≡◌, ◌≢◌, ◌≤◌, ℕ, List, IfOk, OnOk, Err, length};
ghost use Rattle.desk_io.specs.declared.desk.Kind.{Kind};
ghost use Rattle.desk_io.specs.Counts.{Rose};
ghost use Rattle.desk_io.specs.Known.{Tells, TookAtMost, input_end};
ghost use Rattle.command_answers.specs.CodeInputs.{IsNoCode};
ghost use Rattle.command_answers.specs.MadeAnswers.{Meets, IfRefused, IsFileOf};
ghost use Rattle.answer_desk.specs.Deliver.{SameWriteFaults};
ghost use Rattle.answer_desk.specs.Takes.{SameTakeFaults, LeavesRest};
ghost use Rattle.command_answers.specs.Refusals.{IsFaulty};

use command_answers::answer::{EarlyEnd, FileBytes};
use command_answers::code_fault::code_fault_answer;
use command_answers::kernel_fault::kernel_fault_answer;
use desk_io::{Desk, ReadEnd, read_file, read_input};
use kernel_parser::MAX_LENGTH;
use std::alloc::Global;

/// The most bytes of a kernel's text.
const KERNEL_LIMIT: u32 = MAX_LENGTH as u32;

/// The most bytes of a code's text.
const CODE_LIMIT: u32 = 20_000_000;

/// The kernel's text that the input is, read to its end.
///
/// # Errors
///
/// [`EarlyEnd::Refused`] with the fault of a text of more than 65,536 bytes, which is read past them by at most one piece of 4,096 bytes.
/// [`EarlyEnd::ReadFault`] where a take failed before more than 65,536 bytes were taken, and [`EarlyEnd::NoMemory`].
pub fn kernel_input<D: Desk>(alloc: Global, desk: &mut D) -> Result<Vec<u8>, EarlyEnd>
    ensures told { IfOk result (λ text. Tells (D.input desk.old) text.items) }
    ensures short { IfOk result (λ text. length text.items ≤ 65536) }
    ensures whole { OnOk result (D.input desk.new ≡ input_end (D.input desk.old)) }
    ensures rest_left { LeavesRest (D.input desk.old) (D.input desk.new) }
    ensures refused { IfRefused result (λ answer.
        (text : List ℕ) × Tells (D.input desk.old) text × Meets (IsFaulty text) answer) }
    ensures fault { result ≡ Err EarlyEnd.ReadFault →
        Rose (D.faults desk.old Kind.TakeInput) (D.faults desk.new Kind.TakeInput) }
    ensures early { result ≡ Err EarlyEnd.ReadFault →
        TookAtMost (D.input desk.old) (D.input desk.new) 65536 }
    ensures same_takes { D.faults desk.new Kind.TakeFile ≡ D.faults desk.old Kind.TakeFile }
    ensures no_vain_take { result ≢ Err EarlyEnd.ReadFault → SameTakeFaults (D.faults desk.old) (D.faults desk.new) }
    ensures write_faults { SameWriteFaults (D.faults desk.old) (D.faults desk.new) }
    ensures same_name { D.name desk.new ≡ D.name desk.old }
    ensures same_file { D.file desk.new ≡ D.file desk.old }
    ensures same_output { D.output desk.new ≡ D.output desk.old }
{
    match read_input(alloc, desk, KERNEL_LIMIT) {
        Ok(text) => Ok(text),
        Err(ReadEnd::TooLong) => Err(EarlyEnd::Refused(kernel_fault_answer(
            alloc,
            15,
            KERNEL_LIMIT,
        )?)),
        Err(ReadEnd::ReadFault) => Err(EarlyEnd::ReadFault),
        Err(ReadEnd::NoMemory) => Err(EarlyEnd::NoMemory),
    }
}

/// The code's text that the input is, read to its end.
///
/// # Errors
///
/// [`EarlyEnd::Refused`] with the line 0 for a text of more than 20,000,000 bytes, which is read past them by at most one piece of 4,096 bytes.
/// [`EarlyEnd::ReadFault`] where a take failed before more than 20,000,000 bytes were taken, and [`EarlyEnd::NoMemory`].
pub fn code_input<D: Desk>(alloc: Global, desk: &mut D) -> Result<Vec<u8>, EarlyEnd>
    ensures told { IfOk result (λ text. Tells (D.input desk.old) text.items) }
    ensures short { IfOk result (λ text. length text.items ≤ 20000000) }
    ensures whole { OnOk result (D.input desk.new ≡ input_end (D.input desk.old)) }
    ensures rest_left { LeavesRest (D.input desk.old) (D.input desk.new) }
    ensures refused { IfRefused result (λ answer.
        (text : List ℕ) × Tells (D.input desk.old) text × Meets (IsNoCode text) answer) }
    ensures fault { result ≡ Err EarlyEnd.ReadFault →
        Rose (D.faults desk.old Kind.TakeInput) (D.faults desk.new Kind.TakeInput) }
    ensures early { result ≡ Err EarlyEnd.ReadFault →
        TookAtMost (D.input desk.old) (D.input desk.new) 20000000 }
    ensures same_takes { D.faults desk.new Kind.TakeFile ≡ D.faults desk.old Kind.TakeFile }
    ensures no_vain_take { result ≢ Err EarlyEnd.ReadFault → SameTakeFaults (D.faults desk.old) (D.faults desk.new) }
    ensures write_faults { SameWriteFaults (D.faults desk.old) (D.faults desk.new) }
    ensures same_name { D.name desk.new ≡ D.name desk.old }
    ensures same_file { D.file desk.new ≡ D.file desk.old }
    ensures same_output { D.output desk.new ≡ D.output desk.old }
{
    match read_input(alloc, desk, CODE_LIMIT) {
        Ok(text) => Ok(text),
        Err(ReadEnd::TooLong) => Err(EarlyEnd::Refused(code_fault_answer(alloc, 0)?)),
        Err(ReadEnd::ReadFault) => Err(EarlyEnd::ReadFault),
        Err(ReadEnd::NoMemory) => Err(EarlyEnd::NoMemory),
    }
}

/// What the file holds, for a command that reads it up to a limit in bytes.
///
/// # Errors
///
/// [`EarlyEnd::ReadFault`] where a take failed; a missing file is one. [`EarlyEnd::NoMemory`].
pub fn file_bytes<D: Desk>(alloc: Global, desk: &mut D, limit: u32) -> Result<FileBytes, EarlyEnd>
    ensures bytes { IfOk result (IsFileOf (D.file desk.old) limit) }
    ensures not_refused { IfRefused result (λ answer. ⊥) }
    ensures fault { result ≡ Err EarlyEnd.ReadFault →
        Rose (D.faults desk.old Kind.TakeFile) (D.faults desk.new Kind.TakeFile) }
    ensures same_takes { D.faults desk.new Kind.TakeInput ≡ D.faults desk.old Kind.TakeInput }
    ensures no_vain_take { result ≢ Err EarlyEnd.ReadFault → SameTakeFaults (D.faults desk.old) (D.faults desk.new) }
    ensures write_faults { SameWriteFaults (D.faults desk.old) (D.faults desk.new) }
    ensures same_name { D.name desk.new ≡ D.name desk.old }
    ensures same_input { D.input desk.new ≡ D.input desk.old }
    ensures same_file { D.file desk.new ≡ D.file desk.old }
    ensures same_output { D.output desk.new ≡ D.output desk.old }
{
    match read_file(alloc, desk, limit) {
        Ok(bytes) => Ok(FileBytes::Whole(bytes)),
        Err(ReadEnd::TooLong) => Ok(FileBytes::TooLong),
        Err(ReadEnd::ReadFault) => Err(EarlyEnd::ReadFault),
        Err(ReadEnd::NoMemory) => Err(EarlyEnd::NoMemory),
    }
}
