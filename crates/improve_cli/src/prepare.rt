//! The whole answer of a run, before anything is written.
ghost use Rattle.std.specs.Prelude.{◌≡◌, ◌≢◌, ◌⊎◌, ◌<◌, ◌≤◌, ℕ, List, Option, true, false, IfOk, IfErr, Err, Some};
ghost use Rattle.comp_graph.specs.Dags.{degree};
ghost use Rattle.comp_graph.specs.Games.{AreWeights};
ghost use Rattle.comp_graph.specs.Graphs.{dag_of};
ghost use Rattle.desk_io.specs.declared.desk.Kind.{Kind};
ghost use Rattle.desk_io.specs.Counts.{Rose};
ghost use Rattle.desk_io.specs.Known.{TookAtMost, input_end};
ghost use Rattle.kernel_ast.specs.KernelParts.{KernelParts};
ghost use Rattle.answer_desk.specs.Deliver.{SameWriteFaults};
ghost use Rattle.answer_desk.specs.Takes.{LeavesRest, SameTakeFaults};
ghost use Rattle.command_answers.specs.declared.status.Status.{Status};
ghost use Rattle.command_answers.specs.Accepted.{IsAccepted};
ghost use Rattle.command_answers.specs.MadeAnswers.{Meets, IfAnswer};
ghost use Rattle.command_answers.specs.Refusals.{IsTooSmall};
ghost use Rattle.command_answers.specs.Status.{NeedsWholeInput};
ghost use Rattle.improve_answers.specs.declared.commands.ImproveCommand.TheVariants.{Confirm};
ghost use Rattle.improve_answers.specs.Confirms.{Confirms};
ghost use Rattle.improve_answers.specs.ImproveWords.{asked_by, IsInLimits};
ghost use Rattle.improve_cli.specs.Answers.{Answers, AnswersInput, IsAdmitted};
ghost use Rattle.improve_cli.specs.Faults.{ReadCause, input_limit, reads_input};

use answer_desk::{file_bytes, kernel_input};
use command_answers::check::TABLE_LIMIT;
use command_answers::kernel_fault::accepted_kernel;
use command_answers::too_small::played_game;
use command_answers::{Answer, EarlyEnd, Status};
use command_words::Checking;
use comp_graph::Graph;
use desk_io::Desk;
use improve_answers::ImproveCommand;
use improve_answers::confirm::confirm_answer;
use improve_answers::improve::improve_answer;
use improve_answers::usage::usage_answer;
use improve_answers::words::command;
use std::alloc::Global;

// The answer of `confirm` to an accepted kernel by its graph: that more slots are needed, or its own. The file is read only if the slots are
// enough.
fn confirm_on_file<D: Desk>(
    alloc: Global,
    desk: &mut D,
    graph: Graph,
    asked: Checking,
) -> Result<Answer, EarlyEnd>
    requires some { 0 < asked.slots }
    requires few { asked.slots ≤ 64 }
    requires limits { AreWeights asked.weights }
    ensures answers { (text : List ℕ) (kernel : KernelParts) → IsAccepted text kernel graph →
        IfAnswer result (λ answer. Meets (IsTooSmall asked.slots text) answer ⊎ Meets (Confirms asked text (D.file desk.old)) answer) }
    ensures fault { result ≡ Err EarlyEnd.ReadFault → (degree (dag_of graph) < asked.slots)
        × Rose (D.faults desk.old Kind.TakeFile) (D.faults desk.new Kind.TakeFile) }
    ensures same_takes { D.faults desk.new Kind.TakeInput ≡ D.faults desk.old Kind.TakeInput }
    ensures no_vain_take { result ≢ Err EarlyEnd.ReadFault → SameTakeFaults (D.faults desk.old) (D.faults desk.new) }
    ensures write_faults { SameWriteFaults (D.faults desk.old) (D.faults desk.new) }
    ensures same_name { D.name desk.new ≡ D.name desk.old }
    ensures same_input { D.input desk.new ≡ D.input desk.old }
    ensures same_file { D.file desk.new ≡ D.file desk.old }
    ensures same_output { D.output desk.new ≡ D.output desk.old }
{
    let game = played_game(alloc, graph, asked.slots, asked.weights)?;
    let file = file_bytes(alloc, desk, TABLE_LIMIT)?;
    Ok(confirm_answer(alloc, &game, asked, &file)?)
}

// The answer of a command to the text of its kernel. The file is read if the command is `confirm` and nothing refuses it.
fn kernel_answer<D: Desk>(
    alloc: Global,
    desk: &mut D,
    command: ImproveCommand,
    text: &[u8],
) -> Result<Answer, EarlyEnd>
    requires { IsInLimits command }
    ensures answers { IfAnswer result (Meets (Answers (Some command) text.now (D.file desk.old))) }
    ensures fault { result ≡ Err EarlyEnd.ReadFault →
        (asked : Checking) × (command ≡ Confirm asked) × IsAdmitted command text.now
        × Rose (D.faults desk.old Kind.TakeFile) (D.faults desk.new Kind.TakeFile) }
    ensures same_takes { D.faults desk.new Kind.TakeInput ≡ D.faults desk.old Kind.TakeInput }
    ensures no_vain_take { result ≢ Err EarlyEnd.ReadFault → SameTakeFaults (D.faults desk.old) (D.faults desk.new) }
    ensures write_faults { SameWriteFaults (D.faults desk.old) (D.faults desk.new) }
    ensures same_name { D.name desk.new ≡ D.name desk.old }
    ensures same_input { D.input desk.new ≡ D.input desk.old }
    ensures same_file { D.file desk.new ≡ D.file desk.old }
    ensures same_output { D.output desk.new ≡ D.output desk.old }
{
    let accepted = accepted_kernel(alloc, text)?;
    match command {
        ImproveCommand::Improve(asked) => improve_answer(alloc, accepted.graph, asked),
        ImproveCommand::Confirm(asked) => confirm_on_file(alloc, desk, accepted.graph, asked),
    }
}

// The answer of a command to the kernel in the input.
fn command_answer<D: Desk>(
    alloc: Global,
    desk: &mut D,
    command: ImproveCommand,
) -> Result<Answer, EarlyEnd>
    requires { IsInLimits command }
    ensures answers { IfAnswer result (AnswersInput (Some command) (D.input desk.old) (D.file desk.old)) }
    ensures fault { result ≡ Err EarlyEnd.ReadFault →
        ReadCause (Some command) (D.input desk.old) (D.faults desk.old) (D.faults desk.new) }
    ensures early { result ≡ Err EarlyEnd.ReadFault → TookAtMost (D.input desk.old) (D.input desk.new) 65536 }
    ensures read_whole { IfAnswer result (λ answer. NeedsWholeInput answer.status → D.input desk.new ≡ input_end (D.input desk.old)) }
    ensures rest_left { LeavesRest (D.input desk.old) (D.input desk.new) }
    ensures no_vain_take { result ≢ Err EarlyEnd.ReadFault → SameTakeFaults (D.faults desk.old) (D.faults desk.new) }
    ensures write_faults { SameWriteFaults (D.faults desk.old) (D.faults desk.new) }
    ensures same_name { D.name desk.new ≡ D.name desk.old }
    ensures same_file { D.file desk.new ≡ D.file desk.old }
    ensures same_output { D.output desk.new ≡ D.output desk.old }
{
    let text = kernel_input(alloc, desk)?;
    kernel_answer(alloc, desk, command, &text)
}

/// Reads the words, and what they ask to be read, and makes the whole answer. Nothing is written.
///
/// # Errors
///
/// `ReadFault` if a take failed, and `NoMemory`.
pub fn prepare<D: Desk>(alloc: Global, words: &[String], desk: &mut D) -> Result<Answer, Status>
    ensures answers { IfOk result (AnswersInput (asked_by words.now) (D.input desk.old) (D.file desk.old)) }
    ensures refusal { IfErr result (λ status. (status ≡ Status.NoMemory) ⊎ ((status ≡ Status.ReadFault)
        × ReadCause (asked_by words.now) (D.input desk.old) (D.faults desk.old) (D.faults desk.new))) }
    ensures early { result ≡ Err Status.ReadFault →
        TookAtMost (D.input desk.old) (D.input desk.new) (input_limit (asked_by words.now)) }
    ensures read_whole { reads_input (asked_by words.now) ≡ true →
        IfOk result (λ answer. NeedsWholeInput answer.status → D.input desk.new ≡ input_end (D.input desk.old)) }
    ensures untouched { reads_input (asked_by words.now) ≡ false → D.input desk.new ≡ D.input desk.old }
    ensures rest_left { LeavesRest (D.input desk.old) (D.input desk.new) }
    ensures no_vain_take { result ≢ Err Status.ReadFault → SameTakeFaults (D.faults desk.old) (D.faults desk.new) }
    ensures write_faults { SameWriteFaults (D.faults desk.old) (D.faults desk.new) }
    ensures same_name { D.name desk.new ≡ D.name desk.old }
    ensures same_file { D.file desk.new ≡ D.file desk.old }
    ensures same_output { D.output desk.new ≡ D.output desk.old }
{
    let command = match command(words) {
        Some(command) => command,
        None => return Ok(usage_answer(alloc)?),
    };
    match command_answer(alloc, desk, command) {
        Ok(answer) => Ok(answer),
        Err(EarlyEnd::Refused(answer)) => Ok(answer),
        Err(EarlyEnd::ReadFault) => Err(Status::ReadFault),
        Err(EarlyEnd::NoMemory) => Err(Status::NoMemory),
    }
}
