//! The whole answer of a run, before anything is written.
ghost use Rattle.std.specs.Prelude.{◌≡◌, ◌≢◌, ◌⊎◌, ◌<◌, ◌≤◌, ℕ, List, Option, length, true, false, IfOk, IfErr, Err, Some};
ghost use Rattle.comp_graph.specs.Dags.{degree};
ghost use Rattle.comp_graph.specs.Games.{AreWeights};
ghost use Rattle.comp_graph.specs.Graphs.{dag_of};
ghost use Rattle.desk_io.specs.declared.desk.Kind.{Kind};
ghost use Rattle.desk_io.specs.Counts.{Rose};
ghost use Rattle.desk_io.specs.Known.{ToldFile, TookAtMost, input_end};
ghost use Rattle.kernel_ast.specs.KernelParts.{KernelParts};
ghost use Rattle.scratch_machine.specs.Codes.{CodeParts};
ghost use Rattle.command_words.specs.declared.commands.Subject.{Subject};
ghost use Rattle.command_words.specs.Commands.{subject, slots_of, played_weights, reads_input, reads_file};
ghost use Rattle.command_words.specs.Words.{asked_by, IsInLimits};
ghost use Rattle.command_answers.specs.declared.status.Status.{Status};
ghost use Rattle.command_answers.specs.Accepted.{IsAccepted};
ghost use Rattle.command_answers.specs.CodeInputs.{IsCodeInput, IsNoCode};
ghost use Rattle.command_answers.specs.ExecAnswers.{Executes};
ghost use Rattle.command_answers.specs.MadeAnswers.{Meets, IfAnswer, IsFileOf};
ghost use Rattle.command_answers.specs.Refusals.{IsTooSmall};
ghost use Rattle.command_answers.specs.RunAnswers.{Runs};
ghost use Rattle.command_answers.specs.Status.{NeedsWholeInput};
ghost use Rattle.command_answers.specs.Subjects.{kernel_text};
ghost use Rattle.pebble_cli.specs.Answers.{Answers, OwnAnswers, IsAdmitted};
ghost use Rattle.answer_desk.specs.Deliver.{SameWriteFaults};
ghost use Rattle.pebble_cli.specs.Faults.{ReadCause, input_limit};
ghost use Rattle.answer_desk.specs.Takes.{SameTakeFaults, LeavesRest};
ghost use Rattle.pebble_cli.specs.InputAnswers.{AnswersInput};

use answer_desk::{code_input, file_bytes, kernel_input};
use command_answers::cache::cache_answer;
use command_answers::check::check_answer;
use command_answers::code_fault::readable_code;
use command_answers::cover::cover_answer;
use command_answers::cover_check::cover_check_answer;
use command_answers::exec::exec_answer;
use command_answers::graph::graph_answer;
use command_answers::judge::judge_answer;
use command_answers::kernel_fault::accepted_kernel;
use command_answers::parts::parts_answer;
use command_answers::plan::plan_answer;
use command_answers::run::run_answer;
use command_answers::tidy::tidy_answer;
use command_answers::too_small::played_game;
use command_answers::trial::trial_answer;
use command_answers::usage::usage_answer;
use command_answers::values::VALUES_LIMIT;
use command_answers::{Accepted, Answer, EarlyEnd, FileBytes, Status};
use command_words::{Command, Subject, UNIT_WEIGHTS, read};
use comp_graph::{Game, Graph, NoMemory, Weights};
use desk_io::Desk;
use kernel_gen::trial;
use std::alloc::Global;

/// The most bytes of a table, a table with names or a play in the file.
const GAME_FILE_LIMIT: u32 = 20_000_000;

// The answer of `run` to an accepted kernel and what its file holds.
fn run_on_file<D: Desk>(
    alloc: Global,
    desk: &mut D,
    accepted: &Accepted,
) -> Result<Answer, EarlyEnd>
    requires { (text : List ℕ) × IsAccepted text accepted.now.kernel accepted.now.graph }
    ensures answers { (text : List ℕ) → IsAccepted text accepted.now.kernel accepted.now.graph →
        IfAnswer result (Meets (Runs text (D.file desk.old))) }
    ensures fault { result ≡ Err EarlyEnd.ReadFault →
        Rose (D.faults desk.old Kind.TakeFile) (D.faults desk.new Kind.TakeFile) }
    ensures same_takes { D.faults desk.new Kind.TakeInput ≡ D.faults desk.old Kind.TakeInput }
    ensures no_vain_take { result ≢ Err EarlyEnd.ReadFault → SameTakeFaults (D.faults desk.old) (D.faults desk.new) }
    ensures write_faults { SameWriteFaults (D.faults desk.old) (D.faults desk.new) }
    ensures same_name { D.name desk.new ≡ D.name desk.old }
    ensures same_input { D.input desk.new ≡ D.input desk.old }
    ensures same_file { D.file desk.new ≡ D.file desk.old }
    ensures same_output { D.output desk.new ≡ D.output desk.old }
{
    let values = file_bytes(alloc, desk, VALUES_LIMIT)?;
    Ok(run_answer(alloc, accepted, &values)?)
}

// The answer of `exec` to the text of a code. The file is read where the text is one.
fn exec_on_file<D: Desk>(alloc: Global, desk: &mut D, text: &[u8]) -> Result<Answer, EarlyEnd>
    requires { length text.now ≤ 20000000 }
    ensures answers { IfAnswer result (λ answer.
        Meets (IsNoCode text.now) answer ⊎ Meets (Executes text.now (D.file desk.old)) answer) }
    ensures fault { result ≡ Err EarlyEnd.ReadFault → ((code : CodeParts) × IsCodeInput text.now code)
        × Rose (D.faults desk.old Kind.TakeFile) (D.faults desk.new Kind.TakeFile) }
    ensures same_takes { D.faults desk.new Kind.TakeInput ≡ D.faults desk.old Kind.TakeInput }
    ensures no_vain_take { result ≢ Err EarlyEnd.ReadFault → SameTakeFaults (D.faults desk.old) (D.faults desk.new) }
    ensures write_faults { SameWriteFaults (D.faults desk.old) (D.faults desk.new) }
    ensures same_name { D.name desk.new ≡ D.name desk.old }
    ensures same_input { D.input desk.new ≡ D.input desk.old }
    ensures same_file { D.file desk.new ≡ D.file desk.old }
    ensures same_output { D.output desk.new ≡ D.output desk.old }
{
    let code = readable_code(alloc, text)?;
    let values = file_bytes(alloc, desk, VALUES_LIMIT)?;
    Ok(exec_answer(alloc, &code, &values)?)
}

// The answer of a command that reads a file for a game, to what the file holds.
fn file_answer(
    alloc: Global,
    game: &Game,
    command: Command,
    file: &FileBytes,
) -> Result<Answer, NoMemory>
    requires reads { reads_file (Some command) ≡ true }
    requires slots { slots_of command ≡ Some game.now.slots }
    requires weights { game.now.weights ≡ played_weights command }
    requires room { degree (dag_of game.now.graph) < game.now.slots }
    requires limit { (told : ToldFile) × IsFileOf told 20000000 file.now }
    ensures { IfOk result (λ answer. (text : List ℕ) (kernel : KernelParts) (told : ToldFile) →
        IsAccepted text kernel game.now.graph → IsFileOf told 20000000 file.now → Meets (OwnAnswers command text told) answer) }
{
    match command {
        Command::Check(asked) => check_answer(alloc, game, asked, file),
        Command::Judge(_) => judge_answer(alloc, game, file),
        Command::Tidy(_) => tidy_answer(alloc, game, file),
        Command::CoverCheck(_) => cover_check_answer(alloc, game, file),
        // No other command has slots and reads a file.
        _ => unreachable!(),
    }
}

// The same where the file is still to be read.
fn game_on_file<D: Desk>(
    alloc: Global,
    desk: &mut D,
    game: &Game,
    command: Command,
) -> Result<Answer, EarlyEnd>
    requires reads { reads_file (Some command) ≡ true }
    requires slots { slots_of command ≡ Some game.now.slots }
    requires weights { game.now.weights ≡ played_weights command }
    requires room { degree (dag_of game.now.graph) < game.now.slots }
    ensures answers { (text : List ℕ) (kernel : KernelParts) → IsAccepted text kernel game.now.graph →
        IfAnswer result (Meets (OwnAnswers command text (D.file desk.old))) }
    ensures fault { result ≡ Err EarlyEnd.ReadFault →
        Rose (D.faults desk.old Kind.TakeFile) (D.faults desk.new Kind.TakeFile) }
    ensures same_takes { D.faults desk.new Kind.TakeInput ≡ D.faults desk.old Kind.TakeInput }
    ensures no_vain_take { result ≢ Err EarlyEnd.ReadFault → SameTakeFaults (D.faults desk.old) (D.faults desk.new) }
    ensures write_faults { SameWriteFaults (D.faults desk.old) (D.faults desk.new) }
    ensures same_name { D.name desk.new ≡ D.name desk.old }
    ensures same_input { D.input desk.new ≡ D.input desk.old }
    ensures same_file { D.file desk.new ≡ D.file desk.old }
    ensures same_output { D.output desk.new ≡ D.output desk.old }
{
    let file = file_bytes(alloc, desk, GAME_FILE_LIMIT)?;
    Ok(file_answer(alloc, game, command, &file)?)
}

// The answer of a command that reads a file for a game, to an accepted kernel by its graph: that more slots are needed, or its own. The
// file is read only where the slots are enough.
fn graph_on_file<D: Desk>(
    alloc: Global,
    desk: &mut D,
    graph: Graph,
    command: Command,
    slots: u16,
    weights: Weights,
) -> Result<Answer, EarlyEnd>
    requires reads { reads_file (Some command) ≡ true }
    requires slots { slots_of command ≡ Some slots }
    requires weights { weights ≡ played_weights command }
    requires some { 0 < slots }
    requires few { slots ≤ 64 }
    requires limits { AreWeights weights }
    ensures answers { (text : List ℕ) (kernel : KernelParts) → IsAccepted text kernel graph →
        IfAnswer result (λ answer. Meets (IsTooSmall slots text) answer ⊎ Meets (OwnAnswers command text (D.file desk.old)) answer) }
    ensures fault { result ≡ Err EarlyEnd.ReadFault → (degree (dag_of graph) < slots)
        × Rose (D.faults desk.old Kind.TakeFile) (D.faults desk.new Kind.TakeFile) }
    ensures same_takes { D.faults desk.new Kind.TakeInput ≡ D.faults desk.old Kind.TakeInput }
    ensures no_vain_take { result ≢ Err EarlyEnd.ReadFault → SameTakeFaults (D.faults desk.old) (D.faults desk.new) }
    ensures write_faults { SameWriteFaults (D.faults desk.old) (D.faults desk.new) }
    ensures same_name { D.name desk.new ≡ D.name desk.old }
    ensures same_input { D.input desk.new ≡ D.input desk.old }
    ensures same_file { D.file desk.new ≡ D.file desk.old }
    ensures same_output { D.output desk.new ≡ D.output desk.old }
{
    let game = played_game(alloc, graph, slots, weights)?;
    game_on_file(alloc, desk, &game, command)
}

// The answer of a command to the text of its kernel. The file is read where the command reads one and nothing refuses it.
fn kernel_answer<D: Desk>(
    alloc: Global,
    desk: &mut D,
    command: Command,
    text: &[u8],
) -> Result<Answer, EarlyEnd>
    requires limits { IsInLimits command }
    requires kernel { subject command ≢ Subject.InputCode }
    ensures answers { (input : List ℕ) → kernel_text (subject command) input ≡ Some text.now →
        IfAnswer result (Meets (Answers (Some command) input (D.file desk.old))) }
    ensures fault { (input : List ℕ) → kernel_text (subject command) input ≡ Some text.now →
        result ≡ Err EarlyEnd.ReadFault → (reads_file (Some command) ≡ true) × IsAdmitted command input
        × Rose (D.faults desk.old Kind.TakeFile) (D.faults desk.new Kind.TakeFile) }
    ensures same_takes { D.faults desk.new Kind.TakeInput ≡ D.faults desk.old Kind.TakeInput }
    ensures no_vain_take { result ≢ Err EarlyEnd.ReadFault → SameTakeFaults (D.faults desk.old) (D.faults desk.new) }
    ensures write_faults { SameWriteFaults (D.faults desk.old) (D.faults desk.new) }
    ensures same_name { D.name desk.new ≡ D.name desk.old }
    ensures same_input { D.input desk.new ≡ D.input desk.old }
    ensures same_file { D.file desk.new ≡ D.file desk.old }
    ensures same_output { D.output desk.new ≡ D.output desk.old }
{
    let accepted = accepted_kernel(alloc, text)?;
    match command {
        Command::Plan(asked) => plan_answer(alloc, accepted.graph, asked),
        Command::Check(asked) => {
            let (slots, weights) = (asked.slots, asked.weights);
            graph_on_file(alloc, desk, accepted.graph, command, slots, weights)
        }
        Command::CoverCheck(slots) => {
            graph_on_file(alloc, desk, accepted.graph, command, slots, UNIT_WEIGHTS)
        }
        Command::Judge(slots) => {
            graph_on_file(alloc, desk, accepted.graph, command, slots, UNIT_WEIGHTS)
        }
        Command::Tidy(slots) => {
            graph_on_file(alloc, desk, accepted.graph, command, slots, UNIT_WEIGHTS)
        }
        Command::Run => run_on_file(alloc, desk, &accepted),
        // Its subject is no kernel.
        Command::Exec => unreachable!(),
        Command::Graph => graph_answer(alloc, &accepted.graph),
        Command::Trial(asked) => trial_answer(alloc, accepted.graph, asked),
        Command::Cover(asked) => cover_answer(alloc, accepted.graph, asked),
        Command::Parts(asked) => parts_answer(alloc, accepted.graph, asked),
        Command::Cache(asked) => cache_answer(alloc, accepted.graph, asked),
    }
}

// The answer of a command to its subject.
fn command_answer<D: Desk>(
    alloc: Global,
    desk: &mut D,
    command: Command,
) -> Result<Answer, EarlyEnd>
    requires { IsInLimits command }
    ensures answers { IfAnswer result (AnswersInput (Some command) (D.input desk.old) (D.file desk.old)) }
    ensures fault { result ≡ Err EarlyEnd.ReadFault →
        ReadCause (Some command) (D.input desk.old) (D.faults desk.old) (D.faults desk.new) }
    ensures early { result ≡ Err EarlyEnd.ReadFault →
        TookAtMost (D.input desk.old) (D.input desk.new) (input_limit (Some command)) }
    ensures read_whole { reads_input (Some command) ≡ true →
        IfAnswer result (λ answer. NeedsWholeInput answer.status → D.input desk.new ≡ input_end (D.input desk.old)) }
    ensures untouched { reads_input (Some command) ≡ false → D.input desk.new ≡ D.input desk.old }
    ensures rest_left { LeavesRest (D.input desk.old) (D.input desk.new) }
    ensures no_vain_take { result ≢ Err EarlyEnd.ReadFault → SameTakeFaults (D.faults desk.old) (D.faults desk.new) }
    ensures write_faults { SameWriteFaults (D.faults desk.old) (D.faults desk.new) }
    ensures same_name { D.name desk.new ≡ D.name desk.old }
    ensures same_file { D.file desk.new ≡ D.file desk.old }
    ensures same_output { D.output desk.new ≡ D.output desk.old }
{
    match command.subject() {
        Subject::InputKernel => {
            let text = kernel_input(alloc, desk)?;
            kernel_answer(alloc, desk, command, &text)
        }
        Subject::InputCode => {
            let text = code_input(alloc, desk)?;
            exec_on_file(alloc, desk, &text)
        }
        Subject::TrialKernel(statements) => {
            let kernel = trial(alloc, statements)?;
            kernel_answer(alloc, desk, command, &kernel)
        }
    }
}

/// Reads the words, and what they ask to be read, and makes the whole answer. Nothing is written.
///
/// # Errors
///
/// `ReadFault` where a take failed, and `NoMemory`.
pub fn prepare<D: Desk>(alloc: Global, words: &[String], desk: &mut D) -> Result<Answer, Status>
    ensures answers { IfOk result (AnswersInput (asked_by words.now) (D.input desk.old) (D.file desk.old)) }
    ensures refusal { IfErr result (λ status. (status ≡ Status.NoMemory) ⊎ ((status ≡ Status.ReadFault)
        × ReadCause (asked_by words.now) (D.input desk.old) (D.faults desk.old) (D.faults desk.new))) }
    ensures early { result ≡ Err Status.ReadFault →
        TookAtMost (D.input desk.old) (D.input desk.new) (input_limit (asked_by words.now)) }
    ensures read_whole { reads_input (asked_by words.now) ≡ true →
        IfOk result (λ answer. NeedsWholeInput answer.status → D.input desk.new ≡ input_end (D.input desk.old)) }
    ensures untouched { reads_input (asked_by words.now) ≡ false → D.input desk.new ≡ D.input desk.old }
    ensures rest_left { LeavesRest (D.input desk.old) (D.input desk.new) }
    ensures no_vain_take { result ≢ Err Status.ReadFault → SameTakeFaults (D.faults desk.old) (D.faults desk.new) }
    ensures write_faults { SameWriteFaults (D.faults desk.old) (D.faults desk.new) }
    ensures same_name { D.name desk.new ≡ D.name desk.old }
    ensures same_file { D.file desk.new ≡ D.file desk.old }
    ensures same_output { D.output desk.new ≡ D.output desk.old }
{
    let command = match read::command(words) {
        Some(command) => command,
        None => return Ok(usage_answer(alloc)?),
    };
    match command_answer(alloc, desk, command) {
        Ok(answer) => Ok(answer),
        Err(EarlyEnd::Refused(answer)) => Ok(answer),
        Err(EarlyEnd::ReadFault) => Err(Status::ReadFault),
        Err(EarlyEnd::NoMemory) => Err(Status::NoMemory),
    }
}
