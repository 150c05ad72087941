//! The top call.
ghost use Rattle.std.specs.Prelude.{◌≡◌, ◌≢◌, ◌⊎◌, ℕ, List, true, false, string_bytes, Some, None};
ghost use Rattle.std.specs.declared.option.Option.{Option};
ghost use Rattle.std.specs.Io.KnownBytes.{append_known};
ghost use Rattle.desk_io.specs.declared.desk.Kind.{Kind};
ghost use Rattle.desk_io.specs.Counts.{Rose};
ghost use Rattle.desk_io.specs.Known.{Tells, TookAtMost, file_of, input_end};
ghost use Rattle.improve_answers.specs.declared.commands.ImproveCommand.{ImproveCommand};
ghost use Rattle.improve_answers.specs.declared.commands.ImproveCommand.TheVariants.{Improve};
ghost use Rattle.improve_answers.specs.declared.commands.Improving.{Improving};
ghost use Rattle.command_answers.specs.declared.status.Status.{Status};
ghost use Rattle.improve_cli.specs.Answers.{Answers, OwnAnswers, IsAdmitted};
ghost use Rattle.answer_desk.specs.Deliver.{Delivered, CutShort, SameWriteFaults};
ghost use Rattle.improve_cli.specs.Faults.{ReadCause, IsFileTold, IsFixed, input_limit, reads_input, reads_file, writes_file};
ghost use Rattle.answer_desk.specs.Takes.{SameTakeFaults, LeavesRest};
ghost use Rattle.improve_answers.specs.Improved.{IsImproved};
ghost use Rattle.command_answers.specs.Status.{NeedsWholeInput, IsYielded, is_own};
ghost use Rattle.improve_answers.specs.ImproveWords.{asked_by, file_named_by};

use crate::prepare::prepare;
use answer_desk::deliver;
use command_answers::Status;
use desk_io::{Desk, HonestDesk, WriteFault};
use std::alloc::Global;

/// Does all that the program does: the words are those after the program's name, and the desk's file is the one that they name.
///
/// First the words are read, the input if they spell a command, and the file for `confirm`, and the whole answer is made, which takes all
/// memory; then the table of `improve` is written to the file, and last the text to the output. What is said of bytes holds if the desk tells
/// them. `Answers` says what is answered, and the laws of `laws` that there is an answer, where each refusal comes, and that refusals, the answers of
/// `confirm`, and those of `improve` with the effort 0 are fixed. Which plan and which table `improve` finds with more is not fixed: that they are
/// right is, by `headline`.
pub fn improve<D: Desk>(alloc: Global, words: &[String], desk: &mut D) -> Status
    requires { D.name desk.old ≡ file_named_by words.now }

    // The plan: exactly one report and code text was printed, and the file holds exactly one table. The plan is one of the game and costs at most
    // what the first plan costs, the code is its code and is right, the table is valid, and its bound is at most the cost of each complete pebbling.
    // It is the case of `own` for `improve`.
    ensures headline { (asked : Improving) → asked_by words.now ≡ Some (Improve asked) →
        (result ≡ Status.Optimal) ⊎ (result ≡ Status.Open) →
        (text : List ℕ) × (printed : List ℕ) × (table : List ℕ)
        × Tells (D.input desk.old) text × IsImproved asked text result printed (Some table)
        × (D.output desk.new ≡ append_known (D.output desk.old) printed)
        × (D.file desk.new ≡ file_of (D.file desk.old) table) }

    // The own answer of either command: a text was read that nothing refuses, what the command's definition asks for was printed and written whole,
    // and the status is its own. It is the case of `said` in which nothing refuses the input.
    ensures own { (asked : ImproveCommand) → asked_by words.now ≡ Some asked → is_own result ≡ true →
        (text : List ℕ) × (printed : List ℕ) × (table : Option (List ℕ)) × Tells (D.input desk.old) text × IsAdmitted asked text
        × OwnAnswers asked text (D.file desk.old) result printed table × Delivered D.file D.output desk.old desk.new printed table }

    // The whole answer was delivered: the text that was read, and what answers it, printed and written whole.
    ensures said { result ≢ Status.ReadFault → result ≢ Status.WriteFault → result ≢ Status.NoMemory →
        (text : List ℕ) × (printed : List ℕ) × (table : Option (List ℕ)) × Tells (D.input desk.old) text
        × Answers (asked_by words.now) text (D.file desk.old) result printed table
        × Delivered D.file D.output desk.old desk.new printed table }

    // If the desk tells the input, and for the own answer of `confirm` the file, each refusal, each answer of `confirm` and each of `improve` with
    // the effort 0 is the one that comes, but for faults of the desk and of memory; and if it comes it is printed and written whole.
    ensures determined { (text : List ℕ) (status : Status) (printed : List ℕ) (table : Option (List ℕ)) →
        (reads_input (asked_by words.now) ≡ true → D.input desk.old ≡ Some text) →
        (is_own status ≡ true → IsFileTold (asked_by words.now) (D.file desk.old)) →
        IsFixed (asked_by words.now) (is_own status) →
        Answers (asked_by words.now) text (D.file desk.old) status printed table →
        IsYielded result status × (result ≡ status → Delivered D.file D.output desk.old desk.new printed table) }

    // A write failed: there was an answer with a status of its own, and a prefix of it was written.
    ensures write_fault { result ≡ Status.WriteFault →
        (text : List ℕ) × (printed : List ℕ) × (table : Option (List ℕ)) × (status : Status)
        × Tells (D.input desk.old) text
        × Answers (asked_by words.now) text (D.file desk.old) status printed table
        × CutShort D.file D.output D.faults desk.old desk.new printed table }

    // A take failed that the command makes.
    ensures read_fault { result ≡ Status.ReadFault →
        ReadCause (asked_by words.now) (D.input desk.old) (D.faults desk.old) (D.faults desk.new) }

    // It failed before the input was known to be too long: at most as many bytes were taken as a kernel may have, 65,536.
    ensures read_early { result ≡ Status.ReadFault →
        TookAtMost (D.input desk.old) (D.input desk.new) (input_limit (asked_by words.now)) }

    // A file that is missing, if `confirm` comes to read it, is a read fault.
    ensures missing { (asked : ImproveCommand) (text : List ℕ) → asked_by words.now ≡ Some asked →
        reads_file (Some asked) ≡ true → D.input desk.old ≡ Some text → IsAdmitted asked text →
        D.file desk.old ≡ Some None → (result ≡ Status.ReadFault) ⊎ (result ≡ Status.NoMemory) }

    // Then, and if memory was not found, nothing was written at all, and no write was tried in vain.
    ensures silent { (result ≡ Status.ReadFault) ⊎ (result ≡ Status.NoMemory) →
        (D.file desk.new ≡ D.file desk.old) × (D.output desk.new ≡ D.output desk.old)
        × SameWriteFaults (D.faults desk.old) (D.faults desk.new) }

    // Complete: if nothing refuses the input, which the desk tells, and no call of the desk fails, an answer of the command's own comes, or
    // memory was not found.
    ensures complete { (asked : ImproveCommand) (text : List ℕ) → asked_by words.now ≡ Some asked →
        (reads_input (asked_by words.now) ≡ true → D.input desk.old ≡ Some text) →
        IsAdmitted asked text → ((kind : Kind) → Rose (D.faults desk.old kind) (D.faults desk.new kind) → ⊥) →
        (is_own result ≡ true) ⊎ (result ≡ Status.NoMemory) }

    // No write was tried in vain, unless a write fault is answered.
    ensures no_vain_write { result ≢ Status.WriteFault → SameWriteFaults (D.faults desk.old) (D.faults desk.new) }

    // No take was tried in vain, unless a read fault is answered.
    ensures no_vain_take { result ≢ Status.ReadFault → SameTakeFaults (D.faults desk.old) (D.faults desk.new) }

    // If no call of the desk fails, there is no read fault and no write fault.
    ensures calm { ((kind : Kind) → Rose (D.faults desk.old kind) (D.faults desk.new kind) → ⊥) →
        (result ≢ Status.ReadFault) × (result ≢ Status.WriteFault) }

    // Usage comes exactly if the words spell no command, whatever the desk tells.
    ensures usage_only { result ≡ Status.Usage → asked_by words.now ≡ None }
    ensures usage { asked_by words.now ≡ None →
        (result ≡ Status.Usage) ⊎ ((result ≡ Status.WriteFault) ⊎ (result ≡ Status.NoMemory)) }

    // The input is read to its end before an answer that needs the whole of it, and not touched by words that do not ask for it.
    ensures read_whole { reads_input (asked_by words.now) ≡ true → NeedsWholeInput result →
        D.input desk.new ≡ input_end (D.input desk.old) }
    ensures untouched { reads_input (asked_by words.now) ≡ false → D.input desk.new ≡ D.input desk.old }

    // What was taken of the input was at its front, and the rest is left.
    ensures rest_left { LeavesRest (D.input desk.old) (D.input desk.new) }

    // The file stays as it was: by the words, if they do not ask for `improve`; by the status, on each but a command's own and a write fault; and
    // by the input, which the desk tells, if something refuses it, on every status.
    ensures file_kept { writes_file (asked_by words.now) ≡ false → D.file desk.new ≡ D.file desk.old }
    ensures kept_by_status { is_own result ≡ false → result ≢ Status.WriteFault →
        D.file desk.new ≡ D.file desk.old }
    ensures kept_by_input { (asked : ImproveCommand) (text : List ℕ) → asked_by words.now ≡ Some asked →
        (reads_input (asked_by words.now) ≡ true → D.input desk.old ≡ Some text) →
        (IsAdmitted asked text → ⊥) → D.file desk.new ≡ D.file desk.old }
    ensures same_name { D.name desk.new ≡ D.name desk.old }
{
    let answer = match prepare(alloc, words, desk) {
        Ok(answer) => answer,
        Err(status) => return status,
    };
    match deliver(desk, &answer) {
        Ok(()) => answer.status,
        Err(WriteFault) => Status::WriteFault,
    }
}

/// `improve` over an honest desk, on which no call fails: the input is answered, or memory was not found.
pub fn improve_honest(alloc: Global, words: &[String], desk: &mut HonestDesk) -> Status
    requires { string_bytes desk.old.name ≡ file_named_by words.now }
    ensures no_fault { (result ≢ Status.ReadFault) × (result ≢ Status.WriteFault) }
    ensures answered { result ≢ Status.NoMemory → (printed : List ℕ) × (table : Option (List ℕ))
        × Answers (asked_by words.now) desk.old.input.items None result printed table }
    // If nothing refuses the input, an answer of the command's own comes, or memory was not found.
    ensures complete { (asked : ImproveCommand) → asked_by words.now ≡ Some asked → IsAdmitted asked desk.old.input.items →
        (is_own result ≡ true) ⊎ (result ≡ Status.NoMemory) }
{
    improve(alloc, words, desk)
}
