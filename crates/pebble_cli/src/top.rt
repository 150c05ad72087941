//! The top call.
ghost use Rattle.std.specs.Prelude.{◌≡◌, ◌≢◌, ◌⊎◌, ℕ, List, true, false, string_bytes, Some, None};
ghost use Rattle.std.specs.declared.option.Option.{Option};
ghost use Rattle.std.specs.Io.KnownBytes.{append_known};
ghost use Rattle.desk_io.specs.declared.desk.Kind.{Kind};
ghost use Rattle.desk_io.specs.Counts.{Rose};
ghost use Rattle.desk_io.specs.Known.{Tells, TookAtMost, file_of, input_end};
ghost use Rattle.command_words.specs.declared.commands.Command.{Command};
ghost use Rattle.command_words.specs.declared.commands.Command.TheVariants.{Plan};
ghost use Rattle.command_words.specs.declared.commands.Planning.{Planning};
ghost use Rattle.command_answers.specs.declared.status.Status.{Status};
ghost use Rattle.pebble_cli.specs.Answers.{Answers, OwnAnswers, IsAdmitted};
ghost use Rattle.command_words.specs.Commands.{reads_input, reads_file, writes_file};
ghost use Rattle.answer_desk.specs.Deliver.{Delivered, CutShort, SameWriteFaults};
ghost use Rattle.pebble_cli.specs.Faults.{ReadCause, IsFileTold, input_limit};
ghost use Rattle.answer_desk.specs.Takes.{SameTakeFaults, LeavesRest};
ghost use Rattle.command_answers.specs.PlanAnswers.{IsPlanned};
ghost use Rattle.command_answers.specs.Status.{NeedsWholeInput, IsYielded, is_own};
ghost use Rattle.command_words.specs.Words.{asked_by, file_named_by};

use crate::prepare::prepare;
use answer_desk::deliver;
use command_answers::Status;
use desk_io::{Desk, HonestDesk, WriteFault};
use std::alloc::Global;

/// Does all that the program does: the words are those behind the program's name, and the desk's file is the one that they name.
///
/// First the words are read, the input if they spell a command that reads it, and the file where the command reads it, and the whole
/// answer is made, which takes all memory; then the table, if there is one, is written to the file, and last the text to the output. What
/// is said of bytes holds where the desk tells them. `Answers` says what is answered; the laws of `laws::answers` say that it is
/// one answer, and where each refusal comes, and a file of laws for each command where its own statuses come.
pub fn pebble<D: Desk>(alloc: Global, words: &[String], desk: &mut D) -> Status
    requires { D.name desk.old ≡ file_named_by words.now }

    // The plan: exactly one report and code text was printed, and the file holds exactly one table. It is the case of `own` for `plan`.
    ensures headline { (asked : Planning) → asked_by words.now ≡ Some (Plan asked) →
        (result ≡ Status.Optimal) ⊎ (result ≡ Status.Open) →
        (text : List ℕ) × (printed : List ℕ) × (table : List ℕ)
        × Tells (D.input desk.old) text × IsPlanned asked text result printed (Some table)
        × (D.output desk.new ≡ append_known (D.output desk.old) printed)
        × (D.file desk.new ≡ file_of (D.file desk.old) table) }

    // A command's own answer, of whichever command: a text was read that nothing refuses, what the command's definition asks for was printed
    // and written whole, and the status is its own. So the definition of each command is a promise of this call. It is the case of `said` in which
    // nothing refuses the input.
    ensures own { (asked : Command) → asked_by words.now ≡ Some asked → is_own result ≡ true →
        (text : List ℕ) × (printed : List ℕ) × (table : Option (List ℕ)) × Tells (D.input desk.old) text × IsAdmitted asked text
        × OwnAnswers asked text (D.file desk.old) result printed table × Delivered D.file D.output desk.old desk.new printed table }

    // The whole answer was delivered: the text that was read, and what answers it, printed and written whole.
    ensures said { result ≢ Status.ReadFault → result ≢ Status.WriteFault → result ≢ Status.NoMemory →
        (text : List ℕ) × (printed : List ℕ) × (table : Option (List ℕ)) × Tells (D.input desk.old) text
        × Answers (asked_by words.now) text (D.file desk.old) result printed table
        × Delivered D.file D.output desk.old desk.new printed table }

    // Where the desk tells the input, if the command reads it, and for a command's own answer the file that it reads, each answer is the one
    // that comes, but for faults of the desk and of memory; and where it comes it is printed and written whole.
    ensures determined { (text : List ℕ) (status : Status) (printed : List ℕ) (table : Option (List ℕ)) →
        (reads_input (asked_by words.now) ≡ true → D.input desk.old ≡ Some text) →
        (is_own status ≡ true → IsFileTold (asked_by words.now) (D.file desk.old)) →
        Answers (asked_by words.now) text (D.file desk.old) status printed table →
        IsYielded result status × (result ≡ status → Delivered D.file D.output desk.old desk.new printed table) }

    // A write failed: there was an answer with a status of its own, and a prefix of it was written.
    ensures write_fault { result ≡ Status.WriteFault →
        (text : List ℕ) × (printed : List ℕ) × (table : Option (List ℕ)) × (status : Status)
        × Tells (D.input desk.old) text
        × Answers (asked_by words.now) text (D.file desk.old) status printed table
        × CutShort D.file D.output D.faults desk.old desk.new printed table }

    // A take failed that the command makes.
    ensures read_fault { result ≡ Status.ReadFault →
        ReadCause (asked_by words.now) (D.input desk.old) (D.faults desk.old) (D.faults desk.new) }

    // It failed before the input was known to be too long: at most as many bytes were taken as a kernel may have, 65,536, or a code, 20,000,000.
    ensures read_early { result ≡ Status.ReadFault →
        TookAtMost (D.input desk.old) (D.input desk.new) (input_limit (asked_by words.now)) }

    // A file that is missing, where the command comes to read it, is a read fault.
    ensures missing { (asked : Command) (text : List ℕ) → asked_by words.now ≡ Some asked →
        reads_file (Some asked) ≡ true → D.input desk.old ≡ Some text → IsAdmitted asked text →
        D.file desk.old ≡ Some None → (result ≡ Status.ReadFault) ⊎ (result ≡ Status.NoMemory) }

    // Then, and where memory was not found, nothing was written at all, and no write was tried in vain.
    ensures silent { (result ≡ Status.ReadFault) ⊎ (result ≡ Status.NoMemory) →
        (D.file desk.new ≡ D.file desk.old) × (D.output desk.new ≡ D.output desk.old)
        × SameWriteFaults (D.faults desk.old) (D.faults desk.new) }

    // Complete: where nothing refuses the input, which the desk tells if the command reads it, and no call of the desk fails, an answer of the
    // command's own comes, or memory was not found.
    ensures complete { (asked : Command) (text : List ℕ) → asked_by words.now ≡ Some asked →
        (reads_input (asked_by words.now) ≡ true → D.input desk.old ≡ Some text) →
        IsAdmitted asked text → ((kind : Kind) → Rose (D.faults desk.old kind) (D.faults desk.new kind) → ⊥) →
        (is_own result ≡ true) ⊎ (result ≡ Status.NoMemory) }

    // No write was tried in vain, but where a write fault is answered.
    ensures no_vain_write { result ≢ Status.WriteFault → SameWriteFaults (D.faults desk.old) (D.faults desk.new) }

    // No take was tried in vain, but where a read fault is answered.
    ensures no_vain_take { result ≢ Status.ReadFault → SameTakeFaults (D.faults desk.old) (D.faults desk.new) }

    // Where no call of the desk fails, there is no read fault and no write fault.
    ensures calm { ((kind : Kind) → Rose (D.faults desk.old kind) (D.faults desk.new kind) → ⊥) →
        (result ≢ Status.ReadFault) × (result ≢ Status.WriteFault) }

    // Usage comes exactly where the words spell no command, whatever the desk tells.
    ensures usage_only { result ≡ Status.Usage → asked_by words.now ≡ None }
    ensures usage { asked_by words.now ≡ None →
        (result ≡ Status.Usage) ⊎ ((result ≡ Status.WriteFault) ⊎ (result ≡ Status.NoMemory)) }

    // The input is read to its end before an answer that needs the whole of it, and not touched by words that do not ask for it.
    ensures read_whole { reads_input (asked_by words.now) ≡ true → NeedsWholeInput result →
        D.input desk.new ≡ input_end (D.input desk.old) }
    ensures untouched { reads_input (asked_by words.now) ≡ false → D.input desk.new ≡ D.input desk.old }

    // What was taken of the input stood at its front, and the rest is left.
    ensures rest_left { LeavesRest (D.input desk.old) (D.input desk.new) }

    // The file stays as it was: by the words, if the command does not write it; by the status, on each but a command's own and a write
    // fault; and by the input, if something refuses it, on every status (the desk tells the input, if the command reads it).
    ensures file_kept { writes_file (asked_by words.now) ≡ false → D.file desk.new ≡ D.file desk.old }
    ensures kept_by_status { is_own result ≡ false → result ≢ Status.WriteFault →
        D.file desk.new ≡ D.file desk.old }
    ensures kept_by_input { (asked : Command) (text : List ℕ) → asked_by words.now ≡ Some asked →
        (reads_input (asked_by words.now) ≡ true → D.input desk.old ≡ Some text) →
        (IsAdmitted asked text → ⊥) → D.file desk.new ≡ D.file desk.old }
    ensures same_name { D.name desk.new ≡ D.name desk.old }
{
    let answer = match prepare(alloc, words, desk) {
        Ok(answer) => answer,
        Err(status) => return status,
    };
    match deliver(desk, &answer) {
        Ok(()) => answer.status,
        Err(WriteFault) => Status::WriteFault,
    }
}

/// `pebble` over an honest desk, on which no call fails: the input is answered, or memory was wanted and not found.
pub fn pebble_honest(alloc: Global, words: &[String], desk: &mut HonestDesk) -> Status
    requires { string_bytes desk.old.name ≡ file_named_by words.now }
    ensures no_fault { (result ≢ Status.ReadFault) × (result ≢ Status.WriteFault) }
    ensures answered { result ≢ Status.NoMemory → (printed : List ℕ) × (table : Option (List ℕ))
        × Answers (asked_by words.now) desk.old.input.items None result printed table }
    // Where nothing refuses the input, an answer of the command's own comes, or memory was not found.
    ensures complete { (asked : Command) → asked_by words.now ≡ Some asked → IsAdmitted asked desk.old.input.items →
        (is_own result ≡ true) ⊎ (result ≡ Status.NoMemory) }
{
    pebble(alloc, words, desk)
}
