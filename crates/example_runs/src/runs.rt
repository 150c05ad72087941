//! Runs the program on words and an input, over a desk in memory.
ghost use Rattle.std.specs.Prelude.{◌≡◌, ◌≢◌, ◌≤◌, ℕ, List, IfOk, Some};
ghost use Rattle.std.specs.declared.option.Option.{Option};
ghost use Rattle.desk_io.specs.Known.{file_items};
ghost use Rattle.command_answers.specs.declared.status.Status.{Status};
ghost use Rattle.pebble_cli.specs.Answers.{Answers};
ghost use Rattle.answer_desk.specs.Deliver.{file_after};
ghost use Rattle.command_words.specs.Words.{asked_by};

use command_answers::Status;
use command_words::file_word;
use desk_io::{Fail, MemoryDesk};
use pebble_cli::pebble;
use std::alloc::{AllocError, Global};

/// What a run leaves: its status, the output, and the file.
#[derive(Drop)]
pub struct Left {
    pub status: Status,
    pub output: Vec<u8>,
    pub file: Option<Vec<u8>>,
}

/// The words of a command line that is written with single spaces, in their order.
pub fn words_of(alloc: Global, line: &str) -> Result<Vec<String>, AllocError> {
    let mut words = Vec::new(alloc);
    for word in line.split_whitespace() {
        words.push(String::from_str(alloc, word)?)?;
    }
    Ok(words)
}

/// Runs the program on the words of a line and this kernel, where the file holds these bytes and no call of the desk fails.
pub fn run_line(alloc: Global, line: &str, kernel: &[u8], file: &[u8]) -> Result<Left, AllocError> {
    let words = words_of(alloc, line)?;
    let file = Vec::from_slice(alloc, file)?;
    run_on(alloc, &words, kernel, Some(file), 4096, Vec::new(alloc))
}

/// Runs the program on these words and this input, over a desk that moves at most `most` bytes a call, with this file or none, on which the
/// named calls fail. What is left is what the program answers: the text that it prints is the whole output, and the file holds the table,
/// where there is one, and else what it held.
pub fn run_on(
    alloc: Global,
    words: &[String],
    input: &[u8],
    file: Option<Vec<u8>>,
    most: usize,
    fails: Vec<Fail>,
) -> Result<Left, AllocError>
    requires { 1 ≤ most }
    ensures answered { IfOk result (λ left. left.status ≢ Status.ReadFault → left.status ≢ Status.WriteFault → left.status ≢ Status.NoMemory →
        (table : Option (List ℕ)) × Answers (asked_by words.now) input.now (Some (file_items file)) left.status left.output.items table
        × (Some (file_items left.file) ≡ file_after (Some (file_items file)) table)) }
{
    let mut desk = MemoryDesk {
        name: String::from_str(alloc, file_word(words))?,
        input: Vec::from_slice(alloc, input)?,
        file,
        output: Vec::new(alloc),
        most,
        fail: fails,
        calls: [0; 5],
        faults: [0; 5],
        starved: 0,
    };
    let status = pebble(alloc, words, &mut desk);
    let MemoryDesk {
        name: _,
        input: _,
        file,
        output,
        most: _,
        fail: _,
        calls: _,
        faults: _,
        starved: _,
    } = desk;
    Ok(Left {
        status,
        output,
        file,
    })
}
