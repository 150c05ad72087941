//! Runs the program `improve` on words and an input, over a desk in memory.
use desk_io::{Fail, MemoryDesk};
use improve_cli::{Status, file_word, improve};
use std::alloc::{AllocError, Global};

/// What a run leaves: its status, the output, and the file.
#[derive(Drop)]
pub struct Left {
    pub status: Status,
    pub output: Vec<u8>,
    pub file: Option<Vec<u8>>,
}

// The words of a line that is written with single spaces.
fn words_of(alloc: Global, line: &str) -> Result<Vec<String>, AllocError> {
    let mut words = Vec::new(alloc);
    for word in line.split_whitespace() {
        words.push(String::from_str(alloc, word)?)?;
    }
    Ok(words)
}

// Runs the program on these words, this kernel and this file.
fn run_on(
    alloc: Global,
    words: &[String],
    input: Vec<u8>,
    file: Vec<u8>,
    fails: Vec<Fail>,
) -> Result<Left, AllocError> {
    let mut desk = MemoryDesk {
        name: String::from_str(alloc, file_word(words))?,
        input,
        file: Some(file),
        output: Vec::new(alloc),
        most: 4096,
        fail: fails,
        calls: [0; 5],
        faults: [0; 5],
        starved: 0,
    };
    let status = improve(alloc, words, &mut desk);
    let MemoryDesk {
        name: _,
        input: _,
        file,
        output,
        most: _,
        fail: _,
        calls: _,
        faults: _,
        starved: _,
    } = desk;
    Ok(Left {
        status,
        output,
        file,
    })
}

/// Runs the program on the words of a line that is written with single spaces, on this kernel and this file, over a desk on which the named calls
/// fail.
pub fn run_line(
    alloc: Global,
    line: &str,
    kernel: &[u8],
    file: &[u8],
    fails: Vec<Fail>,
) -> Result<Left, AllocError> {
    let words = words_of(alloc, line)?;
    let input = Vec::from_slice(alloc, kernel)?;
    let file = Vec::from_slice(alloc, file)?;
    run_on(alloc, &words, input, file, fails)
}
