//! The program `improve`: the words of the command line, over standard input, standard output and one file.
#![tactic(auto)]

use command_answers::Status;
use desk_io::RealDesk;
use improve_cli::{file_word, improve};
use std::process::ExitCode;
use std::rt::Env;
use std::{env, io};

/// The status if the words of the command line cannot be had. No call answers it.
const NO_WORDS: u8 = 13;

// The words after the program's name.
fn words(rt: &(impl Env + AllocGlobal)) -> io::Result<Vec<String>> {
    let mut words = Vec::new(rt.alloc());
    for word in env::args(rt)?.skip(1) {
        words.push(word)?;
    }
    Ok(words)
}

// The number of the status.
fn run(rt: &HostRuntime) -> u8 {
    let words = match words(rt) {
        Ok(words) => words,
        Err(error) if error.kind() == io::ErrorKind::OutOfMemory => {
            return Status::NoMemory.number();
        }
        Err(_) => return NO_WORDS,
    };
    let Ok(name) = String::from_str(rt.alloc(), file_word(&words)) else {
        return Status::NoMemory.number();
    };
    let mut desk = RealDesk::new(rt, name);
    improve(rt.alloc(), &words, &mut desk).number()
}

fn main(rt: HostRuntime) -> ExitCode {
    ExitCode::from(run(&rt))
}
