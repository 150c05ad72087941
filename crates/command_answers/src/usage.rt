//! The answer to words that spell no command.
ghost use Rattle.std.specs.Prelude.{IfOk};
ghost use Rattle.command_answers.specs.MadeAnswers.{Meets};
ghost use Rattle.command_answers.specs.Refusals.{IsUsage};

use crate::answer::Answer;
use crate::status::Status;
use comp_graph::NoMemory;
use std::alloc::Global;

const USAGE: &str =
    "usage: pebble plan S TABLE [BUDGET [A B]], check S TABLE [A B], run VALUES, exec VALUES, graph, trial N S TABLE, cover S FILE [BUDGET], covercheck S FILE, parts S K FILE [BUDGET], judge S PLAY, tidy S PLAY, cache S TABLE [BUDGET]\n";

/// The answer to words that spell no command: the usage line.
pub fn usage_answer(alloc: Global) -> Result<Answer, NoMemory>
    ensures { IfOk result (Meets IsUsage) }
{
    Ok(Answer {
        status: Status::Usage,
        text: Vec::from_slice(alloc, USAGE.as_bytes())?,
        table: None,
    })
}
