//! The answer to words that spell no command.
ghost use Rattle.std.specs.Prelude.{IfOk};
ghost use Rattle.command_answers.specs.MadeAnswers.{Meets};
ghost use Rattle.improve_answers.specs.ImproveUsage.{IsUsage};

use command_answers::{Answer, Status};
use comp_graph::NoMemory;
use std::alloc::Global;

const USAGE: &str = "usage: improve improve S FILE [EFFORT [A B]], confirm S FILE [A B]\n";

/// The answer to words that spell no command: the usage line.
pub fn usage_answer(alloc: Global) -> Result<Answer, NoMemory>
    ensures { IfOk result (Meets IsUsage) }
{
    Ok(Answer {
        status: Status::Usage,
        text: Vec::from_slice(alloc, USAGE.as_bytes())?,
        table: None,
    })
}
