//! The whole answer, made before the first write: what is printed, and the table that is written.
use crate::status::Status;
use comp_graph::NoMemory;

/// What a run answers: its status, the text for the output, and the bytes of the table file where one is written.
#[derive(Drop)]
pub struct Answer {
    pub status: Status,
    pub text: Vec<u8>,
    pub table: Option<Vec<u8>>,
}

/// What ends a command before an answer of its own.
#[derive(Drop)]
pub enum EarlyEnd {
    /// The whole answer comes before the command's own: to a faulty kernel, to an input that is no code, or to too few slots. (The status
    /// `Refused` is another thing: an own answer of `check` and `covercheck`.)
    Refused(Answer),
    /// A take from the input or from the file failed.
    ReadFault,
    /// Memory was wanted and not found.
    NoMemory,
}

impl From<NoMemory> for EarlyEnd {
    ghost use Rattle.std.specs.Prelude.{◌≡◌};
    ghost use Rattle.command_answers.specs.declared.answer.EarlyEnd.TheVariants as ends;

    ghost from_gives = { λ _ end. end ≡ ends.NoMemory };

    fn from(_: NoMemory) -> EarlyEnd {
        EarlyEnd::NoMemory
    }
}

/// What the file holds, for a command that reads it up to a limit.
#[derive(Drop)]
pub enum FileBytes {
    /// All of its bytes, at most as many as the limit.
    Whole(Vec<u8>),
    /// More bytes than the limit.
    TooLong,
}
