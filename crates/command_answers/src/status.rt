//! How a run ends.
ghost use Rattle.std.specs.Prelude.{◌≡◌};
ghost use Rattle.command_answers.specs.declared.status.Status.TheVariants.{NoMemory};

use std::alloc::AllocError;

/// How a run of the program ends. Each status has a number, which the process ends with.
#[derive(Clone, Copy, Debug, PartialEq, Eq)]
pub enum Status {
    /// A plan was found, and it costs as much as the lower bound, so no complete pebbling costs less.
    Optimal,
    /// Another command did what its words ask.
    Done,
    /// `check` or `covercheck` refused the file: it is too long, it spells no table, or its table is none of the game's or does not prove its
    /// bound.
    Refused,
    /// The words spell no command.
    Usage,
    /// The kernel has a fault.
    Kernel,
    /// There are no more slots than the kernel's degree.
    TooSmall,
    /// A plan was found that costs more than the lower bound, and the budget is spent.
    Open,
    /// The input or the file could not be read.
    ReadFault,
    /// The file or the output could not be written whole.
    WriteFault,
    /// Memory was wanted and not found. Nothing was written.
    NoMemory,
    /// The input of `exec` is no code, or has more than 20,000,000 bytes.
    Code,
    /// The values file is no list of numbers of the right count, or has more than 1,000,000 bytes.
    Values,
    /// The code reads what is empty.
    ExecFault,
    /// The play file holds no complete pebbling of the game, or has more than 20,000,000 bytes.
    Play,
}

impl Status {
    ghost use Rattle.command_answers.specs.Status.{status_number};

    /// The number that the process ends with: 0 for `Optimal` and `Done`.
    pub fn number(self) -> u8
        ensures { result ≡ status_number self }
    {
        match self {
            Status::Optimal | Status::Done => 0,
            Status::Refused => 1,
            Status::Usage => 2,
            Status::Kernel => 3,
            Status::TooSmall => 4,
            Status::Open => 5,
            Status::ReadFault => 6,
            Status::WriteFault => 7,
            Status::NoMemory => 8,
            Status::Code => 9,
            Status::Values => 10,
            Status::ExecFault => 11,
            Status::Play => 12,
        }
    }
}

impl From<AllocError> for Status {
    ghost from_gives = { λ _ status. status ≡ NoMemory };

    fn from(_: AllocError) -> Self {
        Status::NoMemory
    }
}

impl From<comp_graph::NoMemory> for Status {
    ghost from_gives = { λ _ status. status ≡ NoMemory };

    fn from(_: comp_graph::NoMemory) -> Self {
        Status::NoMemory
    }
}
