//! What the words of a command line ask for.
use comp_graph::Weights;

/// The weights where none are named: a load and a store cost 1.
pub const UNIT_WEIGHTS: Weights = Weights { load: 1, store: 1 };

/// What the words ask for.
#[derive(Clone, Copy, PartialEq, Eq)]
pub enum Command {
    /// `plan`: a plan.
    Plan(Planning),
    /// `check`: whether the file is a table of the game that proves its bound.
    Check(Checking),
    /// `run`: the outputs of the source on the values of a file.
    Run,
    /// `exec`: the outputs of a code on the values of a file.
    Exec,
    /// `graph`: the graph of the source.
    Graph,
    /// `trial`: the plan of a trial kernel.
    Trial(TrialPlanning),
    /// `cover`: a plan, and a table whose steps name covering rows.
    Cover(Covering),
    /// `covercheck`: whether the file is such a table that proves its bound, with this number of slots, from 1 to 64.
    CoverCheck(u16),
    /// `parts`: a bound for each part of the graph, and their sum.
    Parts(PartPlanning),
    /// `judge`: whether the play in a file is a complete pebbling with this number of slots, from 1 to 64.
    Judge(u16),
    /// `tidy`: the code of a plan that costs no more than the play in a file with this number of slots, from 1 to 64.
    Tidy(u16),
    /// `cache`: what a write-back cache moves, beside a plan.
    Cache(Caching),
}

/// What `plan` asks for.
#[derive(Clone, Copy, PartialEq, Eq)]
pub struct Planning {
    /// The number of slots, from 1 to 64.
    pub slots: u16,
    /// The number of positions that may be expanded, from 0 to 150,000.
    pub budget: u32,
    /// The costs of a load and a store, each from 1 to 16.
    pub weights: Weights,
}

/// What `check` asks for.
#[derive(Clone, Copy, PartialEq, Eq)]
pub struct Checking {
    /// The number of slots, from 1 to 64.
    pub slots: u16,
    /// The costs of a load and a store, each from 1 to 16.
    pub weights: Weights,
}

/// What `trial` asks for.
#[derive(Clone, Copy, PartialEq, Eq)]
pub struct TrialPlanning {
    /// The number of statements of the kernel, from 1 to 200.
    pub statements: u32,
    /// The number of slots, from 1 to 64.
    pub slots: u16,
}

/// What `cover` asks for. A load and a store cost 1.
#[derive(Clone, Copy, PartialEq, Eq)]
pub struct Covering {
    /// The number of slots, from 1 to 64.
    pub slots: u16,
    /// The number of positions that may be expanded, from 0 to 8,000.
    pub budget: u32,
}

/// What `parts` asks for. A load and a store cost 1.
#[derive(Clone, Copy, PartialEq, Eq)]
pub struct PartPlanning {
    /// The number of slots, from 1 to 64.
    pub slots: u16,
    /// The number of parts, from 1 to 16.
    pub parts: u8,
    /// The number of positions that may be expanded for each part, from 0 to 8,000.
    pub budget: u32,
}

/// What `cache` asks for. A load and a store cost 1.
#[derive(Clone, Copy, PartialEq, Eq)]
pub struct Caching {
    /// The number of slots, and of lines of the cache, from 1 to 64.
    pub slots: u16,
    /// The number of positions that may be expanded for the plan, from 0 to 150,000.
    pub budget: u32,
}

/// What a command works on.
#[derive(Clone, Copy, PartialEq, Eq)]
pub enum Subject {
    /// The kernel whose text the input is.
    InputKernel,
    /// The code whose text the input is.
    InputCode,
    /// The trial kernel with this many statements.
    TrialKernel(u32),
}

impl Command {
    ghost use Rattle.std.specs.Prelude.{◌≡◌};
    ghost use Rattle.command_words.specs.Commands.{subject};

    /// What the command works on.
    pub fn subject(self) -> Subject
        ensures { result ≡ subject self }
    {
        match self {
            Command::Plan(_)
            | Command::Check(_)
            | Command::Run
            | Command::Graph
            | Command::Cover(_)
            | Command::CoverCheck(_)
            | Command::Parts(_)
            | Command::Judge(_)
            | Command::Tidy(_)
            | Command::Cache(_) => Subject::InputKernel,
            Command::Exec => Subject::InputCode,
            Command::Trial(asked) => Subject::TrialKernel(asked.statements),
        }
    }
}
