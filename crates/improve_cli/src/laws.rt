//! Laws of the answers over the definitions alone, with no desk. `some_answer` says that there is an answer, and `fixed_answers` that it is the only
//! one, but for the plan and the table of `improve`. So with `determined` of `improve` they say which answer comes, and with `said` what a status means.
ghost use Rattle.improve_answers.specs.ImproveWords.{WordsAreInLimits};
ghost use Rattle.improve_cli.specs.AnswerLaws.{CertifiedOrRefused, ConfirmedWhereCertified, ConfirmStatuses, EffortlessIsPlanned, FixedAnswersAreOne};
ghost use Rattle.improve_cli.specs.AnswerLaws.{ImproveStatuses, ImprovementsAreConfirmed, KernelAlways, KernelOnly, NeverBoth, NoFaultIsAnAnswer};
ghost use Rattle.improve_cli.specs.AnswerLaws.{OwnAlways, OwnOnly, RefusedWhereNot, SomeAnswer, TablesAreOfImprove, TooSmallAlways, TooSmallOnly};
ghost use Rattle.improve_cli.specs.AnswerLaws.{UsageAlways, UsageOnly};

/// The numbers of the command that words spell are in range: S from 1 to 64, EFFORT from 0 to 200, and A and B from 1 to 16.
pub fn words_are_in_limits()
    ensures { WordsAreInLimits }
{}

/// There is an answer to all words, each input and each file, but for a file that is missing if `confirm` comes to read it: nothing refuses the
/// input.
pub fn some_answer()
    ensures { SomeAnswer }
{}

/// All answers to the same words, input and file are one, one status, one printed text and one table or none, if it is a refusal, an answer of
/// `confirm` to a file that the desk tells, or an answer of `improve` with the effort 0.
pub fn fixed_answers()
    ensures { FixedAnswersAreOne }
{}

/// No answer is a fault of the desk or of memory. A table goes only with the own answer of `improve`.
pub fn answers_are_sound()
    ensures no_fault { NoFaultIsAnAnswer }
    ensures tables { TablesAreOfImprove }
{}

/// Usage is answered exactly if the words spell no command.
pub fn usage_answers()
    ensures only { UsageOnly }
    ensures always { UsageAlways }
{}

/// Kernel is answered exactly if the kernel has a fault, and its code and place are printed.
pub fn kernel_answers()
    ensures only { KernelOnly }
    ensures always { KernelAlways }
{}

/// TooSmall is answered exactly if the kernel is accepted and the slots are at most the degree of its graph. The degree plus 1 is printed, and there
/// is no complete pebbling.
pub fn too_small_answers()
    ensures only { TooSmallOnly }
    ensures always { TooSmallAlways }
{}

/// A command's own answer is given exactly if nothing refuses the input.
pub fn own_answers()
    ensures only { OwnOnly }
    ensures always { OwnAlways }
{}

/// The own statuses: Optimal and Open of `improve`, Done and Refused of `confirm`. Done comes exactly for a table file of the game, whose bound is
/// printed, and Refused for each other file, with the first reason and row.
pub fn own_statuses()
    ensures improve { ImproveStatuses }
    ensures confirm { ConfirmStatuses }
    ensures confirmed { ConfirmedWhereCertified }
    ensures refused { RefusedWhereNot }
{}

/// The bytes of a file are a table file of a game, or are refused for a reason and by a row, and never both. A table file has at most 20,000,000 bytes.
pub fn table_files()
    ensures always { CertifiedOrRefused }
    ensures never_both { NeverBoth }
{}

/// A file that `improve` wrote is confirmed with the same kernel, slots and weights, and with the printed bound; by `fixed_answers` that is the only
/// answer.
pub fn improvements_are_confirmed()
    ensures { ImprovementsAreConfirmed }
{}

/// With the effort 0 the answer of `improve` is that of `plan` with the budget 0, but for the line of the effort.
pub fn effortless_answers()
    ensures { EffortlessIsPlanned }
{}
