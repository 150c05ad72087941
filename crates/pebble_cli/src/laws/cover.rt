//! Laws of the answers of `cover` and `covercheck`.
ghost use Rattle.pebble_cli.specs.CoverLaws.{CoverStatuses, CoversAreAnswered, CoversAreOptimalWhereEnough};
ghost use Rattle.pebble_cli.specs.CoverLaws.{CoverCheckStatuses, DoneWhereCovered, RefusedWhereNotCovered, CoversAreAccepted};
ghost use Rattle.command_answers.specs.CoverCheckAnswers.{CoverFilesAreJudged};

/// `cover` answers Kernel, TooSmall, Optimal or Open. To an accepted kernel with more slots than the degree of its graph it answers Optimal
/// or Open, and never Open where the budget is at least 2 to the power 2n - i, with n vertices and i inputs.
pub fn cover_answers()
    ensures statuses { CoverStatuses }
    ensures answered { CoversAreAnswered }
    ensures enough { CoversAreOptimalWhereEnough }
{}

/// `covercheck` answers Kernel, TooSmall, Done or Refused. To an accepted kernel with more slots than the degree of its graph it answers
/// Done, and prints the bound, exactly where the file is a covered table file of the game; and Refused, and prints the reason and the row,
/// exactly where it is refused for them. Each file does one of the two.
pub fn cover_check_answers()
    ensures statuses { CoverCheckStatuses }
    ensures done { DoneWhereCovered }
    ensures refused { RefusedWhereNotCovered }
    ensures always { CoverFilesAreJudged }
{}

/// A file that `cover` wrote is accepted by `covercheck` with the same kernel and slots, and its bound is printed.
pub fn covers_are_accepted()
    ensures { CoversAreAccepted }
{}
