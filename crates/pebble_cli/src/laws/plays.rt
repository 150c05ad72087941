//! Laws of the answers of `judge` and `tidy`.
ghost use Rattle.pebble_cli.specs.PlayLaws.{JudgeStatuses, JudgedWherePlayed, JudgedWhereNot, TidyStatuses, TidiedWherePlayed, TidiedWhereNot, PlayedOrNot};

/// `judge` answers Kernel, TooSmall, Done or Play. To an accepted kernel with more slots than the degree of its graph it answers Done, and
/// prints the cost, exactly where the file holds a complete pebbling; and else Play with the line that says why it holds none. Each file
/// does one of the two.
pub fn judge_answers()
    ensures statuses { JudgeStatuses }
    ensures done { JudgedWherePlayed }
    ensures refused { JudgedWhereNot }
    ensures always { PlayedOrNot }
{}

/// `tidy` answers so too: Done, with the code of a plan that costs no more, exactly where the file holds a complete pebbling.
pub fn tidy_answers()
    ensures statuses { TidyStatuses }
    ensures done { TidiedWherePlayed }
    ensures refused { TidiedWhereNot }
{}
