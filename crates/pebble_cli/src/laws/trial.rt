//! Laws of the answers of `trial`.
ghost use Rattle.pebble_cli.specs.TrialLaws.{TrialStatuses, DoneWhereRoom, TrialsAreAsShown, NoReadOfTrials};

/// `trial` answers TooSmall or Done, whatever stands in the input: the trial kernel has no fault, and no Open comes where the budget is spent.
/// Where there are more slots than the degree of its graph it answers Done, with the lines and the table of whatever numbers and table are
/// shown of that graph. A read fault has no cause.
pub fn trial_answers()
    ensures statuses { TrialStatuses }
    ensures done { DoneWhereRoom }
    ensures shown { TrialsAreAsShown }
    ensures no_read { NoReadOfTrials }
{}
