//! Laws of the answers of `run`.
ghost use Rattle.pebble_cli.specs.RunLaws.{RunStatuses, DoneWhereValues, ValuesWhereNone};

/// `run` answers Kernel, Done or Values. To an accepted kernel it answers Done, and prints the outputs, exactly where the file holds values of
/// the kernel, and Values exactly where it holds none. Each file does one of the two, by the `always` of `exec_answers`, which stands for all
/// counts of values.
pub fn run_answers()
    ensures statuses { RunStatuses }
    ensures done { DoneWhereValues }
    ensures values { ValuesWhereNone }
{}
