//! Laws of the answers of `exec`, and of what it makes of the output of `plan`.
ghost use Rattle.command_answers.specs.CodeInputs.{OneCode, OneCodeFault, NoFaultOfCode, CodeOrFault};
ghost use Rattle.pebble_cli.specs.ExecLaws.{ExecStatuses, DoneWhereRun, FaultWhereEmpty, ValuesWhereWrong, PlansReadBack, PlansRunAsSources};
ghost use Rattle.command_answers.specs.ValuesFiles.{HoldsOrNot};

/// Each input has exactly one of two: it reads as one code, or it has one line that is printed: its bad line, or 0 where it is longer than
/// 20,000,000 bytes.
pub fn code_or_fault()
    ensures once { OneCode }
    ensures one_fault { OneCodeFault }
    ensures apart { NoFaultOfCode }
    ensures always { CodeOrFault }
{}

/// `exec` answers Code, Done, ExecFault or Values. To an input that is a code it answers Done, and prints the outputs and the number of
/// transfers, exactly where the file holds a value for each input and the run on them comes to an end; ExecFault, and prints the place,
/// exactly where the run reads what is empty; and Values exactly where the file holds no such values. Each file holds values of a count or
/// holds none.
pub fn exec_answers()
    ensures statuses { ExecStatuses }
    ensures done { DoneWhereRun }
    ensures fault { FaultWhereEmpty }
    ensures values { ValuesWhereWrong }
    ensures always { HoldsOrNot }
{}

/// What `plan` prints of a kernel is a code, where it has at most 20,000,000 bytes: on each values file of the kernel `exec` prints of it
/// what `run` prints of the kernel, and then the number of loads and stores of the run, which weigh the printed cost.
pub fn plans_run_as_sources()
    ensures reads { PlansReadBack }
    ensures same { PlansRunAsSources }
{}
