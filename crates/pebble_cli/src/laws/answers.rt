//! Laws of the answers of all commands, over the definitions alone. With `determined` of `pebble` they say which answer comes, and with
//! `said` what a status means.
ghost use Rattle.pebble_cli.specs.AnswerLaws.{OneAnswer, SomeAnswer, AnswersAnyInput, AdmitsAnyInput, NoFaultIsAnAnswer, TablesAreOfWriters};
ghost use Rattle.pebble_cli.specs.AnswerLaws.{UsageOnly, UsageAlways, KernelOnly, KernelAlways, TooSmallOnly, TooSmallAlways, OwnOnly, OwnAlways};
ghost use Rattle.pebble_cli.specs.AnswerLaws.{CodeOnly, CodeAlways};

/// All answers to the same words, input and file are one: one status, one printed text and one table, or none. That holds of a refusal in
/// any case, of a command's own answer where the desk tells the file that it reads.
pub fn one_answer()
    ensures { OneAnswer }
{}

/// There is an answer to all words, each input and each file, but for a file that is missing where the command comes to read it: nothing
/// refuses the input.
pub fn some_answer()
    ensures { SomeAnswer }
{}

/// Where the words read no input, what answers them with one input answers them with any, and nothing refuses one that does not refuse all.
pub fn idle_inputs()
    ensures answers { AnswersAnyInput }
    ensures admitted { AdmitsAnyInput }
{}

/// No answer is a fault of the desk or of memory. A table goes only with the own answers of commands that write the file.
pub fn answers_are_sound()
    ensures no_fault { NoFaultIsAnAnswer }
    ensures tables { TablesAreOfWriters }
{}

/// Usage stands exactly where the words spell no command.
pub fn usage_answers()
    ensures only { UsageOnly }
    ensures always { UsageAlways }
{}

/// Kernel stands exactly where the command works on a kernel with a fault, and its code and place are printed.
pub fn kernel_answers()
    ensures only { KernelOnly }
    ensures always { KernelAlways }
{}

/// Code stands exactly where the command works on code and the input is none: its bad line is printed, or 0 where it is longer than
/// 20,000,000 bytes.
pub fn code_answers()
    ensures only { CodeOnly }
    ensures always { CodeAlways }
{}

/// TooSmall stands exactly where the command has slots, works on an accepted kernel, and its slots are at most the degree of the graph. The
/// degree plus 1 is printed, and there is no complete pebbling.
pub fn too_small_answers()
    ensures only { TooSmallOnly }
    ensures always { TooSmallAlways }
{}

/// A command's own answer stands exactly where nothing refuses the input.
pub fn own_answers()
    ensures only { OwnOnly }
    ensures always { OwnAlways }
{}
