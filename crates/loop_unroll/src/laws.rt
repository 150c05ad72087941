//! A law of executed assignments. A call does nothing: its contract is the law.
ghost use Rattle.loop_unroll.specs.Laws.{FlatsDoWhatStatementsDo};

/// To go through the executed assignments of a well-formed kernel in order, each right side with a stack, is to execute its statements: in
/// the numbers that elements hold, in the log of operations, and in the fault.
pub fn flats_do_what_statements_do()
    ensures { FlatsDoWhatStatementsDo }
{}
