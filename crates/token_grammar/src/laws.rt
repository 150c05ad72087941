//! The laws of readers at work on a small grammar: groups of items in brackets. A call does nothing: its contract is the law.

ghost use Rattle.token_grammar.specs.Laws.{OneReading, OneFault, NeverBoth, ReadingOrFault, ReadsValue, StopsAtFault};

/// Each text has exactly one of two: a value, which is its only one, or a fault, which is its only one.
pub fn one_answer()
    ensures reading { OneReading }
    ensures fault { OneFault }
    ensures apart { NeverBoth }
    ensures always { ReadingOrFault }
{}

/// The reader gets the value or stops at the fault.
pub fn reader_is_exact()
    ensures value { ReadsValue }
    ensures fault { StopsAtFault }
{}
