//! Laws of the grammar, and of the kinds of tokens. A call does nothing: its contract is the law.
ghost use Rattle.kernel_syntax.specs.Laws.{OneReading, MoreLevels, OneFault, NeverBoth, ReadingOrFault, KindsAreApart};

/// Each list of tokens has exactly one of two: a reading within the limit, the only one of any number of levels, or a first fault,
/// the only one.
pub fn one_answer()
    ensures reading { OneReading }
    ensures levels { MoreLevels }
    ensures fault { OneFault }
    ensures apart { NeverBoth }
    ensures always { ReadingOrFault }
{}

/// The tests by which the grammar asks for a token tell kinds apart: kinds that have one number are one kind, or both are numbers.
pub fn kinds_are_apart()
    ensures { KindsAreApart }
{}
