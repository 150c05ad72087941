//! Laws of all codes and their texts. A call does nothing: its contract is the law.

ghost use Rattle.scratch_code.specs.Laws.{AlwaysOne, NeverBoth, NoPrefix, OneBadLine, OneReading, OneText, ReadsBack, ReadsBehindComments};

/// A code that can be written has one text without comments, which reads as that code, behind comments too, and is no prefix of another's.
pub fn one_text()
    ensures reads_back { ReadsBack }
    ensures behind_comments { ReadsBehindComments }
    ensures one_text { OneText }
    ensures no_prefix { NoPrefix }
{}

/// A text reads as one code at most, has one bad line at most, and not both, and always one of them.
pub fn one_answer()
    ensures reading { OneReading }
    ensures bad_line { OneBadLine }
    ensures apart { NeverBoth }
    ensures always_one { AlwaysOne }
{}
