//! Laws over all games, lists of moves and texts. A call does nothing: its contract is the law.
ghost use Rattle.play_files.specs.Followed.{EachIsFollowed, OnePlay};
ghost use Rattle.play_files.specs.Judging.{CompleteOrFaulty, FaultsAreOfNoPebbling, OneFault};
ghost use Rattle.play_files.specs.Laws.{AlwaysOne, NeverBoth, NoPrefix, OneBadLine, OneReading, PlaysAreShort, ReadsBack};

/// A list of moves has one fault at most, where it has one it is no complete pebbling, and where it has none it is one.
pub fn one_verdict()
    ensures none { FaultsAreOfNoPebbling }
    ensures one { OneFault }
    ensures always { CompleteOrFaulty }
{}

/// Moves have a text, which reads as these moves and is no prefix of another's.
pub fn one_text()
    ensures reads_back { ReadsBack }
    ensures no_prefix { NoPrefix }
{}

/// A text reads as one list of moves at most, has one bad line at most, and not both, and always one of them. It has more bytes than the
/// play has moves.
pub fn one_answer()
    ensures reading { OneReading }
    ensures bad_line { OneBadLine }
    ensures apart { NeverBoth }
    ensures always_one { AlwaysOne }
    ensures short { PlaysAreShort }
{}

/// A list of moves has at most one play that follows it, so `tidy` answers one plan. A complete pebbling has one, which finishes and costs no
/// more.
pub fn one_play()
    ensures one { OnePlay }
    ensures always { EachIsFollowed }
{}
