//! Laws over all games and lists of moves. A call does nothing: its contract is the law.
ghost use Rattle.pebble_rules.specs.FirstBound.{FirstBoundHolds};
ghost use Rattle.pebble_rules.specs.Laws.{PossibleAboveDegree};

/// No complete pebbling costs less, by the game's weights, than one store of each output that is no input, and one load of each input
/// that a live vertex reads.
pub fn first_bound_holds()
    ensures { FirstBoundHolds }
{}

/// With at least one slot, a complete pebbling exists exactly where there are more slots than the degree.
pub fn pebblings_need_degree()
    ensures { PossibleAboveDegree }
{}
