//! Laws over all graphs, lists of moves, plays and plans. A call does nothing: its contract is the law.
ghost use Rattle.slot_alloc.specs.PlanCode.{EmittedCodePlays, PlaysAreNeat, PlanCodeIsRight};

/// The code of a complete pebbling that places no pebble where one of its colour stands plays it, keeps the bounds of a code, and has a
/// word for each input and for each store.
pub fn emitted_code_plays()
    ensures { EmittedCodePlays }
{}

/// The moves of a normal play that finishes place no pebble where one of its colour stands, and take no blue one away.
pub fn plays_are_neat()
    ensures { PlaysAreNeat }
{}

/// The code of a plan is right: on every list of as many values as the graph has inputs it runs without a fault and gives the values of the
/// output elements, and the load weight times its loads plus the store weight times its stores is what the plan costs. It plays the moves of
/// the plan, which are a complete pebbling of that cost, and keeps the bounds of a code.
pub fn plan_code_is_right()
    ensures { PlanCodeIsRight }
{}
