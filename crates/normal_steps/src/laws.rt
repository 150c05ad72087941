//! Laws over all games, positions, pebblings and plays. A call does nothing: its contract is the law.
ghost use Rattle.normal_steps.specs.Simulation.{EachMoveIsAnswered, EachPebblingIsAnswered, PlaysCostNoMore, PlaysFromStartCostNoMore};
ghost use Rattle.normal_steps.specs.PlanMoves.{PlaysArePebblings, PlansArePebblings};
ghost use Rattle.normal_steps.specs.Sound.{StartIsSound, PlaysKeepSound};
ghost use Rattle.normal_steps.specs.StepTests.{StepsAreTested, FinishIsTested, LegalStepsAreOneList, LegalStepsAreListed};

/// A normal play that follows a pebbling answers each of its moves, and each list of them: the cost of its steps and the weight of what it
/// then owes are at most the cost of the moves and the weight of what it owed. Its Work steps are on vertices that the moves compute, in
/// the same order. It holds from every position of a pebbling and every position of a play that follows it, and for any weights.
pub fn plays_answer_pebblings()
    ensures each_move { EachMoveIsAnswered }
    ensures each_list { EachPebblingIsAnswered }
{}

/// Each complete pebbling has a normal play that finishes and costs no more, from every position that follows and owes nothing, and so from
/// the start. Its Work steps are on vertices that the pebbling computes, in the same order.
pub fn plays_cost_no_more()
    ensures from_any { PlaysCostNoMore }
    ensures from_start { PlaysFromStartCostNoMore }
{}

/// The moves of a normal play that finishes are a complete pebbling of the play's cost, which computes just what the play works on. So it is
/// from every position whose red pebbles fit the slots, and so the moves of a plan are.
pub fn plays_are_pebblings()
    ensures from_any { PlaysArePebblings }
    ensures from_start { PlansArePebblings }
{}

/// In each position of a normal play from the start the pebbles stand on vertices, the inputs are blue, and the red pebbles fit the slots.
pub fn positions_are_sound()
    ensures start { StartIsSound }
    ensures plays { PlaysKeepSound }
{}

/// A step is legal, and a play can finish, exactly where the test says so.
pub fn steps_are_tested()
    ensures steps { StepsAreTested }
    ensures finish { FinishIsTested }
{}

/// One list alone has just the legal steps of a position in their order. Where the red pebbles stand on vertices of the graph, as they do
/// along plays, it is the list that the tests give.
pub fn legal_steps_are_one_list()
    ensures one { LegalStepsAreOneList }
    ensures listed { LegalStepsAreListed }
{}
