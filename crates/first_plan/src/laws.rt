//! Laws of the first plan, over all games. A call does nothing: its contract is the law.
ghost use Rattle.first_plan.specs.Laws.{FirstPlanFinishes, WorksInOrder, WorksOnce, NextUseIsNext, NextUsesExist, LastNeededIsLast, VictimIsSpare};

/// With more slots than the degree, the first plan is a normal play from the start that finishes. Its Work steps are on just the live
/// vertices that are no inputs, in rising number, so that none is worked on twice.
pub fn first_plan_finishes()
    ensures finishes { FirstPlanFinishes }
    ensures works { WorksInOrder }
    ensures once { WorksOnce }
{}

/// The functions that define the first plan choose what their names say: the next use is the least later use, and there is one or none;
/// the victim's next use is as far as any, and no greater vertex's is as far. Where a turn lacks a slot there is a victim: a red vertex that
/// the turn does not read.
pub fn victims_are_needed_last()
    ensures next { NextUseIsNext }
    ensures found { NextUsesExist }
    ensures last { LastNeededIsLast }
    ensures spare { VictimIsSpare }
{}
