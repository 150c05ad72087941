//! Laws over all games, windows and positions. A call does nothing: its contract is the law.
ghost use Rattle.window_steps.specs.StepTests.{StepsAreTestedIn, FinishIsTestedIn};
ghost use Rattle.window_steps.specs.LegalSteps.{StepSetsAreListed, StepSetsAreTested};

/// A step of a window is legal, and a play of it can finish, exactly if the test says so.
pub fn window_steps_are_tested()
    ensures steps { StepsAreTestedIn }
    ensures finish { FinishIsTestedIn }
{}

/// The sets that the tests give have just the vertices for which Work, Drop and Spill are legal, and the steps on such sets,
/// listed in order, are just the legal steps.
pub fn window_steps_are_listed()
    ensures tested { StepSetsAreTested }
    ensures listed { StepSetsAreListed }
{}
