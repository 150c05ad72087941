//! Laws of the answers of `plan`.
ghost use Rattle.pebble_cli.specs.PlanLaws.{PlanStatuses, PlansAreAnswered, PlansAreAsShown, OptimalWhereTight, OpenWhereLoose, OptimalWhereEnough};

/// `plan` answers Kernel, TooSmall, Optimal or Open. To an accepted kernel with more slots than the degree of its graph it answers Optimal
/// or Open, with every budget: Optimal exactly where the support of the rows of the search is the cost of the plan that it finds, Open exactly
/// where it is below. Its text and its table are those of whatever numbers and table are shown of the graph, with the code of that plan. Open
/// never comes where the budget is at least 2 to the power 2n - i, with n vertices and i inputs.
pub fn plan_answers()
    ensures statuses { PlanStatuses }
    ensures answered { PlansAreAnswered }
    ensures shown { PlansAreAsShown }
    ensures optimal { OptimalWhereTight }
    ensures opened { OpenWhereLoose }
    ensures enough { OptimalWhereEnough }
{}
