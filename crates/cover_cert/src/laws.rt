//! Laws of covered tables and of the search that makes them. A call does nothing: its contract is the law.
ghost use Rattle.cover_cert.specs.Covers.{CoversIsTested};
ghost use Rattle.cover_cert.specs.CoverLaws.{CoveringCostsNoMore, CoverBoundIsBelowPlays, CoverBoundIsBelowPebblings, CoverSupportIsOne, PlainTablesAreCoverTables};
ghost use Rattle.cover_cert.specs.CoverSupport.{CoverSupportIsFound};
ghost use Rattle.cover_cert.specs.CoverSearchLaws.{CoverPlanIsNoWorse, CoverRowsAreReached, CoverSearchedIsValid, CoverFewRowsAreOptimal, CoverOpenFillsBudget, CoverEnoughBudgetIsOptimal, CoverSearchGoesByTurns};
ghost use Rattle.cover_cert.specs.Refusals.{RefusedIsNoCoverTable, CoverRefusalIsOne, CoverTableOrRefusal};
ghost use Rattle.cover_cert.specs.CoverBytes.{CoverSpellingIsOne, CoverSpelledOrNot};
ghost use Rattle.cover_cert.specs.CoverAnswer.{CoverAnswersAreProved};

/// The test whether a position covers another is right.
pub fn covers_is_tested()
    ensures { CoversIsTested }
{}

/// A covering position can do what the covered one can: each play that finishes from the covered one, where that has no more red vertices than
/// slots, has one that finishes from the covering one at no greater cost. It holds for any weights.
pub fn covering_costs_no_more()
    ensures { CoveringCostsNoMore }
{
    normal_steps::laws::plays_cost_no_more();
    normal_steps::laws::plays_are_pebblings();
}

/// The bound of a covered table is at most the cost of each complete pebbling; and from each row no play finishes at less than what is left
/// of the bound. It holds for any weights.
pub fn cover_tables_bound_pebblings()
    ensures plays { CoverBoundIsBelowPlays }
    ensures pebblings { CoverBoundIsBelowPebblings }
{
    forced_bounds::laws::floor_is_below_plays();
    normal_steps::laws::plays_cost_no_more();
    normal_steps::laws::plays_are_pebblings();
}

/// A valid table whose rows rise is a covered table without names.
pub fn plain_tables_are_cover_tables()
    ensures { PlainTablesAreCoverTables }
{}

/// Rows with names and a cost have one support.
pub fn cover_support_is_one()
    ensures one { CoverSupportIsOne }
    ensures found { CoverSupportIsFound }
{}

/// The plan that the search answers finishes at the answered cost, which is at most that of the first plan.
pub fn cover_plan_is_no_worse()
    ensures { CoverPlanIsNoWorse }
{
    forced_bounds::laws::floor_at_ends();
}

/// The rows are reached at their costs, and cannot finish.
pub fn cover_rows_are_reached()
    ensures { CoverRowsAreReached }
{
    forced_bounds::laws::floor_at_ends();
}

/// The rows in order with their names and their support are a covered table.
pub fn cover_searched_tables_are_valid()
    ensures { CoverSearchedIsValid }
{
    forced_bounds::laws::floor_at_ends();
}

/// Where fewer rows were made than the budget says the support is the answered cost; so an answer that leaves something open fills the budget,
/// and none does where the budget is at least the number of positions in which the inputs are blue.
pub fn cover_few_rows_are_optimal()
    ensures fewer { CoverFewRowsAreOptimal }
    ensures open_fills { CoverOpenFillsBudget }
    ensures enough { CoverEnoughBudgetIsOptimal }
{
    forced_bounds::laws::floor_at_ends();
}

/// A search goes on turn by turn.
pub fn cover_search_goes_by_turns()
    ensures { CoverSearchGoesByTurns }
{}

/// What is promised of an answer.
pub fn cover_answers_are_proved()
    ensures { CoverAnswersAreProved }
{
    forced_bounds::laws::floor_at_ends();
    cover_tables_bound_pebblings();
}

/// Where a table is refused, it is no covered table of the game.
pub fn refused_is_no_cover_table()
    ensures { RefusedIsNoCoverTable }
{}

/// A covered table is refused for one reason and by one row.
pub fn cover_refusal_is_one()
    ensures { CoverRefusalIsOne }
{}

/// A covered table has one spelling, bytes spell one table, and no spelling begins another.
pub fn cover_spelling_is_one()
    ensures { CoverSpellingIsOne }
{}

/// Each table is a covered table of the game or is refused.
pub fn each_table_is_judged()
    ensures { CoverTableOrRefusal }
{}

/// Numbers of any size spell a covered table or spell none.
pub fn bytes_spell_or_not()
    ensures { CoverSpelledOrNot }
{}
