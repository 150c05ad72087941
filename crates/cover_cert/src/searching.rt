//! The search that names covering rows: turns until the budget is spent or no place waits, and the answer that is made of what they leave.
ghost use Rattle.std.specs.Prelude.{◌≡◌, ◌+◌, ◌<◌, ◌≤◌, ◌≢◌, length, IfOk};
ghost use Rattle.comp_graph.specs.Games.{IsGame, game_of};
ghost use Rattle.step_count.specs.Openings.{Opens};
ghost use Rattle.pebble_rules.specs.Rules.{start};
ghost use Rattle.normal_steps.specs.Steps.{IsFinishing, total_cost};
ghost use Rattle.branch_bound.specs.Frontiers.{best_of, store_of};
ghost use Rattle.cover_cert.specs.CoverAnswer.{AreCoverRows};
ghost use Rattle.cover_cert.specs.CoverFounds.{IsCoverFound, IsCoverSearchedTable};
ghost use Rattle.cover_cert.specs.CoverTurns.{IsCoverDone};

use crate::making::{Made, make};
use crate::numbering::table_rows;
use crate::supporting::cover_support;
use crate::tables::{CoverRow, CoverTable};
use branch_bound::Verdict;
use branch_bound::frontier::{Best, Frontier};
use branch_bound::searching::{begin, best_plan, verdict_on};
use comp_graph::{Game, NoMemory};
use normal_steps::{Plan, Step};
use std::alloc::Global;
use std::marker::Brand;
use std::sync::ledger::{Blank, Ledger};
use step_count::Steps;

/// What the search answers. Costs are those of the game's weights, each with its finish.
#[derive(Drop)]
pub struct CoverFound<'g> {
    /// The best plan that was found.
    pub plan: Plan<'g>,
    /// The cost of the plan that was handed in.
    pub first_cost: u32,
    /// The rows in the order of their positions, with their names, and their bound, which no complete pebbling costs less than.
    pub table: CoverTable,
    /// Whether the bound is the cost of `plan`.
    pub verdict: Verdict,
}

/// What the turns of a search leave: what still waits, the best plan, and the rows that were made.
#[derive(Drop)]
pub struct CoverSearched {
    pub frontier: Frontier,
    pub best: Best,
    pub made: Vec<Made>,
}

// The search from a first plan, with at most so many rows. A tick is a row that is made.
fn run<L: Ledger>(
    alloc: Global,
    game: &Game,
    first: &[Step],
    first_cost: u32,
    budget: u32,
    steps: &mut Steps<L>,
) -> Result<CoverSearched, NoMemory>
    requires game { IsGame game.now }
    requires finishing { IsFinishing (game_of game.now) (start (game_of game.now)) first.now }
    requires cost { first_cost ≡ total_cost (game_of game.now) (start (game_of game.now)) first.now }
    requires budget { budget ≤ 8000 }
    ensures done { IfOk result (λ s. IsCoverDone (game_of game.now) first.now budget (store_of s.frontier) (best_of s.best) s.made.items) }
    ensures few { IfOk result (λ s. length s.made.items ≤ budget) }
    ensures steps { steps.new ≤ steps.old + budget }
{
    forced_bounds::laws::floor_at_ends();
    let mut best = Best {
        cost: first_cost,
        from: None,
        step: Step::Drop(0),
    };
    let mut frontier = begin(alloc, game, first, &best)?;
    let mut made = Vec::new(alloc);
    for turn in 0..budget {
        match frontier.next(&best) {
            None => return Ok(CoverSearched {
                frontier,
                best,
                made,
            }),
            Some(k) => {
                let row = make(alloc, game, &mut frontier, &mut best, &made, k, steps)?;
                made.push(row)?;
            }
        }
    }
    Ok(CoverSearched {
        frontier,
        best,
        made,
    })
}

// The table of a search that is done.
fn table_of(
    alloc: Global,
    game: &Game,
    first: &[Step],
    made: Vec<Made>,
    frontier: &Frontier,
    best: &Best,
    budget: u32,
) -> Result<CoverTable, NoMemory>
    requires game { IsGame game.now }
    requires finishing { IsFinishing (game_of game.now) (start (game_of game.now)) first.now }
    requires few { length made.items ≤ 8000 }
    requires searched { IsCoverDone (game_of game.now) first.now budget (store_of frontier.now) (best_of best.now) made.items }
    ensures { IfOk result (IsCoverSearchedTable (game_of game.now) first.now budget best.now.cost) }
{
    forced_bounds::laws::floor_at_ends();
    let rows = table_rows(alloc, made)?;
    let bound = cover_support(game, &rows, best.cost);
    Ok(CoverTable {
        slots: game.slots(),
        vertices: game.graph().len(),
        weights: game.weights(),
        bound,
        rows,
    })
}

/// Searches the normal plays of a game for a plan that costs less than the one that is handed in, in at most `budget` turns, from 0 to
/// 8,000, each of which makes a row. A Work or a Spill to a position that a row covers at no greater cost is not tried: it gets the name of
/// the first such row in the order of positions. Plan, rows and names are those of the definition (`cover_searched`), which fixes the order,
/// so they are the same at each call. The steps of the plan that is handed in may be any; `first_plan` has one.
///
/// A tick of `steps` is a position that is expanded: its legal steps get names or are tried, in one function that makes the row. There are at
/// most `budget` of them, also where memory was wanted and not found.
///
/// # Errors
///
/// `NoMemory` where memory was wanted and not found. The plan that was handed in is dropped then. How much memory and time a search takes
/// no contract says; each step that can have a name is compared with each row.
pub fn cover_search_counted<'g, L: Ledger>(
    alloc: Global,
    first: Plan<'g>,
    budget: u32,
    steps: &mut Steps<L>,
) -> Result<CoverFound<'g>, NoMemory>
    requires { budget ≤ 8000 }
    ensures found { IfOk result (IsCoverFound first.entry budget) }
    ensures steps { steps.new ≤ steps.old + budget }
{
    forced_bounds::laws::floor_at_ends();
    let game = first.game();
    let _slots = game.slots();
    let first_cost = first.total();
    let CoverSearched {
        frontier,
        best,
        made,
    } = run(alloc, game, first.steps(), first_cost, budget, steps)?;
    let table = table_of(alloc, game, first.steps(), made, &frontier, &best, budget)?;
    let verdict = verdict_on(table.bound, best.cost);
    let plan = best_plan(alloc, first, &frontier, &best)?;
    Ok(CoverFound {
        plan,
        first_cost,
        table,
        verdict,
    })
}

// The search, with its steps in a ledger of its own.
fn cover_search_uncounted<'g, L: Ledger>(
    alloc: Global,
    first: Plan<'g>,
    budget: u32,
    blank: Blank,
) -> Result<CoverFound<'g>, NoMemory>
    requires budget { budget ≤ 8000 }
    requires blank { Opens L.name L.parts blank }
    ensures { IfOk result (IsCoverFound first.entry budget) }
{
    let mut steps = Steps::<L>::new(blank);
    cover_search_counted(alloc, first, budget, &mut steps)
}

/// The search of [`cover_search_counted`], where no one counts its steps.
///
/// # Errors
///
/// `NoMemory` where memory was wanted and not found, as there.
pub fn cover_search<'g>(
    alloc: Global,
    first: Plan<'g>,
    budget: u32,
) -> Result<CoverFound<'g>, NoMemory>
    requires { budget ≤ 8000 }
    ensures { IfOk result (IsCoverFound first.entry budget) }
{
    cover_search_uncounted::<Brand>(alloc, first, budget, Blank::new(1))
}
