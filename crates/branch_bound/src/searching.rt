//! The search: turns until the budget is spent or no place waits, and the answer that is made of what they leave.
ghost use Rattle.std.specs.Prelude.{◌≡◌, ℕ, ◌+◌, ◌<◌, ◌≤◌, ◌≢◌, ◌↔◌, length, IfOk, None, IsPermutation, IsSortedBy};
ghost use Rattle.comp_graph.specs.Games.{IsGame, game_of};
ghost use Rattle.step_count.specs.Openings.{Opens};
ghost use Rattle.pebble_rules.specs.Rules.{start};
ghost use Rattle.normal_steps.specs.Plans.{IsPlan};
ghost use Rattle.normal_steps.specs.Steps.{IsFinishing, total_cost};
ghost use Rattle.potential_cert.specs.Order.{precedes};
ghost use Rattle.search_laws.specs.Search.{Search};
ghost use Rattle.search_laws.specs.Turning.{IsDone};
ghost use Rattle.branch_bound.specs.Frontiers.{HasEnded, IsFrontier, IsSearched, IsSearching, store_of, best_of, rows_below};
ghost use Rattle.branch_bound.specs.declared.searching.Verdict.TheVariants.{Optimal, Open};
ghost use Rattle.branch_bound.specs.Founds.{IsSearchedTable, IsFound};

use crate::cost_queues::CostQueues;
use crate::frontier::{Best, Frontier};
use comp_graph::{Game, NoMemory};
use forced_bounds::floor;
use normal_steps::{Plan, Step};
use pebble_rules::Position;
use position_arena::{Head, Positions};
use potential_cert::{Row, Table};
use std::alloc::Global;
use std::marker::Brand;
use std::sync::ledger::{Blank, Ledger};
use step_count::Steps;

/// Whether the bound is the plan's cost.
#[derive(Clone, Copy, Debug, PartialEq, Eq)]
pub enum Verdict {
    /// It is: no complete pebbling costs less than the plan.
    Optimal,
    /// It is below, and there are as many rows as the budget says. The cheapest cost lies between the two.
    Open,
}

/// What a search answers. Costs are those of the game's weights, each with its finish.
#[derive(Drop)]
pub struct Found<'g> {
    /// The best plan that was found.
    pub plan: Plan<'g>,
    /// The cost of the plan that was handed in.
    pub first_cost: u32,
    /// The rows in the order of their positions, and their bound, which no complete pebbling costs less than.
    pub table: Table,
    /// Whether the bound is the cost of `plan`.
    pub verdict: Verdict,
}

// What the turns of a search leave.
#[derive(Drop)]
pub(crate) struct Searched {
    pub frontier: Frontier,
    pub best: Best,
}

/// The places before the first turn: the start, where the first plan costs more than its floor, and else none. They are the same for each
/// budget.
pub fn begin(alloc: Global, game: &Game, first: &[Step], best: &Best) -> Result<Frontier, NoMemory>
    requires game { IsGame game.now }
    requires finishing { IsFinishing (game_of game.now) (start (game_of game.now)) first.now }
    requires cost { best.now.cost ≡ total_cost (game_of game.now) (start (game_of game.now)) first.now }
    requires first { best.now.from ≡ None }
    ensures { IfOk result (λ f. (budget : ℕ) → IsSearching game.now first.now budget 0 f best.now) }
{
    let words = ((game.graph().len() + 63) / 64) as u8;
    let mut frontier = Frontier {
        rows: Positions::new(alloc, words),
        notes: Vec::new(alloc),
        queues: CostQueues::new(alloc),
    };
    let start = Position::start(game);
    let floor = floor(game, &start);
    if floor < best.cost {
        let head = Head {
            cost: 0,
            parent: 0,
            step: Step::Drop(0),
        };
        frontier.add(&start, head, floor)?;
    }
    Ok(frontier)
}

// The search from a first plan, with at most so many rows. A tick is a place that is expanded.
fn run<L: Ledger>(
    alloc: Global,
    game: &Game,
    first: &[Step],
    first_cost: u32,
    budget: u32,
    steps: &mut Steps<L>,
) -> Result<Searched, NoMemory>
    requires game { IsGame game.now }
    requires finishing { IsFinishing (game_of game.now) (start (game_of game.now)) first.now }
    requires cost { first_cost ≡ total_cost (game_of game.now) (start (game_of game.now)) first.now }
    requires budget { budget ≤ 150000 }
    ensures searched { IfOk result (IsSearched (game_of game.now) first.now budget) }
    ensures frontier { IfOk result (λ s. IsFrontier s.frontier) }
    ensures steps { steps.new ≤ steps.old + budget }
{
    forced_bounds::laws::floor_at_ends();
    let mut best = Best {
        cost: first_cost,
        from: None,
        step: Step::Drop(0),
    };
    let mut frontier = begin(alloc, game, first, &best)?;
    for turn in 0..budget {
        match frontier.next(&best) {
            None => return Ok(Searched { frontier, best }),
            Some(k) => frontier.expand(game, k, &mut best, steps)?,
        }
    }
    Ok(Searched { frontier, best })
}

// The rows among the places, by position.
fn sorted_rows(alloc: Global, frontier: &Frontier) -> Result<Vec<Row>, NoMemory>
    requires { IsFrontier frontier.now }
    ensures members { IfOk result (λ rows. IsPermutation (rows_below (store_of frontier.now) (length frontier.now.rows.slots)) rows.items) }
    ensures sorted { IfOk result (λ rows. IsSortedBy (λ r q. precedes r.position q.position) rows.items) }
{
    let mut rows = frontier.made(alloc)?;
    rows.sort_by(|a, b| a.position.order(&b.position))?;
    Ok(rows)
}

/// The plan of a search that has ended, for which these places and this best step stand. `first` is the plan that it began with.
pub fn best_plan<'g>(
    alloc: Global,
    first: Plan<'g>,
    frontier: &Frontier,
    best: &Best,
) -> Result<Plan<'g>, NoMemory>
    requires { (t : Search) × HasEnded (game_of first.game) first.steps (store_of frontier.now) (best_of best.now) t }
    ensures valid { IfOk result IsPlan }
    ensures game { IfOk result (λ plan. plan.game ≡ first.entry.game) }
    ensures steps { IfOk result (λ plan. (t : Search) → HasEnded (game_of first.entry.game) first.entry.steps (store_of frontier.now) (best_of best.now) t → plan.steps ≡ t.plan) }
{
    let game = first.game();
    let _slots = game.slots();
    match best.from {
        None => Ok(first),
        Some(k) => {
            let mut steps = frontier.play(alloc, k)?;
            steps.push(best.step)?;
            match Plan::new(game, steps) {
                Some(plan) => Ok(plan),
                None => unreachable!(),
            }
        }
    }
}

// The table of a search that is done.
fn table_of(
    alloc: Global,
    game: &Game,
    first: &[Step],
    frontier: &Frontier,
    best: &Best,
    budget: u32,
) -> Result<Table, NoMemory>
    requires game { IsGame game.now }
    requires finishing { IsFinishing (game_of game.now) (start (game_of game.now)) first.now }
    requires searched { IsDone (game_of game.now) first.now budget (store_of frontier.now) (best_of best.now) }
    requires frontier { IsFrontier frontier.now }
    ensures { IfOk result (IsSearchedTable (game_of game.now) first.now budget best.now.cost) }
{
    forced_bounds::laws::floor_at_ends();
    let rows = sorted_rows(alloc, frontier)?;
    Ok(Table {
        slots: game.slots(),
        vertices: game.graph().len(),
        weights: game.weights(),
        bound: frontier.bound(best.cost),
        rows,
    })
}

/// The verdict on a bound and a cost.
pub fn verdict_on(bound: u32, cost: u32) -> Verdict
    ensures optimal { (result ≡ Optimal) ↔ (bound ≡ cost) }
    ensures open { (result ≡ Open) ↔ (bound ≢ cost) }
{
    if bound == cost {
        Verdict::Optimal
    } else {
        Verdict::Open
    }
}

/// Searches the normal plays of a game for a plan that costs less than the one that is handed in, in at most `budget` turns, from 0 to
/// 150,000, each of which makes a row. Plan and rows are those of the definition (`searched` in `search_laws`), which fixes the order, so
/// they are the same at each call. The steps of the plan that is handed in may be any; `first_plan` has one.
///
/// A tick of `steps` is a position that is expanded: its legal steps are tried, by `Frontier::expand`, the one call that tries them. There
/// are at most `budget` of them, also where memory was wanted and not found.
///
/// # Errors
///
/// `NoMemory` where memory was wanted and not found. The plan that was handed in is dropped then. How much memory and time a search takes
/// no contract says; memory grows with the number of positions that got a cost, which is at most 384 for each row.
pub fn search_counted<'g, L: Ledger>(
    alloc: Global,
    first: Plan<'g>,
    budget: u32,
    steps: &mut Steps<L>,
) -> Result<Found<'g>, NoMemory>
    requires { budget ≤ 150000 }
    ensures found { IfOk result (IsFound first.entry budget) }
    ensures steps { steps.new ≤ steps.old + budget }
{
    forced_bounds::laws::floor_at_ends();
    let game = first.game();
    let _slots = game.slots();
    let first_cost = first.total();
    let Searched { frontier, best } = run(alloc, game, first.steps(), first_cost, budget, steps)?;
    let table = table_of(alloc, game, first.steps(), &frontier, &best, budget)?;
    let verdict = verdict_on(table.bound, best.cost);
    let plan = best_plan(alloc, first, &frontier, &best)?;
    Ok(Found {
        plan,
        first_cost,
        table,
        verdict,
    })
}

// The search, with its steps in a ledger of its own.
fn search_uncounted<'g, L: Ledger>(
    alloc: Global,
    first: Plan<'g>,
    budget: u32,
    blank: Blank,
) -> Result<Found<'g>, NoMemory>
    requires budget { budget ≤ 150000 }
    requires blank { Opens L.name L.parts blank }
    ensures { IfOk result (IsFound first.entry budget) }
{
    let mut steps = Steps::<L>::new(blank);
    search_counted(alloc, first, budget, &mut steps)
}

/// The search of [`search_counted`], where no one counts its steps.
///
/// # Errors
///
/// `NoMemory` where memory was wanted and not found, as there.
pub fn search<'g>(alloc: Global, first: Plan<'g>, budget: u32) -> Result<Found<'g>, NoMemory>
    requires { budget ≤ 150000 }
    ensures { IfOk result (IsFound first.entry budget) }
{
    search_uncounted::<Brand>(alloc, first, budget, Blank::new(1))
}
