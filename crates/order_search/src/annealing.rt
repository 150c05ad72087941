//! The search: simulated annealing over orders in which a vertex may be computed again. Work is counted in places of orders that were followed.
ghost use Rattle.std.specs.Prelude.{◌≡◌, ◌≤◌, IfOk};
ghost use Rattle.normal_steps.specs.Plans.{IsPlan};

use crate::board::Board;
use crate::changes::Changes;
use crate::following::{Follower, Reload};
use crate::order::Order;
use crate::starts::{DepthFirst, Direction, source_order};
use crate::temperature::Cooling;
use comp_graph::{Game, NoMemory};
use normal_steps::{Plan, Step};
use std::alloc::Global;
use std::mem;

/// A plan of the same game that costs no more than the first one: the plan that annealing finds with so much work if it is cheaper, and the
/// first plan otherwise. Work is counted in places: to follow an order of n places takes n. `NoMemory` may come at any allocation.
pub fn improved<'g>(alloc: Global, first: Plan<'g>, work: u32) -> Result<Plan<'g>, NoMemory>
    ensures valid { IfOk result IsPlan }
    ensures game { IfOk result (λ plan. plan.game ≡ first.entry.game) }
    ensures total { IfOk result (λ plan. plan.total ≤ first.entry.total) }
{
    let steps = cheap_steps(alloc, first.game(), work)?;
    if let Some(plan) = Plan::new(first.game(), steps) {
        if plan.total() < first.total() {
            return Ok(plan);
        }
    }
    Ok(first)
}

// The steps of the cheapest play that annealing finds. Two rounds, from the two cheapest starts, take two fifths of the work each, and the last
// one, from the best order so far, takes the rest. One or four rounds from starts found plans as cheap.
fn cheap_steps(alloc: Global, game: &Game, work: u32) -> Result<Vec<Step>, NoMemory> {
    let board = Board::new(alloc, game)?;
    let mut search = Search::new(alloc, &board);
    let starts = search.all_starts(alloc)?;
    let round = work / 5 * 2;
    let mut end = 0u32;
    for start in starts.iter().take(2) {
        end = end.saturating_add(round);
        search.anneal(&start.order, end, Cooling::from_start(&board))?;
    }
    let best = search.best;
    search.anneal(&best, work, Cooling::from_best(&board))?;
    search.leave_out_copies()?;
    search.best_steps()
}

// An order to start from, and its cost.
#[derive(Clone, Copy, Drop)]
struct Start {
    order: Order,
    cost: u32,
}

// What is known in the course of the search. All costs are extra costs.
#[derive(Drop)]
struct Search<'b> {
    board: &'b Board,
    follower: Follower,
    changes: Changes,
    // The present order, its reloads and its cost.
    order: Order,
    reloads: Vec<Reload>,
    cost: u32,
    // The cheapest order so far, and its cost.
    best: Order,
    best_cost: u32,
}

impl<'b> Search<'b> {
    fn new(alloc: Global, board: &'b Board) -> Search<'b> {
        let order = source_order(board);
        Search {
            board,
            follower: Follower::new(alloc),
            changes: Changes::new(order.len()),
            order,
            reloads: Vec::new(alloc),
            cost: u32::MAX,
            best: order,
            best_cost: u32::MAX,
        }
    }

    // The orders to start from, the cheapest first: the order of the source, and four depth-first orders.
    fn all_starts(&mut self, alloc: Global) -> Result<Vec<Start>, NoMemory> {
        let mut starts = Vec::new(alloc);
        starts.push(self.start_from(source_order(self.board))?)?;
        for predecessors in [Direction::Rising, Direction::Falling] {
            for outputs in [Direction::Rising, Direction::Falling] {
                let walk = DepthFirst {
                    outputs,
                    predecessors,
                };
                starts.push(self.start_from(walk.order(alloc, self.board)?)?)?;
            }
        }
        starts.sort_by_key(|start| start.cost)?;
        Ok(starts)
    }

    fn start_from(&mut self, order: Order) -> Result<Start, NoMemory> {
        self.go_to(&order)?;
        Ok(Start {
            order,
            cost: self.cost,
        })
    }

    // Follows an order, and makes it the present one.
    fn go_to(&mut self, order: &Order) -> Result<(), NoMemory> {
        let cost = self.follower.follow(self.board, order, u32::MAX)?;
        self.accept(order, cost.unwrap_or(u32::MAX));
        Ok(())
    }

    // Makes the order that was followed last the present one.
    fn accept(&mut self, order: &Order, cost: u32) {
        self.order = *order;
        self.cost = cost;
        mem::swap(&mut self.reloads, &mut self.follower.reloads);
        self.changes.note_places(order);
        if cost < self.best_cost {
            self.best = *order;
            self.best_cost = cost;
        }
    }

    // One round: anneals from an order until all work up to `end` is done, or an order has no extra cost, or there is nothing to change.
    fn anneal(&mut self, order: &Order, end: u32, cooling: Cooling) -> Result<(), NoMemory> {
        self.go_to(order)?;
        let whole = end.saturating_sub(self.follower.work);
        for _ in 0..whole {
            let left = end.saturating_sub(self.follower.work);
            if left == 0 || self.best_cost == 0 || self.order.len() < 2 {
                break;
            }
            self.try_change(cooling.temperature(left, whole))?;
        }
        Ok(())
    }

    // Tries one change, and accepts it if the cost rises by no more than is allowed at this temperature. One that cannot be made counts as
    // one place.
    fn try_change(&mut self, temperature: u16) -> Result<(), NoMemory> {
        let Some(order) = self
            .changes
            .random_change(self.board, &self.order, &self.reloads)
        else {
            self.follower.work = self.follower.work.saturating_add(1);
            return Ok(());
        };
        let allowance = self.changes.random.allowance(temperature);
        let limit = self.cost.saturating_add(allowance);
        if let Some(cost) = self.follower.follow(self.board, &order, limit)? {
            self.accept(&order, cost);
        }
        Ok(())
    }

    // Leaves out each copy of the best order without which that costs no more.
    fn leave_out_copies(&mut self) -> Result<(), NoMemory> {
        let best = self.best;
        self.go_to(&best)?;
        for place in (0..best.len()).rev() {
            if let Some(order) = self.changes.without_copy(self.board, &self.order, place) {
                if let Some(cost) = self.follower.follow(self.board, &order, self.best_cost)? {
                    self.accept(&order, cost);
                }
            }
        }
        self.best = self.order;
        Ok(())
    }

    // The steps of the play by the best order.
    fn best_steps(self) -> Result<Vec<Step>, NoMemory> {
        let Search {
            board,
            mut follower,
            best,
            ..
        } = self;
        follower.follow(board, &best, u32::MAX)?;
        let Follower { steps, .. } = follower;
        Ok(steps)
    }
}
