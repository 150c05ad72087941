//! The places of a search: each position that got a cost, with its head, its floor and its mark, and the queues of the places that wait.
ghost use Rattle.std.specs.Prelude.{◌≡◌, ◌+◌, ◌*◌, ◌<◌, ◌≤◌, ◌∷◌, [], length, IfOk, OnOk, MatchOption};
ghost use Rattle.comp_graph.specs.Games.{IsGame, game_of};
ghost use Rattle.normal_steps.specs.Sound.{IsSound};
ghost use Rattle.normal_steps.specs.Steps.{IsStep};
ghost use Rattle.position_arena.specs.Arenas.{IsAbsent, IsWithinWords};
ghost use Rattle.search_laws.specs.Search as search;
ghost use Rattle.search_laws.specs.Packing.{IsPut};
ghost use Rattle.search_laws.specs.Shortcut.{IsLeastPlace};
ghost use Rattle.search_laws.specs.Turning.{IsExpanding, Stops, FindsNext};
ghost use Rattle.branch_bound.specs.Frontiers.{IsFrontier, mark_of, store_of, best_of, place_at, place_of, HasTried, HasExpanded, IsPacked, IsPlayOf, rows_below};

use crate::cost_queues::CostQueues;
use comp_graph::{Game, NoMemory};
use forced_bounds::floor_below;
use normal_steps::{Step, Steps, after, finish};
use pebble_rules::Position;
use position_arena::{Head, Positions};
use potential_cert::Row;
use std::alloc::Global;
use std::sync::ledger::Ledger;

/// What became of a position: it waits, is a row, or no play through it can beat the plan.
#[derive(Clone, Copy)]
pub enum Mark {
    Waiting,
    Expanded,
    GivenUp,
}

// Whether a place with this mark waits.
fn waits(mark: Mark) -> bool
    ensures { result ≡ search.is_waiting (mark_of mark) }
{
    match mark {
        Mark::Waiting => true,
        Mark::Expanded => false,
        Mark::GivenUp => false,
    }
}

// Whether a place with this mark is a row.
fn is_row(mark: Mark) -> bool
    ensures { result ≡ search.is_expanded (mark_of mark) }
{
    match mark {
        Mark::Waiting => false,
        Mark::Expanded => true,
        Mark::GivenUp => false,
    }
}

/// What is kept of a position beside its row.
#[derive(Clone, Copy)]
pub struct Note {
    pub floor: u32,
    pub mark: Mark,
}

/// The cost of the best plan; and where it is not the first plan, the place of the row that its last step comes from, and that step.
#[derive(Clone, Copy)]
pub struct Best {
    pub cost: u32,
    pub from: Option<u32>,
    pub step: Step,
}

/// The positions that got a cost. After `NoMemory` from one of its calls a position may have a note and no row, or wait in no queue: it is
/// good for nothing then but to be dropped, as the searches do.
#[derive(Drop)]
pub struct Frontier {
    pub rows: Positions,
    pub notes: Vec<Note>,
    pub queues: CostQueues,
}

impl Frontier {
    /// Makes a place that waits for a position that has none.
    pub fn add(&mut self, q: &Position, head: Head, floor: u32) -> Result<(), NoMemory>
        requires frontier { IsFrontier self.old }
        requires absent { IsAbsent self.old.rows q.now }
        requires fits { IsWithinWords self.old.rows.words q.now }
        requires room { length self.old.rows.slots < 4294967295 }
        requires later { self.old.queues.current ≤ head.cost }
        requires small { head.cost < 4294967295 }
        ensures frontier { OnOk result (IsFrontier self.new) }
        ensures put { OnOk result (IsPut (store_of self.old) (store_of self.new) (length self.old.rows.slots) (place_of q.now head search.waiting floor)) }
        ensures size { OnOk result (length self.new.rows.slots ≡ length self.old.rows.slots + 1) }
        ensures words { OnOk result (self.new.rows.words ≡ self.old.rows.words) }
        ensures current { OnOk result (self.new.queues.current ≡ self.old.queues.current) }
    {
        let note = Note {
            floor,
            mark: Mark::Waiting,
        };
        self.notes.push(note)?;
        let k = self.rows.push(q, head)?;
        self.queues.push(head.cost, k)?;
        Ok(())
    }

    /// Gives a place a lower cost with another last step. It waits again, behind the others of that cost.
    pub fn improve(&mut self, k: u32, head: Head) -> Result<(), NoMemory>
        requires frontier { IsFrontier self.old }
        requires within { k < length self.old.rows.slots }
        requires later { self.old.queues.current ≤ head.cost }
        requires small { head.cost < 4294967295 }
        ensures frontier { OnOk result (IsFrontier self.new) }
        ensures put { OnOk result (IsPut (store_of self.old) (store_of self.new) k (record { position = (place_at self.old k).position; cost = head.cost; parent = head.parent; step = head.step; mark = search.waiting; floor = (place_at self.old k).floor })) }
        ensures size { OnOk result (length self.new.rows.slots ≡ length self.old.rows.slots) }
        ensures words { OnOk result (self.new.rows.words ≡ self.old.rows.words) }
        ensures current { OnOk result (self.new.queues.current ≡ self.old.queues.current) }
    {
        self.rows.set_head(k, head);
        let note = &mut self.notes[k as usize];
        note.mark = Mark::Waiting;
        self.queues.push(head.cost, k)?;
        Ok(())
    }

    /// Takes the next entry: places that do not wait, or that cannot beat the best plan, are passed over.
    pub fn next(&mut self, best: &Best) -> Option<u32>
        requires frontier { IsFrontier self.old }
        ensures frontier { IsFrontier self.new }
        ensures next { MatchOption result (Stops (store_of self.old) (store_of self.new) (best_of best.now)) (FindsNext (store_of self.old) (store_of self.new) (best_of best.now)) }
        ensures current { MatchOption result (length self.new.rows.slots ≡ length self.old.rows.slots) (λ k. self.new.queues.current ≡ (place_at self.new k).cost) }
        ensures size { length self.new.rows.slots ≡ length self.old.rows.slots }
        ensures words { self.new.rows.words ≡ self.old.rows.words }
    {
        while let Some((cost, k)) = self.queues.pop() {
            let head = self.rows.head(k);
            let note = self.notes[k as usize];
            if waits(note.mark) && head.cost == cost {
                if head.cost as u64 + note.floor as u64 >= best.cost as u64 {
                    let kept = &mut self.notes[k as usize];
                    kept.mark = Mark::GivenUp;
                } else {
                    let kept = &mut self.notes[k as usize];
                    kept.mark = Mark::Expanded;
                    return Some(k);
                }
            }
        }
        None
    }

    /// Tries a legal step from the row at the place `from`: its position and cost are `p` and `cost`.
    pub fn try_step(
        &mut self,
        game: &Game,
        from: u32,
        p: &Position,
        cost: u32,
        step: Step,
        best: &mut Best,
    ) -> Result<(), NoMemory>
        requires game { IsGame game.now }
        requires frontier { IsFrontier self.old }
        requires wide { length game.now.graph.nodes ≤ 64 * self.old.rows.words }
        requires expanding { IsExpanding (store_of self.old) from }
        requires position { (place_at self.old from).position ≡ p.now }
        requires cost { (place_at self.old from).cost ≡ cost }
        requires current { self.old.queues.current ≡ cost }
        requires sound { IsSound (game_of game.now) p.now }
        requires legal { IsStep (game_of game.now) p.now step }
        requires room { length self.old.rows.slots < 4294967295 }
        ensures { OnOk result (HasTried (game_of game.now) from self.old self.new best.old best.new (step ∷ [])) }
    {
        forced_bounds::laws::floor_at_ends();
        let h = cost as u64 + normal_steps::cost(game, p, step) as u64;
        if h >= best.cost as u64 {
            return Ok(());
        }
        let h = h as u32;
        let q = after(game, p, step);
        let head = Head {
            cost: h,
            parent: from,
            step,
        };
        if let Some(k) = self.rows.find(&q) {
            let known = self.rows.head(k);
            let note = self.notes[k as usize];
            if known.cost <= h || h as u64 + note.floor as u64 >= best.cost as u64 {
                return Ok(());
            }
            self.improve(k, head)?;
            return Ok(());
        }
        let floor = floor_below(game, &q, best.cost - h);
        if h as u64 + floor as u64 >= best.cost as u64 {
            return Ok(());
        }
        if let Some(rest) = finish(game, &q) {
            *best = Best {
                cost: h + rest,
                from: Some(from),
                step,
            };
            return Ok(());
        }
        self.add(&q, head, floor)?;
        Ok(())
    }

    /// Tries each legal step from the row at the place `k`, and counts one more in `steps`. An error can leave steps untried.
    pub fn expand<L: Ledger>(
        &mut self,
        game: &Game,
        k: u32,
        best: &mut Best,
        steps: &mut step_count::Steps<L>,
    ) -> Result<(), NoMemory>
        requires game { IsGame game.now }
        requires frontier { IsFrontier self.old }
        requires wide { length game.now.graph.nodes ≤ 64 * self.old.rows.words }
        requires expanding { IsExpanding (store_of self.old) k }
        requires current { self.old.queues.current ≡ (place_at self.old k).cost }
        requires sound { IsSound (game_of game.now) (place_at self.old k).position }
        requires room { length self.old.rows.slots < 4000000000 }
        ensures expanded { OnOk result (HasExpanded (game_of game.now) k self.old self.new best.old best.new) }
        ensures steps { steps.new ≡ steps.old + 1 }
    {
        steps.tick();
        let p = self.rows.position(k);
        let cost = self.rows.head(k).cost;
        for step in Steps::new(game, &p) {
            self.try_step(game, k, &p, cost, step, best)?;
        }
        Ok(())
    }

    /// The least of the best plan's cost and of what plays through the waiting places cost at least.
    pub fn bound(&self, best_cost: u32) -> u32
        requires { IsFrontier self.now }
        ensures { IsLeastPlace (store_of self.now) best_cost result (length self.now.rows.slots) }
    {
        let mut least = best_cost;
        for k in 0..self.rows.len() {
            let note = self.notes[k as usize];
            let head = self.rows.head(k);
            if waits(note.mark) && head.cost as u64 + (note.floor as u64) < least as u64 {
                least = head.cost + note.floor;
            }
        }
        least
    }

    /// The rows, in the order of their places.
    pub fn made(&self, alloc: Global) -> Result<Vec<Row>, NoMemory>
        requires { IsFrontier self.now }
        ensures { IfOk result (λ rows. rows.items ≡ rows_below (store_of self.now) (length self.now.rows.slots)) }
    {
        let mut rows = Vec::new(alloc);
        for k in 0..self.rows.len() {
            if is_row(self.notes[k as usize].mark) {
                rows.push(Row {
                    position: self.rows.position(k),
                    cost: self.rows.head(k).cost,
                })?;
            }
        }
        Ok(rows)
    }

    /// The steps that lead to a place, read back from its head on.
    pub fn play(&self, alloc: Global, k: u32) -> Result<Vec<Step>, NoMemory>
        requires within { k < length self.now.rows.slots }
        requires packed { IsPacked (store_of self.now) }
        ensures { IfOk result (λ steps. IsPlayOf (store_of self.now) k steps.items) }
    {
        let mut steps = Vec::new(alloc);
        let mut at = k;
        for turn in 0..self.rows.len() {
            if at == 0 {
                steps.reverse();
                return Ok(steps);
            }
            let head = self.rows.head(at);
            steps.push(head.step)?;
            at = head.parent;
        }
        unreachable!()
    }
}
