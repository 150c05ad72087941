//! The places that wait, by their cost.
ghost use Rattle.std.specs.Prelude.{◌≡◌, ℕ, ◌+◌, ◌<◌, ◌≤◌, [], ◌∷◌, ◌++◌, OnOk, MatchOption};
ghost use Rattle.branch_bound.specs.Queues.{Queues, queue_at, AllEmpty, IsQueued, IsNextOf, IsAsBefore};

use comp_graph::NoMemory;
use std::alloc::Global;
use std::collections::VecDeque;
use std::marker::Model;

/// For each cost the places that wait at it, first come, first served.
#[derive(Drop)]
pub struct CostQueues {
    alloc: Global,
    current: u32,
    queues: Vec<VecDeque<u32>>,
}

impl Model for CostQueues {
    ghost use Rattle.branch_bound.specs.Queues.{Queues};
    ghost use Rattle.branch_bound.specs.QueuesInside.{queues_of, AreEmptyBelow};

    ghost Value = { Queues };

    ghost view = { queues_of };

    ghost invariant = { AreEmptyBelow };
}

impl CostQueues {
    /// No places. It takes no memory.
    pub fn new(alloc: Global) -> CostQueues
        ensures { result ≡ record { current = 0; lists = [] } }
    {
        CostQueues {
            alloc,
            current: 0,
            queues: Vec::new(alloc),
        }
    }

    /// Appends the place to the queue of the cost.
    pub fn push(&mut self, cost: u32, place: u32) -> Result<(), NoMemory>
        requires later { self.old.current ≤ cost }
        requires small { cost < 4294967295 }
        ensures { OnOk result (IsQueued self.old self.new cost place) }
    {
        while self.queues.len() <= cost as usize {
            self.queues.push(VecDeque::new(self.alloc))?;
        }
        let queue = &mut self.queues[cost as usize];
        queue.push_back(place)?;
        Ok(())
    }

    /// Takes the first place of the least cost.
    pub fn pop(&mut self) -> Option<(u32, u32)>
        ensures { MatchOption result (AllEmpty self.old × IsAsBefore self.old self.new) (λ next. IsNextOf self.old self.new next.0 next.1) }
    {
        while (self.current as usize) < self.queues.len() {
            let queue = &mut self.queues[self.current as usize];
            if let Some(place) = queue.pop_front() {
                return Some((self.current, place));
            }
            self.current += 1;
        }
        None
    }
}
