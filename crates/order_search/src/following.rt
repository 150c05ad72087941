//! What a play costs that computes in a given order.
ghost use Rattle.std.specs.Prelude.{◌≤◌, length};

use crate::board::{Board, MAX_PREDECESSORS, MAX_SLOTS, MAX_VERTICES};
use crate::order::{MAX_PLACES, Order};
use comp_graph::{NoMemory, VertexSet};
use normal_steps::Step;
use std::alloc::Global;

// What comes next for a value after a place of an order.
#[derive(Clone, Copy, Drop)]
enum NextUse {
    // It is read, at this place.
    Read(u16),
    // It is computed again before it is read.
    Computed,
    // Neither comes.
    Never,
}

// What comes next for the vertex that is computed at a place of an order, and for each of its predecessors.
#[derive(Clone, Copy, Drop)]
struct Turn {
    vertex: NextUse,
    predecessors: [NextUse; MAX_PREDECESSORS],
}

// A red pebble. The factor says how cheap it is to remove it if it is read again: a cheaper one is removed sooner.
#[derive(Clone, Copy, Drop)]
struct Pebble {
    vertex: u8,
    factor: u16,
    next_use: NextUse,
}

/// A load that is not the first load of an input: the place of the order whose vertex reads, and the vertex that it reads.
#[derive(Clone, Copy, Drop)]
pub struct Reload {
    pub place: u16,
    pub vertex: u8,
}

/// Plays the game in a given order. Red pebbles are in slots, in no particular order. Of those that are needed again the one is removed whose
/// next use is furthest, by the number of places times the factor. Counted is the extra cost: what the play pays apart from one load of
/// each input that it reads and one store of each output, which every play pays.
#[derive(Drop)]
pub struct Follower {
    // What comes next at each place of the order.
    turns: [Turn; MAX_PLACES],
    // What comes next for each vertex, while the order is followed from its end.
    next_uses: [NextUse; MAX_VERTICES],
    // The slot of each vertex that is red.
    slot_of: [Option<u8>; MAX_VERTICES],
    // The red pebbles. The free slots are after them.
    pebbles: [Pebble; MAX_SLOTS],
    pebble_count: u8,
    blue: VertexSet,
    // The vertices that were loaded.
    loaded: VertexSet,
    extra_cost: u32,
    /// How many places of orders were followed since the start: the measure of work.
    pub work: u32,
    /// The reloads of the last order that was followed.
    pub reloads: Vec<Reload>,
    /// The steps of the play by the last order that was followed.
    pub steps: Vec<Step>,
}

impl Follower {
    /// A follower that has followed nothing.
    pub fn new(alloc: Global) -> Follower {
        let turn = Turn {
            vertex: NextUse::Never,
            predecessors: [NextUse::Never; MAX_PREDECESSORS],
        };
        let pebble = Pebble {
            vertex: 0,
            factor: 0,
            next_use: NextUse::Never,
        };
        Follower {
            turns: [turn; MAX_PLACES],
            next_uses: [NextUse::Never; MAX_VERTICES],
            slot_of: [None; MAX_VERTICES],
            pebbles: [pebble; MAX_SLOTS],
            pebble_count: 0,
            blue: VertexSet::empty(),
            loaded: VertexSet::empty(),
            extra_cost: 0,
            work: 0,
            reloads: Vec::new(alloc),
            steps: Vec::new(alloc),
        }
    }

    /// The extra cost of the play by an order. None comes as soon as it is above `limit`, or if a value is read that has no pebble. `NoMemory`
    /// may come at any allocation.
    pub fn follow(
        &mut self,
        board: &Board,
        order: &Order,
        limit: u32,
    ) -> Result<Option<u32>, NoMemory> {
        self.reset(board);
        self.look_ahead(board, order);
        for place in 0..order.len() {
            self.work = self.work.saturating_add(1);
            let is_played = self.take_turn(board, order.at(place), place)?;
            if !is_played || self.extra_cost > limit {
                return Ok(None);
            }
        }
        Ok(Some(self.extra_cost))
    }

    // Goes back to the start of the game. Only the work stays.
    fn reset(&mut self, board: &Board) {
        self.next_uses = [NextUse::Never; MAX_VERTICES];
        self.slot_of = [None; MAX_VERTICES];
        self.pebble_count = 0;
        self.blue = board.inputs;
        self.loaded = VertexSet::empty();
        self.extra_cost = 0;
        self.reloads.clear();
        self.steps.clear();
    }

    // Finds what comes next at each place, from the last one on.
    fn look_ahead(&mut self, board: &Board, order: &Order) {
        for place in (0..order.len()).rev() {
            let vertex = order.at(place);
            let next_use = self.next_uses[usize::from(vertex)];
            self.next_uses[usize::from(vertex)] = NextUse::Computed;
            let predecessors = self.look_ahead_of(board.predecessors(vertex), place);
            self.turns[usize::from(place) % MAX_PLACES] = Turn {
                vertex: next_use,
                predecessors,
            };
        }
    }

    // What comes next for each predecessor after a place. Before it, that is the place.
    fn look_ahead_of(&mut self, predecessors: &[u8], place: u16) -> [NextUse; MAX_PREDECESSORS] {
        let mut next_uses = [NextUse::Never; MAX_PREDECESSORS];
        for (next_use, predecessor) in next_uses.iter_mut().zip(predecessors) {
            *next_use = self.next_uses[usize::from(*predecessor)];
            self.next_uses[usize::from(*predecessor)] = NextUse::Read(place);
        }
        next_uses
    }

    // Computes the vertex of a place, unless it is red. False comes if it cannot be computed.
    fn take_turn(&mut self, board: &Board, vertex: u8, place: u16) -> Result<bool, NoMemory> {
        let turn = self.turns[usize::from(place) % MAX_PLACES];
        let predecessors = board.predecessors(vertex);
        if let Some(slot) = self.slot_of[usize::from(vertex)] {
            self.pass_over(predecessors, &turn.predecessors);
            self.set_next_use(slot, turn.vertex);
            return Ok(true);
        }
        self.make_room(board, predecessors, place)?;
        for (predecessor, next_use) in predecessors.iter().zip(turn.predecessors.iter()) {
            if !self.read(board, *predecessor, *next_use, place)? {
                return Ok(false);
            }
        }
        self.steps.push(Step::Work(u16::from(vertex)))?;
        self.add_pebble(board, vertex, turn.vertex);
        Ok(true)
    }

    // Notes what comes next for the predecessors of a vertex that is red already. It does not read them.
    fn pass_over(&mut self, predecessors: &[u8], next_uses: &[NextUse]) {
        for (predecessor, next_use) in predecessors.iter().zip(next_uses) {
            if let Some(slot) = self.slot_of[usize::from(*predecessor)] {
                self.set_next_use(slot, *next_use);
            }
        }
    }

    // Reads a vertex at a place, and loads it first unless it is red. False comes if it has no pebble.
    fn read(
        &mut self,
        board: &Board,
        vertex: u8,
        next_use: NextUse,
        place: u16,
    ) -> Result<bool, NoMemory> {
        if let Some(slot) = self.slot_of[usize::from(vertex)] {
            self.set_next_use(slot, next_use);
            return Ok(true);
        }
        let number = u16::from(vertex);
        if !self.blue.has(number) {
            return Ok(false);
        }
        if !board.is_input(vertex) || self.loaded.has(number) {
            self.extra_cost = self.extra_cost.saturating_add(u32::from(board.load_cost));
            self.reloads.push(Reload { place, vertex })?;
        }
        self.loaded = self.loaded.with(number);
        self.add_pebble(board, vertex, next_use);
        Ok(true)
    }

    fn set_next_use(&mut self, slot: u8, next_use: NextUse) {
        self.pebbles[usize::from(slot) % MAX_SLOTS].next_use = next_use;
    }

    // Puts a red pebble on a vertex, in the first free slot.
    fn add_pebble(&mut self, board: &Board, vertex: u8, next_use: NextUse) {
        let factor = self.removal_factor(board, vertex);
        self.fill_slot(self.pebble_count, vertex, factor, next_use);
        self.pebble_count = self.pebble_count.wrapping_add(1);
    }

    fn fill_slot(&mut self, slot: u8, vertex: u8, factor: u16, next_use: NextUse) {
        self.slot_of[usize::from(vertex)] = Some(slot);
        self.pebbles[usize::from(slot) % MAX_SLOTS] = Pebble {
            vertex,
            factor,
            next_use,
        };
    }

    // How cheap it is to remove a vertex that is read again. That costs a load if it is blue or an output, since the store of an output is due
    // in any case, and a load and a store otherwise. It does not change while the vertex is red.
    fn removal_factor(&self, board: &Board, vertex: u8) -> u16 {
        if self.blue.has(u16::from(vertex)) || board.is_output(vertex) {
            u16::from(board.load_cost) + 2 * u16::from(board.store_cost)
        } else {
            u16::from(board.load_cost)
        }
    }

    // Removes red pebbles until there are slots for a further vertex and for its predecessors that are not red.
    fn make_room(
        &mut self,
        board: &Board,
        predecessors: &[u8],
        place: u16,
    ) -> Result<(), NoMemory> {
        let needed = usize::from(self.pebble_count) + self.missing_count(predecessors) + 1;
        for _ in usize::from(board.slots)..needed {
            let slot = self.victim_slot(place);
            self.remove_pebble(board, slot)?;
        }
        Ok(())
    }

    // How many of the predecessors are not red.
    fn missing_count(&self, predecessors: &[u8]) -> usize
        ensures { result ≤ length predecessors.now }
    {
        predecessors.iter().filter(|u| !self.is_red(**u)).count()
    }

    fn is_red(&self, vertex: u8) -> bool {
        self.slot_of[usize::from(vertex)].is_some()
    }

    // The slot whose pebble is removed at a place: the first one that is not read before it is computed again, if there is one, or else the one
    // with the greatest distance times factor. What is read at this place is 0 places away, and so is kept.
    fn victim_slot(&self, place: u16) -> u8 {
        let mut victim = 0;
        let mut greatest = 0;
        for slot in 0..self.pebble_count {
            let pebble = self.pebbles[usize::from(slot) % MAX_SLOTS];
            let NextUse::Read(reader) = pebble.next_use else {
                return slot;
            };
            let score = score(reader.saturating_sub(place), pebble.factor);
            if score > greatest {
                victim = slot;
                greatest = score;
            }
        }
        victim
    }

    // Removes the pebble of a slot: by a Spill if the vertex has to be stored, and else by a Drop.
    fn remove_pebble(&mut self, board: &Board, slot: u8) -> Result<(), NoMemory> {
        let Pebble {
            vertex,
            factor: _,
            next_use,
        } = self.pebbles[usize::from(slot) % MAX_SLOTS];
        if self.is_missed(board, vertex, next_use) {
            self.steps.push(Step::Spill(u16::from(vertex)))?;
            self.blue = self.blue.with(u16::from(vertex));
            if !board.is_output(vertex) {
                self.extra_cost = self.extra_cost.saturating_add(u32::from(board.store_cost));
            }
        } else {
            self.steps.push(Step::Drop(u16::from(vertex)))?;
        }
        self.empty_slot(slot, vertex);
        Ok(())
    }

    // Whether a vertex has to be stored before its red pebble is removed.
    fn is_missed(&self, board: &Board, vertex: u8, next_use: NextUse) -> bool {
        if self.blue.has(u16::from(vertex)) {
            return false;
        }
        match next_use {
            NextUse::Read(_) => true,
            NextUse::Computed => false,
            NextUse::Never => board.is_output(vertex),
        }
    }

    // Empties the slot of a vertex. The last pebble moves into it.
    fn empty_slot(&mut self, slot: u8, vertex: u8) {
        self.pebble_count = self.pebble_count.wrapping_sub(1);
        let last = self.pebbles[usize::from(self.pebble_count) % MAX_SLOTS];
        self.fill_slot(slot, last.vertex, last.factor, last.next_use);
        self.slot_of[usize::from(vertex)] = None;
    }
}

fn score(distance: u16, factor: u16) -> u32 {
    u32::from(distance) * u32::from(factor)
}
