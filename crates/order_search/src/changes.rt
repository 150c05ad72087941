//! The ways to change an order. Each keeps what a vertex reads before it.
use crate::board::{Board, MAX_PREDECESSORS, MAX_VERTICES};
use crate::following::Reload;
use crate::order::Order;
use crate::random::Random;

/// Changes the present order at random.
#[derive(Drop)]
pub struct Changes {
    /// The random numbers of the whole search.
    pub random: Random,
    // The first place of each vertex in the present order, and how many places it is at.
    first_place: [u16; MAX_VERTICES],
    occurrences: [u16; MAX_VERTICES],
    // The length of an order without copies, and the length at which no more are added.
    shortest: u16,
    longest: u16,
}

impl Changes {
    /// For orders of so many vertices. At most half as many copies are added, and 8.
    pub fn new(count: u16) -> Changes {
        Changes {
            random: Random::new(),
            first_place: [0; MAX_VERTICES],
            occurrences: [0; MAX_VERTICES],
            shortest: count,
            longest: count.saturating_add(count / 2).saturating_add(8),
        }
    }

    /// Notes at which places of the present order its vertices are.
    pub fn note_places(&mut self, order: &Order) {
        self.occurrences = [0; MAX_VERTICES];
        for place in (0..order.len()).rev() {
            let vertex = usize::from(order.at(place));
            self.first_place[vertex] = place;
            self.occurrences[vertex] = self.occurrences[vertex].saturating_add(1);
        }
    }

    /// One change of the present order, or none if the one that is drawn cannot be made. The shares of the kinds are guesses; without any one
    /// of slides, chases and copies the plans are dearer.
    pub fn random_change(
        &mut self,
        board: &Board,
        order: &Order,
        reloads: &[Reload],
    ) -> Option<Order> {
        match self.random.below(18) {
            0..=7 => self.slide(board, order),
            8..=15 => self.chase(board, order, reloads),
            16 => self.compute_again(board, order),
            _ => self.leave_out_copy(board, order),
        }
    }

    // Moves a vertex by 1 to 63 places to the front or to the back, with what has to move with it.
    fn slide(&mut self, board: &Board, order: &Order) -> Option<Order> {
        let from = self.random.below(order.len());
        let distance = self.random.distance();
        if self.random.flip_coin() {
            moved_to_front(board, order, from, from.saturating_sub(distance))
        } else {
            let last = order.len().saturating_sub(1);
            moved_to_back(board, order, from, from.saturating_add(distance).min(last))
        }
    }

    // Takes a reload, and moves its reader to just after the place at which the value was read or computed last, or the vertex that read it
    // last to just before its reader.
    fn chase(&mut self, board: &Board, order: &Order, reloads: &[Reload]) -> Option<Order> {
        let Reload { place, vertex } = self.random_reload(reloads)?;
        for earlier in (0..place).rev() {
            let candidate = order.at(earlier);
            if candidate == vertex {
                return moved_to_front(board, order, place, earlier + 1);
            }
            if board.predecessors(candidate).contains(&vertex) {
                return if self.random.flip_coin() {
                    moved_to_front(board, order, place, earlier + 1)
                } else {
                    moved_to_back(board, order, earlier, place - 1)
                };
            }
        }
        None
    }

    fn random_reload(&mut self, reloads: &[Reload]) -> Option<Reload> {
        if reloads.is_empty() {
            return None;
        }
        let count = reloads.len().min(65535) as u16;
        reloads.get(usize::from(self.random.below(count))).copied()
    }

    // Adds a copy of a vertex, with at most two places between it and one that reads it. Just after its first place it would still be red, and
    // before that its predecessors may be missing.
    fn compute_again(&mut self, board: &Board, order: &Order) -> Option<Order> {
        let reader = self.random.below(order.len());
        let predecessors = board.predecessors(order.at(reader));
        if order.len() >= self.longest || predecessors.is_empty() {
            return None;
        }
        let place = reader.saturating_sub(self.random.below(3));
        let drawn = self
            .random
            .below(predecessors.len().min(MAX_PREDECESSORS) as u16);
        let vertex = *predecessors.get(usize::from(drawn))?;
        let first_place = self.first_place[usize::from(vertex)];
        if board.is_input(vertex) || place < first_place.saturating_add(2) {
            return None;
        }
        Some(order.with(place, vertex))
    }

    // Leaves out the first copy from a random place on that can be left out, or none.
    fn leave_out_copy(&mut self, board: &Board, order: &Order) -> Option<Order> {
        if order.len() == self.shortest {
            return None;
        }
        let from = self.random.below(order.len());
        for place in (from..order.len()).chain(0..from) {
            if self.occurrences[usize::from(order.at(place))] > 1 {
                return self.without_copy(board, order, place);
            }
        }
        None
    }

    /// The present order without the vertex at a place, if that vertex is at another place too. If this is its first place, none comes if it is
    /// read before the second one.
    pub fn without_copy(&self, board: &Board, order: &Order, place: u16) -> Option<Order> {
        let vertex = usize::from(order.at(place));
        let is_first = self.first_place[vertex] == place;
        if self.occurrences[vertex] < 2 || (is_first && is_read_before_next(board, order, place)) {
            return None;
        }
        Some(order.without(place))
    }
}

// Whether the vertex at a place is read before it is in the order again.
fn is_read_before_next(board: &Board, order: &Order, place: u16) -> bool {
    let vertex = order.at(place);
    for later in place.saturating_add(1)..order.len() {
        let candidate = order.at(later);
        if candidate == vertex {
            return false;
        }
        if board.predecessors(candidate).contains(&vertex) {
            return true;
        }
    }
    false
}

// The order with the vertex of one place moved to the front, to another place. Its ancestors between the two move with it, and come before it.
// None comes if all between are ancestors.
fn moved_to_front(board: &Board, order: &Order, from: u16, to: u16) -> Option<Order> {
    let vertex = order.at(from);
    let ancestors = board.ancestors(vertex);
    let between = order.part(to, from);
    let mut moved = *order;
    let place = moved.put_members(to, between, &ancestors);
    if place >= from {
        return None;
    }
    moved.put(place, vertex);
    moved.put_others(place + 1, between, &ancestors);
    Some(moved)
}

// The order with the vertex of one place moved to the back, to another place. Its descendants between the two move with it, and come after it.
// None comes if all between are descendants.
fn moved_to_back(board: &Board, order: &Order, from: u16, to: u16) -> Option<Order> {
    let vertex = order.at(from);
    let descendants = board.descendants(vertex);
    let between = order.part(from.saturating_add(1), to.saturating_add(1));
    let mut moved = *order;
    let place = moved.put_others(from, between, &descendants);
    if place <= from {
        return None;
    }
    moved.put(place, vertex);
    moved.put_members(place.saturating_add(1), between, &descendants);
    Some(moved)
}
