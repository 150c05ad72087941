//! The orders that the search starts from.
use crate::board::Board;
use crate::order::Order;
use comp_graph::{NoMemory, VertexSet};
use std::alloc::Global;

/// The order of the source: the live vertices that are no inputs, in rising number.
pub fn source_order(board: &Board) -> Order {
    let mut order = Order::new();
    for vertex in 0..=255u8 {
        if board.is_live(vertex) && !board.is_input(vertex) {
            order.push(vertex);
        }
    }
    order
}

/// Which of several vertices comes first.
#[derive(Clone, Copy)]
pub enum Direction {
    /// The one with the least number.
    Rising,
    /// The one with the greatest number.
    Falling,
}

/// A way to go through a graph depth first: from one output after the other, and from each vertex to one predecessor after the other.
#[derive(Clone, Copy)]
pub struct DepthFirst {
    /// In which direction the outputs are taken.
    pub outputs: Direction,
    /// In which direction the predecessors of a vertex are taken.
    pub predecessors: Direction,
}

impl DepthFirst {
    /// The vertices that are no inputs, in the order in which this way leaves them. `NoMemory` may come at any allocation.
    pub fn order(self, alloc: Global, board: &Board) -> Result<Order, NoMemory> {
        let mut walk = Walk {
            order: Order::new(),
            left: VertexSet::empty(),
            visits: Vec::new(alloc),
            direction: self.predecessors,
        };
        for k in 0..=255u8 {
            let root = match self.outputs {
                Direction::Rising => k,
                Direction::Falling => 255 - k,
            };
            if board.is_output(root) {
                walk.visit(board, root)?;
            }
        }
        Ok(walk.order)
    }
}

// A vertex, and how many of its predecessors were entered.
#[derive(Clone, Copy, Drop)]
struct Visit {
    vertex: u8,
    entered: u8,
}

// More visits than a walk from one output goes on with: one for the output, and two for each predecessor of each vertex, so at most 1,537.
const MAX_VISITS: u16 = 4096;

// What the walk has left, and the vertices that it has entered and not left, the last one on top.
#[derive(Drop)]
struct Walk {
    order: Order,
    left: VertexSet,
    visits: Vec<Visit>,
    direction: Direction,
}

impl Walk {
    // Visits a vertex and all its ancestors that were not visited before.
    fn visit(&mut self, board: &Board, root: u8) -> Result<(), NoMemory> {
        self.enter(root)?;
        for _ in 0..MAX_VISITS {
            let Some(visit) = self.visits.pop() else {
                break;
            };
            self.go_on(board, visit)?;
        }
        Ok(())
    }

    fn enter(&mut self, vertex: u8) -> Result<(), NoMemory> {
        self.visits.push(Visit { vertex, entered: 0 })?;
        Ok(())
    }

    // Enters the next predecessor of a vertex, or leaves the vertex. Inputs and vertices that were left before are passed over.
    fn go_on(&mut self, board: &Board, visit: Visit) -> Result<(), NoMemory> {
        let Visit { vertex, entered } = visit;
        if board.is_input(vertex) || self.left.has(u16::from(vertex)) {
            return Ok(());
        }
        match self.predecessor(board.predecessors(vertex), usize::from(entered)) {
            Some(predecessor) => {
                self.visits.push(Visit {
                    vertex,
                    entered: entered.saturating_add(1),
                })?;
                self.enter(predecessor)?;
            }
            None => {
                self.left = self.left.with(u16::from(vertex));
                self.order.push(vertex);
            }
        }
        Ok(())
    }

    // The predecessor that comes after so many, if there is one.
    fn predecessor(&self, predecessors: &[u8], entered: usize) -> Option<u8> {
        let k = match self.direction {
            Direction::Rising => entered,
            Direction::Falling => predecessors.len().checked_sub(entered)?.checked_sub(1)?,
        };
        predecessors.get(k).copied()
    }
}
