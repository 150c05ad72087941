//! A game in lists by vertex, as the search reads it.
use comp_graph::{Game, Graph, NoMemory, VertexSet};
use std::alloc::Global;

/// The most vertices of a graph, so that a vertex is a `u8`.
pub const MAX_VERTICES: usize = 256;

/// The most slots of a game.
pub const MAX_SLOTS: usize = 64;

/// The most predecessors of a vertex.
pub const MAX_PREDECESSORS: usize = 3;

// The predecessors of a vertex, in rising number.
#[derive(Clone, Copy, Drop)]
struct Predecessors {
    vertices: [u8; MAX_PREDECESSORS],
    count: u8,
}

impl Predecessors {
    // The first three members of a set.
    fn new(set: &VertexSet) -> Predecessors {
        let mut left = *set;
        let mut vertices = [0; MAX_PREDECESSORS];
        let mut count = 0u8;
        for entry in vertices.iter_mut() {
            let Some(vertex) = left.least() else {
                break;
            };
            left = left.without(vertex);
            *entry = (vertex & 255) as u8;
            count = count.saturating_add(1);
        }
        Predecessors { vertices, count }
    }

    fn as_slice(&self) -> &[u8] {
        &self.vertices[..usize::from(self.count).min(MAX_PREDECESSORS)]
    }
}

/// What the search knows of a game.
#[derive(Drop)]
pub struct Board {
    /// The number of slots.
    pub slots: u16,
    /// What a load costs.
    pub load_cost: u8,
    /// What a store costs.
    pub store_cost: u8,
    /// The inputs.
    pub inputs: VertexSet,
    outputs: VertexSet,
    live: VertexSet,
    predecessors: Vec<Predecessors>,
    ancestors: Vec<VertexSet>,
    descendants: Vec<VertexSet>,
}

impl Board {
    /// The lists of a game. `NoMemory` may come at any allocation.
    pub fn new(alloc: Global, game: &Game) -> Result<Board, NoMemory> {
        let graph = game.graph();
        let weights = game.weights();
        let predecessors = all_predecessors(alloc, graph)?;
        let ancestors = all_ancestors(alloc, &predecessors)?;
        let descendants = all_descendants(alloc, &predecessors)?;
        Ok(Board {
            slots: game.slots(),
            load_cost: weights.load,
            store_cost: weights.store,
            inputs: graph.in_set(),
            outputs: graph.out_set(),
            live: graph.live(),
            predecessors,
            ancestors,
            descendants,
        })
    }

    /// Whether a vertex is an input.
    pub fn is_input(&self, vertex: u8) -> bool {
        self.inputs.has(u16::from(vertex))
    }

    /// Whether a vertex is an output.
    pub fn is_output(&self, vertex: u8) -> bool {
        self.outputs.has(u16::from(vertex))
    }

    /// Whether a vertex is an output, or a path leads from it to one.
    pub fn is_live(&self, vertex: u8) -> bool {
        self.live.has(u16::from(vertex))
    }

    /// The predecessors of a vertex, which are the vertices that it reads, in rising number. There are at most three.
    pub fn predecessors(&self, vertex: u8) -> &[u8] {
        match self.predecessors.get(usize::from(vertex)) {
            Some(predecessors) => predecessors.as_slice(),
            None => &[],
        }
    }

    /// The vertices from which a path leads to a vertex. It is not one of them.
    pub fn ancestors(&self, vertex: u8) -> VertexSet {
        set_of(&self.ancestors, vertex)
    }

    /// The vertices to which a path leads from a vertex. It is not one of them.
    pub fn descendants(&self, vertex: u8) -> VertexSet {
        set_of(&self.descendants, vertex)
    }
}

// The set in a list that belongs to a vertex, or the empty set after the end of the list.
fn set_of(sets: &[VertexSet], vertex: u8) -> VertexSet {
    match sets.get(usize::from(vertex)) {
        Some(set) => *set,
        None => VertexSet::empty(),
    }
}

// The predecessors of each vertex.
fn all_predecessors(alloc: Global, graph: &Graph) -> Result<Vec<Predecessors>, NoMemory> {
    let mut all = Vec::new(alloc);
    for vertex in 0..graph.len() {
        all.push(Predecessors::new(&graph.preds(vertex)))?;
    }
    Ok(all)
}

// The ancestors of each vertex: its predecessors and theirs, from the first vertex on.
fn all_ancestors(alloc: Global, predecessors: &[Predecessors]) -> Result<Vec<VertexSet>, NoMemory> {
    let mut all = Vec::new(alloc);
    for of_vertex in predecessors {
        let mut ancestors = VertexSet::empty();
        for predecessor in of_vertex.as_slice() {
            ancestors = ancestors
                .union(&set_of(&all, *predecessor))
                .with(u16::from(*predecessor));
        }
        all.push(ancestors)?;
    }
    Ok(all)
}

// The descendants of each vertex. From the last vertex on, each hands its own and itself to its predecessors.
fn all_descendants(
    alloc: Global,
    predecessors: &[Predecessors],
) -> Result<Vec<VertexSet>, NoMemory> {
    let mut all = vec![in alloc; VertexSet::empty(); MAX_VERTICES]?;
    for (vertex, of_vertex) in predecessors.iter().enumerate().rev() {
        let vertex = (vertex & 255) as u8;
        let handed = set_of(&all, vertex).with(u16::from(vertex));
        for predecessor in of_vertex.as_slice() {
            if let Some(descendants) = all.get_mut(usize::from(*predecessor)) {
                *descendants = descendants.union(&handed);
            }
        }
    }
    Ok(all)
}
