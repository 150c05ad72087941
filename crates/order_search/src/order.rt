//! Orders of computing.
use comp_graph::VertexSet;

/// The places that an order has room for. The search makes none of 400 or more: at most 256 vertices, and half as many and 8 further places.
pub const MAX_PLACES: usize = 512;

/// A list of at most 512 vertices, in which a vertex may appear more than once. Places are counted modulo 512, so that none is out of range.
#[derive(Clone, Copy, Drop)]
pub struct Order {
    vertices: [u8; MAX_PLACES],
    length: u16,
}

impl Order {
    /// The order with no vertex.
    pub fn new() -> Order {
        Order {
            vertices: [0; MAX_PLACES],
            length: 0,
        }
    }

    /// The number of places.
    pub fn len(&self) -> u16 {
        self.length
    }

    /// The vertex at a place.
    pub fn at(&self, place: u16) -> u8 {
        self.vertices[usize::from(place) % MAX_PLACES]
    }

    /// Puts a vertex at a place, in place of the one that is there.
    pub fn put(&mut self, place: u16, vertex: u8) {
        self.vertices[usize::from(place) % MAX_PLACES] = vertex;
    }

    /// Adds a vertex at the end.
    pub fn push(&mut self, vertex: u8) {
        self.put(self.length, vertex);
        self.length = self.length.wrapping_add(1);
    }

    /// The vertices from the place `start` up to, and not at, the place `end`.
    pub fn part(&self, start: u16, end: u16) -> &[u8] {
        let end = usize::from(end).min(MAX_PLACES);
        let start = usize::from(start).min(end);
        &self.vertices[start..end]
    }

    /// Puts those of some vertices that are in a set at the places from `place` on, in their order. Answers the place after them.
    pub fn put_members(&mut self, place: u16, vertices: &[u8], set: &VertexSet) -> u16 {
        let mut place = place;
        for vertex in vertices {
            if set.has(u16::from(*vertex)) {
                self.put(place, *vertex);
                place = place.wrapping_add(1);
            }
        }
        place
    }

    /// Puts those of some vertices that are not in a set at the places from `place` on, in their order. Answers the place after them.
    pub fn put_others(&mut self, place: u16, vertices: &[u8], set: &VertexSet) -> u16 {
        let mut place = place;
        for vertex in vertices {
            if !set.has(u16::from(*vertex)) {
                self.put(place, *vertex);
                place = place.wrapping_add(1);
            }
        }
        place
    }

    /// The order with a further vertex at a place. What is there and after it moves one place to the back.
    pub fn with(&self, place: u16, vertex: u8) -> Order {
        let mut longer = *self;
        longer.push(0);
        for k in place..self.length {
            longer.put(k + 1, self.at(k));
        }
        longer.put(place, vertex);
        longer
    }

    /// The order without what is at a place. What is after it moves one place to the front.
    pub fn without(&self, place: u16) -> Order {
        let mut shorter = *self;
        shorter.length = self.length.saturating_sub(1);
        for k in place..shorter.length {
            shorter.put(k, self.at(k + 1));
        }
        shorter
    }
}
