//! What moves cost.

/// What a load and a store cost, each from 1 to 16 in a [`Game`](crate::game::Game). In the game of 1981 both cost 1.
#[derive(Clone, Copy, PartialEq, Eq, Debug)]
pub struct Weights {
    /// The cost of a load: a word is read from the slow memory into the fast one.
    pub load: u8,
    /// The cost of a store: a word is written from the fast memory into the slow one.
    pub store: u8,
}
