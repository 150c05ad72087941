//! What the words of `improve` ask for.
use command_words::Checking;
use comp_graph::Weights;

/// What the words ask for.
#[derive(Clone, Copy, PartialEq, Eq)]
pub enum ImproveCommand {
    /// `improve`: a plan that costs at most what the first plan costs, and a table that proves a bound.
    Improve(Improving),
    /// `confirm`: whether the file is a table of the game that proves its bound.
    Confirm(Checking),
}

/// What `improve` asks for.
#[derive(Clone, Copy, PartialEq, Eq)]
pub struct Improving {
    /// The number of slots, from 1 to 64.
    pub slots: u16,
    /// How much is tried, from 0 to 200: 100,000 places of orders and 1,000 positions for each unit, and at most 150,000 positions.
    pub effort: u32,
    /// The costs of a load and a store, each from 1 to 16.
    pub weights: Weights,
}
