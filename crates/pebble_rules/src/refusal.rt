//! The rules that a move can break.
ghost use Rattle.std.specs.Prelude.{◌≡◌};
ghost use Rattle.pebble_rules.specs.Refusals.{number_of};

/// The rules of the game. `Input`, `Output`, `Computation` and `Deletion` are those of 1981, in their order: a load needs a blue pebble, a
/// store a red one, a computation red pebbles on all predecessors of a vertex that is no input, and a removal the pebble. `RedPebbles`
/// is the bound on red pebbles: at most as many as slots are on the graph after a move.
#[derive(Clone, Copy, Debug, PartialEq, Eq)]
pub enum Rule {
    Input = 1,
    Output = 2,
    Computation = 3,
    Deletion = 4,
    RedPebbles = 5,
}

impl Rule {
    /// Its number: 1 to 4 as the rules of 1981 are numbered, and 5 for the bound on red pebbles.
    pub fn number(self) -> u8
        ensures { result ≡ number_of self }
    {
        self as u8
    }
}

/// The rule that a move breaks, and the vertex that the move names.
#[derive(Clone, Copy, Debug, PartialEq, Eq)]
pub struct Illegal {
    pub rule: Rule,
    pub vertex: u16,
}
