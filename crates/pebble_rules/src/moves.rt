//! The moves of the game.
ghost use Rattle.std.specs.Prelude.{◌≡◌};
ghost use Rattle.pebble_rules.specs.Refusals.{vertex_of, rule_of};

use crate::refusal::Rule;

/// A move of the red-blue pebble game, by the rules of 1981, on the vertex that it names. `Load` places a red pebble where a blue
/// one stands, `Store` a blue pebble where a red one stands, and `Compute` a red pebble on a vertex whose predecessors all have red
/// ones; `DropRed` and `DropBlue` remove a pebble. A load and a store cost what the game's weights say, the others nothing. That an input is
/// never computed is this project's convention.
#[derive(Clone, Copy, Debug, PartialEq, Eq)]
pub enum Move {
    Load(u16),
    Store(u16),
    Compute(u16),
    DropRed(u16),
    DropBlue(u16),
}

impl Move {
    /// The vertex that the move names.
    pub fn vertex(self) -> u16
        ensures { result ≡ vertex_of self }
    {
        match self {
            Move::Load(v)
            | Move::Store(v)
            | Move::Compute(v)
            | Move::DropRed(v)
            | Move::DropBlue(v) => v,
        }
    }

    /// The rule by which it goes.
    pub fn rule(self) -> Rule
        ensures { result ≡ rule_of self }
    {
        match self {
            Move::Load(_) => Rule::Input,
            Move::Store(_) => Rule::Output,
            Move::Compute(_) => Rule::Computation,
            Move::DropRed(_) | Move::DropBlue(_) => Rule::Deletion,
        }
    }
}
