//! The positions of the game.
ghost use Rattle.std.specs.Prelude.{◌≡◌, ◌↔◌};
ghost use Rattle.comp_graph.specs.Vertices.{AllBelow};
ghost use Rattle.comp_graph.specs.Words.{words_of};
ghost use Rattle.comp_graph.specs.Games.{game_of};
ghost use Rattle.pebble_rules.specs.Rules.{start};
ghost use Rattle.std.specs.Prelude.{refl};
ghost use Rattle.std.specs.Ordering.{eq_by_cmp, as_partial_cmp};
ghost use Rattle.std.specs.Cmp.{partial_equiv_from_equiv, partial_order_from_total};
ghost use Rattle.std.proofs.lemmas.Cmp.{eq_by_cmp_equiv};
ghost use Rattle.pebble_rules.specs.Positions.{position_order, position_order_total};

use comp_graph::{Game, VertexSet};
use std::cmp::Ordering;

/// The vertices with a red pebble (their values are in fast memory) and those with a blue one (in slow memory). A vertex may have
/// both pebbles, one or none. Positions are compared by [`Position::order`].
#[derive(Clone, Copy)]
pub struct Position {
    pub red: VertexSet,
    pub blue: VertexSet,
}

impl PartialEq for Position {
    ghost eq = { eq_by_cmp position_order };

    ghost laws = { partial_equiv_from_equiv (eq_by_cmp_equiv position_order_total) };

    fn eq(&self, other: &Position) -> bool {
        self.order(other).is_eq()
    }
}

impl Eq for Position {
    ghost laws = { eq_by_cmp_equiv position_order_total };
}

impl PartialOrd for Position {
    ghost partial_cmp = { as_partial_cmp position_order };

    ghost laws = { partial_order_from_total position_order_total };

    fn partial_cmp(&self, other: &Position) -> Option<Ordering> {
        Some(self.order(other))
    }
}

impl Ord for Position {
    ghost cmp = { position_order };

    ghost total = { position_order_total };

    ghost matches_partial_cmp = { λ a b. refl };

    ghost matches_eq = { λ a b. refl };

    fn cmp(&self, other: &Position) -> Ordering {
        self.order(other)
    }
}

impl Position {
    /// The position from which a pebbling starts: no red pebble, and a blue one on each input. It takes no memory.
    pub fn start(game: &Game) -> Position
        ensures { result ≡ start (game_of game.now) }
    {
        Position {
            red: VertexSet::empty(),
            blue: game.graph().in_set(),
        }
    }

    /// Compares the four words of the red set as numbers, from word 0 on, and then those of the blue set. Vertex v is bit v mod 64 of
    /// word v div 64. `Equal` comes exactly for equal positions. It takes no memory.
    pub fn order(&self, other: &Position) -> Ordering
        ensures words { result ≡ position_order self.now other.now }
        ensures equal { (result ≡ Ordering.Equal) ↔ (self.now ≡ other.now) }
    {
        let [r0, r1, r2, r3] = words(&self.red);
        let [b0, b1, b2, b3] = words(&self.blue);
        let [s0, s1, s2, s3] = words(&other.red);
        let [c0, c1, c2, c3] = words(&other.blue);
        [r0, r1, r2, r3, b0, b1, b2, b3].cmp(&[s0, s1, s2, s3, c0, c1, c2, c3])
    }
}

// The four words of a set.
fn words(set: &VertexSet) -> [u64; 4]
    ensures words { result ≡ words_of set.now }
    ensures bounded { AllBelow 256 set.now }
{
    [set.word(0), set.word(1), set.word(2), set.word(3)]
}
