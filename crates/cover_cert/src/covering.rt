//! Whether a position covers another.
ghost use Rattle.std.specs.Prelude.{◌≡◌, IsTrue, ◌↔◌};
ghost use Rattle.comp_graph.specs.Games.{game_of};
ghost use Rattle.cover_cert.specs.Covers.{Covers, HasPebbles, live_part};

use comp_graph::Game;
use pebble_rules::Position;

/// Whether `p` covers `q`: each live vertex has in `p` the pebbles that it has in `q`. Bounds of covered
/// tables rest on this: if `q` has no more red vertices than there are slots, each play that finishes from `q` has one that finishes from
/// `p` at no greater cost. It takes no memory.
pub fn covers(game: &Game, p: &Position, q: &Position) -> bool
    ensures { IsTrue result ↔ Covers (game_of game.now) p.now q.now }
{
    let _slots = game.slots();
    has_pebbles(p, &live_part(game, q))
}

// The pebbles of a position that stand on live vertices.
pub(crate) fn live_part(game: &Game, q: &Position) -> Position
    ensures { result ≡ live_part (game_of game.now) q.now }
{
    let live = game.graph().live();
    Position {
        red: q.red.meet(&live),
        blue: q.blue.meet(&live),
    }
}

// Whether `p` has each pebble of `q`.
pub(crate) fn has_pebbles(p: &Position, q: &Position) -> bool
    ensures { IsTrue result ↔ HasPebbles p.now q.now }
{
    q.red.within(&p.red) && q.blue.within(&p.blue)
}
