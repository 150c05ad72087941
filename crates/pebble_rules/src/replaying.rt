//! Lists of moves from the start of the game.
ghost use Rattle.std.specs.Prelude.{◌≡◌, ◌<◌, ◌≤◌, length, IfOk, IfErr, All};
ghost use Rattle.comp_graph.specs.Games.{AreWeights, GameParts, game_of};
ghost use Rattle.pebble_rules.specs.Rules.{move_cost};
ghost use Rattle.pebble_rules.specs.Refusals.{vertex_of, IsReplayed, IsFirstBad};

use crate::moves::Move;
use crate::moving::apply;
use crate::position::Position;
use crate::refusal::Illegal;
use comp_graph::{Game, Weights};

/// Where a list of moves leads from the start, and what it costs: the sum of its loads and stores, by the game's weights.
#[derive(Clone, Copy, PartialEq, Eq)]
pub struct Replayed {
    pub position: Position,
    pub cost: u32,
}

/// The first move of a list that is none of the game where it stands: its place, counted from 0, and why it is none.
#[derive(Clone, Copy, Debug, PartialEq, Eq)]
pub struct BadMove {
    pub at: u32,
    pub why: Illegal,
}

/// Plays the moves from the start of the game. `BadMove` comes exactly where they are no pebbling, and names the first move that is
/// refused. The moves' vertices are those of the graph, and there are at most 250,000,000 moves, so that the cost is a
/// number of 32 bits at any weights. It takes no memory.
pub fn replay(game: &Game, moves: &[Move]) -> Result<Replayed, BadMove>
    requires vertices { All (λ m. vertex_of m < length game.now.graph.nodes) moves.now }
    requires few { length moves.now ≤ 250000000 }
    ensures replayed { IfOk result (λ end. IsReplayed (game_of game.now) moves.now end) }
    ensures bad { IfErr result (λ bad. IsFirstBad (game_of game.now) moves.now bad) }
{
    let mut position = Position::start(game);
    let mut cost = 0;
    for (at, mv) in moves.iter().enumerate() {
        match apply(game, &position, *mv) {
            Ok(after) => position = after,
            Err(why) => return Err(BadMove { at: at as u32, why }),
        }
        cost += cost_of(*mv, game.weights());
    }
    Ok(Replayed { position, cost })
}

// What a move costs in a game of these weights.
fn cost_of(mv: Move, weights: Weights) -> u32
    requires { AreWeights weights }
    ensures cost { (g : GameParts) → weights ≡ g.weights → result ≡ move_cost (game_of g) mv }
    ensures most { result ≤ 16 }
{
    match mv {
        Move::Load(_) => u32::from(weights.load),
        Move::Store(_) => u32::from(weights.store),
        _ => 0,
    }
}
