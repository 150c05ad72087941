//! Whether a list of moves is a complete pebbling.
ghost use Rattle.std.specs.Prelude.{◌≡◌, ◌<◌, ◌≤◌, length, IfOk, IfErr, All};
ghost use Rattle.comp_graph.specs.Games.{game_of};
ghost use Rattle.pebble_rules.specs.Rules.{start, IsComplete, cost};
ghost use Rattle.pebble_rules.specs.Refusals.{vertex_of};
ghost use Rattle.play_files.specs.Judging.{IsPlayFault};

use comp_graph::Game;
use pebble_rules::{Move, Rule, replay};

/// Why moves are no complete pebbling.
#[derive(Clone, Copy, Debug, PartialEq, Eq)]
pub enum PlayFault {
    /// The first move that is none of the game where it stands: its place, counted from 0, the rule that it breaks, and the vertex that it
    /// names.
    Bad { at: u32, rule: Rule, vertex: u16 },

    /// The least output that is not blue at the end of moves that are all of the game.
    Incomplete { vertex: u16 },
}

/// The cost of moves that are a complete pebbling by the rules of 1981, with the game's weights. The moves' vertices are those of the graph,
/// and there are at most 250,000,000 moves, as `replay` asks. It takes no memory.
///
/// # Errors
///
/// [`PlayFault::Bad`] exactly where the moves are no pebbling, with what `replay` says of the first bad one. [`PlayFault::Incomplete`]
/// exactly where they are a pebbling that leaves an output without a blue pebble.
pub fn judge(game: &Game, moves: &[Move]) -> Result<u32, PlayFault>
    requires vertices { All (λ m. vertex_of m < length game.now.graph.nodes) moves.now }
    requires few { length moves.now ≤ 250000000 }
    ensures complete { IfOk result (λ _. IsComplete (game_of game.now) (start (game_of game.now)) moves.now) }
    ensures cost { IfOk result (λ total. total ≡ cost (game_of game.now) moves.now) }
    ensures fault { IfErr result (λ fault. IsPlayFault (game_of game.now) moves.now fault) }
{
    let end = match replay(game, moves) {
        Ok(end) => end,
        Err(bad) => {
            return Err(PlayFault::Bad {
                at: bad.at,
                rule: bad.why.rule,
                vertex: bad.why.vertex,
            });
        }
    };
    match game.graph().out_set().minus(&end.position.blue).least() {
        Some(vertex) => Err(PlayFault::Incomplete { vertex }),
        None => Ok(end.cost),
    }
}
