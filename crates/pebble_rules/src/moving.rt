//! One move of the game.
ghost use Rattle.std.specs.Prelude.{◌≡◌, ◌<◌, length, IfOk, IfErr, IsTrue, ◌↔◌};
ghost use Rattle.comp_graph.specs.Games.{game_of};
ghost use Rattle.pebble_rules.specs.Rules.{Needs, IsMove, moved};
ghost use Rattle.pebble_rules.specs.Refusals.{vertex_of, IsRefused};

use crate::moves::Move;
use crate::position::Position;
use crate::refusal::{Illegal, Rule};
use comp_graph::Game;

/// The position after a move by the rules of 1981, with this project's conventions. `Illegal` comes exactly where the game has no such
/// move: its rule is the move's own where what it needs is not there, and else the bound on red pebbles. The move's vertex is one of the
/// graph's. It takes no memory.
pub fn apply(game: &Game, position: &Position, mv: Move) -> Result<Position, Illegal>
    requires { vertex_of mv < length game.now.graph.nodes }
    ensures is_move { IfOk result (λ after. IsMove (game_of game.now) position.now mv) }
    ensures after { IfOk result (λ after. after ≡ moved position.now mv) }
    ensures illegal { IfErr result (λ why. IsRefused (game_of game.now) position.now mv why) }
{
    let slots = game.slots();
    let vertex = mv.vertex();
    if !has_needs(game, position, mv) {
        return Err(Illegal {
            rule: mv.rule(),
            vertex,
        });
    }
    let after = moved(position, mv);
    if after.red.count() > slots {
        return Err(Illegal {
            rule: Rule::RedPebbles,
            vertex,
        });
    }
    Ok(after)
}

// Whether a move has what its own rule needs.
fn has_needs(game: &Game, position: &Position, mv: Move) -> bool
    requires { vertex_of mv < length game.now.graph.nodes }
    ensures { IsTrue result ↔ Needs (game_of game.now) position.now mv }
{
    let graph = game.graph();
    match mv {
        Move::Load(v) | Move::DropBlue(v) => position.blue.has(v),
        Move::Store(v) | Move::DropRed(v) => position.red.has(v),
        Move::Compute(v) => v >= graph.inputs() && graph.preds(v).within(&position.red),
    }
}

/// The position after a move: it places or removes one pebble, whether the game allows it or not. It takes no memory.
pub fn moved(position: &Position, mv: Move) -> Position
    requires { vertex_of mv < 256 }
    ensures { result ≡ moved position.now mv }
{
    let Position { red, blue } = *position;
    match mv {
        Move::Load(v) | Move::Compute(v) => Position {
            red: red.with(v),
            blue,
        },
        Move::Store(v) => Position {
            red,
            blue: blue.with(v),
        },
        Move::DropRed(v) => Position {
            red: red.without(v),
            blue,
        },
        Move::DropBlue(v) => Position {
            red,
            blue: blue.without(v),
        },
    }
}
