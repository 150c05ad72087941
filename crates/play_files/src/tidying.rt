//! A plan from a complete pebbling.
ghost use Rattle.std.specs.Prelude.{◌≡◌, ◌<◌, ◌≤◌, length, IfOk, All};
ghost use Rattle.comp_graph.specs.Games.{game_of, IsGame};
ghost use Rattle.pebble_rules.specs.Rules.{start, IsComplete, cost, computed};
ghost use Rattle.pebble_rules.specs.Refusals.{vertex_of};
ghost use Rattle.normal_steps.specs.Subsequences.{IsSubsequence};
ghost use Rattle.normal_steps.specs.Steps.{work_vertices};
ghost use Rattle.normal_steps.specs.Plans.{IsPlan};
ghost use Rattle.play_files.specs.Followed.{AreStepsOf};
ghost use Rattle.play_files.specs.Tidying.{AreTidied};

use crate::follower::Follower;
use comp_graph::{Game, NoMemory};
use normal_steps::{Plan, Step};
use pebble_rules::Move;
use std::alloc::Global;

/// A plan that costs no more than a complete pebbling. Its Work steps are on vertices that the pebbling computes, in the same order. The
/// plan is the normal play that follows the pebbling: it loads a vertex only when a Work reads it, stores one only when it gives up its red
/// pebble or at the end, and computes only what is live and neither red nor owed a load. That its cost is the least is not promised. The moves are gone through
/// once. Their vertices are those of the graph, and there are at most 250,000,000 moves, as `replay` asks. The steps alone take memory,
/// and [`NoMemory`] may come at each of them.
pub fn tidy<'g>(alloc: Global, game: &'g Game, moves: &[Move]) -> Result<Plan<'g>, NoMemory>
    requires vertices { All (λ m. vertex_of m < length game.now.graph.nodes) moves.now }
    requires few { length moves.now ≤ 250000000 }
    requires complete { IsComplete (game_of game.now) (start (game_of game.now)) moves.now }
    ensures valid { IfOk result IsPlan }
    ensures game { IfOk result (λ plan. plan.game ≡ game.now) }
    ensures cost { IfOk result (λ plan. plan.total ≤ cost (game_of game.now) moves.now) }
    ensures works { IfOk result (λ plan. IsSubsequence (work_vertices plan.steps) (computed moves.now)) }
    ensures steps { IfOk result (λ plan. AreStepsOf (game_of game.now) moves.now plan.steps) }
{
    let steps = tidied(alloc, game, moves)?;
    Ok(Plan::new(game, steps).unwrap())
}

// The steps of the play that follows a complete pebbling.
fn tidied(alloc: Global, game: &Game, moves: &[Move]) -> Result<Vec<Step>, NoMemory>
    requires vertices { All (λ m. vertex_of m < length game.now.graph.nodes) moves.now }
    requires complete { IsComplete (game_of game.now) (start (game_of game.now)) moves.now }
    ensures tidied { IfOk result (λ steps. AreTidied (game_of game.now) moves.now steps.items) }
    ensures steps { IfOk result (λ steps. AreStepsOf (game_of game.now) moves.now steps.items) }
    ensures valid { IsGame game.now }
{
    let live = game.graph().live();
    let mut follower = Follower::new(alloc, game);
    for mv in moves {
        follower.follow(game, &live, *mv)?;
    }
    let Follower { steps, .. } = follower;
    Ok(steps)
}
