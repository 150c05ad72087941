//! The load sets and the permutations of a part of a certificate.
ghost use Rattle.std.specs.Prelude.{◌≡◌, ◌≤◌, ◌<◌, List, length, IfOk, MatchOption, cond};
ghost use Rattle.std.specs.FinSet as set;
ghost use Rattle.comp_graph.specs.Games.{game_of};
ghost use Rattle.window_images.specs.Permutations.{PermutationParts};
ghost use Rattle.window_cert.specs.Certs.{charged_of};
ghost use Rattle.window_checker.specs.ValidCerts.{sets_below, tracked_operands, load_sets, IsPermutationOf, ArePermutations};

use comp_graph::{Game, NoMemory, VertexSet};
use std::alloc::Global;
use window_cert::{ChargedLoads, Renaming};
use window_images::Permutation;

// The charged loads by the Work of each vertex.
pub(crate) fn load_sets(
    alloc: Global,
    game: &Game,
    tracked: &VertexSet,
    charged: &ChargedLoads,
) -> Result<Vec<VertexSet>, NoMemory>
    ensures { IfOk result (λ sets. sets.items ≡ load_sets (game_of game.now) tracked.now (charged_of charged.now)) }
{
    match charged {
        ChargedLoads::Each(sets) => Ok(Vec::from_slice(alloc, sets)?),
        ChargedLoads::OfTracked => of_tracked(alloc, game, tracked),
        ChargedLoads::By(works) => by_works(alloc, game, tracked, works),
    }
}

// The tracked operands of each vertex.
fn of_tracked(alloc: Global, game: &Game, tracked: &VertexSet) -> Result<Vec<VertexSet>, NoMemory>
    ensures { IfOk result (λ sets. sets.items
        ≡ sets_below (game_of game.now).dag.count (tracked_operands (game_of game.now) tracked.now)) }
{
    let mut sets = Vec::new(alloc);
    for v in 0..game.graph().len() {
        sets.push(operands(game, tracked, v))?;
    }
    Ok(sets)
}

// The tracked operands of each vertex of a set, and no vertex for the others.
fn by_works(
    alloc: Global,
    game: &Game,
    tracked: &VertexSet,
    works: &VertexSet,
) -> Result<Vec<VertexSet>, NoMemory>
    ensures { IfOk result (λ sets. sets.items ≡ sets_below (game_of game.now).dag.count
        (λ v. cond (set.contains works.now v) (tracked_operands (game_of game.now) tracked.now v) set.empty)) }
{
    let mut sets = Vec::new(alloc);
    for v in 0..game.graph().len() {
        sets.push(charged_operands(game, tracked, works, v))?;
    }
    Ok(sets)
}

// The tracked operands of a vertex if it is in a set, and else none.
fn charged_operands(game: &Game, tracked: &VertexSet, works: &VertexSet, v: u16) -> VertexSet
    requires number { v < 256 }
    requires vertex { v < length game.now.graph.nodes }
    ensures { result ≡ cond (set.contains works.now v) (tracked_operands (game_of game.now) tracked.now v) set.empty }
{
    if works.has(v) {
        operands(game, tracked, v)
    } else {
        VertexSet::empty()
    }
}

// The tracked operands of a vertex.
fn operands(game: &Game, tracked: &VertexSet, v: u16) -> VertexSet
    requires { v < length game.now.graph.nodes }
    ensures { result ≡ tracked_operands (game_of game.now) tracked.now v }
{
    game.graph().preds(v).meet(tracked)
}

// The permutations by lists of images. None exactly if some list has not this many images or is no permutation.
pub(crate) fn permutations(
    alloc: Global,
    vertices: u16,
    renamings: &[Renaming],
) -> Result<Option<Vec<Permutation>>, NoMemory>
    requires { vertices ≤ 256 }
    ensures { IfOk result (λ found. MatchOption found ((ps : List PermutationParts) → ArePermutations vertices renamings.now ps → ⊥)
        (λ ps. ArePermutations vertices renamings.now ps.items)) }
{
    let mut found = Vec::new(alloc);
    for renaming in renamings {
        let Some(permutation) = permutation(vertices, renaming) else {
            return Ok(None);
        };
        found.push(permutation)?;
    }
    Ok(Some(found))
}

// The permutation by a list of images. None exactly if the list has not this many images or is no permutation.
fn permutation(vertices: u16, renaming: &Renaming) -> Option<Permutation>
    requires { vertices ≤ 256 }
    ensures { MatchOption result ((p : PermutationParts) → IsPermutationOf vertices renaming.now p → ⊥) (IsPermutationOf vertices renaming.now) }
{
    if renaming.images.len() != vertices as usize {
        return None;
    }
    Permutation::new(&renaming.images)
}
