//! The parts of a game.
ghost use Rattle.std.specs.Prelude.{◌≡◌, ◌<◌, ◌≤◌, [], length, IfOk, MatchOption};
ghost use Rattle.part_bounds.specs.Parts.{run_of, rising_readers, IsFirstReader, part_of, ArePartSets};

use comp_graph::{Game, Graph, NoMemory, VertexSet};
use std::alloc::Global;

/// The part of a vertex, of so many parts. The vertices that are no inputs are cut into runs of about equal length, the parts from 0 on. An
/// input goes to the part of the least vertex that has it as a predecessor, and to part 0 if there is none. It takes no memory.
pub fn part_of(game: &Game, parts: u8, v: u16) -> u8
    requires vertex { v < length game.now.graph.nodes }
    requires some { 0 < parts }
    requires most { parts ≤ 16 }
    ensures part { result ≡ part_of game.now.graph parts v }
    ensures below { result < parts }
{
    let graph = game.graph();
    if v >= graph.inputs() {
        return run_of(graph, parts, v);
    }
    match first_reader(graph, v) {
        Some(reader) => run_of(graph, parts, reader),
        None => 0,
    }
}

// The part of a vertex that is no input.
fn run_of(graph: &Graph, parts: u8, v: u16) -> u8
    requires no_input { length graph.now.names ≤ v }
    requires vertex { v < length graph.now.nodes }
    requires some { 0 < parts }
    requires most { parts ≤ 16 }
    ensures run { result ≡ run_of graph.now parts v }
    ensures below { result < parts }
{
    let inputs = graph.inputs();
    let others = u32::from(graph.len() - inputs);
    (u32::from(v - inputs) * u32::from(parts) / others) as u8
}

// The least vertex that has v as a predecessor, which is no input.
fn first_reader(graph: &Graph, v: u16) -> Option<u16>
    requires { v < length graph.now.nodes }
    ensures { MatchOption result (rising_readers graph.now v ≡ []) (IsFirstReader graph.now v) }
{
    for w in 0..graph.len() {
        if graph.preds(w).has(v) {
            return Some(w);
        }
    }
    None
}

/// The vertices of each of so many parts, from 1 to 16, in order of the parts. `NoMemory` may come at any allocation.
pub fn part_sets(alloc: Global, game: &Game, parts: u8) -> Result<Vec<VertexSet>, NoMemory>
    requires some { 0 < parts }
    requires most { parts ≤ 16 }
    ensures { IfOk result (λ sets. ArePartSets game.now.graph parts sets.items) }
{
    let graph = game.graph();
    let mut sets = vec![in alloc; VertexSet::empty(); parts as usize]?;
    for v in 0..graph.len() {
        let k = part_of(game, parts, v) as usize;
        sets[k] = sets[k].with(v);
    }
    Ok(sets)
}
