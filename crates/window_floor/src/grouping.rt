//! The groups of a window.
ghost use Rattle.std.specs.Prelude.{◌≡◌, ℕ, ◌≤◌, ◌<◌, ◌&&◌, true, false, not, length, map, IfOk, MatchOption};
ghost use Rattle.comp_graph.specs.Graphs.{dag_of};
ghost use Rattle.comp_graph.specs.Games.{game_of};
ghost use Rattle.std.specs.FinSet as set;
ghost use Rattle.comp_graph.specs.Sets.{same_members};
ghost use Rattle.comp_graph.specs.Vertices.{any_below};
ghost use Rattle.window_game.specs.Windows.{Window};
ghost use Rattle.window_steps.specs.Sets.{window_of};
ghost use Rattle.window_floor.specs.Workers.{workers_of};
ghost use Rattle.window_floor.specs.Groups.{group_of, alike, missed, least_missed, group_at, starts_group, groups_of};

use crate::group_sets::GroupSets;
use crate::working::held_for;
use comp_graph::{Game, NoMemory, VertexSet};
use std::alloc::Global;
use window_steps::WindowSets;

/// The groups of a window, each with at least one value that each entry loads, by rising first member. `NoMemory` may come at any
/// allocation.
pub fn groups(
    alloc: Global,
    game: &Game,
    window: &WindowSets,
    workers: &VertexSet,
) -> Result<Vec<GroupSets>, NoMemory>
    requires loads { length window.now.loads.now ≡ length game.now.graph.nodes }
    requires workers { workers.now ≡ workers_of (game_of game.now) (window_of window.now) }
    ensures exact { IfOk result (λ found. map group_of found.items
        ≡ groups_of (game_of game.now) (window_of window.now)) }
    ensures few { IfOk result (λ found. length found.items ≤ 256) }
{
    let mut found = Vec::new(alloc);
    for v in 0..game.graph().len() {
        if let Some(group) = group_at(game, window, workers, v) {
            found.push(group)?;
        }
    }
    Ok(found)
}

// The group of a vertex, if the vertex is its first member and each entry of the group loads something.
fn group_at(game: &Game, window: &WindowSets, workers: &VertexSet, v: u16) -> Option<GroupSets>
    requires number { v < 256 }
    requires vertex { v < length game.now.graph.nodes }
    requires loads { length window.now.loads.now ≡ length game.now.graph.nodes }
    requires workers { workers.now ≡ workers_of (game_of game.now) (window_of window.now) }
    ensures { MatchOption result (starts_group (game_of game.now) (window_of window.now) v ≡ false)
        (λ group. (starts_group (game_of game.now) (window_of window.now) v ≡ true)
        × (group_of group ≡ group_at (game_of game.now) (window_of window.now) v)) }
{
    if !workers.has(v) {
        return None;
    }
    let members = alike(game, window, workers, v);
    if !is_first(&members, v) {
        return None;
    }
    let loads = window.loads[v as usize];
    let least = least_missed(game, workers, &members, &loads);
    if least == 0 {
        return None;
    }
    Some(GroupSets {
        members,
        loads,
        least,
    })
}

// The workers whose Works load the same values at a charge as that of a vertex.
fn alike(game: &Game, window: &WindowSets, workers: &VertexSet, v: u16) -> VertexSet
    requires vertex { v < length game.now.graph.nodes }
    requires loads { length window.now.loads.now ≡ length game.now.graph.nodes }
    requires workers { workers.now ≡ workers_of (game_of game.now) (window_of window.now) }
    ensures { result ≡ alike (game_of game.now) (window_of window.now) v }
{
    let mut found = VertexSet::empty();
    for u in 0..game.graph().len() {
        if is_alike(window, workers, u, v) {
            found = found.with(u);
        }
    }
    found
}

// Whether a vertex is a worker whose Work loads the same values at a charge as that of another.
fn is_alike(window: &WindowSets, workers: &VertexSet, u: u16, v: u16) -> bool
    requires number { u < 256 }
    requires first { u < length window.now.loads.now }
    requires second { v < length window.now.loads.now }
    ensures { result ≡ (set.contains workers.now u
        && same_members ((window_of window.now).loads u) ((window_of window.now).loads v)) }
{
    workers.has(u) && window.loads[u as usize] == window.loads[v as usize]
}

// Whether no member is smaller than a member.
fn is_first(members: &VertexSet, v: u16) -> bool
    requires { v < 256 }
    ensures { result ≡ not (any_below v (λ u. set.contains members.now u)) }
{
    for u in 0..v {
        if members.has(u) {
            return false;
        }
    }
    true
}

// The least number of the values that are not red after a Work of a vertex outside the group, and at most the number of the values.
fn least_missed(game: &Game, workers: &VertexSet, members: &VertexSet, loads: &VertexSet) -> u16
    ensures { (w : Window) → workers.now ≡ workers_of (game_of game.now) w
        → result ≡ least_missed (game_of game.now) w members.now loads.now
        (length game.now.graph.nodes) }
{
    let outside = workers.minus(members);
    let mut least = loads.count();
    for u in 0..game.graph().len() {
        if outside.has(u) {
            least = least.min(missed(game, loads, u));
        }
    }
    least
}

// How many of the values are not red at least after the Work of a vertex.
fn missed(game: &Game, loads: &VertexSet, u: u16) -> u16
    requires { u < length game.now.graph.nodes }
    ensures { result ≡ missed (game_of game.now) loads.now u }
{
    loads
        .union(&held_for(game, u))
        .count()
        .saturating_sub(game.slots())
}
