//! The entries that have still to come.
ghost use Rattle.std.specs.Prelude.{◌≡◌, ◌≤◌, ◌+◌, ◌*◌, length};
ghost use Rattle.std.specs.FinSet as set;
ghost use Rattle.comp_graph.specs.Vertices.{size};
ghost use Rattle.comp_graph.specs.Games.{game_of};
ghost use Rattle.window_laws.specs.Entry.{needed_in, claim, entry_cost};
ghost use Rattle.window_steps.specs.Sets.{window_of};
ghost use Rattle.window_floor.specs.Groups.{group_of};
ghost use Rattle.window_floor.specs.Counting.{none_counted, with_entry, counted};

use crate::group_sets::GroupSets;
use comp_graph::{Game, VertexSet};
use pebble_rules::Position;
use window_steps::WindowSets;

// Some entries: what they cost, the most that one of them saves if no Work comes before it, the values of their groups, and the values
// that they have claimed.
#[derive(Clone, Copy)]
pub(crate) struct Counted {
    pub cost: u32,
    pub saved: u32,
    pub loads: VertexSet,
    pub claimed: VertexSet,
}

// The entries of the groups that have a needed member.
pub(crate) fn count_entries(
    game: &Game,
    window: &WindowSets,
    groups: &[GroupSets],
    position: &Position,
    needed: &VertexSet,
) -> Counted
    requires few { length groups.now ≤ 256 }
    requires needed { needed.now ≡ needed_in (game_of game.now) (window_of window.now) position.now }
    ensures value { result
        ≡ counted (game_of game.now) (window_of window.now) position.now none_counted groups.now }
    ensures few { result.cost ≤ 536862720 }
{
    let mut entries = Counted {
        cost: 0,
        saved: 0,
        loads: VertexSet::empty(),
        claimed: VertexSet::empty(),
    };
    for group in groups {
        if 0 < needed.meet(&group.members).count() {
            entries = with_entry(game, window, position, &entries, group);
        }
    }
    entries
}

// Some entries with that of a group.
fn with_entry(
    game: &Game,
    window: &WindowSets,
    position: &Position,
    before: &Counted,
    group: &GroupSets,
) -> Counted
    requires { before.now.cost ≤ 4000000000 }
    ensures value { result ≡ with_entry (game_of game.now) (window_of window.now) position.now
        before.now (group_of group.now) }
    ensures few { result.cost ≤ before.now.cost + 2097120 }
{
    let stores = claim(game, window, position, &before.claimed, group);
    let cost = entry_cost(game, position, group, &stores);
    let first = first_loads(game, position, group);
    Counted {
        cost: before.cost + cost,
        saved: before.saved.max(cost.saturating_sub(first)),
        loads: before.loads.union(&group.loads),
        claimed: before.claimed.union(&stores),
    }
}

// The values of a group that are counted as stored before an entry loads them.
fn claim(
    game: &Game,
    window: &WindowSets,
    position: &Position,
    claimed: &VertexSet,
    group: &GroupSets,
) -> VertexSet
    ensures { result ≡ claim (game_of game.now) (window_of window.now) position.now claimed.now
        (group_of group.now) }
{
    let others = position.blue.union(&game.graph().out_set()).union(claimed);
    let unsaved = group.loads.meet(&window.stores).minus(&others);
    if group.loads.minus(&unsaved).count() < group.least {
        unsaved
    } else {
        VertexSet::empty()
    }
}

// What an entry costs: its loads, and the stores that these need.
fn entry_cost(game: &Game, position: &Position, group: &GroupSets, stores: &VertexSet) -> u32
    ensures value { result ≡ entry_cost (game_of game.now) position.now.blue
        (record { group = group_of group.now; stores = stores.now }) }
    ensures few { result ≤ 2097120 }
{
    let weights = game.weights();
    let others = group.loads.minus(&stores.minus(&position.blue)).count();
    let least = group.least;
    u32::from(weights.load) * u32::from(least)
        + u32::from(weights.store) * u32::from(least.saturating_sub(others))
}

// What the first Work pays for its loads, if it enters a group.
fn first_loads(game: &Game, position: &Position, group: &GroupSets) -> u32
    ensures { result
        ≡ (game_of game.now).load * size (set.difference group.now.loads position.now.red) }
{
    u32::from(game.weights().load) * u32::from(group.loads.minus(&position.red).count())
}
