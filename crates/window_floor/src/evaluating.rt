//! The floor of a position of a window.
ghost use Rattle.std.specs.Prelude.{◌≡◌, ◌<◌, ◌≤◌, ◌+◌, ◌-◌, ◌*◌, length, IfOk};
ghost use Rattle.comp_graph.specs.Games.{game_of};
ghost use Rattle.window_game.specs.Windows.{IsWindow};
ghost use Rattle.window_game.specs.Plays.{finish_cost_in};
ghost use Rattle.window_laws.specs.Floors.{IsFloorAt};
ghost use Rattle.window_steps.specs.Sets.{window_of};
ghost use Rattle.window_floor.specs.GreedyCones.{window_floor};
ghost use Rattle.window_floor.specs.Counting.{IsMadeFor};

use crate::cones::{all_cones, cheap, cones_apart, free};
use crate::demand::{Demand, demanded};
use crate::entering::count_entries;
use crate::group_sets::GroupSets;
use crate::grouping::groups;
use crate::working::workers;
use comp_graph::{Game, NoMemory, VertexSet};
use pebble_rules::Position;
use std::alloc::Global;
use window_steps::WindowSets;

/// What the floors of a window's positions need besides the window: the vertices whose Works it can show, the tracked vertices that
/// some Work loads without a charge, and the groups.
#[derive(Drop)]
pub struct WindowFloor {
    pub workers: VertexSet,
    pub free: VertexSet,
    pub groups: Vec<GroupSets>,
}

impl WindowFloor {
    /// What the floors of a window's positions need. `NoMemory` may come at any allocation.
    pub fn new(alloc: Global, game: &Game, window: &WindowSets) -> Result<WindowFloor, NoMemory>
        requires { length window.now.loads.now ≡ length game.now.graph.nodes }
        ensures { IfOk result (λ made. IsMadeFor (game_of game.now) (window_of window.now) made) }
    {
        let workers = workers(game, window);
        let groups = groups(alloc, game, window, &workers)?;
        let free = free(game, window, &workers);
        Ok(WindowFloor {
            workers,
            free,
            groups,
        })
    }
}

/// The floor of a position of a window, at most 2^29: no play from there that finishes costs less. It takes no memory.
pub fn floor(game: &Game, window: &WindowSets, made: &WindowFloor, position: &Position) -> u32
    requires window { IsWindow (game_of game.now) (window_of window.now) }
    requires made { IsMadeFor (game_of game.now) (window_of window.now) made.now }
    ensures exact { result ≡ window_floor (game_of game.now) (window_of window.now) position.now }
    ensures floor { IsFloorAt (game_of game.now) (window_of window.now) position.now result }
    ensures few { result ≤ 536870912 }
{
    let Demand { needed, wanted } = demanded(game, window, position);
    let entries = count_entries(game, window, &made.groups, position, &needed);
    let cheap = cheap(game, window, &made.workers, &made.free, position);
    let wanted = wanted.minus(&cheap);
    let all = all_cones(game, window, position, &wanted, &cheap);
    let apart = cones_apart(game, window, position, &wanted, &cheap, &entries.loads, all);
    let by_cones = total(game, window, position, 0, 0, all);
    let by_entries = total(game, window, position, entries.cost, entries.saved, apart);
    by_cones.max(by_entries)
}

// What the finish costs, entries less what one of them saves, and a load for each cone.
fn total(
    game: &Game,
    window: &WindowSets,
    position: &Position,
    entries: u32,
    saved: u32,
    cones: u16,
) -> u32
    requires entries { entries ≤ 536862720 }
    requires cones { cones ≤ 256 }
    ensures value { result ≡ finish_cost_in (game_of game.now) (window_of window.now) position.now
        + (entries + (game_of game.now).load * cones) - saved }
    ensures few { result ≤ 536870912 }
{
    let loads = u32::from(game.weights().load) * u32::from(cones);
    (finish(game, window, position) + (entries + loads)).saturating_sub(saved)
}

// What the finish costs.
fn finish(game: &Game, window: &WindowSets, position: &Position) -> u32
    ensures value { result ≡ finish_cost_in (game_of game.now) (window_of window.now) position.now }
    ensures few { result ≤ 4096 }
{
    let outputs = game.graph().out_set().meet(&window.stores);
    let missing = outputs.minus(&position.blue);
    u32::from(game.weights().store) * u32::from(missing.count())
}
