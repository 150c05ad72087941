//! The bound of each part, by a search of the game on it.
ghost use Rattle.std.specs.Prelude.{◌≡◌, ◌<◌, ◌≤◌, length, IfOk};
ghost use Rattle.comp_graph.specs.Vertices.{AllBelow};
ghost use Rattle.comp_graph.specs.Games.{IsGame, game_of};
ghost use Rattle.part_bounds.specs.Cuts.{cut_game};
ghost use Rattle.part_bounds.specs.Bounds.{IsPartBound, ArePartBounds, sum_of_bounds, AreInRange, AreSpellings};

use crate::inducing::cut_game;
use crate::parts::part_sets;
use branch_bound::{Found, search};
use comp_graph::{Game, NoMemory, VertexSet};
use first_plan::first;
use potential_cert::{Table, write_table};
use std::alloc::Global;

/// What the search of a part answers. Costs are those of the game's weights.
#[derive(Drop)]
pub struct PartBound {
    /// What the plan that was found for the part costs: some complete pebbling of the part costs as much.
    pub cost: u32,
    /// The rows of the search in the order of their positions, and their bound, which no complete pebbling of the part costs less than. It
    /// is a table of the game on the part, with as many vertices as that has.
    pub table: Table,
}

/// The bound of each of so many parts, from 1 to 16, in order of the parts: each is what the search of the game on the part answers, from
/// its first plan and with the budget of rows, from 0 to 8000. The sum of the bounds is at most the cost of every complete pebbling of the
/// game, since its moves on a part pebble the part, and each move is on one part alone.
///
/// # Errors
///
/// `NoMemory` where memory was wanted and not found.
pub fn part_search(
    alloc: Global,
    game: &Game,
    parts: u8,
    budget: u32,
) -> Result<Vec<PartBound>, NoMemory>
    requires some { 0 < parts }
    requires most { parts ≤ 16 }
    requires budget { budget ≤ 8000 }
    ensures { IfOk result (λ found. ArePartBounds game.now parts budget found.items) }
{
    potential_cert::laws::valid_tables_bound_pebblings();
    let sets = part_sets(alloc, game, parts)?;
    let mut found = Vec::new(alloc);
    let _slots = game.slots();
    for part in &sets {
        found.push(part_bound(alloc, game, part, budget)?)?;
    }
    Ok(found)
}

// What the search of the game on these vertices answers.
fn part_bound(
    alloc: Global,
    game: &Game,
    part: &VertexSet,
    budget: u32,
) -> Result<PartBound, NoMemory>
    requires game { IsGame game.now }
    requires below { AllBelow (length game.now.graph.nodes) part.now }
    requires budget { budget ≤ 8000 }
    ensures { IfOk result (IsPartBound (cut_game (game_of game.now) part.now) budget) }
{
    search_laws::laws::plan_is_no_worse();
    let on_part = cut_game(alloc, game, part)?;
    let _slots = on_part.slots();
    let Found { plan, table, .. } = search(alloc, first(alloc, &on_part)?, budget)?;
    Ok(PartBound {
        cost: plan.total(),
        table,
    })
}

/// The sum of the bounds, where it is a number of 32 bits, as it is of the parts of a game. It takes no memory.
pub fn sum_of_bounds(found: &[PartBound]) -> u32
    requires { sum_of_bounds found.now ≤ 4294967295 }
    ensures { result ≡ sum_of_bounds found.now }
{
    let mut sum = 0;
    for one in found {
        sum += one.table.bound;
    }
    sum
}

/// The bytes of the tables, one after another, each as `write_table` of `potential_cert` has it. `NoMemory` may come at any allocation.
pub fn write_tables(alloc: Global, found: &[PartBound]) -> Result<Vec<u8>, NoMemory>
    requires { AreInRange found.now }
    ensures { IfOk result (λ bytes. AreSpellings bytes.items found.now) }
{
    let mut bytes = Vec::new(alloc);
    for one in found {
        bytes.extend_from_slice(&write_table(alloc, &one.table)?)?;
    }
    Ok(bytes)
}
