//! All legal steps of a position, in order.
ghost use Rattle.std.specs.Prelude.{◌≤◌, length};
ghost use Rattle.std.specs.Iterator.{YieldsFirst, item_count};
ghost use Rattle.comp_graph.specs.Vertices.{AllBelow, size};
ghost use Rattle.comp_graph.specs.Games.{game_of};
ghost use Rattle.normal_steps.specs.LegalSteps.{AreLegalSteps, AreWorkable};

use crate::step::Step;
use crate::stepping::{is_crowded, is_workable};
use comp_graph::{Game, VertexSet};
use pebble_rules::Position;
use std::marker::Model;

/// The legal steps of a position that are left to give: `Work` by rising vertex, then `Drop` by rising vertex, then `Spill` by rising
/// vertex. Contracts see it as the list of these steps.
#[derive(Drop)]
pub struct Steps {
    works: VertexSet,
    drops: VertexSet,
    spills: VertexSet,
}

impl Model for Steps {
    ghost use Rattle.std.specs.Prelude.{List};
    ghost use Rattle.normal_steps.specs.declared.step.Step.{Step};
    ghost use Rattle.normal_steps.specs.LegalSteps.{listed};

    ghost Value = { List Step };

    ghost view = { λ a. listed 256 a.works a.drops a.spills };
}

impl Steps {
    /// All legal steps of a position, each once. There are at most 384 of them where at most 64 vertices are red. It takes no memory.
    pub fn new(game: &Game, position: &Position) -> Steps
        ensures exact { AreLegalSteps (game_of game.now) position.now result }
        ensures few { size position.now.red ≤ 64 → length result ≤ 384 }
    {
        let works = workable(game, position);
        if !is_crowded(game, position) {
            return Steps {
                works,
                drops: VertexSet::empty(),
                spills: VertexSet::empty(),
            };
        }
        Steps {
            works,
            drops: position.red,
            spills: position.red.minus(&position.blue),
        }
    }
}

impl Iterator for Steps {
    type Item = Step;

    ghost next_gives = { YieldsFirst (λ s. s) };

    ghost remaining = { item_count (λ s. s) };

    fn next(&mut self) -> Option<Step> {
        if let Some(v) = self.works.least() {
            self.works = self.works.without(v);
            return Some(Step::Work(v));
        }
        if let Some(u) = self.drops.least() {
            self.drops = self.drops.without(u);
            return Some(Step::Drop(u));
        }
        if let Some(u) = self.spills.least() {
            self.spills = self.spills.without(u);
            return Some(Step::Spill(u));
        }
        None
    }
}

// The vertices that Work is legal for.
fn workable(game: &Game, position: &Position) -> VertexSet
    ensures members { AreWorkable (game_of game.now) position.now result }
    ensures bounded { AllBelow 256 result }
{
    let live = game.graph().live();
    let mut works = VertexSet::empty();
    for v in 0..game.graph().len() {
        if is_workable(game, position, &live, v) {
            works = works.with(v);
        }
    }
    works
}
