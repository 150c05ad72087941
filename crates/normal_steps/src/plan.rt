//! Plans: normal plays that finish.
ghost use Rattle.std.specs.Prelude.{◌≡◌, IfNone, IfSome};
ghost use Rattle.comp_graph.specs.Games.{game_of};
ghost use Rattle.pebble_rules.specs.Rules.{start};
ghost use Rattle.normal_steps.specs.Steps.{IsFinishing, total_cost};
ghost use Rattle.normal_steps.specs.Plans.{IsPlan, IsNoPlan};

use crate::step::Step;
use crate::stepping::{after, cost, finish, legal};
use comp_graph::Game;
use pebble_rules::Position;
use std::marker::Model;

/// A normal play from the start of a game that finishes, with its cost by the game's weights, the finish counted. Contracts see the game, the list
/// of the steps and the cost.
#[derive(Drop)]
pub struct Plan<'g> {
    game: &'g Game,
    steps: Vec<Step>,
    total: u32,
}

impl<'g> Model for Plan<'g> {
    ghost use Rattle.normal_steps.specs.Plans.{PlanParts, IsPlan};

    ghost Value = { PlanParts };

    ghost view = { λ a. record { game = a.game.now; steps = a.steps.items; total = a.total } };

    ghost invariant = { λ a. IsPlan (record { game = a.game.now; steps = a.steps.items; total = a.total }) };
}

impl<'g> Plan<'g> {
    /// The plan of these steps. None comes exactly where they are no normal play from the start that can finish, or where they cost more
    /// than 4,294,967,295, the finish counted. It takes no memory.
    pub fn new(game: &'g Game, steps: Vec<Step>) -> Option<Plan<'g>>
        ensures valid { IfSome result IsPlan }
        ensures game { IfSome result (λ plan. plan.game ≡ game.now) }
        ensures steps { IfSome result (λ plan. plan.steps ≡ steps.items) }
        ensures none { IfNone result (IsNoPlan (game_of game.now) steps.items) }
    {
        let total = total_of(game, &steps)?;
        Some(Plan { game, steps, total })
    }

    /// The game that it is a plan of.
    pub fn game(&self) -> &'g Game
        ensures value { result.now ≡ self.now.game }
        ensures valid { IsPlan self.now }
    {
        self.game
    }

    /// The steps in order.
    pub fn steps(&self) -> &[Step]
        ensures value { result.now ≡ self.now.steps }
        ensures valid { IsPlan self.now }
    {
        &self.steps
    }

    /// The cost of the steps and of the finish, by the game's weights.
    pub fn total(&self) -> u32
        ensures value { result ≡ self.now.total }
        ensures valid { IsPlan self.now }
    {
        self.total
    }
}

// The cost of a play from the start that finishes, the finish counted.
fn total_of(game: &Game, steps: &[Step]) -> Option<u32>
    ensures finishing { IfSome result (λ total. IsFinishing (game_of game.now) (start (game_of game.now)) steps.now) }
    ensures total { IfSome result (λ total. total ≡ total_cost (game_of game.now) (start (game_of game.now)) steps.now) }
    ensures none { IfNone result (IsNoPlan (game_of game.now) steps.now) }
{
    let mut position = Position::start(game);
    let mut total: u32 = 0;
    for step in steps {
        if !legal(game, &position, *step) {
            return None;
        }
        total = total.checked_add(cost(game, &position, *step))?;
        position = after(game, &position, *step);
    }
    total.checked_add(finish(game, &position)?)
}
