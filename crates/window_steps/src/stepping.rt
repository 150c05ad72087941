//! The legal steps of a position of a window, and the finish.
ghost use Rattle.std.specs.Prelude.{◌≡◌, ℕ, ◌<◌, ◌↔◌, ◌&&◌, not, IsTrue, length, cond};
ghost use Rattle.std.specs.FinSet as set;
ghost use Rattle.comp_graph.specs.Vertices.{◌∈◌, AllBelow};
ghost use Rattle.comp_graph.specs.Dags.{is_live};
ghost use Rattle.comp_graph.specs.Graphs.{dag_of};
ghost use Rattle.comp_graph.specs.Games.{game_of};
ghost use Rattle.normal_steps.specs.StepTests.{is_within, is_crowded};
ghost use Rattle.window_game.specs.Windows.{known, kept, sees};
ghost use Rattle.window_game.specs.Plays.{is_useful, IsStepIn, stepped_in, step_cost_in, finish_cost_in};
ghost use Rattle.window_steps.specs.Sets.{window_of};
ghost use Rattle.window_steps.specs.StepTests.{is_fed, has_room, can_work_in, can_finish_in};
ghost use Rattle.window_steps.specs.LegalSteps.{AreStepSets};
ghost use Rattle.normal_steps.specs.declared.step.Step.TheVariants.{Work};

use crate::window_sets::WindowSets;
use comp_graph::{Game, VertexSet};
use normal_steps::Step;
use pebble_rules::Position;

/// The vertices for which `Work`, `Drop` and `Spill` are legal at a position of a window.
#[derive(Clone, Copy)]
pub struct StepSets {
    pub works: VertexSet,
    pub drops: VertexSet,
    pub spills: VertexSet,
}

/// The vertices for which `Work`, `Drop` and `Spill` are legal at a position of a window. It takes no memory.
pub fn step_sets(game: &Game, window: &WindowSets, position: &Position) -> StepSets
    requires { length window.now.loads.now ≡ length game.now.graph.nodes }
    ensures exact { AreStepSets (game_of game.now) (window_of window.now) position.now
        result.works result.drops result.spills }
    ensures bounded { AllBelow 256 result.works }
{
    let works = workable(game, window, position);
    if !is_crowded(game, position) {
        return StepSets {
            works,
            drops: VertexSet::empty(),
            spills: VertexSet::empty(),
        };
    }
    StepSets {
        works,
        drops: position.red,
        spills: position.red.meet(&window.stores).minus(&position.blue),
    }
}

/// Whether a step is legal at a position of a window. It takes no memory.
pub fn legal(game: &Game, window: &WindowSets, position: &Position, step: Step) -> bool
    requires { length window.now.loads.now ≡ length game.now.graph.nodes }
    ensures { IsTrue result ↔ IsStepIn (game_of game.now) (window_of window.now) position.now step }
{
    match step {
        Step::Work(v) => v < game.graph().len() && is_workable(game, window, position, v),
        Step::Drop(u) => is_crowded(game, position) && is_member(&position.red, u),
        Step::Spill(u) => is_crowded(game, position) && is_spilled(window, position, u),
    }
}

/// Whether `Work` is legal for a vertex at a position of a window. It takes no memory.
pub fn is_workable(game: &Game, window: &WindowSets, position: &Position, v: u16) -> bool
    requires vertex { v < length game.now.graph.nodes }
    requires loads { length window.now.loads.now ≡ length game.now.graph.nodes }
    ensures { result ≡ can_work_in (game_of game.now) (window_of window.now) position.now v }
{
    sees(game, window, v)
        && is_live(game, v)
        && !game.graph().in_set().has(v)
        && is_fed(game, window, position, v)
        && has_room(game, position, v)
        && is_useful(game, window, position, v)
}

/// Whether a play of a window can finish at a position. It takes no memory.
pub fn can_finish(game: &Game, window: &WindowSets, position: &Position) -> bool
    ensures { result ≡ can_finish_in (game_of game.now) (window_of window.now) position.now }
{
    let outputs = game.graph().out_set().meet(&window.tracked);
    is_within(&outputs, &position.red.union(&position.blue))
        && is_within(&window.required, &position.blue)
}

/// What the finish of a play of a window costs at a position: a store of each output that is not blue and whose store is
/// charged. It takes no memory.
pub fn finish_cost(game: &Game, window: &WindowSets, position: &Position) -> u32
    ensures { result ≡ finish_cost_in (game_of game.now) (window_of window.now) position.now }
{
    let outputs = game.graph().out_set().meet(&window.stores);
    let missing = outputs.minus(&position.blue);
    u32::from(game.weights().store) * u32::from(missing.count())
}

/// The position after a step of a window. It takes no memory.
pub fn after(game: &Game, window: &WindowSets, position: &Position, step: Step) -> Position
    requires { IsStepIn (game_of game.now) (window_of window.now) position.now step }
    ensures { result ≡ stepped_in (game_of game.now) (window_of window.now) position.now step }
{
    let Position { red, blue } = *position;
    prove!(red.count() <= 256);
    match step {
        Step::Work(v) => {
            let made = red.union(&game.graph().preds(v)).with(v);
            Position {
                red: made.meet(&window.tracked),
                blue: with_kept(window, &blue, v),
            }
        }
        Step::Drop(u) => Position {
            red: red.without(u),
            blue,
        },
        Step::Spill(u) => Position {
            red: red.without(u),
            blue: blue.with(u),
        },
    }
}

/// What a step of a window costs: the charged loads of operands that are not red, or a store. It takes no memory.
pub fn cost(game: &Game, window: &WindowSets, position: &Position, step: Step) -> u32
    requires legal { IsStepIn (game_of game.now) (window_of window.now) position.now step }
    requires loads { length window.now.loads.now ≡ length game.now.graph.nodes }
    ensures { result ≡ step_cost_in (game_of game.now) (window_of window.now) position.now step }
{
    let weights = game.weights();
    match step {
        Step::Work(v) => {
            let missing = charged(window, v).minus(&position.red);
            u32::from(weights.load) * u32::from(missing.count())
        }
        Step::Drop(_) => 0,
        Step::Spill(_) => u32::from(weights.store),
    }
}

// The blue vertices after the Work of a vertex.
fn with_kept(window: &WindowSets, blue: &VertexSet, v: u16) -> VertexSet
    requires { v < 256 }
    ensures { result ≡ cond (set.contains (kept (window_of window.now)) v) (set.insert blue.now v) blue.now }
{
    if kept(window).has(v) {
        blue.with(v)
    } else {
        *blue
    }
}

// The vertices for which Work is legal.
fn workable(game: &Game, window: &WindowSets, position: &Position) -> VertexSet
    requires { length window.now.loads.now ≡ length game.now.graph.nodes }
    ensures members { (v : ℕ) → (v ∈ result)
        ↔ IsStepIn (game_of game.now) (window_of window.now) position.now (Work v) }
    ensures bounded { AllBelow 256 result }
{
    let mut works = VertexSet::empty();
    for v in 0..game.graph().len() {
        if is_workable(game, window, position, v) {
            works = works.with(v);
        }
    }
    works
}

// Whether a number is in a set.
fn is_member(vertices: &VertexSet, v: u16) -> bool
    ensures { result ≡ set.contains vertices.now v }
{
    prove!(vertices.count() <= 256);
    v < 256 && vertices.has(v)
}

// Whether a vertex is red and not blue, and its store is charged.
fn is_spilled(window: &WindowSets, position: &Position, u: u16) -> bool
    ensures { result ≡ (set.contains position.now.red u
        && (set.contains (window_of window.now).stores u && not (set.contains position.now.blue u))) }
{
    is_member(&position.red, u) && is_member(&window.stores, u) && !is_member(&position.blue, u)
}

// Whether some Work could lack a slot.
fn is_crowded(game: &Game, position: &Position) -> bool
    ensures { result ≡ is_crowded (game_of game.now) position.now }
{
    game.slots() < position.red.count() + game.graph().degree() + 1
}

// The vertices that can have a pebble.
fn known(window: &WindowSets) -> VertexSet
    ensures { result ≡ known (window_of window.now) }
{
    window.tracked.union(&window.required)
}

// The vertices that are blue as soon as they have been worked on.
fn kept(window: &WindowSets) -> VertexSet
    ensures { result ≡ kept (window_of window.now) }
{
    window.required.union(&window.tracked.minus(&window.stores))
}

// The operands of a vertex whose load is charged.
fn charged(window: &WindowSets, v: u16) -> VertexSet
    requires { v < length window.now.loads.now }
    ensures { result ≡ (window_of window.now).loads v }
{
    window.loads[v as usize]
}

// Whether each member of a set is a member of another.
fn is_within(members: &VertexSet, others: &VertexSet) -> bool
    ensures { result ≡ is_within members.now others.now }
{
    members.minus(others).count() == 0
}

// Whether the window sees the Work of a vertex.
fn sees(game: &Game, window: &WindowSets, v: u16) -> bool
    requires { v < length game.now.graph.nodes }
    ensures { result ≡ sees (game_of game.now) (window_of window.now) v }
{
    let operands = game.graph().preds(v).meet(&window.tracked);
    known(window).has(v) || 0 < operands.count()
}

// Whether a vertex is live.
fn is_live(game: &Game, v: u16) -> bool
    requires { v < length game.now.graph.nodes }
    ensures { result ≡ is_live (game_of game.now).dag v }
{
    game.graph().live().has(v)
}

// Whether each operand of a vertex that can have a pebble has one.
fn is_fed(game: &Game, window: &WindowSets, position: &Position, v: u16) -> bool
    requires { v < length game.now.graph.nodes }
    ensures { result ≡ is_fed (game_of game.now) (window_of window.now) position.now v }
{
    let operands = game.graph().preds(v).meet(&known(window));
    is_within(&operands, &position.red.union(&position.blue))
}

// Whether the red pebbles, the operands of a vertex and the vertex fit the slots.
fn has_room(game: &Game, position: &Position, v: u16) -> bool
    requires { v < length game.now.graph.nodes }
    ensures { result ≡ has_room (game_of game.now) position.now v }
{
    let worked = position.red.union(&game.graph().preds(v)).with(v);
    worked.count() <= game.slots()
}

// Whether the Work of a vertex is useful.
fn is_useful(game: &Game, window: &WindowSets, position: &Position, v: u16) -> bool
    requires vertex { v < length game.now.graph.nodes }
    requires charged { v < length window.now.loads.now }
    ensures { result ≡ is_useful (game_of game.now) (window_of window.now) position.now v }
{
    let paid = charged(window, v).union(&position.red);
    let free = game.graph().preds(v).meet(&window.tracked).minus(&paid);
    window.tracked.minus(&position.red).has(v)
        || kept(window).minus(&position.blue).has(v)
        || 0 < free.count()
}
