//! Plays, with their costs and faults worked out by hand.
use crate::builders::game;
use comp_graph::{Game, NoMemory, Weights};
use pebble_rules::{Move, Rule};
use play_files::{PlayFault, judge, tidy};
use std::alloc::Global;
use std::process::Abort;
use std::test::Fail;

const UNIT: Weights = Weights { load: 1, store: 1 };

const DEAR: Weights = Weights { load: 3, store: 5 };

const ONE_SUM: &[u8] = b"kernel p { in x; out y; y = x + 1; }";

// Vertex 0 is `x`, 1 and 2 are `a` and `b`, and 3 to 5 the products.
const KNOT: &[u8] =
    b"kernel knot { in x; out y; tmp a; tmp b; tmp c; a = x + 1; b = x * 2; c = a * b; c = c * a; y = c * b; }";

// What a play costs, and what the plan costs that is made of it, or why it is no complete pebbling. Its moves are on vertices of the graph.
fn judged(
    rt: &impl Abort,
    alloc: Global,
    game: &Game,
    moves: &[Move],
) -> Result<Result<(u32, u32), PlayFault>, NoMemory> {
    let count = game.graph().len();
    assert!(rt; moves.len() < 100);
    assert!(rt; moves.iter().all(|mv| mv.vertex() < count));
    match judge(game, moves) {
        Ok(cost) => {
            let plan = tidy(alloc, game, moves)?;
            Ok(Ok((cost, plan.total())))
        }
        Err(fault) => Ok(Err(fault)),
    }
}

// A play on the game of a text with so many slots and these weights is judged so.
fn check_play(
    rt: &impl Abort,
    alloc: Global,
    (text, slots, weights): (&[u8], u16, Weights),
    moves: &[Move],
    judgement: Result<(u32, u32), PlayFault>,
) -> Result<(), Fail> {
    let game = game(rt, alloc, text, slots, weights)?;
    assert!(rt; judged(rt, alloc, &game, moves)? == judgement);
    Ok(())
}

// A play that loads twice and stores twice.
const TWICE: [Move; 5] = [
    Move::Load(0),
    Move::Load(0),
    Move::Compute(1),
    Move::Store(1),
    Move::Store(1),
];

// It costs twice what its plan does.
#[test]
fn plays_of_one_sum(rt: HostRuntime) -> Result<(), Fail> {
    check_play(&rt, rt.alloc(), (ONE_SUM, 2, UNIT), &TWICE, Ok((4, 2)))?;
    check_play(&rt, rt.alloc(), (ONE_SUM, 2, DEAR), &TWICE, Ok((16, 8)))
}

const EARLY: PlayFault = PlayFault::Bad {
    at: 0,
    rule: Rule::Computation,
    vertex: 1,
};

// The first move of a computation without its predecessor breaks the third rule; and a play of no moves leaves the output.
#[test]
fn faults_of_one_sum(rt: HostRuntime) -> Result<(), Fail> {
    let one_sum = (ONE_SUM, 2, UNIT);
    check_play(&rt, rt.alloc(), one_sum, &[Move::Compute(1)], Err(EARLY))?;
    let incomplete = PlayFault::Incomplete { vertex: 1 };
    check_play(&rt, rt.alloc(), one_sum, &[], Err(incomplete))
}

// With three slots vertex 2 is stored twice, and loaded again for the last product. Its second store is all that the plan saves.
const SAVED: [Move; 14] = [
    Move::Load(0),
    Move::Compute(1),
    Move::Compute(2),
    Move::Store(2),
    Move::Store(2),
    Move::DropRed(0),
    Move::Compute(3),
    Move::DropRed(2),
    Move::Compute(4),
    Move::DropRed(1),
    Move::DropRed(3),
    Move::Load(2),
    Move::Compute(5),
    Move::Store(5),
];

// Without a removal the fourth red pebble is one too many.
const CROWDED: [Move; 5] = [
    Move::Load(0),
    Move::Compute(1),
    Move::Compute(2),
    Move::Compute(3),
    Move::Compute(5),
];

const ONE_TOO_MANY: PlayFault = PlayFault::Bad {
    at: 3,
    rule: Rule::RedPebbles,
    vertex: 3,
};

#[test]
fn plays_of_knot(rt: HostRuntime) -> Result<(), Fail> {
    let knot = (KNOT, 3, UNIT);
    check_play(&rt, rt.alloc(), knot, &SAVED, Ok((5, 4)))?;
    check_play(&rt, rt.alloc(), knot, &CROWDED, Err(ONE_TOO_MANY))
}
