//! A plan by the search over orders whose cost was worked out by hand.
ghost use Rattle.std.specs.Prelude.{◌≡◌, IfOk};

use comp_graph::{Game, Graph, Label, NoMemory, Node, Op, Operand, Output, Weights};
use normal_steps::Plan;
use normal_steps::Step::{self, Drop, Spill, Work};
use order_search::improved;
use std::alloc::{AllocError, Global};
use std::process::Abort;
use std::test::Fail;

const NONE: Operand = Operand::Const(0);

const INPUT: Node = Node {
    op: Op::Input,
    args: [NONE, NONE, NONE],
};

/// `-v`, where v is the vertex 0, 1 or 2.
const MINUS_0: Node = Node {
    op: Op::Neg,
    args: [Operand::Vertex(0), NONE, NONE],
};

const MINUS_1: Node = Node {
    op: Op::Neg,
    args: [Operand::Vertex(1), NONE, NONE],
};

const MINUS_2: Node = Node {
    op: Op::Neg,
    args: [Operand::Vertex(2), NONE, NONE],
};

/// `x + 1`, where x is the vertex 0.
const PLUS_1: Node = Node {
    op: Op::Add,
    args: [Operand::Vertex(0), Operand::Const(1), NONE],
};

// A title or a name, at which the test does not look.
fn label(alloc: Global) -> Result<Label, AllocError> {
    Ok(Label::new(b"a".to_vec(alloc)?))
}

// The output element with the value of a vertex.
fn output(alloc: Global, vertex: u16) -> Result<Output, AllocError>
    ensures { IfOk result (λ output. output.vertex ≡ vertex) }
{
    Ok(Output {
        label: label(alloc)?,
        vertex,
    })
}

// `in x; out y; out z; tmp a; tmp b; a = -x; b = x + 1; y = -a; z = -b;`
fn two_chains(alloc: Global) -> Result<Graph, AllocError> {
    let nodes = vec![in alloc; INPUT, MINUS_0, PLUS_1, MINUS_1, MINUS_2]?;
    let names = vec![in alloc; label(alloc)?]?;
    let outputs = vec![in alloc; output(alloc, 3)?, output(alloc, 4)?]?;
    Ok(Graph::new(label(alloc)?, nodes, names, outputs))
}

// The game with two slots, where a load costs 2 and a store 3.
fn with_two_slots(rt: &impl Abort, graph: Graph) -> Game {
    match Game::new(graph, 2, Weights { load: 2, store: 3 }) {
        Ok(game) => game,
        Err(_) => panic!(rt; "the degree is 1"),
    }
}

/// In the order of the source, with two slots and where a load costs 2 and a store 3: the first chain is saved and loaded again, and
/// the first output is saved for the second chain.
const IN_ORDER: [Step; 9] = [
    Work(1),
    Spill(1),
    Work(2),
    Drop(0),
    Spill(2),
    Work(3),
    Spill(3),
    Drop(1),
    Work(4),
];

// The steps, of which the proof of what is done with them is to know nothing.
fn in_order() -> &'static [Step] {
    &IN_ORDER
}

// What the steps cost, and the plan that is found from them.
fn costs(
    rt: &impl Abort,
    alloc: Global,
    game: &Game,
    steps: Vec<Step>,
) -> Result<(u32, u32), NoMemory> {
    let Some(first) = Plan::new(game, steps) else {
        panic!(rt; "the steps are a play that finishes");
    };
    let cost = first.total();
    let plan = improved(alloc, first, 1000)?;
    Ok((cost, plan.total()))
}

/// One chain after the other: x is loaded twice, or stays, and the two outputs are saved.
#[test]
fn one_chain_after_the_other(rt: HostRuntime) -> Result<(), Fail> {
    let game = with_two_slots(&rt, two_chains(rt.alloc())?);
    let (first, found) = costs(&rt, rt.alloc(), &game, in_order().to_vec(rt.alloc())?)?;
    assert_eq!(rt; first, 18);
    assert_eq!(rt; found, 10);
    Ok(())
}
