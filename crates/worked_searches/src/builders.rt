//! The graphs of a few small kernels, and games, positions and plans on them.
ghost use Rattle.std.specs.Prelude.{◌≡◌, IfOk};

use comp_graph::{Game, Graph, Label, Node, Op, Operand, Output, VertexSet, Weights};
use normal_steps::Plan;
use normal_steps::Step::{self, Drop, Spill, Work};
use pebble_rules::Position;
use std::alloc::{AllocError, Global};
use std::process::Abort;

// No operand, where an operation takes fewer than three.
const NONE: Operand = Operand::Const(0);

// An input.
const INPUT: Node = Node {
    op: Op::Input,
    args: [NONE, NONE, NONE],
};

/// `x + 1`, where x is the vertex 0.
const PLUS_1: Node = Node {
    op: Op::Add,
    args: [Operand::Vertex(0), Operand::Const(1), NONE],
};

/// A load and a store cost one each.
pub const PLAIN: Weights = Weights { load: 1, store: 1 };

// A title or a name; no search looks at it.
fn label(alloc: Global) -> Result<Label, AllocError> {
    Ok(Label::new(b"a".to_vec(alloc)?))
}

// The output element with the value of a vertex.
fn output(alloc: Global, vertex: u16) -> Result<Output, AllocError>
    ensures { IfOk result (λ output. output.vertex ≡ vertex) }
{
    Ok(Output {
        label: label(alloc)?,
        vertex,
    })
}

/// `in x; out y; y = x + 1;`
pub fn one_sum(alloc: Global) -> Result<Graph, AllocError> {
    let nodes = vec![in alloc; INPUT, PLUS_1]?;
    let names = vec![in alloc; label(alloc)?]?;
    let outputs = vec![in alloc; output(alloc, 1)?]?;
    Ok(Graph::new(label(alloc)?, nodes, names, outputs))
}

/// `in x; out y; tmp t; t = x + 1; y = t * 3;`: 0 is x, 1 is t and 2 is y.
pub fn two_steps(alloc: Global) -> Result<Graph, AllocError> {
    let nodes = vec![in alloc;
        INPUT,
        PLUS_1,
        Node {
            op: Op::Mul,
            args: [Operand::Vertex(1), Operand::Const(3), NONE]
        },
    ]?;
    let names = vec![in alloc; label(alloc)?]?;
    let outputs = vec![in alloc; output(alloc, 2)?]?;
    Ok(Graph::new(label(alloc)?, nodes, names, outputs))
}

/// `in x; in z; out y; tmp t; t = z + 1; y = x * t; y = y * z;`
pub fn input_read_twice(alloc: Global) -> Result<Graph, AllocError> {
    let nodes = vec![in alloc;
        INPUT,
        INPUT,
        Node {
            op: Op::Add,
            args: [Operand::Vertex(1), Operand::Const(1), NONE]
        },
        Node {
            op: Op::Mul,
            args: [Operand::Vertex(0), Operand::Vertex(2), NONE]
        },
        Node {
            op: Op::Mul,
            args: [Operand::Vertex(3), Operand::Vertex(1), NONE]
        },
    ]?;
    let names = vec![in alloc; label(alloc)?, label(alloc)?]?;
    let outputs = vec![in alloc; output(alloc, 4)?]?;
    Ok(Graph::new(label(alloc)?, nodes, names, outputs))
}

/// `in a; in b; in x; out y; out z; y = a * x; z = b * x;`
pub fn two_products(alloc: Global) -> Result<Graph, AllocError> {
    let nodes = vec![in alloc;
        INPUT,
        INPUT,
        INPUT,
        Node {
            op: Op::Mul,
            args: [Operand::Vertex(0), Operand::Vertex(2), NONE]
        },
        Node {
            op: Op::Mul,
            args: [Operand::Vertex(1), Operand::Vertex(2), NONE]
        },
    ]?;
    let names = vec![in alloc; label(alloc)?, label(alloc)?, label(alloc)?]?;
    let outputs = vec![in alloc; output(alloc, 3)?, output(alloc, 4)?]?;
    Ok(Graph::new(label(alloc)?, nodes, names, outputs))
}

/// `in A[2]; in B[2]; out y; y = A[0] * B[0] + A[1] * B[1];`
pub fn dot(alloc: Global) -> Result<Graph, AllocError> {
    let nodes = vec![in alloc;
        INPUT,
        INPUT,
        INPUT,
        INPUT,
        Node {
            op: Op::Mul,
            args: [Operand::Vertex(0), Operand::Vertex(2), NONE]
        },
        Node {
            op: Op::Mul,
            args: [Operand::Vertex(1), Operand::Vertex(3), NONE]
        },
        Node {
            op: Op::Add,
            args: [Operand::Vertex(4), Operand::Vertex(5), NONE]
        },
    ]?;
    let names = vec![in alloc; label(alloc)?, label(alloc)?, label(alloc)?, label(alloc)?]?;
    let outputs = vec![in alloc; output(alloc, 6)?]?;
    Ok(Graph::new(label(alloc)?, nodes, names, outputs))
}

/// `in x; out y; tmp a; tmp b; tmp c; a = x + 1; b = x * 2; c = a * b; c = c * a; y = c * b;`
pub fn knot(alloc: Global) -> Result<Graph, AllocError> {
    let nodes = vec![in alloc;
        INPUT,
        PLUS_1,
        Node {
            op: Op::Mul,
            args: [Operand::Vertex(0), Operand::Const(2), NONE]
        },
        Node {
            op: Op::Mul,
            args: [Operand::Vertex(1), Operand::Vertex(2), NONE]
        },
        Node {
            op: Op::Mul,
            args: [Operand::Vertex(3), Operand::Vertex(1), NONE]
        },
        Node {
            op: Op::Mul,
            args: [Operand::Vertex(4), Operand::Vertex(2), NONE]
        },
    ]?;
    let names = vec![in alloc; label(alloc)?]?;
    let outputs = vec![in alloc; output(alloc, 5)?]?;
    Ok(Graph::new(label(alloc)?, nodes, names, outputs))
}

/// `in x; out y; tmp a; tmp b; tmp c; a = x + 1; b = x + 2; c = a * b; c = c * (x + 3); c = c * a; y = c * b;`
pub fn chain(alloc: Global) -> Result<Graph, AllocError> {
    let nodes = vec![in alloc;
        INPUT,
        PLUS_1,
        Node {
            op: Op::Add,
            args: [Operand::Vertex(0), Operand::Const(2), NONE]
        },
        Node {
            op: Op::Mul,
            args: [Operand::Vertex(1), Operand::Vertex(2), NONE]
        },
        Node {
            op: Op::Add,
            args: [Operand::Vertex(0), Operand::Const(3), NONE]
        },
        Node {
            op: Op::Mul,
            args: [Operand::Vertex(3), Operand::Vertex(4), NONE]
        },
        Node {
            op: Op::Mul,
            args: [Operand::Vertex(5), Operand::Vertex(1), NONE]
        },
        Node {
            op: Op::Mul,
            args: [Operand::Vertex(6), Operand::Vertex(2), NONE]
        },
    ]?;
    let names = vec![in alloc; label(alloc)?]?;
    let outputs = vec![in alloc; output(alloc, 7)?]?;
    Ok(Graph::new(label(alloc)?, nodes, names, outputs))
}

/// A plan of the knot with three slots: 2 is saved, and 2 + 2 transfers are paid.
pub const KNOT_IN_THREE: &[Step] = &[
    Work(1),
    Work(2),
    Drop(0),
    Work(3),
    Spill(2),
    Work(4),
    Drop(3),
    Drop(1),
    Work(5),
];

/// The game on a graph with a number of slots that is above its degree.
pub fn game(rt: &impl Abort, graph: Graph, slots: u16, weights: Weights) -> Game {
    let Weights { load, store } = weights;
    assert!(rt; 0 < slots && slots <= 64);
    assert!(rt; 0 < load && load <= 16 && 0 < store && store <= 16);
    match Game::new(graph, slots, weights) {
        Ok(game) => game,
        Err(_) => panic!(rt; "there are more slots than the degree"),
    }
}

/// The plan of these steps.
pub fn plan<'g>(
    rt: &impl Abort,
    alloc: Global,
    game: &'g Game,
    steps: &[Step],
) -> Result<Plan<'g>, AllocError> {
    match Plan::new(game, steps.to_vec(alloc)?) {
        Some(plan) => Ok(plan),
        None => panic!(rt; "the steps are a plan"),
    }
}

/// The position of these red and blue vertices (vertex v is bit v).
pub fn position(red: u64, blue: u64) -> Position {
    Position {
        red: VertexSet::from_words([red, 0, 0, 0]),
        blue: VertexSet::from_words([blue, 0, 0, 0]),
    }
}
