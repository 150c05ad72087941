//! The graphs of a few small kernels, and the games on them.
ghost use Rattle.std.specs.Prelude.{◌≡◌, IfOk};

use comp_graph::{Game, Graph, Label, Node, Op, Operand, Output, Weights};
use normal_steps::{Plan, Step};
use std::alloc::{AllocError, Global};
use std::process::Abort;

// No operand, where an operation takes fewer than three.
const NONE: Operand = Operand::Const(0);

// An input.
const INPUT: Node = Node {
    op: Op::Input,
    args: [NONE, NONE, NONE],
};

/// `x + 1`, where x is the vertex 0.
const PLUS_1: Node = Node {
    op: Op::Add,
    args: [Operand::Vertex(0), Operand::Const(1), NONE],
};

/// `x * 2`, where x is the vertex 0.
const TIMES_2: Node = Node {
    op: Op::Mul,
    args: [Operand::Vertex(0), Operand::Const(2), NONE],
};

/// What a load and a store cost in most of these games.
pub const WEIGHTS: Weights = Weights { load: 2, store: 3 };

// A title or a name; none of these tests looks at it.
fn label(alloc: Global) -> Result<Label, AllocError> {
    Ok(Label::new(b"a".to_vec(alloc)?))
}

// The output element with the value of a vertex.
fn output(alloc: Global, vertex: u16) -> Result<Output, AllocError>
    ensures { IfOk result (λ output. output.vertex ≡ vertex) }
{
    Ok(Output {
        label: label(alloc)?,
        vertex,
    })
}

/// `in x; out y; y = x + 1;`
pub fn one_sum(alloc: Global) -> Result<Graph, AllocError> {
    let nodes = vec![in alloc; INPUT, PLUS_1]?;
    let names = vec![in alloc; label(alloc)?]?;
    let outputs = vec![in alloc; output(alloc, 1)?]?;
    Ok(Graph::new(label(alloc)?, nodes, names, outputs))
}

/// `in x; in z; out y; y = x + 1;`
pub fn spare_input(alloc: Global) -> Result<Graph, AllocError> {
    let nodes = vec![in alloc; INPUT, INPUT, PLUS_1]?;
    let names = vec![in alloc; label(alloc)?, label(alloc)?]?;
    let outputs = vec![in alloc; output(alloc, 2)?]?;
    Ok(Graph::new(label(alloc)?, nodes, names, outputs))
}

/// `in x; out y; out z; y = x + 1; z = x * 2;`
pub fn two_outputs(alloc: Global) -> Result<Graph, AllocError> {
    let nodes = vec![in alloc; INPUT, PLUS_1, TIMES_2]?;
    let names = vec![in alloc; label(alloc)?]?;
    let outputs = vec![in alloc; output(alloc, 1)?, output(alloc, 2)?]?;
    Ok(Graph::new(label(alloc)?, nodes, names, outputs))
}

/// `in x; out y; tmp t; tmp u; t = x + 1; u = x * 2; y = t + u;`
pub fn diamond(alloc: Global) -> Result<Graph, AllocError> {
    let nodes = vec![in alloc;
        INPUT,
        PLUS_1,
        TIMES_2,
        Node {
            op: Op::Add,
            args: [Operand::Vertex(1), Operand::Vertex(2), NONE]
        },
    ]?;
    let names = vec![in alloc; label(alloc)?]?;
    let outputs = vec![in alloc; output(alloc, 3)?]?;
    Ok(Graph::new(label(alloc)?, nodes, names, outputs))
}

/// `in a; in b; out o; out y; out c; o = a; y = b - a; c = 7;`
pub fn three_outputs(alloc: Global) -> Result<Graph, AllocError> {
    let nodes = vec![in alloc;
        INPUT,
        INPUT,
        Node {
            op: Op::Sub,
            args: [Operand::Vertex(1), Operand::Vertex(0), NONE]
        },
        Node {
            op: Op::Set,
            args: [Operand::Const(7), NONE, NONE]
        },
    ]?;
    let names = vec![in alloc; label(alloc)?, label(alloc)?]?;
    let outputs = vec![in alloc; output(alloc, 0)?, output(alloc, 2)?, output(alloc, 3)?]?;
    Ok(Graph::new(label(alloc)?, nodes, names, outputs))
}

/// `in a; in b; out o; out y; out c; tmp d; o = a; d = b * b; y = a + b; c = 7;` Vertex 2, which is d, is dead; vertex 0 is an output
/// too.
pub fn mixed(alloc: Global) -> Result<Graph, AllocError> {
    let nodes = vec![in alloc;
        INPUT,
        INPUT,
        Node {
            op: Op::Mul,
            args: [Operand::Vertex(1), Operand::Vertex(1), NONE]
        },
        Node {
            op: Op::Add,
            args: [Operand::Vertex(0), Operand::Vertex(1), NONE]
        },
        Node {
            op: Op::Set,
            args: [Operand::Const(7), NONE, NONE]
        },
    ]?;
    let names = vec![in alloc; label(alloc)?, label(alloc)?]?;
    let outputs = vec![in alloc; output(alloc, 0)?, output(alloc, 3)?, output(alloc, 4)?]?;
    Ok(Graph::new(label(alloc)?, nodes, names, outputs))
}

/// `in x; out y; tmp a; tmp b; tmp c; a = x + 1; b = x * 2; c = a * b; c = c * a; y = c * b;`
pub fn knot(alloc: Global) -> Result<Graph, AllocError> {
    let nodes = vec![in alloc;
        INPUT,
        PLUS_1,
        TIMES_2,
        Node {
            op: Op::Mul,
            args: [Operand::Vertex(1), Operand::Vertex(2), NONE]
        },
        Node {
            op: Op::Mul,
            args: [Operand::Vertex(3), Operand::Vertex(1), NONE]
        },
        Node {
            op: Op::Mul,
            args: [Operand::Vertex(4), Operand::Vertex(2), NONE]
        },
    ]?;
    let names = vec![in alloc; label(alloc)?]?;
    let outputs = vec![in alloc; output(alloc, 5)?]?;
    Ok(Graph::new(label(alloc)?, nodes, names, outputs))
}

/// `in x; out y; tmp a; tmp b; tmp c; a = x + 1; b = x + 2; c = a * b; c = c * (x + 3); c = c * a; y = c * b;`
pub fn chain(alloc: Global) -> Result<Graph, AllocError> {
    let nodes = vec![in alloc;
        INPUT,
        PLUS_1,
        Node {
            op: Op::Add,
            args: [Operand::Vertex(0), Operand::Const(2), NONE]
        },
        Node {
            op: Op::Mul,
            args: [Operand::Vertex(1), Operand::Vertex(2), NONE]
        },
        Node {
            op: Op::Add,
            args: [Operand::Vertex(0), Operand::Const(3), NONE]
        },
        Node {
            op: Op::Mul,
            args: [Operand::Vertex(3), Operand::Vertex(4), NONE]
        },
        Node {
            op: Op::Mul,
            args: [Operand::Vertex(5), Operand::Vertex(1), NONE]
        },
        Node {
            op: Op::Mul,
            args: [Operand::Vertex(6), Operand::Vertex(2), NONE]
        },
    ]?;
    let names = vec![in alloc; label(alloc)?]?;
    let outputs = vec![in alloc; output(alloc, 7)?]?;
    Ok(Graph::new(label(alloc)?, nodes, names, outputs))
}

/// The game on a graph with a number of slots that is above its degree.
pub fn game(rt: &impl Abort, graph: Graph, slots: u16, weights: Weights) -> Game {
    let Weights { load, store } = weights;
    assert!(rt; 0 < slots && slots <= 64);
    assert!(rt; 0 < load && load <= 16 && 0 < store && store <= 16);
    match Game::new(graph, slots, weights) {
        Ok(game) => game,
        Err(_) => panic!(rt; "there are more slots than the degree"),
    }
}

/// The plan of these steps, if they are one.
pub fn plan<'g>(
    alloc: Global,
    game: &'g Game,
    steps: &[Step],
) -> Result<Option<Plan<'g>>, AllocError> {
    Ok(Plan::new(game, steps.to_vec(alloc)?))
}
