//! The butterfly, games on it, and positions.
ghost use Rattle.std.specs.Prelude.{◌≡◌, IfOk};

use comp_graph::{Game, Graph, Label, Node, Op, Operand, Output, VertexSet, Weights};
use pebble_rules::Position;
use std::alloc::{AllocError, Global};
use std::process::Abort;

// No operand, where an operation takes fewer than three.
const NONE: Operand = Operand::Const(0);

// An input.
const INPUT: Node = Node {
    op: Op::Input,
    args: [NONE, NONE, NONE],
};

// A title or a name; no floor looks at it.
fn label(alloc: Global) -> Result<Label, AllocError> {
    Ok(Label::new(b"a".to_vec(alloc)?))
}

// The output element with the value of a vertex.
fn output(alloc: Global, vertex: u16) -> Result<Output, AllocError>
    ensures { IfOk result (λ output. output.vertex ≡ vertex) }
{
    Ok(Output {
        label: label(alloc)?,
        vertex,
    })
}

/// The inputs 0 to 3; 4 and 5 are the sum and the difference of 0 and 1, 6 and 7 those of 2 and 3, and the outputs 8 and 9 those of 4
/// and 6, 10 and 11 those of 5 and 7.
pub fn butterfly(alloc: Global) -> Result<Graph, AllocError> {
    let nodes = vec![in alloc;
        INPUT,
        INPUT,
        INPUT,
        INPUT,
        Node {
            op: Op::Add,
            args: [Operand::Vertex(0), Operand::Vertex(1), NONE]
        },
        Node {
            op: Op::Sub,
            args: [Operand::Vertex(0), Operand::Vertex(1), NONE]
        },
        Node {
            op: Op::Add,
            args: [Operand::Vertex(2), Operand::Vertex(3), NONE]
        },
        Node {
            op: Op::Sub,
            args: [Operand::Vertex(2), Operand::Vertex(3), NONE]
        },
        Node {
            op: Op::Add,
            args: [Operand::Vertex(4), Operand::Vertex(6), NONE]
        },
        Node {
            op: Op::Sub,
            args: [Operand::Vertex(4), Operand::Vertex(6), NONE]
        },
        Node {
            op: Op::Add,
            args: [Operand::Vertex(5), Operand::Vertex(7), NONE]
        },
        Node {
            op: Op::Sub,
            args: [Operand::Vertex(5), Operand::Vertex(7), NONE]
        },
    ]?;
    let names = vec![in alloc; label(alloc)?, label(alloc)?, label(alloc)?, label(alloc)?]?;
    let outputs = vec![in alloc;
        output(alloc, 8)?,
        output(alloc, 9)?,
        output(alloc, 10)?,
        output(alloc, 11)?,
    ]?;
    Ok(Graph::new(label(alloc)?, nodes, names, outputs))
}

/// The game on a graph with a number of slots that is above its degree.
pub fn game(rt: &impl Abort, graph: Graph, slots: u16, load: u8, store: u8) -> Game {
    assert!(rt; 0 < slots && slots <= 64);
    assert!(rt; 0 < load && load <= 16 && 0 < store && store <= 16);
    match Game::new(graph, slots, Weights { load, store }) {
        Ok(game) => game,
        Err(_) => panic!(rt; "there are more slots than the degree"),
    }
}

/// The set of these vertices (vertex v is bit v).
pub fn set(vertices: u64) -> VertexSet {
    VertexSet::from_words([vertices, 0, 0, 0])
}

/// The position of these red and blue vertices.
pub fn position(red: u64, blue: u64) -> Position {
    Position {
        red: set(red),
        blue: set(blue),
    }
}
