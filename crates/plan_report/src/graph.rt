//! The text of a graph.
ghost use Rattle.std.specs.Prelude.{◌≡◌, ◌++◌, ◌∷◌, [], map, length, codes, OnOk, IfOk, string_bytes};
ghost use Rattle.std.specs.Fmt.{decimal};
ghost use Rattle.comp_graph.specs.Graphs.{IsNode, operands_of};
ghost use Rattle.comp_graph.specs.Operations.{op_word};
ghost use Rattle.line_texts.specs.Lines.{ended};
ghost use Rattle.line_texts.specs.Words.{after_spaces, line};
ghost use Rattle.plan_report.specs.GraphText as spec;

use comp_graph::{Graph, Label, NoMemory, Node, Op, Operand, Output};
use std::alloc::Global;

/// The text of a graph, each line ended by a line feed: `vertices N`, `inputs N` and `degree N`; for each vertex in rising number
/// `V in LABEL` where it is an input, and else `V OP ARGS` with the operation's word and the operands that it takes, `vK` for vertex K and
/// `#C` for a constant; and for each output element in order `out LABEL vK`. [`NoMemory`] comes where memory was wanted and not found.
pub fn graph_text(alloc: Global, graph: &Graph) -> Result<Vec<u8>, NoMemory>
    ensures { IfOk result (λ text. text.items ≡ spec.graph_text graph.now) }
{
    let mut text = heading(alloc, graph)?;
    add_vertices(alloc, &mut text, graph)?;
    for output in graph.outputs() {
        add_output(alloc, &mut text, output)?;
    }
    Ok(text)
}

// The first three lines.
fn heading(alloc: Global, graph: &Graph) -> Result<Vec<u8>, NoMemory>
    ensures { IfOk result (λ text. text.items ≡ ended (spec.heading graph.now)) }
{
    let vertices = graph.len();
    let inputs = graph.inputs();
    let degree = graph.degree();
    let head = format!(in alloc; "vertices {vertices}\ninputs {inputs}\ndegree {degree}\n")?;
    let text = Vec::from_slice(alloc, head.as_bytes())?;
    Ok(text)
}

// Adds the lines of the vertices.
fn add_vertices(alloc: Global, text: &mut Vec<u8>, graph: &Graph) -> Result<(), NoMemory>
    ensures { OnOk result (text.new.items ≡ text.old.items ++ ended (spec.vertex_lines graph.now.names 0 graph.now.nodes)) }
{
    let names = graph.names();
    for (v, node) in graph.nodes().iter().enumerate() {
        add_vertex(alloc, text, names, v, node)?;
    }
    Ok(())
}

// Adds the line of a vertex.
fn add_vertex(
    alloc: Global,
    text: &mut Vec<u8>,
    names: &[Label],
    v: usize,
    node: &Node,
) -> Result<(), NoMemory>
    requires { IsNode (length names.now) v node.now }
    ensures { OnOk result (text.new.items ≡ text.old.items ++ (spec.vertex_line names.now v node.now ++ 10 ∷ [])) }
{
    match node.op {
        Op::Input => add_input(alloc, text, v, &names[v]),
        _ => add_operation(alloc, text, v, node),
    }
}

// Adds the line of an input.
fn add_input(alloc: Global, text: &mut Vec<u8>, v: usize, name: &Label) -> Result<(), NoMemory>
    ensures { OnOk result (text.new.items ≡ text.old.items ++ (line (decimal v) (codes "in" ∷ name.now ∷ []) ++ 10 ∷ [])) }
{
    let start = format!(in alloc; "{v} in ")?;
    text.extend_from_slice(start.as_bytes())?;
    text.extend_from_slice(name.bytes())?;
    text.extend_from_slice(b"\n")?;
    Ok(())
}

// Adds the line of an operation.
fn add_operation(alloc: Global, text: &mut Vec<u8>, v: usize, node: &Node) -> Result<(), NoMemory>
    requires { length node.now.args ≡ 3 }
    ensures { OnOk result (text.new.items ≡ text.old.items ++ (line (decimal v) (op_word node.now.op ∷ map spec.operand_text (operands_of node.now)) ++ 10 ∷ [])) }
{
    let word = node.op.word();
    let start = format!(in alloc; "{v} {word}")?;
    text.extend_from_slice(start.as_bytes())?;
    let arity = usize::from(node.op.arity());
    add_operands(alloc, text, &node.args[..arity])?;
    text.extend_from_slice(b"\n")?;
    Ok(())
}

// Adds the operands, each after a space.
fn add_operands(alloc: Global, text: &mut Vec<u8>, args: &[Operand]) -> Result<(), NoMemory>
    ensures { OnOk result (text.new.items ≡ text.old.items ++ after_spaces (map spec.operand_text args.now)) }
{
    for arg in args {
        let word = operand(alloc, *arg)?;
        text.extend_from_slice(b" ")?;
        text.extend_from_slice(word.as_bytes())?;
    }
    Ok(())
}

// The text of an operand.
fn operand(alloc: Global, arg: Operand) -> Result<String, NoMemory>
    ensures { IfOk result (λ text. string_bytes text ≡ spec.operand_text arg) }
{
    match arg {
        Operand::Vertex(v) => Ok(format!(in alloc; "v{v}")?),
        Operand::Const(constant) => Ok(format!(in alloc; "#{constant}")?),
    }
}

// Adds the line of an output element.
fn add_output(alloc: Global, text: &mut Vec<u8>, output: &Output) -> Result<(), NoMemory>
    ensures { OnOk result (text.new.items ≡ text.old.items ++ (spec.output_line output.now ++ 10 ∷ [])) }
{
    let vertex = output.vertex;
    text.extend_from_slice(b"out ")?;
    text.extend_from_slice(output.label.bytes())?;
    let end = format!(in alloc; " v{vertex}\n")?;
    text.extend_from_slice(end.as_bytes())?;
    Ok(())
}
