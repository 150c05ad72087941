//! The graph of a kernel.
ghost use Rattle.std.specs.Prelude.{◌≡◌, Ok};
ghost use Rattle.kernel_ast.specs.KernelGraph.{graph_of};
ghost use Rattle.kernel_ast.specs.WellFormed.{IsWellFormed};
ghost use Rattle.kernel_walk.specs.Outcomes as outcomes;
ghost use Rattle.loop_unroll.specs.Ends.{Answers};
ghost use Rattle.loop_unroll.specs.Flats as unrolled;
ghost use Rattle.three_address.specs.Lowered as spec;

use crate::assignments::assignments;
use crate::inputs::Inputs;
use crate::outputs::Outputs;
use comp_graph::Graph;
use kernel_ast::Kernel;
use kernel_walk::Stop;
use loop_unroll::{Flats, ShapeEnd};
use std::alloc::Global;

/// The graph, step by step: the inputs are set, the assignments executed, and the outputs given out.
#[tactic(auto, unfolding(crate::specs::Lowered::lowered))]
fn graph_from(alloc: Global, kernel: &Kernel, flats: &Flats) -> Result<Graph, Stop>
    requires { unrolled.flats kernel.now.decls kernel.now.body ≡ Ok flats.now }
    ensures value { outcomes.Answers (spec.lowered kernel.now flats.now) result }
    ensures well_formed { IsWellFormed kernel.now }
{
    let mut inputs = Inputs::new(alloc);
    inputs.enter_all(alloc, kernel.decls())?;
    let Inputs {
        mut written,
        mut nodes,
        names,
    } = inputs;
    assignments(alloc, flats.as_slice(), &mut written, &mut nodes)?;
    let mut outputs = Outputs {
        found: Vec::new(alloc),
        nodes,
    };
    outputs.leave_all(alloc, kernel.decls(), &written)?;
    let Outputs { found, nodes } = outputs;
    let title = kernel.title().copy(alloc)?;
    Ok(Graph::new(title, nodes, names, found))
}

/// The graph of a kernel from its executed assignments. Its vertices stand in the order of the kernel's operations: the input elements in
/// order of declaration and row by row, the operations of the assignments that have an operand that is no constant, and the output elements
/// that end as constants. An operation on constants alone is a constant, and a copy makes no vertex. Each output element names the vertex
/// whose value it holds at the end, and inputs and outputs have labels such as `A[0][2]`.
///
/// # Errors
///
/// [`ShapeEnd::Fault`] with the first fault of the kernel's values, exactly where there is one: 11 where a 257th vertex is needed, at the
/// operator's sign or the function word, or at the name in the declaration of the input or output; 8 at a place's name where an element is
/// read that is not set; 10 at the name in the declaration where an output element is not set at the end. [`ShapeEnd::NoMemory`] where
/// memory was wanted and not found.
pub fn lower(alloc: Global, kernel: &Kernel, flats: &Flats) -> Result<Graph, ShapeEnd>
    requires { unrolled.flats kernel.now.decls kernel.now.body ≡ Ok flats.now }
    ensures { Answers (graph_of kernel.now) result }
{
    match graph_from(alloc, kernel, flats) {
        Ok(graph) => Ok(graph),
        Err(stop) => Err(stop.into()),
    }
}
