//! The output elements of a kernel.
ghost use Rattle.std.specs.Prelude.{◌≡◌, ◌≤◌, [], length, true};
ghost use Rattle.kernel_ast.specs.KernelGraph as graphs;
ghost use Rattle.kernel_ast.specs.Steps.{each};
ghost use Rattle.kernel_ast.specs.declared.tree.DeclKind.TheVariants as kinds;
ghost use Rattle.kernel_walk.specs.Outcomes.{Gives};
ghost use Rattle.kernel_walk.specs.SetElements.{elements};
ghost use Rattle.three_address.specs.Declarations.{are_sized};
ghost use Rattle.three_address.specs.LabelledElements.{elements_of};
ghost use Rattle.three_address.specs.Lowered as spec;
ghost use Rattle.three_address.specs.Views.{leaving};

use crate::element::Element;
use crate::elements::Elements;
use crate::vertices::settle;
use comp_graph::{Node, Operand, Output};
use indexmap::IndexMap;
use kernel_ast::{Decl, DeclKind, Name, RunRule};
use kernel_walk::{Stop, Written};
use std::alloc::Global;

/// The output elements so far, and the vertices so far.
#[derive(Drop)]
pub struct Outputs {
    pub found: Vec<Output>,
    pub nodes: Vec<Node>,
}

impl Outputs {
    /// Gives out an element: its label, and the vertex whose value it holds.
    #[tactic(auto, unfolding(crate::specs::Lowered::left))]
    fn leave(&mut self, written: &Written<Operand>, element: Element) -> Result<(), Stop>
        ensures { Gives (spec.left (elements written.now) element (leaving self.old)) (leaving self.new) result }
    {
        let Element { label, at, cell } = element;
        let Some(origin) = written.get(cell) else {
            return Err(Stop::Fault(RunRule::OutputUnset.at(at)));
        };
        let vertex = vertex_of(settle(at, origin, &mut self.nodes)?);
        self.found.push(Output { label, vertex })?;
        Ok(())
    }

    /// Gives out all output elements, in order of declaration and row by row.
    pub fn leave_all(
        &mut self,
        alloc: Global,
        decls: &IndexMap<Name, Decl>,
        written: &Written<Operand>,
    ) -> Result<(), Stop>
        requires few { length decls.now.entries ≤ 65536 }
        requires sized { are_sized decls.now.entries ≡ true }
        ensures { Gives (each (spec.left (elements written.now)) (elements_of kinds.Output 0 decls.now.entries) (leaving self.old)) (leaving self.new) result }
    {
        let mut elements = Elements::new(decls, DeclKind::Output);
        'outputs: while let Some(element) = elements.next(alloc)? {
            self.leave(written, element)?;
        }
        Ok(())
    }
}

/// The vertex that an origin is.
fn vertex_of(origin: Operand) -> u16
    ensures { result ≡ graphs.vertex_of origin }
{
    match origin {
        Operand::Vertex(vertex) => vertex,
        Operand::Const(_) => 0,
    }
}
