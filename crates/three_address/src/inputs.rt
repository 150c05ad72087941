//! The input elements of a kernel.
ghost use Rattle.std.specs.Prelude.{◌≡◌, ◌≤◌, [], length, true};
ghost use Rattle.kernel_ast.specs.Machine.{no_elements};
ghost use Rattle.kernel_ast.specs.Steps.{each};
ghost use Rattle.kernel_ast.specs.declared.tree.DeclKind.TheVariants as kinds;
ghost use Rattle.kernel_walk.specs.Outcomes.{Gives};
ghost use Rattle.three_address.specs.Declarations.{are_sized};
ghost use Rattle.three_address.specs.LabelledElements.{elements_of};
ghost use Rattle.three_address.specs.Lowered as spec;
ghost use Rattle.three_address.specs.Views.{entering};

use crate::element::Element;
use crate::elements::Elements;
use crate::vertices::input_node;
use comp_graph::{Label, Node, Operand};
use indexmap::IndexMap;
use kernel_ast::{Decl, DeclKind, Name};
use kernel_walk::{Stop, Written};
use std::alloc::Global;

/// The elements that are set, the vertices so far, and the labels of the input elements so far.
#[derive(Drop)]
pub struct Inputs {
    pub written: Written<Operand>,
    pub nodes: Vec<Node>,
    pub names: Vec<Label>,
}

impl Inputs {
    /// No element is set, and there is no vertex.
    pub fn new(alloc: Global) -> Inputs
        ensures { entering result ≡ ((no_elements, []), []) }
    {
        Inputs {
            written: Written::new(alloc),
            nodes: Vec::new(alloc),
            names: Vec::new(alloc),
        }
    }

    /// Sets an input element to a new vertex.
    #[tactic(auto, unfolding(crate::specs::Lowered::entered))]
    fn enter(&mut self, element: Element) -> Result<(), Stop>
        ensures { Gives (spec.entered element (entering self.old)) (entering self.new) result }
    {
        let Element { label, at, cell } = element;
        let vertex = input_node(at, &mut self.nodes)?;
        self.written.put(cell, vertex)?;
        self.names.push(label)?;
        Ok(())
    }

    /// Sets all input elements, in order of declaration and row by row.
    pub fn enter_all(&mut self, alloc: Global, decls: &IndexMap<Name, Decl>) -> Result<(), Stop>
        requires few { length decls.now.entries ≤ 65536 }
        requires sized { are_sized decls.now.entries ≡ true }
        ensures { Gives (each spec.entered (elements_of kinds.Input 0 decls.now.entries) (entering self.old)) (entering self.new) result }
    {
        let mut elements = Elements::new(decls, DeclKind::Input);
        'inputs: while let Some(element) = elements.next(alloc)? {
            self.enter(element)?;
        }
        Ok(())
    }
}
