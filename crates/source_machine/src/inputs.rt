//! The input elements, which are set before the first statement.
ghost use Rattle.std.specs.Prelude.{◌≡◌};
ghost use Rattle.kernel_ast.specs.declared.tree.DeclKind.TheVariants as kinds;
ghost use Rattle.kernel_ast.specs.Steps.{each};
ghost use Rattle.kernel_ast.specs.Machine as machine;
ghost use Rattle.kernel_walk.specs.ElementLoops.{cells_between, each_at, each_from};
ghost use Rattle.kernel_walk.specs.Outcomes.{Gives, AnswersAs};
ghost use Rattle.source_machine.specs.Numbers as spec;
ghost use Rattle.source_machine.specs.Phases.{entering};
ghost use Rattle.source_machine.specs.States.{entered};

use crate::evaluation::count;
use crate::value::Value;
use kernel_ast::{Cell, DeclKind, Kernel};
use kernel_walk::{Stop, Written, element_count};
use std::alloc::Global;

/// The input elements so far, and the number of vertices.
#[derive(Drop)]
pub struct Inputs {
    pub written: Written<Value>,
    pub vertices: u32,
}

impl Inputs {
    /// The input elements of a kernel, set to these values in order of declaration and row by row. Where there are too few values, the
    /// elements that are left are set to 0.
    #[tactic(auto, unfolding(crate::specs::Phases::entering))]
    pub fn of(alloc: Global, kernel: &Kernel, values: &[i64]) -> Result<Inputs, Stop>
        ensures { AnswersAs (entering kernel.now values.now) entered result }
    {
        let mut inputs = Inputs {
            written: Written::new(alloc),
            vertices: 0,
        };
        inputs.enter_all(kernel, values)?;
        Ok(inputs)
    }

    /// Sets an input element to the value of its place among them.
    fn enter(&mut self, values: &[i64], at: u32, cell: Cell) -> Result<(), Stop>
        ensures { Gives (machine.enter (spec.input values.now) (at, cell) (entered self.old)) (entered self.new) result }
    {
        let number = match values.get(self.vertices as usize) {
            Some(number) => *number,
            None => 0,
        };
        let value = count(&mut self.vertices, at, number)?;
        self.written.put(cell, value)?;
        Ok(())
    }

    /// Sets all elements of a declaration.
    fn enter_cells(&mut self, values: &[i64], at: u32, decl: u16, size: u16) -> Result<(), Stop>
        ensures { Gives (each (machine.enter (spec.input values.now)) (cells_between at decl 0 size) (entered self.old)) (entered self.new) result }
    {
        'each_cell: for offset in 0..size {
            self.enter(values, at, Cell { decl, offset })?;
        }
        Ok(())
    }

    /// Sets all elements of the declaration of this number, if it is of inputs.
    #[tactic(auto, unfolding(kernel_walk::specs::ElementLoops::each_of_decl))]
    fn enter_declaration(&mut self, kernel: &Kernel, values: &[i64], decl: u16) -> Result<(), Stop>
        ensures { Gives (each_at (machine.enter (spec.input values.now)) kinds.Input kernel.now.decls decl (entered self.old)) (entered self.new) result }
    {
        let Some((_, declaration)) = kernel.decls().get_index(decl as usize) else {
            return Ok(());
        };
        match declaration.kind {
            DeclKind::Input => {
                let size = element_count(kernel, decl);
                self.enter_cells(values, declaration.at, decl, size)
            }
            DeclKind::Output | DeclKind::Temp => Ok(()),
        }
    }

    /// Sets all input elements.
    fn enter_all(&mut self, kernel: &Kernel, values: &[i64]) -> Result<(), Stop>
        ensures { Gives (each_from (machine.enter (spec.input values.now)) kinds.Input 0 kernel.now.decls (entered self.old)) (entered self.new) result }
    {
        'each_declaration: for decl in 0..kernel.decls().len() {
            self.enter_declaration(kernel, values, decl as u16)?;
        }
        Ok(())
    }
}
