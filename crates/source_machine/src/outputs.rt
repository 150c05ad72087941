//! The output elements, which are read behind the last statement.
ghost use Rattle.std.specs.Prelude.{◌≡◌};
ghost use Rattle.kernel_ast.specs.declared.tree.DeclKind.TheVariants as kinds;
ghost use Rattle.kernel_ast.specs.Steps.{each};
ghost use Rattle.kernel_ast.specs.Machine as machine;
ghost use Rattle.kernel_walk.specs.ElementLoops.{cells_between, each_at, each_from};
ghost use Rattle.kernel_walk.specs.Outcomes.{Gives, Yields, AnswersAs};
ghost use Rattle.kernel_walk.specs.SetElements.{elements};
ghost use Rattle.source_machine.specs.Numbers as spec;
ghost use Rattle.source_machine.specs.Phases.{leaving};
ghost use Rattle.source_machine.specs.States.{left, state};

use crate::evaluation::count;
use crate::execution::Execution;
use crate::value::Value;
use kernel_ast::{Cell, DeclKind, Kernel, RunRule};
use kernel_walk::{Stop, Written, element_count};
use std::alloc::Global;

/// What the output elements so far hold, and the number of vertices.
#[derive(Drop)]
pub struct Outputs {
    pub held: Vec<Value>,
    pub vertices: u32,
}

impl Outputs {
    /// What the output elements of a kernel hold after an execution, in order of declaration and row by row.
    #[tactic(auto, unfolding(crate::specs::Phases::leaving))]
    pub fn of(alloc: Global, kernel: &Kernel, execution: &Execution) -> Result<Outputs, Stop>
        ensures { AnswersAs (leaving kernel.now (state execution.now)) left result }
    {
        let mut outputs = Outputs {
            held: Vec::new(alloc),
            vertices: execution.vertices,
        };
        outputs.leave_all(kernel, &execution.written)?;
        Ok(outputs)
    }

    /// What an output element holds in the end. A constant is a new vertex.
    fn settle(&mut self, at: u32, value: Value) -> Result<Value, Stop>
        ensures settled { Yields (spec.output at value self.old.vertices) self.new.vertices result }
        ensures same { self.new.held ≡ self.old.held }
    {
        if value.is_constant {
            count(&mut self.vertices, at, value.number)
        } else {
            Ok(value)
        }
    }

    /// Reads an output element.
    fn leave(&mut self, written: &Written<Value>, at: u32, cell: Cell) -> Result<(), Stop>
        ensures { Gives (machine.leave spec.numbers (elements written.now) (at, cell) (left self.old)) (left self.new) result }
    {
        let Some(value) = written.get(cell) else {
            return Err(Stop::Fault(RunRule::OutputUnset.at(at)));
        };
        let value = self.settle(at, value)?;
        self.held.push(value)?;
        Ok(())
    }

    /// Reads all elements of a declaration.
    fn leave_cells(
        &mut self,
        written: &Written<Value>,
        at: u32,
        decl: u16,
        size: u16,
    ) -> Result<(), Stop>
        ensures { Gives (each (machine.leave spec.numbers (elements written.now)) (cells_between at decl 0 size) (left self.old)) (left self.new) result }
    {
        'each_cell: for offset in 0..size {
            self.leave(written, at, Cell { decl, offset })?;
        }
        Ok(())
    }

    /// Reads all elements of the declaration of this number, if it is of outputs.
    #[tactic(auto, unfolding(kernel_walk::specs::ElementLoops::each_of_decl))]
    fn leave_declaration(
        &mut self,
        kernel: &Kernel,
        written: &Written<Value>,
        decl: u16,
    ) -> Result<(), Stop>
        ensures { Gives (each_at (machine.leave spec.numbers (elements written.now)) kinds.Output kernel.now.decls decl (left self.old)) (left self.new) result }
    {
        let Some((_, declaration)) = kernel.decls().get_index(decl as usize) else {
            return Ok(());
        };
        match declaration.kind {
            DeclKind::Output => {
                let size = element_count(kernel, decl);
                self.leave_cells(written, declaration.at, decl, size)
            }
            DeclKind::Input | DeclKind::Temp => Ok(()),
        }
    }

    /// Reads all output elements.
    fn leave_all(&mut self, kernel: &Kernel, written: &Written<Value>) -> Result<(), Stop>
        ensures { Gives (each_from (machine.leave spec.numbers (elements written.now)) kinds.Output 0 kernel.now.decls (left self.old)) (left self.new) result }
    {
        'each_declaration: for decl in 0..kernel.decls().len() {
            self.leave_declaration(kernel, written, decl as u16)?;
        }
        Ok(())
    }
}
