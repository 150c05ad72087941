//! The execution of statements.
ghost use Rattle.std.specs.Prelude.{◌≡◌, map, OnOk};
ghost use Rattle.kernel_ast.specs.Steps.{each, in_turn};
ghost use Rattle.kernel_ast.specs.Walk.{all_at};
ghost use Rattle.kernel_ast.specs.Machine as machine;
ghost use Rattle.kernel_walk.specs.Outcomes.{Gives, AnswersAs};
ghost use Rattle.source_machine.specs.Numbers as spec;
ghost use Rattle.source_machine.specs.States.{entered, state};

use crate::evaluation::Scope;
use crate::inputs::Inputs;
use crate::value::Value;
use kernel_ast::{Expr, Kernel, Place, Stmt};
use kernel_walk::{LoopNumbers, Stop, Written, condition, locate, loop_numbers};
use std::alloc::Global;

/// An execution that is under way: the indices of the open loops from outside, the elements that are set, and the number of vertices.
#[derive(Drop)]
pub struct Execution {
    pub indices: Vec<i64>,
    pub written: Written<Value>,
    pub vertices: u32,
}

impl Execution {
    /// The execution of the statements of a kernel, once its input elements are set.
    pub fn of(alloc: Global, kernel: &Kernel, inputs: Inputs) -> Result<Execution, Stop>
        ensures { AnswersAs (machine.execute_all spec.numbers kernel.now.decls kernel.now.body (entered inputs)) state result }
    {
        let Inputs { written, vertices } = inputs;
        let mut execution = Execution {
            indices: Vec::new(alloc),
            written,
            vertices,
        };
        execution.statements(alloc, kernel, kernel.body())?;
        Ok(execution)
    }

    /// Executes an assignment: evaluates the right side, and then writes the target.
    #[tactic(auto, unfolding(kernel_ast::specs::Machine::assign))]
    fn assign(
        &mut self,
        alloc: Global,
        kernel: &Kernel,
        target: &Place,
        value: &Expr,
    ) -> Result<(), Stop>
        ensures executed { Gives (machine.assign spec.numbers kernel.now.decls target.now value.now self.old.indices.items (state self.old)) (state self.new) result }
        ensures same { self.new.indices ≡ self.old.indices }
    {
        let scope = Scope {
            alloc,
            kernel,
            indices: self.indices.as_slice(),
            written: &self.written,
        };
        let value = scope.evaluate(value, &mut self.vertices)?;
        let cell = locate(kernel, self.indices.as_slice(), target)?;
        self.written.put(cell, value)?;
        Ok(())
    }

    #[cycle(statements)]
    fn statement(&mut self, alloc: Global, kernel: &Kernel, stmt: &Stmt) -> Result<(), Stop>
        ensures executed { Gives (machine.execute spec.numbers kernel.now.decls stmt.now self.old.indices.items (state self.old)) (state self.new) result }
        ensures same { OnOk result (self.new.indices.items ≡ self.old.indices.items) }
    {
        match stmt {
            Stmt::Assign { target, value, .. } => self.assign(alloc, kernel, target, value),
            Stmt::Loop {
                from,
                to,
                by,
                body,
                ..
            } => {
                let numbers = loop_numbers(self.indices.as_slice(), from, to, by)?;
                self.turns(alloc, kernel, body.as_slice(), numbers)
            }
            Stmt::Branch {
                left,
                rel,
                right,
                taken,
                other,
                ..
            } => {
                if condition(self.indices.as_slice(), left, *rel, right)? {
                    self.statements(alloc, kernel, taken.as_slice())
                } else {
                    self.statements(alloc, kernel, other.as_slice())
                }
            }
        }
    }

    /// The turns of a loop.
    #[cycle(statements)]
    fn turns(
        &mut self,
        alloc: Global,
        kernel: &Kernel,
        body: &[Stmt],
        numbers: LoopNumbers,
    ) -> Result<(), Stop>
        ensures executed { Gives (each (machine.one_pass (map (machine.execute spec.numbers kernel.now.decls) body.now) self.old.indices.items) numbers (state self.old)) (state self.new) result }
        ensures same { OnOk result (self.new.indices.items ≡ self.old.indices.items) }
    {
        'each_turn: for i in numbers {
            self.one_turn(alloc, kernel, body, i)?;
        }
        Ok(())
    }

    #[cycle(statements)]
    #[tactic(auto, unfolding(kernel_ast::specs::Machine::one_pass))]
    fn one_turn(
        &mut self,
        alloc: Global,
        kernel: &Kernel,
        body: &[Stmt],
        i: i64,
    ) -> Result<(), Stop>
        ensures executed { Gives (machine.one_pass (map (machine.execute spec.numbers kernel.now.decls) body.now) self.old.indices.items i (state self.old)) (state self.new) result }
        ensures same { OnOk result (self.new.indices.items ≡ self.old.indices.items) }
    {
        self.indices.push(i)?;
        self.statements(alloc, kernel, body)?;
        self.indices.pop();
        Ok(())
    }

    /// Executes statements, one after the other.
    #[cycle(statements)]
    fn statements(&mut self, alloc: Global, kernel: &Kernel, body: &[Stmt]) -> Result<(), Stop>
        ensures executed { Gives (in_turn (all_at (map (machine.execute spec.numbers kernel.now.decls) body.now) self.old.indices.items) (state self.old)) (state self.new) result }
        ensures same { OnOk result (self.new.indices.items ≡ self.old.indices.items) }
    {
        'each_statement: for stmt in body {
            self.statement(alloc, kernel, stmt)?;
        }
        Ok(())
    }
}
