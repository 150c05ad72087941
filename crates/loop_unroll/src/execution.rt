//! The execution of a kernel without values.
ghost use Rattle.std.specs.Prelude.{◌≡◌, ◌≤◌, ◌++◌, ◌∷◌, [], map, OnOk, true};
ghost use Rattle.std.specs.List.{list_all};
ghost use Rattle.kernel_ast.specs.Steps.{each};
ghost use Rattle.kernel_ast.specs.Walk.{walk_all};
ghost use Rattle.kernel_walk.specs.LightStatements.{is_light};
ghost use Rattle.kernel_walk.specs.Outcomes.{Gives};
ghost use Rattle.kernel_walk.specs.Outcomes as outcomes;
ghost use Rattle.loop_unroll.specs.Ends.{Answers, Walked};
ghost use Rattle.loop_unroll.specs.Flats as spec;

use crate::flat::{Flats, ShapeEnd};
use crate::progress::Progress;
use kernel_ast::{Kernel, Stmt, weight};
use kernel_walk::{LoopNumbers, Stop, condition, loop_numbers};
use sqlite_items::Items;
use std::alloc::Global;

/// An execution that is under way: the indices of the open loops from outside, and how far it has come.
#[derive(Drop)]
struct Execution {
    indices: Vec<i64>,
    progress: Progress,
}

impl Execution {
    #[cycle(statements)]
    fn statement(&mut self, alloc: Global, kernel: &Kernel, stmt: &Stmt) -> Result<(), Stop>
        requires light { is_light stmt.now ≡ true }
        ensures unrolled { Gives (spec.unrolled kernel.now.decls stmt.now self.old.indices.items self.old.progress) self.new.progress result }
        ensures same { OnOk result (self.new.indices.items ≡ self.old.indices.items) }
    {
        match stmt {
            Stmt::Assign { target, value, at } => {
                self.progress.count(*at, weight(stmt))?;
                self.progress
                    .add(alloc, kernel, self.indices.as_slice(), target, value)
            }
            Stmt::Loop {
                from,
                to,
                by,
                body,
                at,
            } => {
                self.progress.count(*at, weight(stmt))?;
                let numbers = loop_numbers(self.indices.as_slice(), from, to, by)?;
                self.turns(alloc, kernel, body.as_slice(), *at, numbers)
            }
            Stmt::Branch {
                left,
                rel,
                right,
                taken,
                other,
                at,
            } => {
                self.progress.count(*at, weight(stmt))?;
                if condition(self.indices.as_slice(), left, *rel, right)? {
                    self.statements(alloc, kernel, taken.as_slice())
                } else {
                    self.statements(alloc, kernel, other.as_slice())
                }
            }
        }
    }

    /// The turns of a loop, whose `for` stands at `at`.
    #[cycle(statements)]
    fn turns(
        &mut self,
        alloc: Global,
        kernel: &Kernel,
        body: &[Stmt],
        at: u32,
        numbers: LoopNumbers,
    ) -> Result<(), Stop>
        requires light { list_all is_light body.now ≡ true }
        ensures unrolled { Gives (each (spec.one_turn (map (spec.unrolled kernel.now.decls) body.now) at self.old.indices.items) numbers self.old.progress) self.new.progress result }
        ensures same { OnOk result (self.new.indices.items ≡ self.old.indices.items) }
    {
        'each_turn: for i in numbers {
            self.one_turn(alloc, kernel, body, at, i)?;
        }
        Ok(())
    }

    #[cycle(statements)]
    #[tactic(auto, unfolding(crate::specs::Flats::one_turn))]
    fn one_turn(
        &mut self,
        alloc: Global,
        kernel: &Kernel,
        body: &[Stmt],
        at: u32,
        i: i64,
    ) -> Result<(), Stop>
        requires light { list_all is_light body.now ≡ true }
        ensures unrolled { Gives (spec.one_turn (map (spec.unrolled kernel.now.decls) body.now) at self.old.indices.items i self.old.progress) self.new.progress result }
        ensures same { OnOk result (self.new.indices.items ≡ self.old.indices.items) }
    {
        self.progress.count(at, 1)?;
        self.indices.push(i)?;
        self.statements(alloc, kernel, body)?;
        self.indices.pop();
        Ok(())
    }

    #[cycle(statements)]
    fn statements(&mut self, alloc: Global, kernel: &Kernel, body: &[Stmt]) -> Result<(), Stop>
        requires light { list_all is_light body.now ≡ true }
        ensures unrolled { Gives (spec.unrolled_all kernel.now.decls body.now self.old.indices.items self.old.progress) self.new.progress result }
        ensures same { OnOk result (self.new.indices.items ≡ self.old.indices.items) }
    {
        'each_statement: for stmt in body {
            self.statement(alloc, kernel, stmt)?;
        }
        Ok(())
    }
}

fn flats_of(alloc: Global, kernel: &Kernel) -> Result<Flats, Stop>
    ensures { outcomes.Answers (spec.flats kernel.now.decls kernel.now.body) result }
{
    let progress = Progress {
        counted: 0,
        flats: Items::new(alloc),
    };
    let mut execution = Execution {
        indices: Vec::new(alloc),
        progress,
    };
    execution.statements(alloc, kernel, kernel.body())?;
    Ok(Flats::new(execution.progress.flats))
}

/// The executed assignments of a kernel, in order, with constant indices: the kernel's statements are executed without values.
///
/// # Errors
///
/// [`ShapeEnd::Fault`] with the first fault of the kernel's walk, exactly where it has one: 12 at the statement, or at the `for` of a
/// loop's turn, where the turns counted so far and those to be counted now are above 65,536; 14 at an index in which a number, or the value
/// of an operator or a minus sign, is below -1,000,000 or above 1,000,000; 17 at a step whose value is below 1; 7 at a place's name where
/// an index value is below 0 or not below its size. [`ShapeEnd::NoMemory`] where memory was wanted and not found.
pub fn unroll(alloc: Global, kernel: &Kernel) -> Result<Flats, ShapeEnd>
    ensures flats { Answers (spec.flats kernel.now.decls kernel.now.body) result }
    ensures walk { Walked (walk_all kernel.now.decls kernel.now.body) result }
{
    match flats_of(alloc, kernel) {
        Ok(flats) => Ok(flats),
        Err(stop) => Err(stop.into()),
    }
}
