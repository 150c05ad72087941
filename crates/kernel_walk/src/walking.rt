//! The walk: the statements are executed without values.
ghost use Rattle.std.specs.Prelude.{◌≡◌, ◌≤◌, [], ◌∷◌, ◌++◌, map, OnOk, true};
ghost use Rattle.std.specs.List.{list_all};
ghost use Rattle.kernel_ast.specs.Steps.{each, in_turn};
ghost use Rattle.kernel_ast.specs.Walk as spec;
ghost use Rattle.kernel_ast.specs.Meaning.{fault_of};
ghost use Rattle.kernel_ast.specs.Weights as weights;
ghost use Rattle.kernel_walk.specs.LightStatements.{is_light};
ghost use Rattle.kernel_walk.specs.Outcomes.{Gives, Answers, Finds};
ghost use Rattle.kernel_walk.specs.PlacesLookedAt.{all_located, places_of_link};

use crate::counting::count;
use crate::index::{condition, loop_numbers};
use crate::numbers::LoopNumbers;
use crate::place::locate;
use crate::stop::Stop;
use kernel_ast::{Expr, Fault, Kernel, Link, Place, Stmt, weight};
use std::alloc::Global;

/// Looks at the places of an expression, from left to right.
#[cycle(places)]
fn look_at_places(kernel: &Kernel, indices: &[i64], expr: &Expr) -> Result<(), Fault>
    ensures { result ≡ all_located kernel.now.decls indices.now (spec.places_of expr.now) }
{
    match expr {
        Expr::Number(_) | Expr::Turn(_) => Ok(()),
        Expr::Cell(place) => look_at(kernel, indices, place),
        Expr::Minus { value, .. } => look_at_places(kernel, indices, value.get()),
        Expr::Chain { first, rest } => {
            look_at_places(kernel, indices, first.get())?;
            look_at_links(kernel, indices, rest.as_slice())
        }
        Expr::Call { args, .. } => look_at_arguments(kernel, indices, args.as_slice()),
    }
}

/// Looks at the places of the right operands of a chain.
#[cycle(places)]
fn look_at_links(kernel: &Kernel, indices: &[i64], rest: &[Link]) -> Result<(), Fault>
    ensures { result ≡ all_located kernel.now.decls indices.now (spec.joined (map places_of_link rest.now)) }
{
    'each_link: for link in rest {
        look_at_places(kernel, indices, &link.value)?;
    }
    Ok(())
}

/// Looks at the places of the arguments of a call.
#[cycle(places)]
fn look_at_arguments(kernel: &Kernel, indices: &[i64], args: &[Expr]) -> Result<(), Fault>
    ensures { result ≡ all_located kernel.now.decls indices.now (spec.joined (map spec.places_of args.now)) }
{
    'each_argument: for arg in args {
        look_at_places(kernel, indices, arg)?;
    }
    Ok(())
}

/// Looks at a place: it names an element.
fn look_at(kernel: &Kernel, indices: &[i64], place: &Place) -> Result<(), Fault>
    ensures { result ≡ all_located kernel.now.decls indices.now (place.now ∷ []) }
{
    locate(kernel, indices, place)?;
    Ok(())
}

/// A walk under way: the indices of the open loops from outside, and the turns that were counted.
#[derive(Drop)]
struct Progress {
    indices: Vec<i64>,
    turns: u32,
}

impl Progress {
    /// Counts so many turns more.
    fn count(&mut self, at: u32, more: u32) -> Result<(), Stop>
        ensures counted { Gives (spec.count at more self.old.turns) self.new.turns result }
        ensures same { self.new.indices ≡ self.old.indices }
    {
        self.turns = count(at, more, self.turns)?;
        Ok(())
    }

    /// Looks at the places of an assignment: at those of the right side from left to right, and last at the target.
    #[tactic(auto, using(crate::proofs::LocatedPlaces::all_located_append, crate::proofs::LocatedPlaces::each_look_at))]
    fn look_at_assignment(&self, kernel: &Kernel, target: &Place, value: &Expr) -> Result<(), Stop>
        ensures { Gives (each (spec.look_at kernel.now.decls self.now.indices.items) (spec.places_of value.now ++ target.now ∷ []) self.now.turns) self.now.turns result }
    {
        look_at_places(kernel, self.indices.as_slice(), value)?;
        look_at(kernel, self.indices.as_slice(), target)?;
        Ok(())
    }

    #[cycle(statements)]
    #[tactic(auto, using(crate::proofs::LightBodies::is_light_loop, crate::proofs::LightBodies::is_light_branch))]
    fn statement(&mut self, kernel: &Kernel, stmt: &Stmt) -> Result<(), Stop>
        requires light { is_light stmt.now ≡ true }
        ensures walked { Gives (spec.walk kernel.now.decls stmt.now self.old.indices.items self.old.turns) self.new.turns result }
        ensures same { OnOk result (self.new.indices.items ≡ self.old.indices.items) }
    {
        match stmt {
            Stmt::Assign { target, value, at } => {
                self.count(*at, weight(stmt))?;
                self.look_at_assignment(kernel, target, value)
            }
            Stmt::Loop {
                from,
                to,
                by,
                body,
                at,
            } => {
                self.count(*at, weight(stmt))?;
                let numbers = loop_numbers(self.indices.as_slice(), from, to, by)?;
                self.turns(kernel, body.as_slice(), *at, numbers)
            }
            Stmt::Branch {
                left,
                rel,
                right,
                taken,
                other,
                at,
            } => {
                self.count(*at, weight(stmt))?;
                if condition(self.indices.as_slice(), left, *rel, right)? {
                    self.statements(kernel, taken.as_slice())
                } else {
                    self.statements(kernel, other.as_slice())
                }
            }
        }
    }

    /// The turns of a loop, whose `for` stands at `at`.
    #[cycle(statements)]
    fn turns(
        &mut self,
        kernel: &Kernel,
        body: &[Stmt],
        at: u32,
        numbers: LoopNumbers,
    ) -> Result<(), Stop>
        requires light { list_all is_light body.now ≡ true }
        ensures walked { Gives (each (spec.one_turn (map (spec.walk kernel.now.decls) body.now) at self.old.indices.items) numbers self.old.turns) self.new.turns result }
        ensures same { OnOk result (self.new.indices.items ≡ self.old.indices.items) }
    {
        'each_turn: for i in numbers {
            self.one_turn(kernel, body, at, i)?;
        }
        Ok(())
    }

    #[cycle(statements)]
    #[tactic(auto, unfolding(kernel_ast::specs::Walk::one_turn))]
    fn one_turn(&mut self, kernel: &Kernel, body: &[Stmt], at: u32, i: i64) -> Result<(), Stop>
        requires light { list_all is_light body.now ≡ true }
        ensures walked { Gives (spec.one_turn (map (spec.walk kernel.now.decls) body.now) at self.old.indices.items i self.old.turns) self.new.turns result }
        ensures same { OnOk result (self.new.indices.items ≡ self.old.indices.items) }
    {
        self.count(at, 1)?;
        self.indices.push(i)?;
        self.statements(kernel, body)?;
        self.indices.pop();
        Ok(())
    }

    #[cycle(statements)]
    fn statements(&mut self, kernel: &Kernel, body: &[Stmt]) -> Result<(), Stop>
        requires light { list_all is_light body.now ≡ true }
        ensures walked { Gives (in_turn (spec.all_at (map (spec.walk kernel.now.decls) body.now) self.old.indices.items) self.old.turns) self.new.turns result }
        ensures same { OnOk result (self.new.indices.items ≡ self.old.indices.items) }
    {
        'each_statement: for stmt in body {
            self.statement(kernel, stmt)?;
        }
        Ok(())
    }
}

/// The turns of the statements of a kernel.
fn turns_of(alloc: Global, kernel: &Kernel) -> Result<u32, Stop>
    ensures { Answers (spec.walk_all kernel.now.decls kernel.now.body) result }
{
    let mut progress = Progress {
        indices: Vec::new(alloc),
        turns: 0,
    };
    progress.statements(kernel, kernel.body())?;
    Ok(progress.turns)
}

/// Walks through a kernel: executes its statements without values. On reaching a statement its weight is counted as turns, and 1 at the
/// beginning of each turn of a loop. For a loop the bounds and the step are evaluated then, and the step is tested. For a branch both sides
/// are evaluated then. For an assignment the places of the right side are looked at from left to right, and last the target.
///
/// # Errors
///
/// [`Stop::Fault`] with the first fault of the walk, exactly where it has one: 12 at the statement, or at the `for` of a loop's turn, where
/// the turns counted so far and those to be counted now are above 65,536; 14, 17 and 7 where [`loop_numbers`], [`condition`] and [`locate`]
/// have them.
/// [`Stop::NoMemory`] where memory was wanted and not found.
pub fn walk(alloc: Global, kernel: &Kernel) -> Result<(), Stop>
    ensures { Finds (fault_of (spec.walk_all kernel.now.decls kernel.now.body)) result }
{
    turns_of(alloc, kernel)?;
    Ok(())
}
