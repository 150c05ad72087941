//! The evaluation of expressions.
ghost use Rattle.std.specs.Prelude.{◌≡◌, [], ◌∷◌, map, slice_index_or, pos};
ghost use Rattle.kernel_ast.specs.Machine as machine;
ghost use Rattle.kernel_walk.specs.Outcomes.{Yields};
ghost use Rattle.kernel_walk.specs.SetElements.{elements};
ghost use Rattle.source_machine.specs.Numbers as spec;

use crate::value::Value;
use comp_graph::Op;
use kernel_ast::{Expr, Kernel, Link, MAX_VERTICES, Place, RunRule};
use kernel_walk::{Stop, Written, locate, turn};
use sqlite_items::Items;
use std::alloc::Global;

/// A number at a new vertex.
pub fn count(vertices: &mut u32, at: u32, number: i64) -> Result<Value, Stop>
    ensures { Yields (spec.counted at number vertices.old) vertices.new result }
{
    if *vertices >= MAX_VERTICES {
        return Err(Stop::Fault(RunRule::TooManyVertices.at(at)));
    }
    *vertices += 1;
    Ok(Value {
        number,
        is_constant: false,
    })
}

fn are_constant(args: &[Value]) -> bool
    ensures { result ≡ spec.all_constant args.now }
{
    'each_argument: for arg in args {
        if !arg.is_constant {
            return false;
        }
    }
    true
}

fn number_of(args: &[Value], k: usize) -> i64
    ensures { result ≡ slice_index_or (map (λ a. a.number) args.now) k (pos 0) }
{
    match args.get(k) {
        Some(arg) => arg.number,
        None => 0,
    }
}

fn result_of(op: Op, args: &[Value]) -> i64
    ensures { result ≡ spec.result_of op args.now }
{
    let numbers = [number_of(args, 0), number_of(args, 1), number_of(args, 2)];
    match op {
        Op::Input => 0,
        _ => op.value(numbers),
    }
}

/// What an operation on these operands gives: a constant where all are constants, and else a new vertex.
fn operate(op: Op, at: u32, args: &[Value], vertices: &mut u32) -> Result<Value, Stop>
    ensures { Yields (spec.operate op at args.now vertices.old) vertices.new result }
{
    let number = result_of(op, args);
    if are_constant(args) {
        Ok(Value {
            number,
            is_constant: true,
        })
    } else {
        count(vertices, at, number)
    }
}

/// What an expression may read: the indices of the open loops from outside, and the elements that are set.
#[derive(Drop)]
pub struct Scope<'a> {
    pub alloc: Global,
    pub kernel: &'a Kernel,
    pub indices: &'a [i64],
    pub written: &'a Written<Value>,
}

impl<'a> Scope<'a> {
    fn read(&self, place: &Place, vertices: &mut u32) -> Result<Value, Stop>
        ensures { Yields (machine.read self.now.kernel.now.decls self.now.indices.now (elements self.now.written.now) place.now vertices.old) vertices.new result }
    {
        let cell = locate(self.kernel, self.indices, place)?;
        match self.written.get(cell) {
            Some(value) => Ok(value),
            None => Err(Stop::Fault(RunRule::Unset.at(place.at))),
        }
    }

    /// The value of an expression.
    #[cycle(evaluate)]
    pub fn evaluate(&self, expr: &Expr, vertices: &mut u32) -> Result<Value, Stop>
        ensures { Yields (machine.evaluate spec.numbers self.now.kernel.now.decls self.now.indices.now (elements self.now.written.now) expr.now vertices.old) vertices.new result }
    {
        match expr {
            Expr::Number(number) => Ok(Value {
                number: *number,
                is_constant: true,
            }),
            Expr::Cell(place) => self.read(place, vertices),
            Expr::Turn(k) => Ok(Value {
                number: turn(self.indices, *k),
                is_constant: true,
            }),
            Expr::Minus { value, at } => {
                let value = self.evaluate(value.get(), vertices)?;
                operate(Op::Neg, *at, &[value], vertices)
            }
            Expr::Chain { first, rest } => {
                let first = self.evaluate(first.get(), vertices)?;
                self.chain(first, rest.as_slice(), vertices)
            }
            Expr::Call { op, args, at } => {
                let args = self.arguments(args.as_slice(), vertices)?;
                operate(*op, *at, args.as_slice(), vertices)
            }
        }
    }

    /// A chain, read from the left.
    #[cycle(evaluate)]
    fn chain(&self, first: Value, rest: &[Link], vertices: &mut u32) -> Result<Value, Stop>
        ensures { Yields (machine.chain spec.numbers (map (spec.link_run self.now.kernel.now.decls self.now.indices.now (elements self.now.written.now)) rest.now) (first, vertices.old)) vertices.new result }
    {
        let mut total = first;
        'each_link: for link in rest {
            let value = self.evaluate(&link.value, vertices)?;
            total = operate(link.op, link.at, &[total, value], vertices)?;
        }
        Ok(total)
    }

    /// The arguments of a call, from left to right.
    #[cycle(evaluate)]
    fn arguments(&self, args: &[Expr], vertices: &mut u32) -> Result<Items<Value>, Stop>
        ensures { Yields (machine.arguments (map (machine.evaluate spec.numbers self.now.kernel.now.decls self.now.indices.now (elements self.now.written.now)) args.now) ([], vertices.old)) vertices.new result }
    {
        let mut found = Items::new(self.alloc);
        'each_argument: for arg in args {
            let value = self.evaluate(arg, vertices)?;
            found.push(value)?;
        }
        Ok(found)
    }
}
