//! The values of indices, the numbers of loops and the conditions of branches.
ghost use Rattle.std.specs.Prelude.{◌≡◌, map, neg_ℤ, pos, ◌≤ℤ◌, IfOk};
ghost use Rattle.kernel_ast.specs.Places as spec;

use crate::numbers::LoopNumbers;
use comp_graph::Op;
use kernel_ast::{Fault, Index, IndexLink, IndexTree, Relation, RunRule};

/// A value that an index may have on the way, from -1,000,000 to 1,000,000.
fn small(n: i64) -> Option<i64>
    ensures { result ≡ spec.small n }
{
    if n >= -1_000_000 && n <= 1_000_000 {
        Some(n)
    } else {
        None
    }
}

fn small_of(n: Option<i64>) -> Option<i64>
    ensures { result ≡ spec.then_small n spec.small }
{
    match n {
        Some(n) => small(n),
        None => None,
    }
}

fn minus_value(n: i64) -> Option<i64>
    ensures { result ≡ spec.small (neg_ℤ n) }
{
    small_of(n.checked_neg())
}

fn operator_value(op: Op, a: i64, b: i64) -> Option<i64>
    ensures { result ≡ spec.small (spec.index_value_of op a b) }
{
    match op {
        Op::Add => small_of(a.checked_add(b)),
        Op::Sub => small_of(a.checked_sub(b)),
        Op::Mul => small_of(a.checked_mul(b)),
        _ => small(a),
    }
}

/// The index of the k-th open loop from outside, and 0 where so many loops are not open.
pub fn turn(indices: &[i64], k: u8) -> i64
    ensures { result ≡ spec.turn indices.now k }
{
    match indices.get(k as usize) {
        Some(i) => *i,
        None => 0,
    }
}

#[cycle(index)]
fn tree_value(indices: &[i64], tree: &IndexTree) -> Option<i64>
    ensures { result ≡ spec.index_value indices.now tree.now }
{
    match tree {
        IndexTree::Number(n) => small(*n),
        IndexTree::Turn(k) => Some(turn(indices, *k)),
        IndexTree::Minus(value) => minus_value(tree_value(indices, value.get())?),
        IndexTree::Chain { first, rest } => {
            let first = tree_value(indices, first.get())?;
            chain_value(indices, first, rest.as_slice())
        }
    }
}

#[cycle(index)]
fn chain_value(indices: &[i64], first: i64, rest: &[IndexLink]) -> Option<i64>
    ensures { result ≡ spec.index_chain first (map (spec.index_link indices.now) rest.now) }
{
    let mut total = first;
    for link in rest {
        let value = tree_value(indices, &link.value)?;
        total = operator_value(link.op, total, value)?;
    }
    Some(total)
}

/// The value of an index while the open loops stand at `indices`.
///
/// # Errors
///
/// Fault 14 at the index's first token, exactly where a number in it, or the value of an operator or a minus sign, is below -1,000,000 or
/// above 1,000,000.
pub fn index_value(indices: &[i64], index: &Index) -> Result<i64, Fault>
    ensures { result ≡ spec.value_of_index indices.now index.now }
{
    match tree_value(indices, &index.tree) {
        Some(n) => Ok(n),
        None => Err(RunRule::BigIndex.at(index.at)),
    }
}

/// The step of a loop, 1 where none is written.
fn step_of(indices: &[i64], by: &Option<Index>) -> Result<i64, Fault>
    ensures value { result ≡ spec.step_of indices.now by.now }
    ensures forward { IfOk result (λ step. pos 1 ≤ℤ step) }
{
    match by {
        Some(by) => {
            let step = index_value(indices, by)?;
            if step < 1 {
                return Err(RunRule::BadStep.at(by.at));
            }
            Ok(step)
        }
        None => Ok(1),
    }
}

/// The numbers that the index of a loop takes, while the loops around it stand at `indices`. The first bound, the second one and the step
/// are evaluated, and then the step is tested.
///
/// # Errors
///
/// The fault of the first bound, or else that of the second, or else that of the step, as [`index_value`] has it; or else fault 17 at the
/// step's first token, exactly where its value is below 1.
#[tactic(auto, unfolding(kernel_ast::specs::Places::loop_numbers))]
pub fn loop_numbers(
    indices: &[i64],
    from: &Index,
    to: &Index,
    by: &Option<Index>,
) -> Result<LoopNumbers, Fault>
    ensures { result ≡ spec.loop_numbers indices.now from.now to.now by.now }
{
    let from = index_value(indices, from)?;
    let to = index_value(indices, to)?;
    let step = step_of(indices, by)?;
    Ok(LoopNumbers::new(from, to, step))
}

/// Whether a relation holds of two numbers.
fn is_related(rel: Relation, left: i64, right: i64) -> bool
    ensures { result ≡ spec.is_related rel left right }
{
    match rel {
        Relation::Equal => left == right,
        Relation::NotEqual => left != right,
        Relation::Less => left < right,
        Relation::AtMost => left <= right,
        Relation::More => left > right,
        Relation::AtLeast => left >= right,
    }
}

/// Whether the relation of a branch holds, while the loops around it stand at `indices`. Its left side is evaluated, and then its right
/// one.
///
/// # Errors
///
/// The fault of the left side, or else that of the right one, as [`index_value`] has it.
#[tactic(auto, unfolding(kernel_ast::specs::Places::condition))]
pub fn condition(indices: &[i64], left: &Index, rel: Relation, right: &Index) -> Result<bool, Fault>
    ensures { result ≡ spec.condition indices.now left.now rel right.now }
{
    let left = index_value(indices, left)?;
    let right = index_value(indices, right)?;
    Ok(is_related(rel, left, right))
}
