//! The weight of a statement: how many turns it counts. Sums stop at the greatest number that a result holds.
ghost use Rattle.std.specs.Prelude.{◌≡◌, ◌≤◌, min, map, sum};
ghost use Rattle.kernel_ast.specs.RunRules.{most_turns};
ghost use Rattle.kernel_ast.specs.Weights as spec;

use crate::tree::{Expr, Index, IndexLink, IndexTree, Link, Place, Stmt};

#[cycle(index)]
fn tree_weight(tree: &IndexTree) -> u32
    ensures { result ≡ min (spec.tree_weight tree.now) 4294967295 }
{
    match tree {
        IndexTree::Number(_) => 1,
        IndexTree::Turn(_) => 1,
        IndexTree::Minus(value) => tree_weight(value.get()).saturating_add(1),
        IndexTree::Chain { first, rest } => {
            let first = tree_weight(first.get());
            first.saturating_add(index_links_weight(rest.as_slice()))
        }
    }
}

#[cycle(index)]
fn index_links_weight(rest: &[IndexLink]) -> u32
    ensures { result ≡ min (sum (map spec.index_link_weight rest.now)) 4294967295 }
{
    let mut weight: u32 = 0;
    for link in rest {
        let sign_and_value = tree_weight(&link.value).saturating_add(1);
        weight = weight.saturating_add(sign_and_value);
    }
    weight
}

fn place_weight(place: &Place) -> u32
    ensures { result ≡ min (spec.place_weight place.now) 4294967295 }
{
    let mut weight: u32 = 1;
    for index in place.indices.as_slice() {
        weight = weight.saturating_add(tree_weight(&index.tree));
    }
    weight
}

#[cycle(expr)]
fn expr_weight(expr: &Expr) -> u32
    ensures { result ≡ min (spec.expr_weight expr.now) 4294967295 }
{
    match expr {
        Expr::Number(_) => 1,
        Expr::Cell(place) => place_weight(place),
        Expr::Turn(_) => 1,
        Expr::Minus { value, .. } => expr_weight(value.get()).saturating_add(1),
        Expr::Chain { first, rest } => {
            let first = expr_weight(first.get());
            first.saturating_add(links_weight(rest.as_slice()))
        }
        Expr::Call { args, .. } => arguments_weight(args.as_slice()).saturating_add(1),
    }
}

#[cycle(expr)]
fn links_weight(rest: &[Link]) -> u32
    ensures { result ≡ min (sum (map spec.link_weight rest.now)) 4294967295 }
{
    let mut weight: u32 = 0;
    for link in rest {
        let sign_and_value = expr_weight(&link.value).saturating_add(1);
        weight = weight.saturating_add(sign_and_value);
    }
    weight
}

#[cycle(expr)]
fn arguments_weight(args: &[Expr]) -> u32
    ensures { result ≡ min (sum (map spec.expr_weight args.now)) 4294967295 }
{
    let mut weight: u32 = 0;
    for arg in args {
        weight = weight.saturating_add(expr_weight(arg));
    }
    weight
}

fn assign_weight(target: &Place, value: &Expr) -> u32
    ensures { result ≡ min (spec.assign_weight target.now value.now) 4294967295 }
{
    place_weight(target)
        .saturating_add(expr_weight(value))
        .saturating_add(1)
}

fn step_weight(by: &Option<Index>) -> u32
    ensures { result ≡ min (spec.step_weight by.now) 4294967295 }
{
    match by {
        Some(by) => tree_weight(&by.tree),
        None => 0,
    }
}

fn loop_weight(from: &Index, to: &Index, by: &Option<Index>) -> u32
    ensures { result ≡ min (spec.loop_weight from.now to.now by.now) 4294967295 }
{
    tree_weight(&from.tree)
        .saturating_add(tree_weight(&to.tree))
        .saturating_add(step_weight(by))
        .saturating_add(1)
}

fn branch_weight(left: &Index, right: &Index) -> u32
    ensures { result ≡ min (spec.branch_weight left.now right.now) 4294967295 }
{
    tree_weight(&left.tree)
        .saturating_add(tree_weight(&right.tree))
        .saturating_add(1)
}

/// The number of turns that a statement counts as it is reached: 1, and 1 for each number, name, operator sign and function word, on
/// both sides of an assignment, in the bounds and the step of a loop, or in the sides of a branch. A loop's turns and the bodies of loops
/// and branches are not in it (this project's convention).
pub fn weight(stmt: &Stmt) -> u32
    requires { spec.weight stmt.now ≤ most_turns }
    ensures { result ≡ spec.weight stmt.now }
{
    match stmt {
        Stmt::Assign { target, value, .. } => assign_weight(target, value),
        Stmt::Loop { from, to, by, .. } => loop_weight(from, to, by),
        Stmt::Branch { left, right, .. } => branch_weight(left, right),
    }
}
