//! Right sides in postfix order.
ghost use Rattle.std.specs.Prelude.{◌≡◌, ◌++◌, ◌∷◌, [], map, Ok};
ghost use Rattle.kernel_ast.specs.Steps.{in_turn};
ghost use Rattle.kernel_walk.specs.Outcomes.{Gives};
ghost use Rattle.loop_unroll.specs.Flats as spec;

use crate::flat::Item;
use comp_graph::Op;
use kernel_ast::{Expr, Kernel, Link};
use kernel_walk::{Stop, locate, turn};
use sqlite_items::Items;

fn append(items: &mut Items<Item>, item: Item) -> Result<(), Stop>
    ensures { Gives (Ok (items.old ++ item ∷ [])) items.new result }
{
    items.push(item)?;
    Ok(())
}

/// Writes an expression behind the items so far, while the open loops stand at `indices`.
#[cycle(items)]
pub fn items_of(
    kernel: &Kernel,
    indices: &[i64],
    expr: &Expr,
    items: &mut Items<Item>,
) -> Result<(), Stop>
    ensures { Gives (spec.items_of kernel.now.decls indices.now expr.now items.old) items.new result }
{
    match expr {
        Expr::Number(n) => append(items, Item::Number(*n)),
        Expr::Cell(place) => {
            let cell = locate(kernel, indices, place)?;
            append(items, Item::Read { cell, at: place.at })
        }
        Expr::Turn(k) => append(items, Item::Number(turn(indices, *k))),
        Expr::Minus { value, at } => {
            items_of(kernel, indices, value.get(), items)?;
            append(
                items,
                Item::Apply {
                    op: Op::Neg,
                    at: *at,
                },
            )
        }
        Expr::Chain { first, rest } => {
            items_of(kernel, indices, first.get(), items)?;
            items_of_links(kernel, indices, rest.as_slice(), items)
        }
        Expr::Call { op, args, at } => {
            items_of_arguments(kernel, indices, args.as_slice(), items)?;
            append(items, Item::Apply { op: *op, at: *at })
        }
    }
}

#[cycle(items)]
fn items_of_links(
    kernel: &Kernel,
    indices: &[i64],
    rest: &[Link],
    items: &mut Items<Item>,
) -> Result<(), Stop>
    ensures { Gives (spec.link_items (map (spec.link_of kernel.now.decls indices.now) rest.now) items.old) items.new result }
{
    'each_link: for link in rest {
        items_of(kernel, indices, &link.value, items)?;
        append(
            items,
            Item::Apply {
                op: link.op,
                at: link.at,
            },
        )?;
    }
    Ok(())
}

#[cycle(items)]
fn items_of_arguments(
    kernel: &Kernel,
    indices: &[i64],
    args: &[Expr],
    items: &mut Items<Item>,
) -> Result<(), Stop>
    ensures { Gives (in_turn (map (spec.items_of kernel.now.decls indices.now) args.now) items.old) items.new result }
{
    'each_argument: for arg in args {
        items_of(kernel, indices, arg, items)?;
    }
    Ok(())
}
