//! Resolves expressions.
ghost use Rattle.std.specs.Prelude.{◌≡◌, [], map, OnOk, IfOk, IfErr};
ghost use Rattle.kernel_ast.specs.Walk.{joined};
ghost use Rattle.kernel_parser.specs.Names as spec;
ghost use Rattle.kernel_parser.specs.Resolved as tree;
ghost use Rattle.kernel_parser.specs.Scopes.{known, EndsAt};

use crate::names::scope::Scope;
use crate::parse_end::ParseEnd;
use kernel_ast::{Expr, Link};
use kernel_syntax::raw::{RawExpr, RawLink};
use sqlite_items::{Boxed, Items};

impl<'a> Scope<'a> {
    /// Resolves an expression.
    #[cycle(expr)]
    pub fn expr(&self, raw: &RawExpr) -> Result<Expr, ParseEnd>
        ensures faultless { OnOk result (spec.expr_faults (known self.now) raw.now ≡ []) }
        ensures tree { IfOk result (λ t. t ≡ tree.expr_of (known self.now) raw.now) }
        ensures fault { IfErr result (EndsAt (spec.expr_faults (known self.now) raw.now)) }
    {
        match raw {
            RawExpr::Number(number) => Ok(Expr::Number(*number)),
            RawExpr::Place(place) => self.read(place),
            RawExpr::Minus(value, at) => {
                let value = self.expr(value.get())?;
                Ok(Expr::Minus {
                    value: Boxed::new(self.table.alloc, value)?,
                    at: *at,
                })
            }
            RawExpr::Chain(first, rest) => {
                let first = self.expr(first.get())?;
                let rest = self.links(rest.as_slice())?;
                Ok(Expr::Chain {
                    first: Boxed::new(self.table.alloc, first)?,
                    rest,
                })
            }
            RawExpr::Call(op, args, at) => Ok(Expr::Call {
                op: *op,
                args: self.arguments(args.as_slice())?,
                at: *at,
            }),
        }
    }

    #[cycle(expr)]
    fn links(&self, raw: &[RawLink]) -> Result<Items<Link>, ParseEnd>
        ensures faultless { OnOk result (joined (map (spec.link_faults (known self.now)) raw.now) ≡ []) }
        ensures tree { IfOk result (λ t. t ≡ map (tree.link_of (known self.now)) raw.now) }
        ensures fault { IfErr result (EndsAt (joined (map (spec.link_faults (known self.now)) raw.now))) }
    {
        let mut links = Items::new(self.table.alloc);
        for link in raw {
            let value = self.expr(&link.value)?;
            links.push(Link {
                op: link.op,
                value,
                at: link.at,
            })?;
        }
        Ok(links)
    }

    #[cycle(expr)]
    fn arguments(&self, raw: &[RawExpr]) -> Result<Items<Expr>, ParseEnd>
        ensures faultless { OnOk result (joined (map (spec.expr_faults (known self.now)) raw.now) ≡ []) }
        ensures tree { IfOk result (λ t. t ≡ map (tree.expr_of (known self.now)) raw.now) }
        ensures fault { IfErr result (EndsAt (joined (map (spec.expr_faults (known self.now)) raw.now))) }
    {
        let mut args = Items::new(self.table.alloc);
        for arg in raw {
            args.push(self.expr(arg)?)?;
        }
        Ok(args)
    }
}
