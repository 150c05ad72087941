//! Resolves indices of places, bounds and steps of loops, and sides of branches.
ghost use Rattle.std.specs.Prelude.{◌≡◌, [], map, OnOk, IfOk, IfErr};
ghost use Rattle.kernel_ast.specs.Walk.{joined};
ghost use Rattle.kernel_parser.specs.Names as spec;
ghost use Rattle.kernel_parser.specs.Resolved as tree;
ghost use Rattle.kernel_parser.specs.Scopes.{known, EndsAt};

use crate::names::fault::NameRule;
use crate::names::scope::{NameMeaning, Scope};
use crate::parse_end::ParseEnd;
use kernel_ast::{Index, IndexLink, IndexTree};
use kernel_syntax::raw::{RawIndex, RawIndexLink, RawIndexTree, Span};
use sqlite_items::{Boxed, Items};

impl<'a> Scope<'a> {
    fn index_name(&self, span: Span) -> Result<IndexTree, ParseEnd>
        ensures faultless { OnOk result (spec.index_name_faults (spec.name_meaning (known self.now) span) span.from ≡ []) }
        ensures tree { IfOk result (λ t. t ≡ tree.turn_of (spec.name_meaning (known self.now) span)) }
        ensures fault { IfErr result (EndsAt (spec.index_name_faults (spec.name_meaning (known self.now) span) span.from)) }
    {
        match self.name_meaning(span)? {
            NameMeaning::Turn(open) => Ok(IndexTree::Turn(open)),
            _ => Err(NameRule::Unknown.at(span.from)),
        }
    }

    #[cycle(index)]
    fn index_tree(&self, raw: &RawIndexTree) -> Result<IndexTree, ParseEnd>
        ensures faultless { OnOk result (spec.index_tree_faults (known self.now) raw.now ≡ []) }
        ensures tree { IfOk result (λ t. t ≡ tree.index_tree (known self.now) raw.now) }
        ensures fault { IfErr result (EndsAt (spec.index_tree_faults (known self.now) raw.now)) }
    {
        match raw {
            RawIndexTree::Number(number) => Ok(IndexTree::Number(*number)),
            RawIndexTree::Name(span) => self.index_name(*span),
            RawIndexTree::Minus(value) => {
                let value = self.index_tree(value.get())?;
                Ok(IndexTree::Minus(Boxed::new(self.table.alloc, value)?))
            }
            RawIndexTree::Chain(first, rest) => {
                let first = self.index_tree(first.get())?;
                let rest = self.index_links(rest.as_slice())?;
                Ok(IndexTree::Chain {
                    first: Boxed::new(self.table.alloc, first)?,
                    rest,
                })
            }
        }
    }

    #[cycle(index)]
    fn index_links(&self, raw: &[RawIndexLink]) -> Result<Items<IndexLink>, ParseEnd>
        ensures faultless { OnOk result (joined (map (spec.index_link_faults (known self.now)) raw.now) ≡ []) }
        ensures tree { IfOk result (λ t. t ≡ map (tree.index_link (known self.now)) raw.now) }
        ensures fault { IfErr result (EndsAt (joined (map (spec.index_link_faults (known self.now)) raw.now))) }
    {
        let mut links = Items::new(self.table.alloc);
        for link in raw {
            let value = self.index_tree(&link.value)?;
            links.push(IndexLink { op: link.op, value })?;
        }
        Ok(links)
    }

    /// Resolves an index.
    pub fn index(&self, raw: &RawIndex) -> Result<Index, ParseEnd>
        ensures faultless { OnOk result (spec.index_faults (known self.now) raw.now ≡ []) }
        ensures tree { IfOk result (λ t. t ≡ tree.index_of (known self.now) raw.now) }
        ensures fault { IfErr result (EndsAt (spec.index_faults (known self.now) raw.now)) }
    {
        Ok(Index {
            at: raw.at,
            tree: self.index_tree(&raw.tree)?,
        })
    }

    /// Resolves the indices of a place, from left to right.
    pub fn indices(&self, raw: &[RawIndex]) -> Result<Items<Index>, ParseEnd>
        ensures faultless { OnOk result (spec.indices_faults (known self.now) raw.now ≡ []) }
        ensures tree { IfOk result (λ t. t ≡ map (tree.index_of (known self.now)) raw.now) }
        ensures fault { IfErr result (EndsAt (spec.indices_faults (known self.now) raw.now)) }
    {
        let mut indices = Items::new(self.table.alloc);
        for index in raw {
            indices.push(self.index(index)?)?;
        }
        Ok(indices)
    }
}
