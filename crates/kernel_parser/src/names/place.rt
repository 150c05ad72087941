//! Resolves places: names with their indices.
ghost use Rattle.std.specs.Prelude.{◌≡◌, [], OnOk, IfOk, IfErr};
ghost use Rattle.kernel_parser.specs.Names as spec;
ghost use Rattle.kernel_parser.specs.Resolved as tree;
ghost use Rattle.kernel_parser.specs.Scopes.{known, EndsAt};

use crate::names::fault::NameRule;
use crate::names::scope::{NameMeaning, Scope};
use crate::parse_end::ParseEnd;
use kernel_ast::{Expr, Place};
use kernel_syntax::raw::RawPlace;

impl<'a> Scope<'a> {
    /// Resolves a place in an expression.
    pub fn read(&self, raw: &RawPlace) -> Result<Expr, ParseEnd>
        ensures faultless { OnOk result (spec.place_faults (known self.now) raw.now ≡ []) }
        ensures tree { IfOk result (λ t. t ≡ tree.place_of (known self.now) raw.now) }
        ensures fault { IfErr result (EndsAt (spec.place_faults (known self.now) raw.now)) }
    {
        let at = raw.name.from;
        match self.name_meaning(raw.name)? {
            NameMeaning::Turn(open) => {
                if raw.indices.is_empty() {
                    Ok(Expr::Turn(open))
                } else {
                    Err(NameRule::Indices.at(at))
                }
            }
            NameMeaning::Element(decl) => {
                if !self.has_sizes(decl, raw.indices.len()) {
                    return Err(NameRule::Indices.at(at));
                }
                let indices = self.indices(raw.indices.as_slice())?;
                Ok(Expr::Cell(Place { decl, indices, at }))
            }
            NameMeaning::Unknown => Err(NameRule::Unknown.at(at)),
        }
    }

    /// Resolves a place that is assigned to.
    pub fn target(&self, raw: &RawPlace) -> Result<Place, ParseEnd>
        ensures faultless { OnOk result (spec.target_place_faults (known self.now) raw.now ≡ []) }
        ensures tree { IfOk result (λ t. t ≡ tree.target_of (known self.now) raw.now) }
        ensures fault { IfErr result (EndsAt (spec.target_place_faults (known self.now) raw.now)) }
    {
        let at = raw.name.from;
        match self.name_meaning(raw.name)? {
            NameMeaning::Turn(_) => Err(NameRule::NotWritable.at(at)),
            NameMeaning::Element(decl) => {
                if !self.is_writable(decl) {
                    return Err(NameRule::NotWritable.at(at));
                }
                if !self.has_sizes(decl, raw.indices.len()) {
                    return Err(NameRule::Indices.at(at));
                }
                let indices = self.indices(raw.indices.as_slice())?;
                Ok(Place { decl, indices, at })
            }
            NameMeaning::Unknown => Err(NameRule::Unknown.at(at)),
        }
    }
}
