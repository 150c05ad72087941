//! Makes the table of the declarations.
ghost use Rattle.std.specs.Prelude.{◌≡◌, ◌++◌, ◌∷◌, [], map, OnOk, IfOk, IfErr};
ghost use Rattle.kernel_parser.specs.Names as spec;
ghost use Rattle.kernel_parser.specs.Names.{known_in, name_meaning};
ghost use Rattle.kernel_parser.specs.Scopes.{EndsAt};

use crate::names::fault::NameRule;
use crate::names::lookup::name_of;
use crate::parse_end::ParseEnd;
use indexmap::IndexMap;
use kernel_ast::{Decl, Name};
use kernel_syntax::raw::{RawDecl, RawSize};
use sqlite_items::Items;
use std::alloc::Global;

fn sizes(alloc: Global, raw: &[RawSize]) -> Result<Items<u16>, ParseEnd>
    ensures faultless { OnOk result (spec.sizes_faults raw.now ≡ []) }
    ensures sizes { IfOk result (λ s. s ≡ map spec.size_of raw.now) }
    ensures fault { IfErr result (EndsAt (spec.sizes_faults raw.now)) }
{
    let mut sizes = Items::new(alloc);
    for size in raw {
        if size.value < 1 || size.value > 64 {
            return Err(NameRule::BadSize.at(size.at));
        }
        sizes.push(size.value as u16)?;
    }
    Ok(sizes)
}

fn declare(
    alloc: Global,
    text: &[u8],
    decls: &mut IndexMap<Name, Decl>,
    raw: &RawDecl,
) -> Result<(), ParseEnd>
    ensures faultless { OnOk result (spec.twice_faults (name_meaning (known_in text.now decls.old.entries []) raw.now.name) raw.now.name.from ++ spec.sizes_faults raw.now.sizes ≡ []) }
    ensures declared { OnOk result (decls.new.entries ≡ decls.old.entries ++ spec.declared text.now raw.now ∷ []) }
    ensures fault { IfErr result (EndsAt (spec.twice_faults (name_meaning (known_in text.now decls.old.entries []) raw.now.name) raw.now.name.from ++ spec.sizes_faults raw.now.sizes)) }
{
    let name = name_of(alloc, text, raw.name)?;
    let at = raw.name.from;
    let known = decls.get_index_of(&name);
    if known.is_some() {
        return Err(NameRule::Twice.at(at));
    }
    let sizes = sizes(alloc, raw.sizes.as_slice())?;
    decls.insert(
        name,
        Decl {
            kind: raw.kind,
            sizes,
            at,
        },
    )?;
    Ok(())
}

/// The declarations by name, in order.
pub fn declare_all(
    alloc: Global,
    text: &[u8],
    raw: &[RawDecl],
) -> Result<IndexMap<Name, Decl>, ParseEnd>
    ensures faultless { OnOk result (spec.decls_faults text.now [] raw.now ≡ []) }
    ensures declared { IfOk result (λ decls. decls.entries ≡ map (spec.declared text.now) raw.now) }
    ensures fault { IfErr result (EndsAt (spec.decls_faults text.now [] raw.now)) }
{
    let mut decls = IndexMap::new(alloc);
    for decl in raw {
        declare(alloc, text, &mut decls, decl)?;
    }
    Ok(decls)
}
