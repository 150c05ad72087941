//! Gives the names of a kernel their meaning.
//!
//! The rules, which are this project's convention:
//!
//! - A declared name is known from its declaration on. The name of a loop is known in the loop's body, and is called an open index
//!   there; it is not known in the loop's own bounds and step. Two loops that do not contain each other may use the same name. The kernel's own
//!   name is in no table.
//! - In an index only open indices are known. In an expression an open index without brackets is its value.
//! - Fault 16, a bad size: a size is 0 or above 64. Its place is the number.
//! - Fault 5, twice: a declared name is declared again, or a loop's name is declared or is an open index. Its place is the later name.
//! - Fault 4, unknown: a name is not known where it stands. Its place is the name.
//! - Fault 9, not writable: the target of an assignment is an input or an open index. Its place is the name.
//! - Fault 6, indices: a place has another number of brackets than its declaration has sizes, or an open index in an expression has
//!   brackets. Its place is the name.
//! - The fault with the least place is answered; at one name 4 stands before 9, and 9 before 6. It is the first one as they are read.
//!
//! `specs/Names.antt` says what the faults are, and `specs/Resolved.antt` what the tree of a kernel without faults is.
ghost use Rattle.std.specs.Prelude.{◌≡◌, [], OnOk, IfOk, IfErr};
ghost use Rattle.kernel_parser.specs.Names.{name_faults};
ghost use Rattle.kernel_parser.specs.RawFits.{Fits};
ghost use Rattle.kernel_parser.specs.Resolved.{tree_of};
ghost use Rattle.kernel_parser.specs.Scopes.{EndsAt};

mod declare;
mod expr;
mod fault;
mod index;
mod lookup;
mod place;
mod scope;
mod statement;

use crate::names::declare::declare_all;
use crate::names::lookup::word;
use crate::names::scope::Table;
use crate::parse_end::ParseEnd;
use comp_graph::label::Label;
use kernel_ast::Kernel;
use kernel_syntax::raw::RawKernel;
use std::alloc::Global;

/// The kernel of a tree whose names stand as stretches of the text.
///
/// # Errors
///
/// [`ParseEnd::Fault`] with the code and the place of the first fault of its names, exactly where there is one, by the rules at the
/// head of this module. [`ParseEnd::NoMemory`] where memory was wanted and not found.
pub(crate) fn resolve(alloc: Global, text: &[u8], raw: &RawKernel) -> Result<Kernel, ParseEnd>
    requires { Fits text.now raw.now }
    ensures faultless { OnOk result (name_faults text.now raw.now ≡ []) }
    ensures tree { IfOk result (λ kernel. kernel ≡ tree_of text.now raw.now) }
    ensures fault { IfErr result (EndsAt (name_faults text.now raw.now)) }
{
    let decls = declare_all(alloc, text, raw.decls.as_slice())?;
    let table = Table {
        alloc,
        text,
        decls: &decls,
    };
    let mut loops = Vec::new(alloc);
    let body = table.body(&mut loops, raw.body.as_slice())?;
    let title = Vec::from_slice(alloc, word(text, raw.title))?;
    Ok(Kernel::new(Label::new(title), decls, body))
}
