//! The kernel of a text with its graph, or the fault that the program prints.
ghost use Rattle.std.specs.Prelude.{IfOk, IfErr};
ghost use Rattle.command_answers.specs.Accepted.{IsAccepted, EndMeans};

use comp_graph::{Graph, NoMemory};
use kernel_ast::Kernel;
use kernel_parser::{ParseEnd, parse};
use loop_unroll::{ShapeEnd, unroll};
use std::alloc::Global;
use three_address::lower;

/// An accepted kernel, and its graph.
#[derive(Drop)]
pub struct Accepted {
    pub kernel: Kernel,
    pub graph: Graph,
}

/// Why a text is not accepted.
#[derive(Clone, Copy, Debug, PartialEq, Eq)]
pub enum KernelEnd {
    /// The first fault of the text or, where it has none, of its kernel's run.
    Fault {
        /// The number of the rule that is broken.
        code: u8,
        /// Its place in bytes from 0.
        at: u32,
    },
    /// Memory was wanted and not found.
    NoMemory,
}

impl From<NoMemory> for KernelEnd {
    ghost use Rattle.std.specs.Prelude.{◌≡◌};
    ghost use Rattle.command_answers.specs.declared.kernel.KernelEnd.TheVariants as ends;

    ghost from_gives = { λ _ e. e ≡ ends.NoMemory };

    fn from(_: NoMemory) -> KernelEnd {
        KernelEnd::NoMemory
    }
}

impl From<ParseEnd> for KernelEnd {
    ghost use Rattle.std.specs.Prelude.{◌≡◌};
    ghost use Rattle.command_answers.specs.Accepted.{end_of_text};

    ghost from_gives = { λ end e. e ≡ end_of_text end };

    fn from(end: ParseEnd) -> KernelEnd {
        match end {
            ParseEnd::Fault { code, at } => KernelEnd::Fault { code, at },
            ParseEnd::NoMemory => KernelEnd::NoMemory,
        }
    }
}

impl From<ShapeEnd> for KernelEnd {
    ghost use Rattle.std.specs.Prelude.{◌≡◌};
    ghost use Rattle.command_answers.specs.Accepted.{end_of_shape};

    ghost from_gives = { λ end e. e ≡ end_of_shape end };

    fn from(end: ShapeEnd) -> KernelEnd {
        match end {
            ShapeEnd::Fault { code, at } => KernelEnd::Fault { code, at },
            ShapeEnd::NoMemory => KernelEnd::NoMemory,
        }
    }
}

/// The kernel that a text stands for, and its graph.
///
/// # Errors
///
/// [`KernelEnd::Fault`] with the code and place of the first fault of the text or, where the text has none, of its kernel's run: exactly
/// where there is one. [`KernelEnd::NoMemory`] where memory was wanted and not found.
pub fn accept(alloc: Global, text: &[u8]) -> Result<Accepted, KernelEnd>
    ensures accepted { IfOk result (λ accepted. IsAccepted text.now accepted.kernel accepted.graph) }
    ensures fault { IfErr result (EndMeans text.now) }
{
    let kernel = parse(alloc, text)?;
    let flats = unroll(alloc, &kernel)?;
    let graph = lower(alloc, &kernel, &flats)?;
    Ok(Accepted { kernel, graph })
}
