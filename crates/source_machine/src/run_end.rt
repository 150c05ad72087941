//! Why a run has no answer.
ghost use Rattle.std.specs.Prelude.{◌≡◌};

use comp_graph::NoMemory;
use kernel_walk::Stop;

/// Why a run has no answer.
#[derive(Clone, Copy, Debug, PartialEq, Eq)]
pub enum RunEnd {
    /// The kernel's run has a fault, whatever the values are.
    Shape {
        /// The code of the rule that is broken, as `RunRule` of `kernel_ast` lists them: 7, 8, 10, 11, 12, 14 or 17.
        code: u8,
        /// Its place in the kernel's text, in bytes from 0.
        at: u32,
    },
    /// The kernel's run has no fault, and the number of values is not that of the input elements.
    WrongCount {
        /// The number of input elements.
        needs: u32,
        /// The number of values.
        got: u32,
    },
    /// Memory was wanted and not found.
    NoMemory,
}

impl From<Stop> for RunEnd {
    ghost use Rattle.std.specs.Prelude.{◌≡◌};
    ghost use Rattle.source_machine.specs.RunEnds.{end_of};

    ghost from_gives = { λ stop e. e ≡ end_of stop };

    fn from(stop: Stop) -> RunEnd {
        match stop {
            Stop::Fault(fault) => RunEnd::Shape {
                code: fault.code,
                at: fault.at,
            },
            Stop::NoMemory => RunEnd::NoMemory,
        }
    }
}

impl From<NoMemory> for RunEnd {
    ghost use Rattle.std.specs.Prelude.{◌≡◌};
    ghost use Rattle.source_machine.specs.declared.run_end.RunEnd.TheVariants as ends;

    ghost from_gives = { λ _ e. e ≡ ends.NoMemory };

    fn from(_: NoMemory) -> RunEnd {
        RunEnd::NoMemory
    }
}
