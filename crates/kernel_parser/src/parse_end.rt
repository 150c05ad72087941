//! Why a text has no kernel.
ghost use Rattle.std.specs.Prelude.{◌≡◌};

use std::alloc::{AllocError, AllocFailed};

/// Why there is no kernel.
#[derive(Clone, Copy, Debug, PartialEq, Eq)]
pub enum ParseEnd {
    /// The first fault of the text.
    Fault {
        /// The number of the rule that is broken.
        code: u8,
        /// Its place in bytes from 0.
        at: u32,
    },
    /// Memory was wanted and not found.
    NoMemory,
}

impl From<AllocError> for ParseEnd {
    ghost use Rattle.std.specs.Prelude.{◌≡◌};
    ghost use Rattle.kernel_parser.specs.declared.parse_end.ParseEnd.TheVariants as ends;

    ghost from_gives = { λ _ e. e ≡ ends.NoMemory };

    fn from(_: AllocError) -> ParseEnd {
        ParseEnd::NoMemory
    }
}

impl<T: Drop> From<AllocFailed<T>> for ParseEnd {
    ghost use Rattle.std.specs.Prelude.{◌≡◌};
    ghost use Rattle.kernel_parser.specs.declared.parse_end.ParseEnd.TheVariants as ends;

    ghost from_gives = { λ _ e. e ≡ ends.NoMemory };

    fn from(_: AllocFailed<T>) -> ParseEnd {
        ParseEnd::NoMemory
    }
}
