//! Why bytes are not read.
use comp_graph::NoMemory;
use std::alloc::{AllocError, AllocFailed};

/// The bytes spell no covered table, or memory was wanted and not found.
#[derive(Clone, Copy, PartialEq, Eq, Debug)]
pub enum CoverEnd {
    Shape,
    NoMemory,
}

impl From<NoMemory> for CoverEnd {
    ghost use Rattle.std.specs.Prelude.{◌≡◌};
    ghost use Rattle.cover_cert.specs.declared.end.CoverEnd.TheVariants as ends;

    ghost from_gives = { λ _ e. e ≡ ends.NoMemory };

    fn from(_: NoMemory) -> Self {
        CoverEnd::NoMemory
    }
}

impl From<AllocError> for CoverEnd {
    ghost use Rattle.std.specs.Prelude.{◌≡◌};
    ghost use Rattle.cover_cert.specs.declared.end.CoverEnd.TheVariants as ends;

    ghost from_gives = { λ _ e. e ≡ ends.NoMemory };

    fn from(_: AllocError) -> Self {
        CoverEnd::NoMemory
    }
}

impl<T: Drop> From<AllocFailed<T>> for CoverEnd {
    ghost use Rattle.std.specs.Prelude.{◌≡◌};
    ghost use Rattle.cover_cert.specs.declared.end.CoverEnd.TheVariants as ends;

    ghost from_gives = { λ _ e. e ≡ ends.NoMemory };

    fn from(_: AllocFailed<T>) -> Self {
        CoverEnd::NoMemory
    }
}
