//! Why a text has no tokens.
use comp_graph::NoMemory;

/// Why there are no tokens.
#[derive(Clone, Copy, Debug, PartialEq, Eq)]
pub enum LexEnd {
    /// The first fault of the text.
    Fault {
        /// 1 for a bad byte, 2 for a token that is too big.
        code: u8,
        /// Its place in bytes from 0.
        at: u32,
    },
    /// Memory was wanted and not found.
    NoMemory,
}

impl From<NoMemory> for LexEnd {
    ghost use Rattle.std.specs.Prelude.{◌≡◌};
    ghost use Rattle.kernel_lexer.specs.declared.lex_end.LexEnd.TheVariants as ends;

    ghost from_gives = { λ _ e. e ≡ ends.NoMemory };

    fn from(_: NoMemory) -> LexEnd {
        LexEnd::NoMemory
    }
}
