//! The numbers of a text.

ghost use Rattle.std.specs.Prelude.{◌≡◌, ℤ, List, IfOk};
ghost use Rattle.values_text.specs.Values as spec;
ghost use Rattle.values_text.specs.Values.{Spells};

use crate::number::number;
use std::alloc::{AllocFailed, Global};

/// Why no list of numbers was read.
#[derive(Clone, Copy, Debug, PartialEq, Eq)]
pub enum ValuesEnd {
    /// The text spells no list of numbers.
    Shape,
    /// Memory was wanted and not found.
    NoMemory,
}

impl From<AllocFailed<i64>> for ValuesEnd {
    ghost use Rattle.std.specs.Prelude.{◌≡◌};
    ghost use Rattle.values_text.specs.declared.read.ValuesEnd.TheVariants as ends;

    ghost from_gives = { λ _ end. end ≡ ends.NoMemory };

    fn from(_: AllocFailed<i64>) -> ValuesEnd {
        ValuesEnd::NoMemory
    }
}

// Whether the byte stands between numbers.
fn is_space(byte: u8) -> bool
    ensures { result ≡ spec.is_space byte }
{
    byte == b' ' || byte == b'\t' || byte == b'\r' || byte == b'\n'
}

/// The numbers that a text spells, in its order, by the rules at the head of this crate. It takes time in proportion to the text.
///
/// # Errors
///
/// [`ValuesEnd::Shape`] exactly where the text spells no list of numbers. [`ValuesEnd::NoMemory`] where memory was wanted and not found.
pub fn read_values(alloc: Global, text: &[u8]) -> Result<Vec<i64>, ValuesEnd>
    ensures spelled { IfOk result (λ values. Spells text.now values.items) }
    ensures only { IfOk result (λ values. (others : List ℤ) → Spells text.now others → others ≡ values.items) }
    ensures shape { result ≡ Err ValuesEnd.Shape → (values : List ℤ) → Spells text.now values → ⊥ }
{
    let mut values = Vec::new(alloc);
    for word in text.split(|byte| is_space(*byte)) {
        if word.is_empty() {
            continue;
        }
        match number(word) {
            Some(value) => values.push(value)?,
            None => return Err(ValuesEnd::Shape),
        }
    }
    Ok(values)
}
