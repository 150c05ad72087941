//! The words of a line, which are parted by one space each.
ghost use Rattle.std.specs.Prelude.{◌≡◌, ◌≢◌, ◌<◌, ◌∷◌, [], ℕ, List, MatchOption};
ghost use Rattle.std.specs.Fmt.{decimal};
ghost use Rattle.line_texts.specs.Words.{after_spaces, HasNoNext, IsNext, IsSpelled, IsUpTo};

use crate::numbers::number;

/// All up to the first byte `stop`, or up to the end, and the rest from there on.
pub fn up_to(bytes: &[u8], stop: u8) -> (&[u8], &[u8])
    ensures { IsUpTo stop bytes.now result.0.now result.1.now }
{
    for (k, byte) in bytes.iter().enumerate() {
        if *byte == stop {
            return (&bytes[..k], &bytes[k..]);
        }
    }
    (bytes, &bytes[bytes.len()..])
}

/// What stands behind the byte `first`, or `None` exactly where that byte does not stand at the front.
pub fn behind(bytes: &[u8], first: u8) -> Option<&[u8]>
    ensures { MatchOption result
        ((tail : List ℕ) → bytes.now ≢ first ∷ tail)
        (λ tail. bytes.now ≡ first ∷ tail.now) }
{
    match bytes {
        [byte, tail @ ..] => { if *byte == first { Some(tail) } else { None } }
        [] => None,
    }
}

/// The word behind a space, and the rest behind it. `None` exactly where no space stands at the front.
pub fn next_word(rest: &[u8]) -> Option<(&[u8], &[u8])>
    ensures { MatchOption result
        ((tail : List ℕ) → rest.now ≢ 32 ∷ tail)
        (λ parts. (tail : List ℕ) × (rest.now ≡ 32 ∷ tail) × IsUpTo 32 tail parts.0.now parts.1.now) }
{
    match rest {
        [b' ', tail @ ..] => Some(up_to(tail, b' ')),
        _ => None,
    }
}

/// The number below a limit that stands behind a space in plain decimal, and the rest behind it. `None` exactly where none stands there.
pub fn next_number(rest: &[u8], limit: u16) -> Option<(u16, &[u8])>
    ensures { MatchOption result
        (HasNoNext decimal (λ n. n < limit) rest.now)
        (λ parts. IsNext decimal (λ n. n < limit) rest.now parts.0 parts.1.now) }
{
    let Some((word, more)) = next_word(rest) else {
        return None;
    };
    match number(word, limit) {
        Some(n) => Some((n, more)),
        None => None,
    }
}

/// The number below a limit that stands behind a space in plain decimal, to the end of a line. `None` exactly where the rest is no such
/// number.
pub fn last_number(rest: &[u8], limit: u16) -> Option<u16>
    ensures { IsSpelled (λ n. after_spaces (decimal n ∷ [])) (λ n. n < limit) rest.now result }
{
    let Some((number, more)) = next_number(rest, limit) else {
        return None;
    };
    if more.is_empty() { Some(number) } else { None }
}
