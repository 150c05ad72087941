//! The number that a word spells.

ghost use Rattle.std.specs.Prelude.{◌≡◌};
ghost use Rattle.std.specs.Char.{is_ascii_digit};
ghost use Rattle.std.specs.List.{list_all};
ghost use Rattle.values_text.specs.Numbers as spec;

// Whether each byte is a digit.
fn has_digits_alone(bytes: &[u8]) -> bool
    ensures { result ≡ list_all is_ascii_digit bytes.now }
{
    bytes.iter().all(|byte| byte.is_ascii_digit())
}

// Whether the bytes are one or more digits.
fn are_digits(bytes: &[u8]) -> bool
    ensures { result ≡ spec.are_digits bytes.now }
{
    !bytes.is_empty() && has_digits_alone(bytes)
}

// The word behind its minus sign, if it has one.
fn without_sign(word: &[u8]) -> &[u8]
    ensures { result.now ≡ spec.without_sign word.now }
{
    match word {
        [b'-', digits @ ..] => digits,
        _ => word,
    }
}

/// The number that a word spells, and `None` exactly where it spells none: it has a byte that is no digit behind an optional `-`, or no
/// digit, or the number is out of the range of 64 bits.
pub fn number(word: &[u8]) -> Option<i64>
    ensures { result ≡ spec.number_of word.now }
{
    if !are_digits(without_sign(word)) {
        return None;
    }
    let Ok(text) = str::from_utf8(word) else {
        return None;
    };
    text.parse::<i64>().ok()
}
