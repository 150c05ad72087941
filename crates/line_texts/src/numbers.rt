//! Numbers in plain decimal.
ghost use Rattle.std.specs.Prelude.{◌<◌, FitsSigned};
ghost use Rattle.std.specs.Fmt.{decimal, signed_decimal};
ghost use Rattle.std.specs.Int.{w64};
ghost use Rattle.line_texts.specs.Words.{IsSpelled};

use itoa::Buffer;

/// The number below a limit that a word spells in plain decimal, or `None` exactly where it spells none. Zeros do not lead, and there is no
/// sign.
pub fn number(word: &[u8], limit: u16) -> Option<u16>
    ensures { IsSpelled decimal (λ n. n < limit) word.now result }
{
    let Ok(text) = str::from_utf8(word) else {
        return None;
    };
    let Ok(number) = text.parse::<u16>() else {
        return None;
    };
    let mut buffer = Buffer::new();
    if number < limit && buffer.format(number).as_bytes() == word {
        Some(number)
    } else {
        None
    }
}

/// The 64-bit number that a word spells in plain decimal, with a minus sign where it is negative, or `None` exactly where it spells none.
/// Zeros do not lead, and 0 has no sign.
pub fn signed_number(word: &[u8]) -> Option<i64>
    ensures { IsSpelled signed_decimal (FitsSigned w64) word.now result }
{
    let Ok(text) = str::from_utf8(word) else {
        return None;
    };
    let Ok(number) = text.parse::<i64>() else {
        return None;
    };
    let mut buffer = Buffer::new();
    if buffer.format(number).as_bytes() == word {
        Some(number)
    } else {
        None
    }
}
