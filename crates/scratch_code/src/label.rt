//! The labels of inputs and outputs.
ghost use Rattle.std.specs.Prelude.{◌≡◌, MatchBool, MatchOption, chars};
ghost use Rattle.std.specs.List.{list_all};
ghost use Rattle.kernel_lexer.specs.Spelling.{continues, is_word};
ghost use Rattle.line_texts.specs.Words.{HasNoNext, IsNext};
ghost use Rattle.scratch_code.specs.Labels.{begins_word, AreIndices, HasNoIndex, IsBehindIndex, IsName, IsLabel};

use line_texts::{behind, next_word, number, up_to};
use unicode_ident::{is_xid_continue, is_xid_start};

// Whether the characters begin as a word does.
fn begins_word(text: &str) -> bool
    ensures { result ≡ begins_word (chars text.now) }
{
    match text.chars().next() {
        Some(first) => is_xid_start(first) || first == '_',
        None => false,
    }
}

// Whether each character may stand in a word.
fn goes_on(text: &str) -> bool
    ensures { result ≡ list_all continues (chars text.now) }
{
    text.chars().all(is_xid_continue)
}

// Whether the bytes are a name or a reserved word, of at most 64 bytes.
fn is_name(bytes: &[u8]) -> bool
    ensures { MatchBool result (IsName bytes.now) (IsName bytes.now → ⊥) }
{
    let Ok(text) = str::from_utf8(bytes) else {
        return false;
    };
    if bytes.len() > 64 {
        return false;
    }
    if begins_word(text) {
        goes_on(text)
    } else {
        false
    }
}

// What stands behind an index in brackets, if one stands at the front.
fn next_index(rest: &[u8]) -> Option<&[u8]>
    ensures { MatchOption result (HasNoIndex rest.now) (λ more. IsBehindIndex rest.now more.now) }
{
    let Some(tail) = behind(rest, b'[') else {
        return None;
    };
    let (digits, end) = up_to(tail, b']');
    let Some(more) = behind(end, b']') else {
        return None;
    };
    match number(digits, 64) {
        Some(_) => Some(more),
        None => None,
    }
}

// Whether nothing stands there, or one or two indices.
fn are_indices(rest: &[u8]) -> bool
    ensures { MatchBool result (AreIndices rest.now) (AreIndices rest.now → ⊥) }
{
    if rest.is_empty() {
        return true;
    }
    let Some(more) = next_index(rest) else {
        return false;
    };
    if more.is_empty() {
        return true;
    }
    match next_index(more) {
        Some(end) => end.is_empty(),
        None => false,
    }
}

/// Whether the bytes are a label: a name and none, one or two indices below 64.
pub(crate) fn is_label(bytes: &[u8]) -> bool
    ensures { MatchBool result (IsLabel bytes.now) (IsLabel bytes.now → ⊥) }
{
    let (name, indices) = up_to(bytes, b'[');
    if is_name(name) {
        are_indices(indices)
    } else {
        false
    }
}

/// The label that stands behind a space, and the rest behind it.
pub(crate) fn next_label(rest: &[u8]) -> Option<(&[u8], &[u8])>
    ensures { MatchOption result
        (HasNoNext (λ label. label) IsLabel rest.now)
        (λ parts. IsNext (λ label. label) IsLabel rest.now parts.0.now parts.1.now) }
{
    let Some((word, more)) = next_word(rest) else {
        return None;
    };
    if is_label(word) {
        Some((word, more))
    } else {
        None
    }
}
