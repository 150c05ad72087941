//! Lines and comments.
ghost use Rattle.std.specs.Prelude.{◌≡◌, ◌∷◌, [], MatchOption};
ghost use Rattle.line_texts.specs.Lines as spec;
ghost use Rattle.line_texts.specs.Lines.{IsLine, BeginsWith};

use crate::words::up_to;

/// The line at the front of a text, and what follows its line feed. `None` exactly where there is no line feed.
pub fn next_line(text: &[u8]) -> Option<(&[u8], &[u8])>
    ensures { MatchOption result
        (IsLine text.now)
        (λ parts. BeginsWith text.now (parts.0.now ∷ []) parts.1.now) }
{
    let (line, rest) = up_to(text, b'\n');
    match rest {
        [] => None,
        [_, after @ ..] => Some((line, after)),
    }
}

/// Whether a line is a comment: whether it begins with `;`.
pub fn is_comment(line: &[u8]) -> bool
    ensures { result ≡ spec.is_comment line.now }
{
    match line {
        [] => false,
        [first, ..] => *first == b';',
    }
}
