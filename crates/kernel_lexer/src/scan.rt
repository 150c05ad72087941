//! How far spaces, comments, words and digits go, on the characters of a text.

ghost use Rattle.std.specs.Prelude.{◌*◌, ◌+◌, ◌^◌, ◌≡◌, ◌≤◌, ◌<◌, ◌||◌, ◌==◌, length, drop, false};
ghost use Rattle.std.specs.Char.{is_ascii_alphabetic};
ghost use Rattle.kernel_lexer.specs.Spelling as spelling;
ghost use Rattle.kernel_lexer.specs.Lexing as lexing;
ghost use Rattle.kernel_lexer.specs.Cutting as cutting;
ghost use Rattle.kernel_lexer.specs.Spelling.{bytes};

fn is_space(c: char) -> bool
    ensures { result ≡ lexing.is_space c }
{
    c == ' ' || c == '\t' || c == '\r' || c == '\n'
}

fn begins(c: char, rest: &[char]) -> bool
    ensures { result ≡ lexing.begins c rest.now }
{
    match rest {
        [] => false,
        [next, ..] => *next == c,
    }
}

/// What is left behind spaces and comments, and its place, where the characters stand at the place `at`.
pub fn skip(mut rest: &[char], mut at: u32) -> (&[char], u32)
    requires { at + bytes rest.now < 2 ^ 32 }
    ensures left { result.0.now ≡ lexing.skip false rest.entry.now }
    ensures place { result.1 + bytes result.0.now ≡ at + bytes rest.entry.now }
    ensures shorter { length result.0.now ≤ length rest.entry.now }
{
    let mut in_comment = false;
    while let [c, tail @ ..] = rest {
        if in_comment {
            in_comment = *c != '\n';
        } else if !is_space(*c) {
            if *c == '/' && begins('/', tail) {
                in_comment = true;
            } else {
                return (rest, at);
            }
        }
        at += c.len_utf8() as u32;
        rest = tail;
    }
    (rest, at)
}

/// Whether a character begins a name or a reserved word.
pub fn starts(c: char) -> bool
    ensures value { result ≡ spelling.starts c }
    ensures ascii { c < 128 → result ≡ (is_ascii_alphabetic c || (c == 95)) }
{
    unicode_ident::is_xid_start(c) || c == '_'
}

/// Whether a character is a digit.
pub fn is_digit(c: char) -> bool
    ensures { result ≡ spelling.is_digit c }
{
    '0' <= c && c <= '9'
}

/// How many characters the word at the front has.
pub fn word_len(rest: &[char]) -> usize
    requires { 0 < length rest.now }
    ensures value { result ≡ 1 + length (cutting.run spelling.continues (drop 1 rest.now)) }
    ensures within { result ≤ length rest.now }
{
    let mut len = 1;
    while len < rest.len() && unicode_ident::is_xid_continue(rest[len]) {
        len += 1;
    }
    len
}

/// How many digits stand at the front.
pub fn digits_len(rest: &[char]) -> usize
    ensures value { result ≡ length (cutting.run spelling.is_digit rest.now) }
    ensures within { result ≤ length rest.now }
{
    let mut len = 0;
    while len < rest.len() && is_digit(rest[len]) {
        len += 1;
    }
    len
}

/// How many bytes the characters have.
pub fn byte_len(word: &[char]) -> usize
    requires { length word.now < 2 ^ 32 }
    ensures value { result ≡ bytes word.now }
    ensures bound { result ≤ 4 * length word.now }
{
    let mut len = 0usize;
    for c in word {
        len += c.len_utf8();
    }
    len
}
