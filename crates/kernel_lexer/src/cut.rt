//! The token at the front of a list of characters.

ghost use Rattle.std.specs.Prelude.{◌∷◌, [], ◌^◌, pos, IfSome, IfNone, IsTrue, ◌≡◌, ◌≤◌, ◌<◌, length, true, false};
ghost use Rattle.std.specs.List.{list_all};
ghost use Rattle.kernel_lexer.specs.Spelling as spelling;
ghost use Rattle.kernel_lexer.specs.Lexing as lexing;
ghost use Rattle.kernel_lexer.specs.Cutting.{IsCut, BeginsWord, BeginsNumber, BeginsOther, front_sign, sized_or};

use crate::scan::{byte_len, digits_len, is_digit, starts, word_len};
use crate::token::{Keyword, Mark, TokenKind};

/// Why no token is cut.
#[derive(Clone, Copy)]
pub enum TokenRule {
    /// No token begins here.
    BadByte,
    /// The token is too big.
    TooBig,
}

impl TokenRule {
    ghost use Rattle.std.specs.Prelude.{◌≡◌};
    ghost use Rattle.kernel_lexer.specs.Texts as texts;

    /// The fault's number.
    pub fn code(self) -> u8
        ensures { result ≡ texts.code_of self }
    {
        match self {
            TokenRule::BadByte => 1,
            TokenRule::TooBig => 2,
        }
    }
}

/// What stands at the front.
#[derive(Clone, Copy)]
pub enum Cut {
    /// A token of so many characters.
    Token(TokenKind, usize),
    /// No token.
    NoToken(TokenRule),
}

/// The sign of one character.
fn single(c: char) -> Option<Mark>
    ensures { result ≡ spelling.sign_of (c ∷ []) }
{
    match c {
        '{' => Some(Mark::OpenBrace),
        '}' => Some(Mark::CloseBrace),
        '[' => Some(Mark::OpenBracket),
        ']' => Some(Mark::CloseBracket),
        '(' => Some(Mark::OpenParen),
        ')' => Some(Mark::CloseParen),
        ';' => Some(Mark::Semicolon),
        ',' => Some(Mark::Comma),
        '=' => Some(Mark::Assign),
        '+' => Some(Mark::Plus),
        '-' => Some(Mark::Minus),
        '*' => Some(Mark::Star),
        '&' => Some(Mark::And),
        '|' => Some(Mark::Or),
        '^' => Some(Mark::Xor),
        '<' => Some(Mark::Less),
        '>' => Some(Mark::More),
        _ => None,
    }
}

/// The sign of two characters.
fn double(c: char, d: char) -> Option<Mark>
    ensures { result ≡ spelling.sign_of (c ∷ d ∷ []) }
{
    match (c, d) {
        ('.', '.') => Some(Mark::Dots),
        ('=', '=') => Some(Mark::Same),
        ('!', '=') => Some(Mark::Differs),
        ('<', '=') => Some(Mark::AtMost),
        ('>', '=') => Some(Mark::AtLeast),
        _ => None,
    }
}

/// The reserved word that the characters spell.
fn keyword(word: &[char]) -> Option<Keyword>
    ensures { result ≡ spelling.keyword word.now }
{
    if word == ['k', 'e', 'r', 'n', 'e', 'l'].as_slice() {
        Some(Keyword::Kernel)
    } else if word == ['i', 'n'].as_slice() {
        Some(Keyword::Input)
    } else if word == ['o', 'u', 't'].as_slice() {
        Some(Keyword::Output)
    } else if word == ['t', 'm', 'p'].as_slice() {
        Some(Keyword::Temp)
    } else if word == ['f', 'o', 'r'].as_slice() {
        Some(Keyword::Loop)
    } else if word == ['m', 'i', 'n'].as_slice() {
        Some(Keyword::Min)
    } else if word == ['m', 'a', 'x'].as_slice() {
        Some(Keyword::Max)
    } else if word == ['s', 'e', 'l'].as_slice() {
        Some(Keyword::Sel)
    } else if word == ['m', 'a', 'd'].as_slice() {
        Some(Keyword::Mad)
    } else if word == ['i', 'f'].as_slice() {
        Some(Keyword::If)
    } else if word == ['e', 'l', 's', 'e'].as_slice() {
        Some(Keyword::Else)
    } else if word == ['b', 'y'].as_slice() {
        Some(Keyword::By)
    } else {
        None
    }
}

/// What a word stands for.
fn word_kind(word: &[char]) -> TokenKind
    ensures { result ≡ spelling.named (spelling.keyword word.now) }
{
    match keyword(word) {
        Some(keyword) => TokenKind::Word(keyword),
        None => TokenKind::Name,
    }
}

/// The number that the digits stand for, where it has 63 bits.
fn value(digits: &[char]) -> Option<i64>
    requires { IsTrue (list_all spelling.is_digit digits.now) }
    ensures some { IfSome result (λ n. (n ≡ pos (spelling.value digits.now)) × (spelling.value digits.now < 2 ^ 63)) }
    ensures none { IfNone result (2 ^ 63 ≤ spelling.value digits.now) }
{
    let mut value = 0u64;
    for c in digits {
        let digit = *c as u64 - '0' as u64;
        value = value.saturating_mul(10).saturating_add(digit);
    }
    i64::try_from(value).ok()
}

fn cut_word(rest: &[char]) -> Cut
    requires short { length rest.now < 2 ^ 31 }
    requires begins { BeginsWord rest.now }
    ensures { IsCut rest.now result }
{
    let len = word_len(rest);
    let word = &rest[..len];
    if byte_len(word) <= 64 {
        Cut::Token(word_kind(word), len)
    } else {
        Cut::NoToken(TokenRule::TooBig)
    }
}

fn cut_number(rest: &[char]) -> Cut
    requires { BeginsNumber rest.now }
    ensures { IsCut rest.now result }
{
    let len = digits_len(rest);
    match value(&rest[..len]) {
        Some(n) => Cut::Token(TokenKind::Number(n), len),
        None => Cut::NoToken(TokenRule::TooBig),
    }
}

/// A sign with its number of characters.
fn sized(mark: Option<Mark>, len: usize) -> Option<(Mark, usize)>
    ensures { result ≡ sized_or len mark None }
{
    match mark {
        Some(mark) => Some((mark, len)),
        None => None,
    }
}

/// The sign at the front, and how many characters it has: two where they are a sign, or else one.
fn sign(rest: &[char]) -> Option<(Mark, usize)>
    ensures { result ≡ front_sign rest.now }
{
    match rest {
        [] => None,
        [c] => sized(single(*c), 1),
        [c, d, ..] => match double(*c, *d) {
            Some(mark) => Some((mark, 2)),
            None => sized(single(*c), 1),
        },
    }
}

fn cut_sign(rest: &[char]) -> Cut
    requires { BeginsOther rest.now }
    ensures { IsCut rest.now result }
{
    match sign(rest) {
        Some((mark, len)) => Cut::Token(TokenKind::Sign(mark), len),
        None => Cut::NoToken(TokenRule::BadByte),
    }
}

/// The token at the front.
pub fn cut_token(rest: &[char]) -> Cut
    requires some { 0 < length rest.now }
    requires short { length rest.now < 2 ^ 31 }
    ensures { IsCut rest.now result }
{
    match rest {
        [] => unreachable!(),
        [c, ..] => {
            if starts(*c) {
                cut_word(rest)
            } else if is_digit(*c) {
                cut_number(rest)
            } else {
                cut_sign(rest)
            }
        }
    }
}
