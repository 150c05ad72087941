//! Tokens: what they are and where they stand.

/// A reserved word.
#[derive(Clone, Copy, Debug, PartialEq, Eq)]
pub enum Keyword {
    /// `kernel`
    Kernel,
    /// `in`
    Input,
    /// `out`
    Output,
    /// `tmp`
    Temp,
    /// `for`
    Loop,
    /// `min`
    Min,
    /// `max`
    Max,
    /// `sel`
    Sel,
    /// `mad`
    Mad,
    /// `if`
    If,
    /// `else`
    Else,
    /// `by`
    By,
}

/// A sign.
#[derive(Clone, Copy, Debug, PartialEq, Eq)]
pub enum Mark {
    /// `{`
    OpenBrace,
    /// `}`
    CloseBrace,
    /// `[`
    OpenBracket,
    /// `]`
    CloseBracket,
    /// `(`
    OpenParen,
    /// `)`
    CloseParen,
    /// `;`
    Semicolon,
    /// `,`
    Comma,
    /// `=`
    Assign,
    /// `..`
    Dots,
    /// `+`
    Plus,
    /// `-`
    Minus,
    /// `*`
    Star,
    /// `&`
    And,
    /// `|`
    Or,
    /// `^`
    Xor,
    /// `==`
    Same,
    /// `!=`
    Differs,
    /// `<`
    Less,
    /// `<=`
    AtMost,
    /// `>`
    More,
    /// `>=`
    AtLeast,
}

/// What a token is.
#[derive(Clone, Copy, Debug, PartialEq, Eq)]
pub enum TokenKind {
    /// A name. Its text is the token's span.
    Name,
    /// A number from 0 to 9223372036854775807.
    Number(i64),
    /// A reserved word.
    Word(Keyword),
    /// A sign.
    Sign(Mark),
}

/// A token of a text: its own text is `text[from..to]`, in bytes.
#[derive(Clone, Copy, Debug, PartialEq, Eq)]
pub struct Token {
    /// What it is.
    pub kind: TokenKind,
    /// The place of its first byte.
    pub from: u32,
    /// The place behind its last byte.
    pub to: u32,
}
