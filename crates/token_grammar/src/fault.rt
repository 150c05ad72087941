//! Why a list of tokens is no word of a grammar.

/// The fault at a token, or at the end of the text.
#[derive(Clone, Copy, Debug, PartialEq, Eq)]
pub enum GrammarFault {
    /// No word of the grammar goes on so, or the text ends too early.
    Syntax,
    /// A part opens deeper than the limit allows; with more levels some word goes on so.
    TooDeep,
}
