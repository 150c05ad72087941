//! Laws of all texts. A call does nothing: its contract is the law.

ghost use Rattle.kernel_lexer.specs.Laws.{AlwaysOne, NeverBoth, OneFirstFault, OneTokenList, SpansRise};

/// A text has at most one list of tokens and at most one first fault, not both, and always one of them.
pub fn tokens_or_fault()
    ensures one_list { OneTokenList }
    ensures one_fault { OneFirstFault }
    ensures never_both { NeverBoth }
    ensures always_one { AlwaysOne }
{}

/// The spans of the tokens of a text rise, none is empty, all stand within the text, and each is UTF-8 and spells what its token is.
pub fn spans_rise()
    ensures { SpansRise }
{}
