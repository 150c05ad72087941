//! Laws of the words. A call does nothing: its contract is the law.
ghost use Rattle.command_words.specs.Words.{WordsAreInLimits};

/// The numbers of a command that words spell are in range.
pub fn words_are_in_limits()
    ensures { WordsAreInLimits }
{}
