//! A law of all texts. The call does nothing: its contract is the law.

ghost use Rattle.values_text.specs.Values.{SpellsOneList};

/// A text spells at most one list of numbers.
pub fn one_list()
    ensures { SpellsOneList }
{}
