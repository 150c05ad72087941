//! The operands of an operation.
ghost use Rattle.std.specs.Prelude.{◌≢◌, map, take, MatchOption};
ghost use Rattle.comp_graph.specs.Operations.{arity_of};
ghost use Rattle.line_texts.specs.Words.{after_spaces, HasNoNext, IsNext, IsSpelled};
ghost use Rattle.scratch_code.specs.CodeText.{operand_text};
ghost use Rattle.scratch_code.specs.Items.{IsOperand, AreOperands};

use comp_graph::Op;
use line_texts::{next_word, number, signed_number};
use scratch_machine::Source;

// The operand that a word spells.
fn operand(word: &[u8]) -> Option<Source>
    ensures { IsSpelled operand_text IsOperand word.now result }
{
    match word {
        [b's', digits @ ..] => match number(digits, 64) {
            Some(slot) => Some(Source::Slot(slot)),
            None => None,
        },
        [b'#', digits @ ..] => match signed_number(digits) {
            Some(value) => Some(Source::Const(value)),
            None => None,
        },
        _ => None,
    }
}

// The operand that stands behind a space, and the rest behind it.
fn next_operand(rest: &[u8]) -> Option<(Source, &[u8])>
    ensures { MatchOption result
        (HasNoNext operand_text IsOperand rest.now)
        (λ parts. IsNext operand_text IsOperand rest.now parts.0 parts.1.now) }
{
    let Some((word, more)) = next_word(rest) else {
        return None;
    };
    match operand(word) {
        Some(arg) => Some((arg, more)),
        None => None,
    }
}

/// The operands that stand to the end of a line, as many as the operation takes, with `Const(0)` in the places behind them.
pub(crate) fn operands(rest: &[u8], op: Op) -> Option<[Source; 3]>
    requires { op ≢ Op.Input }
    ensures { IsSpelled
        (λ args. after_spaces (map operand_text (take (arity_of op) args)))
        (AreOperands op) rest.now result }
{
    let none = Source::Const(0);
    let Some((first, more)) = next_operand(rest) else {
        return None;
    };
    if op.arity() == 1 {
        return if more.is_empty() {
            Some([first, none, none])
        } else {
            None
        };
    }
    let Some((second, more)) = next_operand(more) else {
        return None;
    };
    if op.arity() == 2 {
        return if more.is_empty() {
            Some([first, second, none])
        } else {
            None
        };
    }
    let Some((third, more)) = next_operand(more) else {
        return None;
    };
    if more.is_empty() {
        Some([first, second, third])
    } else {
        None
    }
}
