//! What the words of the command line spell.
ghost use Rattle.std.specs.Prelude.{◌≡◌, ◌≤◌, ◌∷◌, [], Some, IfSome, true};
ghost use Rattle.comp_graph.specs.Games.{AreWeights};
ghost use Rattle.improve_answers.specs.ImproveWords.{asked_by, command, confirm_command, file_named_by, improve_command, IsInLimits};
ghost use Rattle.command_words.specs.Words.{number, slots_with};

use crate::commands::{ImproveCommand, Improving};
use command_words::read::{number, slots_with, weights, word_at};
use command_words::{Checking, UNIT_WEIGHTS};
use comp_graph::Weights;

/// The greatest effort.
const MOST_EFFORT: u32 = 200;

/// The effort of words that name none.
const DEFAULT_EFFORT: u32 = 20;

/// The command that the words spell, with S from 1 to 64, EFFORT from 0 to 200, A and B from 1 to 16, numbers in plain decimal, and FILE any
/// word that is not empty:
///
/// - `improve S FILE`, `improve S FILE EFFORT` and `improve S FILE EFFORT A B`, with the effort 20 if it is not named;
/// - `confirm S FILE` and `confirm S FILE A B`.
///
/// All other words spell none. Without A and B, the costs of a load and a store, both are 1.
pub fn command(words: &[String]) -> Option<ImproveCommand>
    ensures value { result ≡ asked_by words.now }
    ensures limits { IfSome result IsInLimits }
{
    match words {
        [name, slots, file] => three_words(name.as_str(), slots.as_str(), file.as_str()),
        [name, slots, file, effort] => four_words(
            name.as_str(),
            slots.as_str(),
            file.as_str(),
            effort.as_str(),
        ),
        [name, slots, file, load, store] => five_words(
            name.as_str(),
            slots.as_str(),
            file.as_str(),
            load.as_str(),
            store.as_str(),
        ),
        [name, slots, file, effort, load, store] => six_words(
            name.as_str(),
            slots.as_str(),
            file.as_str(),
            effort.as_str(),
            load.as_str(),
            store.as_str(),
        ),
        _ => None,
    }
}

// The command of three words.
fn three_words(name: &str, slots: &str, file: &str) -> Option<ImproveCommand>
    ensures value { result ≡ command (name.now ∷ slots.now ∷ file.now ∷ []) }
    ensures limits { IfSome result IsInLimits }
{
    match name {
        "improve" => improve(slots, file, Some(DEFAULT_EFFORT), Some(UNIT_WEIGHTS)),
        "confirm" => confirm(slots, file, Some(UNIT_WEIGHTS)),
        _ => None,
    }
}

// The command of four words.
fn four_words(name: &str, slots: &str, file: &str, effort: &str) -> Option<ImproveCommand>
    ensures value { result ≡ command (name.now ∷ slots.now ∷ file.now ∷ effort.now ∷ []) }
    ensures limits { IfSome result IsInLimits }
{
    match name {
        "improve" => improve(
            slots,
            file,
            number(0, MOST_EFFORT, effort),
            Some(UNIT_WEIGHTS),
        ),
        _ => None,
    }
}

// The command of five words.
fn five_words(
    name: &str,
    slots: &str,
    file: &str,
    load: &str,
    store: &str,
) -> Option<ImproveCommand>
    ensures value { result ≡ command (name.now ∷ slots.now ∷ file.now ∷ load.now ∷ store.now ∷ []) }
    ensures limits { IfSome result IsInLimits }
{
    match name {
        "confirm" => confirm(slots, file, weights(load, store)),
        _ => None,
    }
}

// The command of six words.
fn six_words(
    name: &str,
    slots: &str,
    file: &str,
    effort: &str,
    load: &str,
    store: &str,
) -> Option<ImproveCommand>
    ensures value { result ≡ command (name.now ∷ slots.now ∷ file.now ∷ effort.now ∷ load.now ∷ store.now ∷ []) }
    ensures limits { IfSome result IsInLimits }
{
    match name {
        "improve" => improve(
            slots,
            file,
            number(0, MOST_EFFORT, effort),
            weights(load, store),
        ),
        _ => None,
    }
}

// `improve` with these slots, this file, this effort and these weights.
fn improve(
    slots: &str,
    file: &str,
    effort: Option<u32>,
    weights: Option<Weights>,
) -> Option<ImproveCommand>
    requires effort { IfSome effort (λ n. n ≤ 200) }
    requires weights { IfSome weights AreWeights }
    ensures value { result ≡ improve_command (slots_with (number 1 64 slots.now) file.now) effort weights }
    ensures limits { IfSome result IsInLimits }
{
    Some(ImproveCommand::Improve(Improving {
        slots: slots_with(slots, file)?,
        effort: effort?,
        weights: weights?,
    }))
}

// `confirm` with these slots, this file and these weights.
fn confirm(slots: &str, file: &str, weights: Option<Weights>) -> Option<ImproveCommand>
    requires { IfSome weights AreWeights }
    ensures value { result ≡ confirm_command (slots_with (number 1 64 slots.now) file.now) weights }
    ensures limits { IfSome result IsInLimits }
{
    Some(ImproveCommand::Confirm(Checking {
        slots: slots_with(slots, file)?,
        weights: weights?,
    }))
}

/// The word that names the file: the third, or the empty text if there are fewer. It takes no memory.
pub fn file_word(words: &[String]) -> &str
    ensures { result.now ≡ file_named_by words.now }
{
    word_at(words, 2)
}
