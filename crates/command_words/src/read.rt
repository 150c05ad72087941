//! What the words of a command line spell.
ghost use Rattle.std.specs.Prelude.{◌≡◌, ◌≤◌, ◌^◌, ◌<◌, true, ◌∷◌, [], length, Some, SomeIff, IfSome, map, string_bytes};
ghost use Rattle.comp_graph.specs.Games.{AreWeights};
ghost use Rattle.command_words.specs.Words.{are_digits, is_plain, digits_after, number, weights_by, slots_with, plan_command, check_command, trial_command, cover_command, parts_command, cache_command, command, asked_by, file_named_by, word_at, IsInLimits};

use crate::commands::{
    Caching, Checking, Command, Covering, PartPlanning, Planning, TrialPlanning, UNIT_WEIGHTS,
};
use comp_graph::Weights;

/// The greatest number of slots.
const MOST_SLOTS: u32 = 64;

/// The greatest number of statements of a trial kernel.
const MOST_STATEMENTS: u32 = 200;

/// The greatest number of parts.
const MOST_PARTS: u32 = 16;

/// The greatest budget of `plan` and `cache`.
const MOST_BUDGET: u32 = 150_000;

/// The budget of `plan` and `cache` that name none.
const DEFAULT_BUDGET: u32 = 20_000;

/// The greatest budget of `cover` and `parts`.
const MOST_SMALL_BUDGET: u32 = 8_000;

/// The budget of `cover` and `parts` that name none.
const DEFAULT_SMALL_BUDGET: u32 = 2_000;

/// The greatest weight.
const MOST_WEIGHT: u32 = 16;

// Whether each byte is an ASCII digit.
fn are_digits(bytes: &[u8]) -> bool
    ensures { result ≡ are_digits bytes.now }
{
    bytes.iter().all(|byte| byte.is_ascii_digit())
}

// Whether the word is digits with no zero in front, but for the word 0.
fn is_plain(word: &str) -> bool
    ensures { result ≡ is_plain word.now }
{
    let bytes = word.as_bytes();
    if bytes.is_empty() || !are_digits(bytes) {
        return false;
    }
    bytes.len() == 1 || bytes[0] != b'0'
}

// The number that digits spell, where it is below 2^32.
fn value(word: &str) -> Option<u32>
    requires digits { are_digits word.now ≡ true }
    requires some { 0 < length word.now }
    ensures { SomeIff result (digits_after 0 word.now < 2 ^ 32) (digits_after 0 word.now) }
{
    word.parse::<u32>().ok()
}

/// The number from low to high that the word spells in plain decimal.
pub fn number(low: u32, high: u32, word: &str) -> Option<u32>
    ensures value { result ≡ number low high word.now }
    ensures limits { IfSome result (λ n. (low ≤ n) × (n ≤ high)) }
{
    if !is_plain(word) {
        return None;
    }
    let value = value(word)?;
    if low <= value && value <= high {
        Some(value)
    } else {
        None
    }
}

/// The weights of a load and a store that two words spell, each from 1 to 16.
pub fn weights(load: &str, store: &str) -> Option<Weights>
    ensures value { result ≡ weights_by load.now store.now }
    ensures limits { IfSome result AreWeights }
{
    let load = number(1, MOST_WEIGHT, load)?;
    let store = number(1, MOST_WEIGHT, store)?;
    Some(Weights {
        load: load as u8,
        store: store as u8,
    })
}

/// The command that the words spell, with S from 1 to 64, A, B and K from 1 to 16, numbers in plain decimal, and the name of a file any word
/// that is not empty:
///
/// - `plan S TABLE`, `plan S TABLE BUDGET` and `plan S TABLE BUDGET A B`, with BUDGET from 0 to 150,000, and 20,000 where it is not named;
/// - `check S TABLE` and `check S TABLE A B`;
/// - `run VALUES`, `exec VALUES` and `graph`;
/// - `trial N S TABLE`, with N from 1 to 200;
/// - `cover S FILE` and `cover S FILE BUDGET`, and `parts S K FILE` and `parts S K FILE BUDGET`, with BUDGET from 0 to 8,000, and 2,000 where
///   it is not named;
/// - `covercheck S FILE`, `judge S PLAY` and `tidy S PLAY`;
/// - `cache S TABLE` and `cache S TABLE BUDGET`, with BUDGET as for `plan`.
///
/// All other words spell none. Without A and B, the costs of a load and a store, both are 1.
pub fn command(words: &[String]) -> Option<Command>
    ensures value { result ≡ asked_by words.now }
    ensures limits { IfSome result IsInLimits }
{
    match words {
        [name] => one_word(name.as_str()),
        [name, values] => two_words(name.as_str(), values.as_str()),
        [name, slots, file] => three_words(name.as_str(), slots.as_str(), file.as_str()),
        [name, first, second, third] => four_words(
            name.as_str(),
            first.as_str(),
            second.as_str(),
            third.as_str(),
        ),
        [name, first, second, third, fourth] => five_words(
            name.as_str(),
            first.as_str(),
            second.as_str(),
            third.as_str(),
            fourth.as_str(),
        ),
        [name, slots, table, budget, load, store] => six_words(
            name.as_str(),
            slots.as_str(),
            table.as_str(),
            budget.as_str(),
            load.as_str(),
            store.as_str(),
        ),
        _ => None,
    }
}

// The command of one word.
fn one_word(name: &str) -> Option<Command>
    ensures value { result ≡ command (name.now ∷ []) }
    ensures limits { IfSome result IsInLimits }
{
    if name == "graph" {
        Some(Command::Graph)
    } else {
        None
    }
}

// The command of two words.
fn two_words(name: &str, values: &str) -> Option<Command>
    ensures value { result ≡ command (name.now ∷ values.now ∷ []) }
    ensures limits { IfSome result IsInLimits }
{
    if values.is_empty() {
        return None;
    }
    match name {
        "run" => Some(Command::Run),
        "exec" => Some(Command::Exec),
        _ => None,
    }
}

// The command of three words.
fn three_words(name: &str, slots: &str, file: &str) -> Option<Command>
    ensures value { result ≡ command (name.now ∷ slots.now ∷ file.now ∷ []) }
    ensures limits { IfSome result IsInLimits }
{
    match name {
        "plan" => plan(slots, file, Some(DEFAULT_BUDGET), Some(UNIT_WEIGHTS)),
        "check" => check(slots, file, Some(UNIT_WEIGHTS)),
        "cover" => cover(slots, file, Some(DEFAULT_SMALL_BUDGET)),
        "covercheck" => Some(Command::CoverCheck(slots_with(slots, file)?)),
        "judge" => Some(Command::Judge(slots_with(slots, file)?)),
        "tidy" => Some(Command::Tidy(slots_with(slots, file)?)),
        "cache" => cache(slots, file, Some(DEFAULT_BUDGET)),
        _ => None,
    }
}

// The command of four words.
fn four_words(name: &str, first: &str, second: &str, third: &str) -> Option<Command>
    ensures value { result ≡ command (name.now ∷ first.now ∷ second.now ∷ third.now ∷ []) }
    ensures limits { IfSome result IsInLimits }
{
    match name {
        "plan" => plan(
            first,
            second,
            number(0, MOST_BUDGET, third),
            Some(UNIT_WEIGHTS),
        ),
        "trial" => trial(first, second, third),
        "cover" => cover(first, second, number(0, MOST_SMALL_BUDGET, third)),
        "parts" => parts(first, second, third, Some(DEFAULT_SMALL_BUDGET)),
        "cache" => cache(first, second, number(0, MOST_BUDGET, third)),
        _ => None,
    }
}

// The command of five words.
fn five_words(name: &str, first: &str, second: &str, third: &str, fourth: &str) -> Option<Command>
    ensures value { result ≡ command (name.now ∷ first.now ∷ second.now ∷ third.now ∷ fourth.now ∷ []) }
    ensures limits { IfSome result IsInLimits }
{
    match name {
        "check" => check(first, second, weights(third, fourth)),
        "parts" => parts(first, second, third, number(0, MOST_SMALL_BUDGET, fourth)),
        _ => None,
    }
}

// The command of six words.
fn six_words(
    name: &str,
    slots: &str,
    table: &str,
    budget: &str,
    load: &str,
    store: &str,
) -> Option<Command>
    ensures value { result ≡ command (name.now ∷ slots.now ∷ table.now ∷ budget.now ∷ load.now ∷ store.now ∷ []) }
    ensures limits { IfSome result IsInLimits }
{
    if name == "plan" {
        plan(
            slots,
            table,
            number(0, MOST_BUDGET, budget),
            weights(load, store),
        )
    } else {
        None
    }
}

// The plan with these slots, this table, this budget and these weights.
fn plan(slots: &str, table: &str, budget: Option<u32>, weights: Option<Weights>) -> Option<Command>
    requires budget { IfSome budget (λ n. n ≤ 150000) }
    requires weights { IfSome weights AreWeights }
    ensures value { result ≡ plan_command (number 1 64 slots.now) table.now budget weights }
    ensures limits { IfSome result IsInLimits }
{
    Some(Command::Plan(Planning {
        slots: slots_with(slots, table)?,
        budget: budget?,
        weights: weights?,
    }))
}

// The check with these slots, this table and these weights.
fn check(slots: &str, table: &str, weights: Option<Weights>) -> Option<Command>
    requires weights { IfSome weights AreWeights }
    ensures value { result ≡ check_command (number 1 64 slots.now) table.now weights }
    ensures limits { IfSome result IsInLimits }
{
    Some(Command::Check(Checking {
        slots: slots_with(slots, table)?,
        weights: weights?,
    }))
}

// The cover with these slots, this file and this budget.
fn cover(slots: &str, file: &str, budget: Option<u32>) -> Option<Command>
    requires budget { IfSome budget (λ n. n ≤ 8000) }
    ensures value { result ≡ cover_command (number 1 64 slots.now) file.now budget }
    ensures limits { IfSome result IsInLimits }
{
    Some(Command::Cover(Covering {
        slots: slots_with(slots, file)?,
        budget: budget?,
    }))
}

// The cache with these slots, this table and this budget.
fn cache(slots: &str, table: &str, budget: Option<u32>) -> Option<Command>
    requires budget { IfSome budget (λ n. n ≤ 150000) }
    ensures value { result ≡ cache_command (number 1 64 slots.now) table.now budget }
    ensures limits { IfSome result IsInLimits }
{
    Some(Command::Cache(Caching {
        slots: slots_with(slots, table)?,
        budget: budget?,
    }))
}

// The parts with these slots, this number of parts, this file and this budget.
fn parts(slots: &str, parts: &str, file: &str, budget: Option<u32>) -> Option<Command>
    requires budget { IfSome budget (λ n. n ≤ 8000) }
    ensures value { result ≡ parts_command (number 1 64 slots.now) (number 1 16 parts.now) file.now budget }
    ensures limits { IfSome result IsInLimits }
{
    Some(Command::Parts(PartPlanning {
        slots: slots_with(slots, file)?,
        parts: number(1, MOST_PARTS, parts)? as u8,
        budget: budget?,
    }))
}

// The trial with these statements, these slots and this table.
fn trial(statements: &str, slots: &str, table: &str) -> Option<Command>
    ensures value { result ≡ trial_command (number 1 200 statements.now) (number 1 64 slots.now) table.now }
    ensures limits { IfSome result IsInLimits }
{
    Some(Command::Trial(TrialPlanning {
        statements: number(1, MOST_STATEMENTS, statements)?,
        slots: slots_with(slots, table)?,
    }))
}

/// The number of slots, from 1 to 64, that a word spells, if the file's name is not empty.
pub fn slots_with(slots: &str, file: &str) -> Option<u16>
    ensures value { result ≡ slots_with (number 1 64 slots.now) file.now }
    ensures limits { IfSome result (λ n. (1 ≤ n) × (n ≤ 64)) }
{
    if file.is_empty() {
        return None;
    }
    let slots = number(1, MOST_SLOTS, slots)?;
    Some(slots as u16)
}

/// The word that names the file: the second after `run` or `exec`, the fourth after `trial` or `parts`, and the third after each other
/// command that has a file. Where there is no such word, the empty text. It takes no memory.
pub fn file_word(words: &[String]) -> &str
    ensures { result.now ≡ file_named_by words.now }
{
    let [name, rest @ ..] = words else {
        return "";
    };
    match name.as_str() {
        "run" | "exec" => word_at(rest, 0),
        "plan" | "check" | "cover" | "covercheck" | "judge" | "tidy" | "cache" => word_at(rest, 1),
        "trial" | "parts" => word_at(rest, 2),
        _ => "",
    }
}

/// The word at the place, or the empty text where there is none.
pub fn word_at(words: &[String], place: usize) -> &str
    ensures { result.now ≡ word_at place (map string_bytes words.now) }
{
    match words.get(place) {
        Some(word) => word.as_str(),
        None => "",
    }
}
