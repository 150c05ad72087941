//! Positions, each with its head, in rows of numbers.
ghost use Rattle.std.specs.Prelude.{◌≡◌, ℕ, ◌+◌, ◌*◌, ◌^◌, ◌<◌, ◌≤◌, [], ◌∷◌, ◌++◌, length, take, slice_index, IfOk, OnOk, OnErr, MatchOption, IsTrue, ◌↔◌};
ghost use Rattle.comp_graph.specs.Vertices.{AllBelow};
ghost use Rattle.comp_graph.specs.Words.{set_of_words};
ghost use Rattle.position_arena.specs.Arenas.{slot_at, IsWithinWords, IsAbsent, IsPlaceOf, row_words, pushed, with_head};
ghost use Rattle.position_arena.specs.Index.{IsIndex, keys_of};
ghost use Rattle.position_arena.specs.SlotRows.{step_number, step_vertex, step_of, link_number, head_of};
ghost use Rattle.position_arena.specs.Stores.{row_at};

use crate::index::{find, hash, insert, rebuilt};
use crate::store::Store;
use comp_graph::{NoMemory, VertexSet};
use normal_steps::Step;
use pebble_rules::Position;
use std::alloc::{AllocError, Global};
use std::marker::Model;

/// What is kept of the play that leads to a position: its cost, the place of the position that its last step comes from, and that step.
/// `Positions` holds these numbers and reads nothing into them.
#[derive(Clone, Copy, Debug, PartialEq, Eq)]
pub struct Head {
    pub cost: u32,
    pub parent: u32,
    pub step: Step,
}

/// The positions of a search in the order of pushing, each with its head. Contracts see the list of them, so position k is the k-th that
/// was pushed, with the head that was set last.
///
/// A position is kept as a row of `2 * words + 2` numbers of 64 bits in a chunk of 4,096 rows: the red words, the blue words, the cost plus
/// 2^32 times the parent, and the step as a number. The row is written once, and lies where it was written until all are dropped. No
/// contract says so, nor that the index is hashed. Only `push` takes memory.
#[derive(Drop)]
pub struct Positions {
    alloc: Global,
    words: u8,
    store: Store,
    places: Vec<u32>,
}

impl Model for Positions {
    ghost use Rattle.std.specs.Coded.{codes};
    ghost use Rattle.comp_graph.specs.contracts.vertex_set.VertexSet as vertex_set;
    ghost use Rattle.position_arena.specs.Arenas.{Arena};

    ghost Value = { Arena };

    ghost coded = { Prim.hlevel (codes, vertex_set.the_row.coded) };

    ghost use Rattle.position_arena.specs.RowsInside.{arena_of, IsArena};

    ghost view = { arena_of };

    ghost invariant = { IsArena };
}

// Whether each vertex of a set is below 64 times `words`.
fn is_narrow(words: u8, vertices: &VertexSet) -> bool
    requires { words ≤ 4 }
    ensures { IsTrue result ↔ AllBelow (64 * words) vertices.now }
{
    // Where there are four words no word is looked at, and each vertex is below 256.
    prove!(vertices.count() <= 256);
    for k in words..4 {
        if vertices.word(k) != 0 {
            return false;
        }
    }
    true
}

// Whether both sets of a position are below 64 times `words`.
fn fits(words: u8, p: &Position) -> bool
    requires { words ≤ 4 }
    ensures { IsTrue result ↔ IsWithinWords words p.now }
{
    is_narrow(words, &p.red) && is_narrow(words, &p.blue)
}

// The first red words and then the first blue words of a position.
fn words_of(words: u8, p: &Position) -> [u64; 10]
    requires { words ≤ 4 }
    ensures { take (2 * words) result ≡ row_words words p.now }
{
    let red = &p.red;
    let blue = &p.blue;
    let [a, b, c, d] = [red.word(0), red.word(1), red.word(2), red.word(3)];
    let [e, f, g, h] = [blue.word(0), blue.word(1), blue.word(2), blue.word(3)];
    match words {
        0 => [0; 10],
        1 => [a, e, 0, 0, 0, 0, 0, 0, 0, 0],
        2 => [a, b, e, f, 0, 0, 0, 0, 0, 0],
        3 => [a, b, c, e, f, g, 0, 0, 0, 0],
        _ => [a, b, c, d, e, f, g, h, 0, 0],
    }
}

// The word at a place, and 0 past the end.
fn word_at(words: &[u64], k: usize) -> u64
    ensures { result ≡ slice_index words.now k }
{
    if k < words.len() { words[k] } else { 0 }
}

// The set whose first words these are.
fn set_from(words: &[u64]) -> VertexSet
    ensures { result ≡ set_of_words words.now }
{
    VertexSet::from_words([
        word_at(words, 0),
        word_at(words, 1),
        word_at(words, 2),
        word_at(words, 3),
    ])
}

// Cost and parent as a number.
fn link_of(head: Head) -> u64
    ensures value { result ≡ link_number head }
    ensures cost { head.cost < 2 ^ 32 }
    ensures parent { head.parent < 2 ^ 32 }
{
    head.cost as u64 + head.parent as u64 * (1 << 32)
}

// The step as a number.
fn number_of(step: Step) -> u64
    ensures value { result ≡ step_number step }
    ensures vertex { step_vertex step < 2 ^ 16 }
{
    match step {
        Step::Work(v) => v as u64,
        Step::Drop(v) => 65536 + v as u64,
        Step::Spill(v) => 131072 + v as u64,
    }
}

// The step of a number.
fn step_from(number: u64) -> Step
    requires { number < 196608 }
    ensures { result ≡ step_of number }
{
    if number < 65536 {
        Step::Work(number as u16)
    } else if number < 131072 {
        Step::Drop((number - 65536) as u16)
    } else {
        Step::Spill((number - 131072) as u16)
    }
}

// The head of two numbers.
fn head_from(link: u64, number: u64) -> Head
    requires { number < 196608 }
    ensures { result ≡ head_of link number }
{
    Head {
        cost: (link % (1 << 32)) as u32,
        parent: (link / (1 << 32)) as u32,
        step: step_from(number),
    }
}

// Takes the memory for one more place number. At most a third of the places is taken, so that few are looked at.
fn reserve(
    alloc: Global,
    store: &Store,
    width: usize,
    places: &mut Vec<u32>,
) -> Result<(), AllocError>
    requires wide { (k : ℕ) → k < length store.now.rows → width ≤ length (row_at store.now k) }
    requires few { length store.now.rows < 4294967295 }
    requires index { IsIndex (keys_of width store.now.rows) places.old.items }
    requires loose { 3 * length store.now.rows ≤ 2 * length places.old.items }
    ensures index { IsIndex (keys_of width store.now.rows) places.new.items }
    ensures loose { 3 * length store.now.rows ≤ 2 * length places.new.items }
    ensures room { OnOk result (3 * (length store.now.rows + 1) ≤ 2 * length places.new.items) }
{
    let wanted = 3 * (store.len() as usize + 1);
    if places.len() < wanted {
        *places = rebuilt(alloc, store, width, 2 * wanted)?;
    }
    Ok(())
}

impl Positions {
    /// No positions, for those with vertices below 64 times `words`, which is at most 4. It takes no memory.
    pub fn new(alloc: Global, words: u8) -> Positions
        requires { words ≤ 4 }
        ensures { result ≡ record { words = words; slots = [] } }
    {
        Positions {
            alloc,
            words,
            store: Store::new(alloc, 2 * words as usize + 2),
            places: Vec::new(alloc),
        }
    }

    /// Whether both sets of a position are below 64 times the words, as `push` asks.
    pub fn fits(&self, p: &Position) -> bool
        ensures { IsTrue result ↔ IsWithinWords self.now.words p.now }
    {
        fits(self.words, p)
    }

    /// The place of this position. None exactly where it was not pushed, also where it does not fit.
    pub fn find(&self, p: &Position) -> Option<u32>
        ensures { MatchOption result (IsAbsent self.now p.now) (IsPlaceOf self.now p.now) }
    {
        if !fits(self.words, p) {
            return None;
        }
        let key = words_of(self.words, p);
        find(&self.places, &self.store, &key[..2 * self.words as usize])
    }

    /// Appends a position, and answers its place. It must not be there yet, as `find` tells, and fit, as `fits` tells, and there must be
    /// fewer than 4,294,967,295 of them. `NoMemory` comes where there is no memory for a chunk of rows or for the index, which are taken
    /// before anything is written: positions, heads and all answers of `find` are then as they were.
    pub fn push(&mut self, p: &Position, head: Head) -> Result<u32, NoMemory>
        requires absent { IsAbsent self.old p.now }
        requires fits { IsWithinWords self.old.words p.now }
        requires room { length self.old.slots < 4294967295 }
        ensures place { IfOk result (λ k. k ≡ length self.old.slots) }
        ensures ok { OnOk result (self.new ≡ pushed self.old p.now head) }
        ensures err { OnErr result (self.new ≡ self.old) }
    {
        let width = 2 * self.words as usize;
        self.store.reserve()?;
        reserve(self.alloc, &self.store, width, &mut self.places)?;
        let mut row = words_of(self.words, p);
        let place = self.store.len();
        insert(&mut self.places, hash(&row[..width]), place);
        row[width] = link_of(head);
        row[width + 1] = number_of(head.step);
        self.store.push(&row[..width + 2]);
        Ok(place)
    }

    /// The red words and then the blue words of position k, lent without a copy: vertex v is bit v mod 64 of word v div 64 of its colour.
    pub fn words_at(&self, k: u32) -> &[u64]
        requires { k < length self.now.slots }
        ensures { result.now ≡ row_words self.now.words (slot_at self.now k).position }
    {
        let row = self.store.row(k);
        &row[..2 * self.words as usize]
    }

    /// Position k.
    pub fn position(&self, k: u32) -> Position
        requires { k < length self.now.slots }
        ensures { result ≡ (slot_at self.now k).position }
    {
        let row = self.store.row(k);
        let words = self.words as usize;
        Position {
            red: set_from(&row[..words]),
            blue: set_from(&row[words..2 * words]),
        }
    }

    /// The head of position k, as it was set last.
    pub fn head(&self, k: u32) -> Head
        requires { k < length self.now.slots }
        ensures { result ≡ (slot_at self.now k).head }
    {
        let row = self.store.row(k);
        let width = 2 * self.words as usize;
        head_from(row[width], row[width + 1])
    }

    /// Gives position k another head, and changes nothing else.
    pub fn set_head(&mut self, k: u32, head: Head)
        requires { k < length self.old.slots }
        ensures { self.new ≡ with_head self.old k head }
    {
        let width = 2 * self.words as usize;
        self.store
            .set_two(k, width, link_of(head), number_of(head.step));
    }

    /// How many positions there are.
    pub fn len(&self) -> u32
        ensures { result ≡ length self.now.slots }
    {
        self.store.len()
    }
}
