//! Permutations of the vertices.
ghost use Rattle.std.specs.Prelude.{◌≡◌, ℕ, ◌+◌, ◌<◌, ◌≤◌, length, slice_index, slice_index_or, MatchOption};
ghost use Rattle.comp_graph.specs.Vertices.{AllBelow};
ghost use Rattle.comp_graph.specs.Words.{set_of_words};
ghost use Rattle.window_laws.specs.Images.{IsImage, IsImageOf};
ghost use Rattle.window_images.specs.Permutations.{IsPermutation, IsRenamingBy, IsUndone, ArePermutationParts};
ghost use Rattle.window_images.specs.Permutations.{renaming, set_image, position_image};
ghost use Rattle.window_images.specs.Making.{IsTwice, IsInverse, IsDone, from_word};

use comp_graph::VertexSet;
use pebble_rules::Position;
use std::marker::Model;

/// A permutation of the vertices: the number that each gets, and the way back. Contracts see it as two lists of 256 numbers.
#[derive(Drop)]
pub struct Permutation {
    there: [u8; 256],
    back: [u8; 256],
}

impl Model for Permutation {
    ghost use Rattle.window_images.specs.Permutations.{PermutationParts, ArePermutationParts};

    ghost Value = { PermutationParts };

    ghost view = { λ a. record { there = a.there; back = a.back } };

    ghost invariant = { λ a. ArePermutationParts (record { there = a.there; back = a.back }) };
}

impl Permutation {
    /// The permutation that gives vertex v the number at place v of a list, and lets vertices beyond the end of the list keep theirs.
    /// None exactly if the list is no permutation of the numbers below its length, which is at most 256. It takes no memory.
    pub fn new(there: &[u8]) -> Option<Permutation>
        requires { length there.now ≤ 256 }
        ensures { MatchOption result (¬ IsPermutation there.now) (IsRenamingBy there.now) }
    {
        let there = padded(there);
        let Some(back) = inverse(&there) else {
            return None;
        };
        Some(Permutation { there, back })
    }

    /// The number that a vertex gets. It takes no memory.
    pub fn there(&self, v: u16) -> u16
        requires { v < 256 }
        ensures value { result ≡ (renaming self.now).there v }
        ensures small { result < 256 }
        ensures undone { IsUndone (renaming self.now) }
    {
        u16::from(self.there[v as usize])
    }

    /// The image of a set: the vertices to which its members go. It takes no memory.
    pub fn image(&self, set: &VertexSet) -> VertexSet
        ensures value { result ≡ set_image (renaming self.now) set.now }
        ensures image { IsImage (renaming self.now) set.now result }
    {
        let mut words = [0; 4];
        for k in 0..4u8 {
            self.place(set, k, &mut words);
        }
        VertexSet::from_words(words)
    }

    /// The image of a position: the images of its red and of its blue vertices. It takes no memory.
    pub fn image_of_position(&self, position: &Position) -> Position
        ensures value { result ≡ position_image (renaming self.now) position.now }
        ensures image { IsImageOf (renaming self.now) position.now result }
    {
        Position {
            red: self.image(&position.red),
            blue: self.image(&position.blue),
        }
    }

    // Puts the images of the members that the word k of a set has into words. Those below 64, which are most, are first gathered in one
    // number, because a processor waits if it changes a word in memory that it has just changed.
    fn place(&self, set: &VertexSet, k: u8, image: &mut [u64; 4])
        requires word { k < 4 }
        requires done { IsDone (renaming self.now) set.now (from_word set.now k) (set_of_words image.old) }
        ensures done { IsDone (renaming self.now) set.now (from_word set.now (k + 1)) (set_of_words image.new) }
        ensures bounded { AllBelow 256 set.now }
        ensures places { ArePermutationParts self.now }
    {
        let mut rest = set.word(k);
        let mut first = 0;
        while rest != 0 {
            let bit = rest.trailing_zeros() as u16;
            rest &= !(1 << bit);
            let number = u16::from(self.there[(u16::from(k) * 64 + bit) as usize]);
            if number < 64 {
                first |= 1 << number;
            } else {
                image[number as usize / 64] |= 1 << (number % 64);
            }
        }
        image[0] |= first;
    }
}

// The list, followed by each further number below 256 at its own place.
fn padded(list: &[u8]) -> [u8; 256]
    requires { length list.now ≤ 256 }
    ensures long { length result ≡ 256 }
    ensures each { (v : ℕ) → v < 256 → slice_index result v ≡ slice_index_or list.now v v }
{
    let mut whole = [0; 256];
    for v in 0..256u16 {
        let place = v as usize;
        whole[place] = if place < list.len() {
            list[place]
        } else {
            v as u8
        };
    }
    whole
}

// The list that has each number at the place to which it goes by another list. None exactly if two places of that list agree.
fn inverse(there: &[u8; 256]) -> Option<[u8; 256]>
    ensures { MatchOption result (IsTwice there.now) (IsInverse there.now) }
{
    let mut back = [0; 256];
    let mut met = VertexSet::empty();
    for v in 0..256u16 {
        let number = there[v as usize];
        if met.has(u16::from(number)) {
            return None;
        }
        met = met.with(u16::from(number));
        back[number as usize] = v as u8;
    }
    Some(back)
}
