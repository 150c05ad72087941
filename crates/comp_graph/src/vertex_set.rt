//! Sets of vertices, in four machine words.
ghost use Rattle.std.specs.Prelude.{◌≡◌, ℕ, ◌<◌, ◌≤◌, MatchOption, IsTrue, ◌↔◌, slice_set};
ghost use Rattle.std.specs.FinSet as set;
ghost use Rattle.std.specs.Cmp.{partial_equiv_from_equiv};
ghost use Rattle.comp_graph.specs.Words.{set_of_words, word_of};
ghost use Rattle.comp_graph.specs.Vertices.{AllBelow, IsLeast, IsWithin};

use std::marker::Model;

/// A set of vertices, which are numbers below 256. Contracts see it as a finite set of numbers. No call takes memory or refuses.
#[derive(Clone, Copy)]
pub struct VertexSet {
    words: [u64; 4],
}

impl Model for VertexSet {
    ghost use Rattle.std.specs.Ordering.{nat_cmp};
    ghost use Rattle.std.specs.FinSet as set;
    ghost use Rattle.std.specs.Coded.{coded_ℕ};
    ghost use Rattle.comp_graph.specs.Words.{set_of_words, words_of, AreWords};
    ghost use Rattle.comp_graph.specs.WordLaws.{words_of-set_of_words};

    ghost Value = { set.FinSet nat_cmp };

    ghost coded = { set.code coded_ℕ };

    ghost view = { λ a. set_of_words a.words };

    ghost invariant = { λ a. AreWords a.words };

    ghost inverse = { λ s. record { words = words_of s } };

    ghost inverse_ok = { λ a h i. record { words = words_of-set_of_words a.words h i } };
}

impl PartialEq for VertexSet {
    ghost use Rattle.comp_graph.specs.Sets.{same_members, same_members-laws};

    ghost eq = { same_members };

    ghost laws = { partial_equiv_from_equiv same_members-laws };

    fn eq(&self, other: &VertexSet) -> bool {
        self.words == other.words
    }
}

impl Eq for VertexSet {
    ghost use Rattle.comp_graph.specs.Sets.{same_members-laws};

    ghost laws = { same_members-laws };
}

// The words with another one at place k. It is no store to `words[k]`: what would be read next are all four words, and a processor waits
// where a part of what it reads was just written.
fn with_word(words: [u64; 4], k: u16, word: u64) -> [u64; 4]
    requires { k < 4 }
    ensures { result ≡ slice_set words k word }
{
    let [a, b, c, d] = words;
    match k {
        0 => [word, b, c, d],
        1 => [a, word, c, d],
        2 => [a, b, word, d],
        _ => [a, b, c, word],
    }
}

impl VertexSet {
    /// The set with no member.
    pub fn empty() -> VertexSet
        ensures { result ≡ set.empty }
    {
        VertexSet { words: [0; 4] }
    }

    /// Whether v is a member.
    pub fn has(&self, v: u16) -> bool
        requires { v < 256 }
        ensures value { result ≡ set.contains self.now v }
        ensures bounded { AllBelow 256 self.now }
    {
        (self.words[v as usize / 64] >> (v % 64)) & 1 == 1
    }

    /// The set with v as a member too.
    pub fn with(&self, v: u16) -> VertexSet
        requires { v < 256 }
        ensures { result ≡ set.insert self.now v }
    {
        let word = self.words[v as usize / 64] | 1 << (v % 64);
        VertexSet {
            words: with_word(self.words, v / 64, word),
        }
    }

    /// The set without v.
    pub fn without(&self, v: u16) -> VertexSet
        requires { v < 256 }
        ensures { result ≡ set.remove self.now v }
    {
        let word = self.words[v as usize / 64] & !(1 << (v % 64));
        VertexSet {
            words: with_word(self.words, v / 64, word),
        }
    }

    /// The members of either set.
    pub fn union(&self, other: &VertexSet) -> VertexSet
        ensures { result ≡ set.union self.now other.now }
    {
        let a = &self.words;
        let b = &other.words;
        VertexSet {
            words: [a[0] | b[0], a[1] | b[1], a[2] | b[2], a[3] | b[3]],
        }
    }

    /// The members of both sets.
    pub fn meet(&self, other: &VertexSet) -> VertexSet
        ensures { result ≡ set.intersection self.now other.now }
    {
        let a = &self.words;
        let b = &other.words;
        VertexSet {
            words: [a[0] & b[0], a[1] & b[1], a[2] & b[2], a[3] & b[3]],
        }
    }

    /// The members of this set that are none of the other.
    pub fn minus(&self, other: &VertexSet) -> VertexSet
        ensures { result ≡ set.difference self.now other.now }
    {
        let a = &self.words;
        let b = &other.words;
        VertexSet {
            words: [a[0] & !b[0], a[1] & !b[1], a[2] & !b[2], a[3] & !b[3]],
        }
    }

    /// Whether each member of this set is one of the other.
    pub fn within(&self, other: &VertexSet) -> bool
        ensures { IsTrue result ↔ IsWithin self.now other.now }
    {
        self.minus(other).least().is_none()
    }

    /// The number of members.
    pub fn count(&self) -> u16
        ensures value { result ≡ set.len self.now }
        ensures most { result ≤ 256 }
        ensures bounded { AllBelow 256 self.now }
    {
        let a = &self.words;
        (a[0].count_ones() + a[1].count_ones() + a[2].count_ones() + a[3].count_ones()) as u16
    }

    /// The least member. None exactly where the set is empty.
    pub fn least(&self) -> Option<u16>
        ensures value { MatchOption result (self.now ≡ set.empty) (IsLeast self.now) }
        ensures bounded { AllBelow 256 self.now }
    {
        for k in 0..4u16 {
            let word = self.words[k as usize];
            if word != 0 {
                return Some(k * 64 + word.trailing_zeros() as u16);
            }
        }
        None
    }

    /// Word k of the set: vertex v is bit v mod 64 of word v div 64.
    pub fn word(&self, k: u8) -> u64
        requires { k < 4 }
        ensures value { result ≡ word_of self.now k }
        ensures bounded { AllBelow 256 self.now }
    {
        self.words[k as usize]
    }

    /// The set that four words stand for: vertex v is bit v mod 64 of word v div 64.
    pub fn from_words(words: [u64; 4]) -> VertexSet
        ensures { result ≡ set_of_words words }
    {
        VertexSet { words }
    }
}
