//! Chunks.
ghost use Rattle.std.specs.Prelude.{◌≡◌, ◌+◌, ◌*◌, ◌^◌, ◌<◌, ◌≤◌, [], ◌∷◌, ◌++◌, length, take, drop, slice_set, IfOk};
ghost use Rattle.raw_chunk.specs.Numbers.{with_items};

use crate::cells::{Base, Cells, Deed, allocate, deallocate};
use std::alloc::{AllocError, Global};
use std::marker::Model;

/// Room for a fixed count of numbers of 64 bits. The numbers that are written lie side by side, in the order of writing, and are never
/// moved. When the chunk is dropped its memory goes back to the allocator. No contract says these two. Only `new` takes memory.
pub struct Chunk {
    alloc: Global,
    room: usize,
    len: usize,
    base: Base,
    cells: Cells,
    deed: Deed<Global>,
}

impl Model for Chunk {
    ghost use Rattle.raw_chunk.specs.Numbers.{Numbers};

    ghost Value = { Numbers };

    ghost use Rattle.raw_chunk.specs.Inside.{numbers_of, IsChunk};

    ghost view = { numbers_of };

    ghost invariant = { IsChunk };
}

impl Drop for Chunk {
    fn drop(self) {
        let Chunk {
            alloc,
            room,
            len: _,
            base,
            cells,
            deed,
        } = self;
        deallocate(&alloc, base, room, cells, deed);
    }
}

impl Chunk {
    /// A chunk without numbers, with room for `room` of them, which are 8 bytes each, fewer than 2^63 bytes in all. `AllocError` where there is
    /// no memory.
    pub fn new(alloc: Global, room: usize) -> Result<Chunk, AllocError>
        requires { room * 8 < 2 ^ 63 }
        ensures { IfOk result (λ c. c ≡ record { room = room; items = [] }) }
    {
        let (base, cells, deed) = allocate(&alloc, room)?;
        Ok(Chunk {
            alloc,
            room,
            len: 0,
            base,
            cells,
            deed,
        })
    }

    /// Writes a number behind the others, for which there must be room.
    pub fn push(&mut self, number: u64)
        requires { length self.old.items < self.old.room }
        ensures { self.new ≡ with_items self.old (self.old.items ++ number ∷ []) }
    {
        self.cells.push(self.base, self.len, number);
        self.len += 1;
    }

    /// Writes numbers behind the others, in their order. There must be room for all of them.
    pub fn extend(&mut self, numbers: &[u64])
        requires { length self.old.items + length numbers.now ≤ self.old.room }
        ensures { self.new ≡ with_items self.old (self.old.items ++ numbers.now) }
    {
        for number in numbers {
            self.push(*number);
        }
    }

    /// The `len` numbers from `from` on, which must be there, lent without a copy.
    pub fn slice(&self, from: usize, len: usize) -> &[u64]
        requires { from + len ≤ length self.now.items }
        ensures { result.now ≡ take len (drop from self.now.items) }
    {
        self.cells.slice(self.base, from, len)
    }

    /// Writes two other numbers, at `index` and behind it, where numbers must be, and changes no other.
    pub fn set_two(&mut self, index: usize, first: u64, second: u64)
        requires { index + 1 < length self.old.items }
        ensures { self.new ≡ with_items self.old (slice_set (slice_set self.old.items index first) (index + 1) second) }
    {
        self.cells.set_two(self.base, index, first, second);
    }
}
