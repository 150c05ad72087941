//! Rows of numbers in chunks.
ghost use Rattle.std.specs.Prelude.{◌≡◌, ◌+◌, ◌<◌, ◌≤◌, [], ◌∷◌, ◌++◌, length, slice_set, OnOk};
ghost use Rattle.position_arena.specs.Stores.{with_rows, row_at};

use raw_chunk::Chunk;
use std::alloc::{AllocError, Global};
use std::marker::Model;

/// How many rows lie in a chunk.
const CHUNK_ROWS: usize = 4096;

/// Rows of equally many numbers. They lie in chunks of 4,096 rows, are written once, and are never moved.
#[derive(Drop)]
pub struct Store {
    alloc: Global,
    wide: usize,
    len: u32,
    chunks: Vec<Chunk>,
}

impl Model for Store {
    ghost use Rattle.position_arena.specs.Stores.{StoredRows};

    ghost Value = { StoredRows };

    ghost use Rattle.position_arena.specs.StoreInside.{stored_rows, IsStore};

    ghost view = { stored_rows };

    ghost invariant = { IsStore };
}

impl Store {
    /// No rows, for rows of `wide` numbers.
    pub fn new(alloc: Global, wide: usize) -> Store
        requires { wide ≤ 10 }
        ensures { result ≡ record { wide = wide; room = 0; rows = [] } }
    {
        Store {
            alloc,
            wide,
            len: 0,
            chunks: Vec::new(alloc),
        }
    }

    /// Takes the memory for one more row.
    pub fn reserve(&mut self) -> Result<(), AllocError>
        ensures room { OnOk result (length self.new.rows < self.new.room) }
        ensures wide { self.new.wide ≡ self.old.wide }
        ensures rows { self.new.rows ≡ self.old.rows }
    {
        if self.len as usize == CHUNK_ROWS * self.chunks.len() {
            let chunk = Chunk::new(self.alloc, CHUNK_ROWS * self.wide)?;
            self.chunks.push(chunk)?;
        }
        Ok(())
    }

    /// Writes a row behind the others.
    pub fn push(&mut self, row: &[u64])
        requires wide { length row.now ≡ self.old.wide }
        requires room { length self.old.rows < self.old.room }
        requires few { length self.old.rows < 4294967295 }
        ensures { self.new ≡ with_rows self.old (self.old.rows ++ row.now ∷ []) }
    {
        let chunk = &mut self.chunks[self.len as usize / CHUNK_ROWS];
        chunk.extend(row);
        self.len += 1;
    }

    /// Row k, lent without a copy.
    pub fn row(&self, k: u32) -> &[u64]
        requires { k < length self.now.rows }
        ensures { result.now ≡ row_at self.now k }
    {
        let chunk = &self.chunks[k as usize / CHUNK_ROWS];
        chunk.slice(k as usize % CHUNK_ROWS * self.wide, self.wide)
    }

    /// Writes two other numbers, at the place `at` of row k and behind it, and changes no other.
    pub fn set_two(&mut self, k: u32, at: usize, first: u64, second: u64)
        requires row { k < length self.old.rows }
        requires place { at + 1 < self.old.wide }
        ensures { self.new ≡ with_rows self.old (slice_set self.old.rows k (slice_set (slice_set (row_at self.old k) at first) (at + 1) second)) }
    {
        let chunk = &mut self.chunks[k as usize / CHUNK_ROWS];
        chunk.set_two(k as usize % CHUNK_ROWS * self.wide + at, first, second);
    }

    /// How many rows there are.
    pub fn len(&self) -> u32
        ensures { result ≡ length self.now.rows }
    {
        self.len
    }
}
