//! The memory of a chunk: the five functions that hold the pointer. Each is proved by hand.
ghost use Rattle.std.specs.Prelude.{◌≡◌, ℕ, ◌+◌, ◌*◌, ◌^◌, ◌<◌, ◌≤◌, List, [], ◌∷◌, ◌++◌, length, take, drop, slice_set, IfOk};
ghost use base.Fml.{ftrue};
ghost use denote.RawPtr.{Ptr};
ghost use Rattle.raw_chunk.specs.Ownership.{cells_own, cells_lent, deed_owns};

use std::alloc::{AllocError, Allocator};
use std::marker::{Model, PhantomData};
use std::slice;

/// Where the memory begins. It owns nothing.
#[derive(Clone, Copy)]
pub struct Base {
    ptr: *mut u64,
}

/// The numbers, and room for as many as there may be. It takes no space.
pub struct Cells {
    mark: PhantomData<*const u64>,
    ghost at: { Ptr },
    ghost room: { ℕ },
    ghost items: { List ℕ },
}

impl Model for Cells {
    ghost also_owns = { λ c. cells_own c.at c.room c.items };

    ghost also_shares = { λ c _ κ. cells_lent c.at c.items κ };
}

/// The right to give the memory for `room` numbers at `at` back to `alloc`. It takes no space.
pub struct Deed<A: Allocator> {
    mark: PhantomData<*const A>,
    ghost at: { Ptr },
    ghost room: { ℕ },
    ghost alloc: { A },
}

impl<A: Allocator> Model for Deed<A> {
    ghost also_owns = { λ d. deed_owns (A.dealloc_token d.alloc) d.at d.room };

    ghost also_shares = { λ _ _ _. ftrue };
}

// Takes the memory for `room` numbers.
pub(crate) fn allocate<A: Allocator>(
    alloc: &A,
    room: usize,
) -> Result<(Base, Cells, Deed<A>), AllocError>
    requires { room * 8 < 2 ^ 63 }
    ensures { IfOk result (λ r. (r.1.at ≡ r.0.ptr) × (r.1.room ≡ room) × (r.1.items ≡ []) × (r.2.at ≡ r.0.ptr) × (r.2.room ≡ room) × (r.2.alloc ≡ alloc.now)) }
{
    match alloc.allocate(room * 8, 8) {
        Ok(block) => {
            let base = Base {
                ptr: block as *mut u64,
            };
            Ok((
                base,
                Cells { mark: PhantomData },
                Deed { mark: PhantomData },
            ))
        }
        Err(error) => Err(error),
    }
}

// Gives the memory back.
pub(crate) fn deallocate<A: Allocator>(
    alloc: &A,
    base: Base,
    room: usize,
    cells: Cells,
    deed: Deed<A>,
)
    requires { (cells.at ≡ base.ptr) × (cells.room ≡ room) × (length cells.items ≤ room) × (room * 8 < 2 ^ 63) × (deed.at ≡ base.ptr) × (deed.room ≡ room) × (deed.alloc ≡ alloc.now) }
{
    let Cells { mark: _ } = cells;
    let Deed { mark: _ } = deed;
    unsafe {
        alloc.deallocate(base.ptr as *mut u8, room * 8, 8);
    }
}

impl Cells {
    // Writes a number behind the `len` that are there.
    pub(crate) fn push(&mut self, base: Base, len: usize, number: u64)
        requires { (base.ptr ≡ self.old.at) × (len ≡ length self.old.items) × (len < self.old.room) × (self.old.room * 8 < 2 ^ 63) }
        ensures { (self.new.at ≡ self.old.at) × (self.new.room ≡ self.old.room) × (self.new.items ≡ self.old.items ++ number ∷ []) }
    {
        unsafe { base.ptr.add(len).write(number) }
    }

    // The `len` numbers from `from` on.
    pub(crate) fn slice(&self, base: Base, from: usize, len: usize) -> &[u64]
        requires { (base.ptr ≡ self.now.at) × (from + len ≤ length self.now.items) × (length self.now.items * 8 < 2 ^ 63) }
        ensures { result.now ≡ take len (drop from self.now.items) }
    {
        unsafe { slice::from_raw_parts(base.ptr.add(from), len) }
    }

    // Writes two other numbers at `index` and behind it.
    pub(crate) fn set_two(&mut self, base: Base, index: usize, first: u64, second: u64)
        requires { (base.ptr ≡ self.old.at) × (index + 1 < length self.old.items) × (length self.old.items * 8 < 2 ^ 63) }
        ensures { (self.new.at ≡ self.old.at) × (self.new.room ≡ self.old.room) × (self.new.items ≡ slice_set (slice_set self.old.items index first) (index + 1) second) }
    {
        unsafe {
            base.ptr.add(index).write(first);
            base.ptr.add(index + 1).write(second)
        }
    }
}
