//! The elements that are set.
ghost use Rattle.std.specs.Prelude.{◌≡◌, OnOk};
ghost use Rattle.kernel_ast.specs.Machine.{put, no_elements};
ghost use Rattle.kernel_walk.specs.SetElements.{elements};

use comp_graph::NoMemory;
use kernel_ast::Cell;
use std::alloc::Global;
use std::collections::BTreeMap;

/// The elements that are set, with what each holds. Contracts see it through `elements`, as a function from an element to what it holds.
#[derive(Drop)]
pub struct Written<T> {
    by_place: BTreeMap<(u16, u16), T>,
}

impl<T: Copy> Written<T> {
    /// No element is set.
    pub fn new(alloc: Global) -> Self
        ensures { elements result ≡ no_elements }
    {
        Self {
            by_place: BTreeMap::new(alloc),
        }
    }

    /// What an element holds, or `None` where it is not set.
    pub fn get(&self, cell: Cell) -> Option<T>
        ensures { result ≡ elements self.now cell }
    {
        self.by_place.get(&(cell.decl, cell.offset)).copied()
    }

    /// Sets an element.
    ///
    /// # Errors
    ///
    /// [`NoMemory`] where memory was wanted and not found.
    pub fn put(&mut self, cell: Cell, value: T) -> Result<(), NoMemory>
        ensures { OnOk result (elements self.new ≡ put (elements self.old) cell value) }
    {
        self.by_place.insert((cell.decl, cell.offset), value)?;
        Ok(())
    }
}
