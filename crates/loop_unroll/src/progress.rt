//! How far a kernel's execution without values has come.
ghost use Rattle.std.specs.Prelude.{◌≡◌, ◌++◌, ◌∷◌, []};
ghost use Rattle.kernel_walk.specs.Outcomes.{Gives};
ghost use Rattle.loop_unroll.specs.Flats as spec;

use crate::flat::Flat;
use crate::right_side::items_of;
use kernel_ast::{Expr, Kernel, Place};
use kernel_walk::{Stop, count, locate};
use sqlite_items::Items;
use std::alloc::Global;

/// The turns that were counted, and the assignments that were executed.
#[derive(Drop)]
pub struct Progress {
    pub counted: u32,
    pub flats: Items<Flat>,
}

impl Progress {
    /// Counts so many turns more, for the statement at `at`.
    #[tactic(auto, unfolding(crate::specs::Flats::counting))]
    pub fn count(&mut self, at: u32, more: u32) -> Result<(), Stop>
        ensures { Gives (spec.counting at more self.old) self.new result }
    {
        self.counted = count(at, more, self.counted)?;
        Ok(())
    }

    /// Writes down an assignment that is executed while the open loops stand at `indices`.
    #[tactic(auto, unfolding(crate::specs::Flats::adding))]
    pub fn add(
        &mut self,
        alloc: Global,
        kernel: &Kernel,
        indices: &[i64],
        target: &Place,
        value: &Expr,
    ) -> Result<(), Stop>
        ensures { Gives (spec.adding kernel.now.decls indices.now target.now value.now self.old) self.new result }
    {
        let mut items = Items::new(alloc);
        items_of(kernel, indices, value, &mut items)?;
        let target = locate(kernel, indices, target)?;
        self.flats.push(Flat { target, items })?;
        Ok(())
    }
}
