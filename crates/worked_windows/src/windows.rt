//! Windows of the butterfly.
ghost use Rattle.std.specs.Prelude.{◌≡◌};

use crate::builders::set;
use comp_graph::{Game, VertexSet};
use std::alloc::{AllocError, Global};
use window_steps::WindowSets;

/// A window by its tracked vertices (vertex v is bit v), those among them whose loads are charged, the Works whose loads are charged,
/// the charged stores and the required vertices.
#[derive(Clone, Copy)]
pub struct Case {
    pub tracked: u64,
    pub loaded: u64,
    pub by: u64,
    pub stores: u64,
    pub required: u64,
}

/// The loads of the inputs.
pub const INPUTS: Case = Case {
    tracked: 0b0000_0000_1111,
    loaded: 0b0000_0000_1111,
    by: 0b1111_1111_0000,
    stores: 0,
    required: 0b0000_1111_0000,
};

/// The loads and stores of 4 and 6.
pub const FIRST: Case = Case {
    tracked: 0b0000_0101_0000,
    loaded: 0b0000_0101_0000,
    by: 0b1111_1111_0000,
    stores: 0b0000_0101_0000,
    required: 0b0011_0000_0000,
};

/// The loads and stores of 5 and 7.
pub const SECOND: Case = Case {
    tracked: 0b0000_1010_0000,
    loaded: 0b0000_1010_0000,
    by: 0b1111_1111_0000,
    stores: 0b0000_1010_0000,
    required: 0b1100_0000_0000,
};

/// The stores of the outputs.
pub const OUTPUTS: Case = Case {
    tracked: 0b1111_0000_0000,
    loaded: 0,
    by: 0,
    stores: 0b1111_0000_0000,
    required: 0,
};

/// All loads and stores.
pub const WHOLE: Case = Case {
    tracked: 0b1111_1111_1111,
    loaded: 0b1111_1111_1111,
    by: 0b1111_1111_1111,
    stores: 0b1111_1111_1111,
    required: 0,
};

/// The load of 0 by 4. Work 5 loads it without a charge.
pub const ONE_LOAD: Case = Case {
    tracked: 0b0000_0000_0001,
    loaded: 0b0000_0000_0001,
    by: 0b0000_0001_0000,
    stores: 0,
    required: 0b0000_0001_0000,
};

/// The operands whose loads are charged, for each vertex. Memory may run out.
pub fn charged(alloc: Global, game: &Game, case: &Case) -> Result<Vec<VertexSet>, AllocError> {
    let loaded = set(case.loaded);
    let by = set(case.by);
    let mut loads = Vec::new(alloc);
    for v in 0..game.graph().len() {
        if by.has(v) {
            loads.push(game.graph().preds(v).meet(&loaded))?;
        } else {
            loads.push(VertexSet::empty())?;
        }
    }
    Ok(loads)
}

/// The window with these charged loads.
pub fn window<'a>(case: &Case, loads: &'a [VertexSet]) -> WindowSets<'a>
    ensures { result.loads.now ≡ loads.now }
{
    WindowSets {
        loads,
        stores: set(case.stores),
        tracked: set(case.tracked),
        required: set(case.required),
    }
}
