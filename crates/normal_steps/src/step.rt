//! Normal steps.

/// A normal step, on the vertex that it names. `Work` loads the missing predecessors of a vertex and computes it, `Drop` removes a red
/// pebble, and `Spill` stores a vertex and removes its red pebble. They are this project's own.
#[derive(Clone, Copy, Debug, PartialEq, Eq)]
pub enum Step {
    Work(u16),
    Drop(u16),
    Spill(u16),
}
