//! What an element holds.

/// What an element holds: its number, and whether it is a constant.
#[derive(Clone, Copy)]
pub struct Value {
    pub number: i64,
    pub is_constant: bool,
}
