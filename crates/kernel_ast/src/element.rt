//! Elements and faults, by which the meaning of a kernel speaks.

/// An element of a declaration, by its place row by row: both are counted from 0.
#[derive(Clone, Copy, Debug, PartialEq, Eq)]
pub struct Cell {
    pub decl: u16,
    pub offset: u16,
}

/// A fault of a kernel's run. `code` is that of the rule that is broken, as [`crate::rule::RunRule`] lists them, and `at` is the place in the
/// kernel's text, in bytes from 0.
#[derive(Clone, Copy, Debug, PartialEq, Eq)]
pub struct Fault {
    pub code: u8,
    pub at: u32,
}
