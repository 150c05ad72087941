//! Elements with their labels.
use comp_graph::Label;
use kernel_ast::Cell;

/// An element of a declaration: its label, the place of the declaration's name in the kernel's text, and the element itself.
#[derive(Drop)]
pub struct Element {
    pub label: Label,
    pub at: u32,
    pub cell: Cell,
}
