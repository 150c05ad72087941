//! Labels: the printed names of values.
ghost use Rattle.std.specs.Prelude.{◌≡◌, ℕ, List, IfOk};

use crate::memory::NoMemory;
use std::alloc::Global;
use std::marker::Model;

/// The printed name of a value, such as `A[0][2]`. Contracts see it as the list of its bytes.
#[derive(Drop)]
pub struct Label {
    text: Vec<u8>,
}

impl Model for Label {
    ghost Value = { List ℕ };

    ghost view = { λ a. a.text.items };
}

impl Label {
    /// The label that is printed as these bytes.
    pub fn new(bytes: Vec<u8>) -> Label
        ensures { result ≡ bytes.items }
    {
        Label { text: bytes }
    }

    /// The bytes that are printed.
    pub fn bytes(&self) -> &[u8]
        ensures { result.now ≡ self.now }
    {
        &self.text
    }

    /// A second label of the same bytes, or want of memory, which may come at any time.
    pub fn copy(&self, alloc: Global) -> Result<Label, NoMemory>
        ensures { IfOk result (λ label. label ≡ self.now) }
    {
        let text = Vec::from_slice(alloc, &self.text)?;
        Ok(Label { text })
    }
}
