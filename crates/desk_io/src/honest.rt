//! A desk on which no call fails. It tells its input, and forgets what is written.
ghost use Rattle.std.specs.Prelude.{◌≡◌, ◌≤◌, ◌+◌, ◌-◌, ◌^◌, min, length, IfOk, IsOk, Ok, Some, None, string_bytes};
ghost use Rattle.desk_io.specs.Known.{TakesInput, TakesFile};

use crate::desk::{Desk, Failed};
use crate::memory::copy_front;

/// A desk on which no call fails, so that a law can speak of a run without faults.
///
/// It tells the input that is left. A take from its file gives the bytes `file`, which never change. What is written, to
/// the output or to the file, is counted and forgotten. The rules are this project's convention.
#[derive(Debug, Drop)]
pub struct HonestDesk {
    /// The file's name.
    pub name: String,
    /// The input that is left.
    pub input: Vec<u8>,
    /// The bytes that a take from the file gives.
    pub file: Vec<u8>,
    /// How many bytes were written to the output and the file; it stands still at 2^64 - 1.
    pub written: u64,
}

impl Desk for HonestDesk {
    ghost name = { λ desk. string_bytes desk.name };

    ghost input = { λ desk. Some desk.input.items };

    ghost file = { λ _. None };

    ghost output = { λ _. None };

    ghost faults = { λ _ _. 0 };

    fn take_input(&mut self, buf: &mut [u8]) -> Result<usize, Failed>
        ensures honest { IsOk result }
        ensures bound { IfOk result (λ count. count ≤ length buf.new) }
        ensures taken { IfOk result (λ count.
            TakesInput (Some self.old.input.items) (Some self.new.input.items) count buf.new) }
        ensures rest { self.new ≡ record self.old { input = self.new.input } }
    {
        let count = copy_front(&self.input, buf.len(), buf);
        let left = self.input.len() - count;
        self.input.rotate_left(count);
        self.input.truncate(left);
        Ok(count)
    }

    fn take_file(&mut self, from: u32, buf: &mut [u8]) -> Result<usize, Failed>
        ensures honest { IsOk result }
        ensures bound { IfOk result (λ count. count ≤ length buf.new) }
        ensures holds { IfOk result (λ count. TakesFile (Some (Some self.old.file.items)) from count buf.new) }
        ensures rest { self.new ≡ self.old }
    {
        let start = (from as usize).min(self.file.len());
        Ok(copy_front(&self.file[start..], buf.len(), buf))
    }

    fn put_output(&mut self, piece: &[u8]) -> Result<usize, Failed>
        ensures whole { result ≡ Ok (length piece.now) }
        ensures rest { self.new ≡ record self.old { written = min (self.old.written + length piece.now) (2 ^ 64 - 1) } }
    {
        self.written = self.written.saturating_add(piece.len() as u64);
        Ok(piece.len())
    }

    fn put_file(&mut self, piece: &[u8]) -> Result<usize, Failed>
        ensures whole { result ≡ Ok (length piece.now) }
        ensures rest { self.new ≡ record self.old { written = min (self.old.written + length piece.now) (2 ^ 64 - 1) } }
    {
        self.written = self.written.saturating_add(piece.len() as u64);
        Ok(piece.len())
    }

    fn clear_file(&mut self) -> Result<(), Failed>
        ensures honest { IsOk result }
        ensures rest { self.new ≡ self.old }
    {
        Ok(())
    }
}
