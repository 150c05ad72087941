//! The trait of desks, the kinds of its calls, and the answer of a call that failed.
ghost use Rattle.std.specs.Prelude.{◌≡◌, ℕ, ◌<◌, ◌≤◌, List, [], take, length, IfOk, OnOk, OnErr, is_err};
ghost use Rattle.std.specs.declared.option.Option.{Option};
ghost use Rattle.std.specs.Io.KnownBytes.{append_known};
ghost use Rattle.desk_io.specs.declared.desk.Kind.{Kind};
ghost use Rattle.desk_io.specs.declared.desk.Kind.TheVariants.{TakeInput, TakeFile, PutOutput, PutFile, ClearFile};
ghost use Rattle.desk_io.specs.Counts.{Counts};
ghost use Rattle.desk_io.specs.Known.{ToldFile, TakesInput, TakesFile, file_and, file_of};

use std::fmt;

/// A call of a desk failed.
///
/// It left the input, the file and the output as they were, and the counts of the other kinds too. Nothing is said
/// of the buffer that a take was given.
#[derive(Clone, Copy, Debug, PartialEq, Eq)]
pub struct Failed;

impl fmt::Display for Failed {
    fn fmt<W: fmt::Write>(&self, f: &mut fmt::Formatter<W>) -> fmt::Result {
        f.write_str("a call of the desk failed")
    }
}

impl std::error::Error for Failed {}

/// The kinds of a desk's calls. Faults are counted by kind.
#[derive(Clone, Copy, Debug, PartialEq, Eq)]
pub enum Kind {
    /// `Desk::take_input`.
    TakeInput,
    /// `Desk::take_file`.
    TakeFile,
    /// `Desk::put_output`.
    PutOutput,
    /// `Desk::put_file`.
    PutFile,
    /// `Desk::clear_file`.
    ClearFile,
}

/// An input, an output and one file: all that the program touches of the outside.
///
/// Its meanings are the file's name, the input that is left, the file, the output so far, and how often each
/// kind of call has failed. A desk tells its input, its file and its output or keeps them to itself, each on
/// its own; which of them it tells never changes. What is said below of bytes holds where they are told.
///
/// A call may take or put fewer bytes than it was offered. It is `Failed` exactly where the count of its own
/// kind rose in it, or stands at the counter's last value, 2^64 - 1; so a call that is `Ok` leaves that count
/// as it was. No count ever falls, and what a call does not name stays as it was, the counts of the other kinds
/// included. No call takes memory from its caller's allocator. The rules are this project's convention.
pub trait Desk {
    /// The bytes of the file's name.
    ghost name: { Self → List ℕ };

    /// The bytes of the input that are left, where the desk tells them.
    ghost input: { Self → Option (List ℕ) };

    /// The file, where the desk tells it: missing, or its bytes.
    ghost file: { Self → ToldFile };

    /// The bytes of the output so far, where the desk tells them.
    ghost output: { Self → Option (List ℕ) };

    /// How often each kind of call has failed.
    ghost faults: { Self → Kind → ℕ };

    /// Takes the next bytes of the input into the front of `buf`, and answers how many they are.
    ///
    /// They are at most as many as `buf` has room for, and 0 in a buffer with room only at the input's end. The
    /// rest of the input is left. `Failed` leaves the whole input as it was. Nothing is said of `buf` past the
    /// bytes that were taken, nor of any of it after `Failed`.
    fn take_input(&mut self, buf: &mut [u8]) -> Result<usize, Failed>
        ensures bound { IfOk result (λ count. count ≤ length buf.new) }
        ensures taken { IfOk result (λ count. TakesInput (input self.old) (input self.new) count buf.new) }
        ensures failed { OnErr result (input self.new ≡ input self.old) }
        ensures counts { Counts TakeInput (faults self.old) (faults self.new) (is_err result) }
        ensures same_name { name self.new ≡ name self.old }
        ensures same_file { file self.new ≡ file self.old }
        ensures same_output { output self.new ≡ output self.old };

    /// Copies the file's bytes from place `from` on into the front of `buf`, and answers how many they are.
    ///
    /// They are at most as many as `buf` has room for, and 0 in a buffer with room only where the file has no
    /// byte at `from` or past it. The file stays as it was. A missing file is `Failed`. Nothing is said of `buf`
    /// past the bytes that were copied, nor of any of it after `Failed`.
    fn take_file(&mut self, from: u32, buf: &mut [u8]) -> Result<usize, Failed>
        ensures bound { IfOk result (λ count. count ≤ length buf.new) }
        ensures taken { IfOk result (λ count. TakesFile (file self.old) from count buf.new) }
        ensures counts { Counts TakeFile (faults self.old) (faults self.new) (is_err result) }
        ensures same_name { name self.new ≡ name self.old }
        ensures same_input { input self.new ≡ input self.old }
        ensures same_file { file self.new ≡ file self.old }
        ensures same_output { output self.new ≡ output self.old };

    /// Appends the first bytes of `piece` to the output, and answers how many they are.
    ///
    /// They are 1 or more where the piece is not empty. `Failed` leaves the output as it was.
    fn put_output(&mut self, piece: &[u8]) -> Result<usize, Failed>
        ensures bound { IfOk result (λ count. count ≤ length piece.now) }
        ensures some { IfOk result (λ count. 0 < length piece.now → 0 < count) }
        ensures put { IfOk result (λ count. output self.new ≡ append_known (output self.old) (take count piece.now)) }
        ensures failed { OnErr result (output self.new ≡ output self.old) }
        ensures counts { Counts PutOutput (faults self.old) (faults self.new) (is_err result) }
        ensures same_name { name self.new ≡ name self.old }
        ensures same_input { input self.new ≡ input self.old }
        ensures same_file { file self.new ≡ file self.old };

    /// Appends the first bytes of `piece` to the file, where a missing file counts as empty, and answers how many
    /// they are.
    ///
    /// They are 1 or more where the piece is not empty. `Failed` leaves the file as it was.
    fn put_file(&mut self, piece: &[u8]) -> Result<usize, Failed>
        ensures bound { IfOk result (λ count. count ≤ length piece.now) }
        ensures some { IfOk result (λ count. 0 < length piece.now → 0 < count) }
        ensures put { IfOk result (λ count. file self.new ≡ file_and (file self.old) (take count piece.now)) }
        ensures failed { OnErr result (file self.new ≡ file self.old) }
        ensures counts { Counts PutFile (faults self.old) (faults self.new) (is_err result) }
        ensures same_name { name self.new ≡ name self.old }
        ensures same_input { input self.new ≡ input self.old }
        ensures same_output { output self.new ≡ output self.old };

    /// Makes the file be there and empty. `Failed` leaves the file as it was.
    fn clear_file(&mut self) -> Result<(), Failed>
        ensures cleared { OnOk result (file self.new ≡ file_of (file self.old) []) }
        ensures failed { OnErr result (file self.new ≡ file self.old) }
        ensures counts { Counts ClearFile (faults self.old) (faults self.new) (is_err result) }
        ensures same_name { name self.new ≡ name self.old }
        ensures same_input { input self.new ≡ input self.old }
        ensures same_output { output self.new ≡ output self.old };
}
