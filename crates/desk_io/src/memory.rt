//! A desk in memory, for tests. It tells all, takes and puts few bytes at a time, and fails where it is told to.
ghost use Rattle.std.specs.Prelude.{◌≡◌, ◌+◌, ◌-◌, ◌^◌, ◌<◌, ◌≤◌, [], ◌++◌, min, length, take, not, true, ◌||◌, nat_lt, is_none, is_ok, is_err, IfOk, OnOk, OnErr, Some, string_bytes};
ghost use Rattle.std.specs.Io.KnownBytes.{append_known};
ghost use Rattle.desk_io.specs.Counts.{Counts, place_of, count_of, raised};
ghost use Rattle.desk_io.specs.Known.{held_bytes, file_items, file_and, file_of, TakesInput, TakesFile};
ghost use Rattle.desk_io.specs.declared.desk.Kind.TheVariants.{TakeInput, TakeFile, PutOutput, PutFile, ClearFile};

use crate::desk::{Desk, Failed, Kind};
use std::alloc::{AllocError, Global};

/// Names a call of a `MemoryDesk` that is to fail.
#[derive(Clone, Copy, Debug, PartialEq, Eq)]
pub struct Fail {
    /// The kind of the call.
    pub kind: Kind,
    /// Its number among the calls of this kind, counted from 0.
    pub nth: u32,
}

/// A desk in memory, for tests. It tells its input, its file and its output.
///
/// A call is `Failed` in these four cases and no other: `fail` names it; it takes from a file that is missing;
/// it is a put that finds no memory, so that `starved` rises in it; `starved` or the fault count of its kind
/// stands at its last value, 2^64 - 1. Each `Failed` raises the fault count of its kind by one, where it is not
/// at its last value, and leaves the input, the file and the output as they were.
/// The rules are this project's convention.
#[derive(Debug, Drop)]
pub struct MemoryDesk {
    /// The file's name.
    pub name: String,
    /// The input that is left.
    pub input: Vec<u8>,
    /// The file, if it is there.
    pub file: Option<Vec<u8>>,
    /// The output so far.
    pub output: Vec<u8>,
    /// The most bytes that one call takes or puts, 1 or more.
    pub most: usize,
    /// The calls that are to fail.
    pub fail: Vec<Fail>,
    /// How many calls of each kind there were, in the order of `Kind`, the failed ones too. Each number stands
    /// still at 2^32 - 1.
    pub calls: [u32; 5],
    /// How many calls of each kind failed, in the order of `Kind`. Each number stands still at 2^64 - 1.
    pub faults: [u64; 5],
    /// How many growths of the output or the file found no memory. Only the two puts raise it.
    pub starved: u64,
    ghost some_bytes: { 1 ≤ most },
}

impl Kind {
    // The place of this kind in an array of counts.
    pub(crate) fn place(self) -> usize
        ensures value { result ≡ place_of self }
        ensures small { result < 5 }
    {
        match self {
            Kind::TakeInput => 0,
            Kind::TakeFile => 1,
            Kind::PutOutput => 2,
            Kind::PutFile => 3,
            Kind::ClearFile => 4,
        }
    }
}

impl Fail {
    ghost use Rattle.desk_io.specs.Memory.{is_named};

    // Whether one of the failures names the n-th call of a kind.
    fn is_among(fails: &[Fail], kind: Kind, nth: u32) -> bool
        ensures { result ≡ is_named fails.now kind nth }
    {
        fails.iter().any(|fail| fail.kind.place() == kind.place() && fail.nth == nth)
    }
}

impl MemoryDesk {
    ghost use Rattle.desk_io.specs.Memory.{is_barred};

    /// Whether the next call of this kind fails whatever it asks: `fail` names it, or `starved` or the fault count
    /// of the kind stands at its last value.
    pub fn is_barred(&self, kind: Kind) -> bool
        ensures { result ≡ is_barred self.now kind }
    {
        let place = kind.place();
        Fail::is_among(&self.fail, kind, self.calls[place])
            || self.starved == u64::MAX
            || self.faults[place] == u64::MAX
    }

    // Counts a failed call.
    fn fail(&mut self, kind: Kind) -> Failed
        ensures after { self.new ≡ record self.old { faults = raised self.old.faults kind (2 ^ 64 - 1) } }
        ensures counts { Counts kind (count_of self.old.faults) (count_of self.new.faults) true }
    {
        let place = kind.place();
        self.faults[place] = self.faults[place].saturating_add(1);
        Failed
    }

    // Counts a call, and fails it where it is barred.
    fn begin(&mut self, kind: Kind) -> Result<(), Failed>
        ensures exact { is_ok result ≡ not (is_barred self.old kind) }
        ensures ok { OnOk result (self.new ≡ record self.old { calls = raised self.old.calls kind (2 ^ 32 - 1) }) }
        ensures err { OnErr result (self.new ≡ record self.old { calls = raised self.old.calls kind (2 ^ 32 - 1); faults = raised self.old.faults kind (2 ^ 64 - 1) }) }
        ensures counts { Counts kind (count_of self.old.faults) (count_of self.new.faults) (is_err result) }
        ensures same_faults { OnOk result (self.new.faults ≡ self.old.faults) }
    {
        let barred = self.is_barred(kind);
        let place = kind.place();
        self.calls[place] = self.calls[place].saturating_add(1);
        if barred {
            return Err(self.fail(kind));
        }
        Ok(())
    }
}

// Copies as many bytes as both have and the limit allows.
pub(crate) fn copy_front(from: &[u8], most: usize, buf: &mut [u8]) -> usize
    ensures count { result ≡ min most (min (length buf.old) (length from.now)) }
    ensures copied { take result buf.new ≡ take result from.now }
{
    let count = most.min(buf.len()).min(from.len());
    buf[..count].copy_from_slice(&from[..count]);
    count
}

// Appends to a file; a missing one counts as empty.
fn append_file(alloc: Global, file: &mut Option<Vec<u8>>, piece: &[u8]) -> Result<(), AllocError>
    ensures ok { OnOk result (file_items file.new ≡ Some (held_bytes (file_items file.old) ++ piece.now)) }
    ensures err { OnErr result (file_items file.new ≡ file_items file.old) }
{
    if let Some(bytes) = file {
        return bytes.extend_from_slice(piece);
    }
    let bytes = Vec::from_slice(alloc, piece)?;
    *file = Some(bytes);
    Ok(())
}

impl Desk for MemoryDesk {
    ghost use Rattle.desk_io.specs.Memory.{is_barred, faults_after, starved_after};

    ghost name = { λ desk. string_bytes desk.name };

    ghost input = { λ desk. Some desk.input.items };

    ghost file = { λ desk. Some (file_items desk.file) };

    ghost output = { λ desk. Some desk.output.items };

    ghost faults = { λ desk. count_of desk.faults };

    fn take_input(&mut self, buf: &mut [u8]) -> Result<usize, Failed>
        ensures bound { IfOk result (λ count. count ≤ length buf.new) }
        ensures taken { IfOk result (λ count. TakesInput (Some self.old.input.items) (Some self.new.input.items) count buf.new) }
        ensures failed { OnErr result (Some self.new.input.items ≡ Some self.old.input.items) }
        ensures counts { Counts TakeInput (count_of self.old.faults) (count_of self.new.faults) (is_err result) }
        ensures same_name { string_bytes self.new.name ≡ string_bytes self.old.name }
        ensures same_file { Some (file_items self.new.file) ≡ Some (file_items self.old.file) }
        ensures same_output { Some self.new.output.items ≡ Some self.old.output.items }
        ensures exact { is_err result ≡ is_barred self.old TakeInput }
        ensures at_most { IfOk result (λ count. count ≤ self.old.most) }
        ensures rest { self.new ≡ record self.old {
          input = self.new.input;
          calls = raised self.old.calls TakeInput (2 ^ 32 - 1);
          faults = faults_after self.old TakeInput (is_err result);
        } }
    {
        self.begin(Kind::TakeInput)?;
        let count = copy_front(&self.input, self.most, buf);
        let left = self.input.len() - count;
        self.input.rotate_left(count);
        self.input.truncate(left);
        Ok(count)
    }

    fn take_file(&mut self, from: u32, buf: &mut [u8]) -> Result<usize, Failed>
        ensures bound { IfOk result (λ count. count ≤ length buf.new) }
        ensures taken { IfOk result (λ count. TakesFile (Some (file_items self.old.file)) from count buf.new) }
        ensures counts { Counts TakeFile (count_of self.old.faults) (count_of self.new.faults) (is_err result) }
        ensures same_name { string_bytes self.new.name ≡ string_bytes self.old.name }
        ensures same_input { Some self.new.input.items ≡ Some self.old.input.items }
        ensures same_file { Some (file_items self.new.file) ≡ Some (file_items self.old.file) }
        ensures same_output { Some self.new.output.items ≡ Some self.old.output.items }
        ensures exact { is_err result ≡ (is_barred self.old TakeFile || is_none (file_items self.old.file)) }
        ensures at_most { IfOk result (λ count. count ≤ self.old.most) }
        ensures rest { self.new ≡ record self.old {
          calls = raised self.old.calls TakeFile (2 ^ 32 - 1);
          faults = faults_after self.old TakeFile (is_err result);
        } }
    {
        self.begin(Kind::TakeFile)?;
        let Some(bytes) = &self.file else {
            return Err(self.fail(Kind::TakeFile));
        };
        let start = (from as usize).min(bytes.len());
        Ok(copy_front(&bytes[start..], self.most, buf))
    }

    fn put_output(&mut self, piece: &[u8]) -> Result<usize, Failed>
        ensures bound { IfOk result (λ count. count ≤ length piece.now) }
        ensures some { IfOk result (λ count. 0 < length piece.now → 0 < count) }
        ensures put { IfOk result (λ count. Some self.new.output.items ≡ append_known (Some self.old.output.items) (take count piece.now)) }
        ensures failed { OnErr result (Some self.new.output.items ≡ Some self.old.output.items) }
        ensures counts { Counts PutOutput (count_of self.old.faults) (count_of self.new.faults) (is_err result) }
        ensures same_name { string_bytes self.new.name ≡ string_bytes self.old.name }
        ensures same_input { Some self.new.input.items ≡ Some self.old.input.items }
        ensures same_file { Some (file_items self.new.file) ≡ Some (file_items self.old.file) }
        ensures exact { is_err result ≡ (is_barred self.old PutOutput || nat_lt self.old.starved self.new.starved) }
        ensures at_most { IfOk result (λ count. count ≤ self.old.most) }
        ensures rest { self.new ≡ record self.old {
          output = self.new.output;
          calls = raised self.old.calls PutOutput (2 ^ 32 - 1);
          faults = faults_after self.old PutOutput (is_err result);
          starved = starved_after self.old PutOutput (is_err result);
        } }
    {
        self.begin(Kind::PutOutput)?;
        let count = self.most.min(piece.len());
        if self.output.extend_from_slice(&piece[..count]).is_err() {
            self.starved = self.starved.saturating_add(1);
            return Err(self.fail(Kind::PutOutput));
        }
        Ok(count)
    }

    fn put_file(&mut self, piece: &[u8]) -> Result<usize, Failed>
        ensures bound { IfOk result (λ count. count ≤ length piece.now) }
        ensures some { IfOk result (λ count. 0 < length piece.now → 0 < count) }
        ensures put { IfOk result (λ count. (Some (file_items self.new.file)) ≡ file_and (Some (file_items self.old.file)) (take count piece.now)) }
        ensures failed { OnErr result (Some (file_items self.new.file) ≡ Some (file_items self.old.file)) }
        ensures counts { Counts PutFile (count_of self.old.faults) (count_of self.new.faults) (is_err result) }
        ensures same_name { string_bytes self.new.name ≡ string_bytes self.old.name }
        ensures same_input { Some self.new.input.items ≡ Some self.old.input.items }
        ensures same_output { Some self.new.output.items ≡ Some self.old.output.items }
        ensures exact { is_err result ≡ (is_barred self.old PutFile || nat_lt self.old.starved self.new.starved) }
        ensures at_most { IfOk result (λ count. count ≤ self.old.most) }
        ensures rest { self.new ≡ record self.old {
          file = self.new.file;
          calls = raised self.old.calls PutFile (2 ^ 32 - 1);
          faults = faults_after self.old PutFile (is_err result);
          starved = starved_after self.old PutFile (is_err result);
        } }
    {
        self.begin(Kind::PutFile)?;
        let count = self.most.min(piece.len());
        let alloc = *self.output.allocator();
        if append_file(alloc, &mut self.file, &piece[..count]).is_err() {
            self.starved = self.starved.saturating_add(1);
            return Err(self.fail(Kind::PutFile));
        }
        Ok(count)
    }

    fn clear_file(&mut self) -> Result<(), Failed>
        ensures cleared { OnOk result ((Some (file_items self.new.file)) ≡ file_of (Some (file_items self.old.file)) []) }
        ensures failed { OnErr result (Some (file_items self.new.file) ≡ Some (file_items self.old.file)) }
        ensures counts { Counts ClearFile (count_of self.old.faults) (count_of self.new.faults) (is_err result) }
        ensures same_name { string_bytes self.new.name ≡ string_bytes self.old.name }
        ensures same_input { Some self.new.input.items ≡ Some self.old.input.items }
        ensures same_output { Some self.new.output.items ≡ Some self.old.output.items }
        ensures exact { is_err result ≡ is_barred self.old ClearFile }
        ensures rest { self.new ≡ record self.old {
          file = self.new.file;
          calls = raised self.old.calls ClearFile (2 ^ 32 - 1);
          faults = faults_after self.old ClearFile (is_err result);
        } }
    {
        self.begin(Kind::ClearFile)?;
        self.file = Some(Vec::new(*self.output.allocator()));
        Ok(())
    }
}
