//! A whole input or file is read, and a whole text is written, by calls that take or put any number of bytes. The loops stand in `counted`.
//!
//! Each clause here is a field of the record in `specs/Whole.antt` that the counted call promises. This is the list for readers and callers, and
//! it is proved from that record.
ghost use Rattle.std.specs.Prelude.{◌≡◌, ℕ, ◌<◌, ◌≤◌, ◌⊎◌, List, length, take, IfOk, OnOk, OnErr};
ghost use Rattle.std.specs.Io.KnownBytes.{append_known, prepend_known};
ghost use Rattle.step_count.specs.Openings.{Opens};
ghost use Rattle.desk_io.specs.declared.desk.Kind.{Kind};
ghost use Rattle.desk_io.specs.Counts.{Rose};
ghost use Rattle.desk_io.specs.Known.{file_of, Tells, TellsMore, TookAtMost, TookMore, TellsFile, TellsMoreFile, input_end};
ghost use Rattle.desk_io.specs.Whole.{ReadsInput, ReadsFile, WritesOutput, WritesFile};

use crate::counted::{
    read_file_counted, read_input_counted, write_file_counted, write_output_counted,
};
use crate::desk::{Desk, Kind};
use std::alloc::Global;
use std::fmt;
use std::marker::Brand;
use std::sync::ledger::{Blank, Ledger};
use step_count::Steps;

/// Why an input or a file was not read to its end. The numbers are this project's convention.
#[derive(Clone, Copy, Debug, PartialEq, Eq)]
pub enum ReadEnd {
    /// More bytes stand there than the limit allows.
    TooLong = 1,
    /// A take failed.
    ReadFault = 2,
    /// Memory was wanted and not found.
    NoMemory = 3,
}

impl fmt::Display for ReadEnd {
    fn fmt<W: fmt::Write>(&self, f: &mut fmt::Formatter<W>) -> fmt::Result {
        match self {
            ReadEnd::TooLong => f.write_str("more bytes than the limit"),
            ReadEnd::ReadFault => f.write_str("a read failed"),
            ReadEnd::NoMemory => f.write_str("out of memory"),
        }
    }
}

impl std::error::Error for ReadEnd {}

/// A write failed, so that not all of a text was written.
#[derive(Clone, Copy, Debug, PartialEq, Eq)]
pub struct WriteFault;

impl fmt::Display for WriteFault {
    fn fmt<W: fmt::Write>(&self, f: &mut fmt::Formatter<W>) -> fmt::Result {
        f.write_str("a write failed")
    }
}

impl std::error::Error for WriteFault {}

/// The whole input that is left, read to its end, where it has at most `limit` bytes.
///
/// `TooLong` comes exactly where more than `limit` bytes stand there, and neither a take nor memory fails first.
/// `ReadFault` comes only where the desk's count of failed takes from the input rose in this call, or stands at its
/// last value; then at most `limit` bytes were taken. `NoMemory` comes only for want of memory. After an error the
/// bytes that were taken are lost, and the rest of the input is left. The file, the output and the other counts stay
/// as they were. At most `limit + 1` calls of the desk are made, as [`read_input_counted`] says in `calls`; this is that
/// call with steps that nothing reads.
pub fn read_input<D: Desk>(alloc: Global, desk: &mut D, limit: u32) -> Result<Vec<u8>, ReadEnd>
    ensures whole { IfOk result (λ text. Tells (D.input desk.old) text.items) }
    ensures fits { IfOk result (λ text. length text.items ≤ limit) }
    ensures end { OnOk result (D.input desk.new ≡ input_end (D.input desk.old)) }

    ensures too_long { result ≡ Err ReadEnd.TooLong → TellsMore (D.input desk.old) limit }
    ensures late { result ≡ Err ReadEnd.TooLong → TookMore (D.input desk.old) (D.input desk.new) limit }
    ensures cause { result ≡ Err ReadEnd.ReadFault →
        Rose (D.faults desk.old Kind.TakeInput) (D.faults desk.new Kind.TakeInput) }
    ensures early { result ≡ Err ReadEnd.ReadFault → TookAtMost (D.input desk.old) (D.input desk.new) limit }
    ensures lost { OnErr result ((taken : List ℕ) × (D.input desk.old ≡ prepend_known taken (D.input desk.new))) }
    ensures no_fault { (result ≡ Err ReadEnd.ReadFault → ⊥) →
        D.faults desk.new Kind.TakeInput ≡ D.faults desk.old Kind.TakeInput }

    ensures other_faults { (other : Kind) → (other ≡ Kind.TakeInput → ⊥) →
        D.faults desk.new other ≡ D.faults desk.old other }
    ensures same_name { D.name desk.new ≡ D.name desk.old }
    ensures same_file { D.file desk.new ≡ D.file desk.old }
    ensures same_output { D.output desk.new ≡ D.output desk.old }
{
    read_input_uncounted::<D, Brand>(alloc, desk, limit, Blank::new(1))
}

// The same with steps that nothing reads.
fn read_input_uncounted<D: Desk, L: Ledger>(
    alloc: Global,
    desk: &mut D,
    limit: u32,
    blank: Blank,
) -> Result<Vec<u8>, ReadEnd>
    requires { Opens L.name L.parts blank }
    ensures { ReadsInput D.name D.input D.file D.output D.faults
        desk.old desk.new limit result }
{
    read_input_counted(alloc, desk, limit, &mut Steps::<L>::new(blank))
}

/// The whole file, where it has at most `limit` bytes.
///
/// `TooLong` comes exactly where more than `limit` bytes stand there, and neither a take nor memory fails first.
/// `ReadFault` comes only where the desk's count of failed takes from the file rose in this call, or stands at its
/// last value; a missing file is a failed take. `NoMemory` comes only for want of memory. The input, the file, the
/// output and the other counts stay as they were. At most `limit + 1` calls of the desk are made, and at `ReadFault` at
/// most `limit` bytes were taken, as [`read_file_counted`] says in `calls` and `early`; this is that call with steps that
/// nothing reads.
pub fn read_file<D: Desk>(alloc: Global, desk: &mut D, limit: u32) -> Result<Vec<u8>, ReadEnd>
    ensures whole { IfOk result (λ text. TellsFile (D.file desk.old) text.items) }
    ensures fits { IfOk result (λ text. length text.items ≤ limit) }

    ensures too_long { result ≡ Err ReadEnd.TooLong → TellsMoreFile (D.file desk.old) limit }
    ensures cause { result ≡ Err ReadEnd.ReadFault →
        Rose (D.faults desk.old Kind.TakeFile) (D.faults desk.new Kind.TakeFile) }
    ensures no_fault { (result ≡ Err ReadEnd.ReadFault → ⊥) →
        D.faults desk.new Kind.TakeFile ≡ D.faults desk.old Kind.TakeFile }

    ensures other_faults { (other : Kind) → (other ≡ Kind.TakeFile → ⊥) →
        D.faults desk.new other ≡ D.faults desk.old other }
    ensures same_name { D.name desk.new ≡ D.name desk.old }
    ensures same_input { D.input desk.new ≡ D.input desk.old }
    ensures same_file { D.file desk.new ≡ D.file desk.old }
    ensures same_output { D.output desk.new ≡ D.output desk.old }
{
    read_file_uncounted::<D, Brand, Brand>(alloc, desk, limit, Blank::new(1), Blank::new(1))
}

// The same with steps and bytes that nothing reads.
fn read_file_uncounted<D: Desk, L: Ledger, B: Ledger>(
    alloc: Global,
    desk: &mut D,
    limit: u32,
    blank: Blank,
    other: Blank,
) -> Result<Vec<u8>, ReadEnd>
    requires steps { Opens L.name L.parts blank }
    requires bytes { Opens B.name B.parts other }
    ensures { ReadsFile D.name D.input D.file D.output D.faults
        desk.old desk.new limit result }
{
    let mut steps = Steps::<L>::new(blank);
    let mut bytes = Steps::<B>::new(other);
    read_file_counted(alloc, desk, limit, &mut steps, &mut bytes)
}

/// Appends exactly `text` to the output.
///
/// `WriteFault` comes only where the desk's count of failed puts to the output rose in this call, or stands at its
/// last value; then a prefix of `text` was appended, and never the whole. The input, the file and the other counts
/// stay as they were. At most as many calls of the desk are made as `text` has bytes, as [`write_output_counted`] says in
/// `calls`; this is that call with steps that nothing reads. No memory is taken.
pub fn write_output<D: Desk>(desk: &mut D, text: &[u8]) -> Result<(), WriteFault>
    ensures ok { OnOk result (D.output desk.new ≡ append_known (D.output desk.old) text.now) }
    ensures prefix { OnErr result ((count : ℕ) × (count < length text.now)
        × (D.output desk.new ≡ append_known (D.output desk.old) (take count text.now))) }
    ensures cause { OnErr result (Rose (D.faults desk.old Kind.PutOutput) (D.faults desk.new Kind.PutOutput)) }
    ensures no_fault { OnOk result (D.faults desk.new Kind.PutOutput ≡ D.faults desk.old Kind.PutOutput) }

    ensures other_faults { (other : Kind) → (other ≡ Kind.PutOutput → ⊥) →
        D.faults desk.new other ≡ D.faults desk.old other }
    ensures same_name { D.name desk.new ≡ D.name desk.old }
    ensures same_input { D.input desk.new ≡ D.input desk.old }
    ensures same_file { D.file desk.new ≡ D.file desk.old }
{
    write_output_uncounted::<D, Brand>(desk, text, Blank::new(1))
}

// The same with steps that nothing reads.
fn write_output_uncounted<D: Desk, L: Ledger>(
    desk: &mut D,
    text: &[u8],
    blank: Blank,
) -> Result<(), WriteFault>
    requires { Opens L.name L.parts blank }
    ensures { WritesOutput D.name D.input D.file D.output D.faults
        desk.old desk.new text.now result }
{
    write_output_counted(desk, text, &mut Steps::<L>::new(blank))
}

/// Makes the file be there with exactly these bytes.
///
/// `WriteFault` comes in two cases only. Where the clear failed, the count of failed clears rose, or stands at its last
/// value; that of failed puts to the file and the file are as they were. Where a put failed, the count of failed puts
/// rose, or stands at its last value; that of failed clears is as it was, and the file is there and holds a prefix of
/// `bytes`, and never the whole. The input, the output and the other counts stay as they were. At most one
/// call of the desk more is made than there are bytes, as [`write_file_counted`] says in `calls`; this is that call with
/// steps that nothing reads. No memory is taken.
pub fn write_file<D: Desk>(desk: &mut D, bytes: &[u8]) -> Result<(), WriteFault>
    ensures ok { OnOk result (D.file desk.new ≡ file_of (D.file desk.old) bytes.now) }
    ensures fault { OnErr result (
        (Rose (D.faults desk.old Kind.ClearFile) (D.faults desk.new Kind.ClearFile) × (D.file desk.new ≡ D.file desk.old)
        × (D.faults desk.new Kind.PutFile ≡ D.faults desk.old Kind.PutFile))
        ⊎ (Rose (D.faults desk.old Kind.PutFile) (D.faults desk.new Kind.PutFile)
        × (D.faults desk.new Kind.ClearFile ≡ D.faults desk.old Kind.ClearFile)
        × ((count : ℕ) × (count < length bytes.now) × (D.file desk.new ≡ file_of (D.file desk.old) (take count bytes.now))))) }
    ensures no_fault { OnOk result ((D.faults desk.new Kind.ClearFile ≡ D.faults desk.old Kind.ClearFile)
        × (D.faults desk.new Kind.PutFile ≡ D.faults desk.old Kind.PutFile)) }

    ensures other_faults { (other : Kind) → (other ≡ Kind.ClearFile → ⊥) → (other ≡ Kind.PutFile → ⊥) →
        D.faults desk.new other ≡ D.faults desk.old other }
    ensures same_name { D.name desk.new ≡ D.name desk.old }
    ensures same_input { D.input desk.new ≡ D.input desk.old }
    ensures same_output { D.output desk.new ≡ D.output desk.old }
{
    write_file_uncounted::<D, Brand>(desk, bytes, Blank::new(1))
}

// The same with steps that nothing reads.
fn write_file_uncounted<D: Desk, L: Ledger>(
    desk: &mut D,
    bytes: &[u8],
    blank: Blank,
) -> Result<(), WriteFault>
    requires { Opens L.name L.parts blank }
    ensures { WritesFile D.name D.input D.file D.output D.faults
        desk.old desk.new bytes.now result }
{
    write_file_counted(desk, bytes, &mut Steps::<L>::new(blank))
}
