//! The loops that read a whole input or file and write a whole text, with a bound on the calls of the desk that they make.
//!
//! A step is one call of the desk. The loops call the desk through the functions of `calls` alone, and each of them counts its call, so that no call
//! is left out. The bounds hold whatever the desk answers, and after every answer, errors too. Steps cost nothing when the program runs.
ghost use Rattle.std.specs.Prelude.{◌≡◌, ◌+◌, ◌<◌, ◌≤◌, length, IfOk, Err};
ghost use Rattle.desk_io.specs.Whole.{ReadsInput, ReadsFile, WritesOutput, WritesFile};

use crate::calls::{clear_file, put_file, put_output, take_file, take_input};
use crate::desk::{Desk, Failed};
use crate::transfer::{ReadEnd, WriteFault};
use std::alloc::Global;
use std::sync::ledger::Ledger;
use step_count::Steps;

/// The most bytes that one take is asked for.
const PIECE: usize = 4096;

/// [`read_input`](crate::read_input) with its steps: a step is one call of the desk.
///
/// There are at most `limit + 1`, since each take but the last gives at least one byte, and none is made after more than `limit` bytes.
pub fn read_input_counted<D: Desk, L: Ledger>(
    alloc: Global,
    desk: &mut D,
    limit: u32,
    steps: &mut Steps<L>,
) -> Result<Vec<u8>, ReadEnd>
    ensures reads { ReadsInput D.name D.input D.file D.output D.faults
        desk.old desk.new limit result }
    // A step is a call of the desk.
    ensures calls { steps.new ≤ steps.old + limit + 1 }
{
    let mut text = Vec::new(alloc);
    let mut buf = [0u8; PIECE];
    while text.len() <= limit as usize {
        match take_input(desk, &mut buf, steps) {
            Ok(0) => return Ok(text),
            Ok(count) => {
                if text.extend_from_slice(&buf[..count]).is_err() {
                    return Err(ReadEnd::NoMemory);
                }
            }
            Err(Failed) => return Err(ReadEnd::ReadFault),
        }
    }
    Err(ReadEnd::TooLong)
}

/// [`read_file`](crate::read_file) with its steps and the bytes that it took: a step is one call of the desk, and `bytes` counts each byte that a take
/// gave.
///
/// There are at most `limit + 1` steps, since each take but the last gives at least one byte, and none is made after more than `limit` bytes. At
/// `ReadFault` at most `limit` bytes were taken, and at `TooLong` more. A file that is read whole is taken once.
pub fn read_file_counted<D: Desk, L: Ledger, B: Ledger>(
    alloc: Global,
    desk: &mut D,
    limit: u32,
    steps: &mut Steps<L>,
    bytes: &mut Steps<B>,
) -> Result<Vec<u8>, ReadEnd>
    ensures reads { ReadsFile D.name D.input D.file D.output D.faults
        desk.old desk.new limit result }
    // A step is a call of the desk.
    ensures calls { steps.new ≤ steps.old + limit + 1 }
    // A step of `bytes` is a byte that a take gave.
    ensures once { IfOk result (λ text. bytes.new ≡ bytes.old + length text.items) }
    ensures late { result ≡ Err ReadEnd.TooLong → bytes.old + limit < bytes.new }
    ensures early { result ≡ Err ReadEnd.ReadFault → bytes.new ≤ bytes.old + limit }
{
    let mut file = Vec::new(alloc);
    let mut buf = [0u8; PIECE];
    while file.len() <= limit as usize {
        match take_file(desk, file.len() as u32, &mut buf, steps, bytes) {
            Ok(0) => return Ok(file),
            Ok(count) => {
                if file.extend_from_slice(&buf[..count]).is_err() {
                    return Err(ReadEnd::NoMemory);
                }
            }
            Err(Failed) => return Err(ReadEnd::ReadFault),
        }
    }
    Err(ReadEnd::TooLong)
}

/// [`write_output`](crate::write_output) with its steps: a step is one call of the desk.
///
/// There are at most as many as `text` has bytes, since each put that does not fail puts at least one byte, and none is made after the last.
pub fn write_output_counted<D: Desk, L: Ledger>(
    desk: &mut D,
    text: &[u8],
    steps: &mut Steps<L>,
) -> Result<(), WriteFault>
    ensures writes { WritesOutput D.name D.input D.file D.output D.faults
        desk.old desk.new text.now result }
    // A step is a call of the desk.
    ensures calls { steps.new ≤ steps.old + length text.now }
{
    let mut done = 0;
    while done < text.len() {
        match put_output(desk, &text[done..], steps) {
            Ok(count) => done += count,
            Err(Failed) => return Err(WriteFault),
        }
    }
    Ok(())
}

/// [`write_file`](crate::write_file) with its steps: a step is one call of the desk.
///
/// There is one clear, and there are at most as many puts as `bytes` has bytes, since each put that does not fail puts at least one byte, and none is
/// made after the last.
pub fn write_file_counted<D: Desk, L: Ledger>(
    desk: &mut D,
    bytes: &[u8],
    steps: &mut Steps<L>,
) -> Result<(), WriteFault>
    ensures writes { WritesFile D.name D.input D.file D.output D.faults
        desk.old desk.new bytes.now result }
    // A step is a call of the desk.
    ensures calls { steps.new ≤ steps.old + length bytes.now + 1 }
{
    if clear_file(desk, steps).is_err() {
        return Err(WriteFault);
    }
    let mut done = 0;
    while done < bytes.len() {
        match put_file(desk, &bytes[done..], steps) {
            Ok(count) => done += count,
            Err(Failed) => return Err(WriteFault),
        }
    }
    Ok(())
}
