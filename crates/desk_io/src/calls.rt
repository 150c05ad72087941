//! The five calls of a desk, each with its step. The loops of `counted` call a desk through these functions alone.
ghost use Rattle.std.specs.Prelude.{◌≡◌, ◌+◌, ◌<◌, ◌≤◌, [], take, length, IfOk, OnOk, OnErr, is_err};
ghost use Rattle.std.specs.Io.KnownBytes.{append_known};
ghost use Rattle.desk_io.specs.declared.desk.Kind.TheVariants.{TakeInput, TakeFile, PutOutput, PutFile, ClearFile};
ghost use Rattle.desk_io.specs.Counts.{Counts};
ghost use Rattle.desk_io.specs.Known.{TakesInput, TakesFile, file_and, file_of};

use crate::desk::{Desk, Failed};
use std::sync::ledger::Ledger;
use step_count::Steps;

/// `Desk::take_input` with its step.
pub fn take_input<D: Desk, L: Ledger>(
    desk: &mut D,
    buf: &mut [u8],
    steps: &mut Steps<L>,
) -> Result<usize, Failed>
    ensures step { steps.new ≡ steps.old + 1 }
    ensures bound { IfOk result (λ count. count ≤ length buf.new) }
    ensures taken { IfOk result (λ count.
        TakesInput (D.input desk.old) (D.input desk.new) count buf.new) }
    ensures failed { OnErr result (D.input desk.new ≡ D.input desk.old) }
    ensures counts { Counts TakeInput (D.faults desk.old) (D.faults desk.new) (is_err result) }
    ensures same_name { D.name desk.new ≡ D.name desk.old }
    ensures same_file { D.file desk.new ≡ D.file desk.old }
    ensures same_output { D.output desk.new ≡ D.output desk.old }
{
    steps.tick();
    desk.take_input(buf)
}

/// `Desk::take_file` with its step and the bytes that it gave.
pub fn take_file<D: Desk, L: Ledger, B: Ledger>(
    desk: &mut D,
    from: u32,
    buf: &mut [u8],
    steps: &mut Steps<L>,
    bytes: &mut Steps<B>,
) -> Result<usize, Failed>
    ensures step { steps.new ≡ steps.old + 1 }
    ensures bytes { IfOk result (λ count. bytes.new ≡ bytes.old + count) }
    ensures no_bytes { OnErr result (bytes.new ≡ bytes.old) }
    ensures bound { IfOk result (λ count. count ≤ length buf.new) }
    ensures taken { IfOk result (λ count. TakesFile (D.file desk.old) from count buf.new) }
    ensures counts { Counts TakeFile (D.faults desk.old) (D.faults desk.new) (is_err result) }
    ensures same_name { D.name desk.new ≡ D.name desk.old }
    ensures same_input { D.input desk.new ≡ D.input desk.old }
    ensures same_file { D.file desk.new ≡ D.file desk.old }
    ensures same_output { D.output desk.new ≡ D.output desk.old }
{
    steps.tick();
    match desk.take_file(from, buf) {
        Ok(count) => {
            bytes.add(count);
            Ok(count)
        }
        Err(Failed) => Err(Failed),
    }
}

/// `Desk::put_output` with its step.
pub fn put_output<D: Desk, L: Ledger>(
    desk: &mut D,
    piece: &[u8],
    steps: &mut Steps<L>,
) -> Result<usize, Failed>
    ensures step { steps.new ≡ steps.old + 1 }
    ensures bound { IfOk result (λ count. count ≤ length piece.now) }
    ensures some { IfOk result (λ count. 0 < length piece.now → 0 < count) }
    ensures put { IfOk result (λ count.
        D.output desk.new ≡ append_known (D.output desk.old) (take count piece.now)) }
    ensures failed { OnErr result (D.output desk.new ≡ D.output desk.old) }
    ensures counts { Counts PutOutput (D.faults desk.old) (D.faults desk.new) (is_err result) }
    ensures same_name { D.name desk.new ≡ D.name desk.old }
    ensures same_input { D.input desk.new ≡ D.input desk.old }
    ensures same_file { D.file desk.new ≡ D.file desk.old }
{
    steps.tick();
    desk.put_output(piece)
}

/// `Desk::put_file` with its step.
pub fn put_file<D: Desk, L: Ledger>(
    desk: &mut D,
    piece: &[u8],
    steps: &mut Steps<L>,
) -> Result<usize, Failed>
    ensures step { steps.new ≡ steps.old + 1 }
    ensures bound { IfOk result (λ count. count ≤ length piece.now) }
    ensures some { IfOk result (λ count. 0 < length piece.now → 0 < count) }
    ensures put { IfOk result (λ count.
        D.file desk.new ≡ file_and (D.file desk.old) (take count piece.now)) }
    ensures failed { OnErr result (D.file desk.new ≡ D.file desk.old) }
    ensures counts { Counts PutFile (D.faults desk.old) (D.faults desk.new) (is_err result) }
    ensures same_name { D.name desk.new ≡ D.name desk.old }
    ensures same_input { D.input desk.new ≡ D.input desk.old }
    ensures same_output { D.output desk.new ≡ D.output desk.old }
{
    steps.tick();
    desk.put_file(piece)
}

/// `Desk::clear_file` with its step.
pub fn clear_file<D: Desk, L: Ledger>(desk: &mut D, steps: &mut Steps<L>) -> Result<(), Failed>
    ensures step { steps.new ≡ steps.old + 1 }
    ensures cleared { OnOk result (D.file desk.new ≡ file_of (D.file desk.old) []) }
    ensures failed { OnErr result (D.file desk.new ≡ D.file desk.old) }
    ensures counts { Counts ClearFile (D.faults desk.old) (D.faults desk.new) (is_err result) }
    ensures same_name { D.name desk.new ≡ D.name desk.old }
    ensures same_input { D.input desk.new ≡ D.input desk.old }
    ensures same_output { D.output desk.new ≡ D.output desk.old }
{
    steps.tick();
    desk.clear_file()
}
