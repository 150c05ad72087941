//! Tests of the three desks and of the calls that read and write whole texts over them.
//!
//! The desk in memory takes and puts a few bytes a call: it is read and written whole, has more input than the limit,
//! has no file, fails a read and a write in mid-stream, and stands with its counters at their last values. The honest
//! desk is read and written whole, and the real desk's file too. The errors' numbers and printed texts are pinned.
ghost use Rattle.std.specs.Prelude.{◌≤◌};

use desk_io::{
    Desk, Fail, Failed, HonestDesk, Kind, MemoryDesk, ReadEnd, RealDesk, WriteFault, read_file,
    read_input, write_file, write_output,
};
use std::alloc::{AllocError, Global};
use std::fs;
use std::test::Fail as TestFail;

// The whole input is this text.
fn reads_input<D: Desk>(alloc: Global, desk: &mut D, limit: u32, text: &[u8]) -> bool {
    match read_input(alloc, desk, limit) {
        Ok(found) => found.as_slice() == text,
        Err(_) => false,
    }
}

// The input is not read for this reason.
fn ends_input<D: Desk>(alloc: Global, desk: &mut D, limit: u32, end: ReadEnd) -> bool {
    read_input(alloc, desk, limit).err() == Some(end)
}

// The whole file is this text.
fn reads_file<D: Desk>(alloc: Global, desk: &mut D, limit: u32, text: &[u8]) -> bool {
    match read_file(alloc, desk, limit) {
        Ok(found) => found.as_slice() == text,
        Err(_) => false,
    }
}

// The file is not read for this reason.
fn ends_file<D: Desk>(alloc: Global, desk: &mut D, limit: u32, end: ReadEnd) -> bool {
    read_file(alloc, desk, limit).err() == Some(end)
}

// The file is written anew.
fn writes_file<D: Desk>(desk: &mut D, text: &[u8]) -> bool {
    write_file(desk, text) == Ok(())
}

// The text is printed.
fn prints<D: Desk>(desk: &mut D, text: &[u8]) -> bool {
    write_output(desk, text) == Ok(())
}

// A desk without a file, with the input `hello`, that takes and puts at most so many bytes a call, on which these calls fail.
fn memory_desk(alloc: Global, most: usize, fail: &[Fail]) -> Result<MemoryDesk, AllocError>
    requires { 1 ≤ most }
{
    Ok(MemoryDesk {
        name: String::from_str(alloc, "table")?,
        input: Vec::from_slice(alloc, b"hello")?,
        file: None,
        output: Vec::new(alloc),
        most,
        fail: Vec::from_slice(alloc, fail)?,
        calls: [0; 5],
        faults: [0; 5],
        starved: 0,
    })
}

fn takes_single_bytes(alloc: Global) -> Result<bool, AllocError> {
    let mut desk = memory_desk(alloc, 1, &[])?;
    Ok(
        reads_input(alloc, &mut desk, 5, b"hello")
            && desk.input.is_empty()
            && desk.calls == [6, 0, 0, 0, 0]
            && desk.faults == [0; 5],
    )
}

fn refuses_a_long_input(alloc: Global) -> Result<bool, AllocError> {
    let mut desk = memory_desk(alloc, 2, &[])?;
    Ok(ends_input(alloc, &mut desk, 4, ReadEnd::TooLong))
}

const SECOND_TAKE: [Fail; 1] = [Fail {
    kind: Kind::TakeInput,
    nth: 1,
}];

fn fails_a_read_in_mid_stream(alloc: Global) -> Result<bool, AllocError> {
    let mut desk = memory_desk(alloc, 2, &SECOND_TAKE)?;
    Ok(
        ends_input(alloc, &mut desk, 9, ReadEnd::ReadFault)
            && desk.input.as_slice() == b"llo".as_slice()
            && desk.faults == [1, 0, 0, 0, 0]
            && reads_input(alloc, &mut desk, 9, b"llo"),
    )
}

const SECOND_PUT: [Fail; 1] = [Fail {
    kind: Kind::PutFile,
    nth: 1,
}];

fn fails_a_write_in_mid_stream(alloc: Global) -> Result<bool, AllocError> {
    let mut desk = memory_desk(alloc, 3, &SECOND_PUT)?;
    Ok(
        !writes_file(&mut desk, b"seven of")
            && desk.file.as_deref() == Some(b"sev".as_slice())
            && desk.faults == [0, 0, 0, 1, 0],
    )
}

fn writes_and_reads(alloc: Global) -> Result<bool, AllocError> {
    let mut desk = memory_desk(alloc, 3, &[])?;
    Ok(
        ends_file(alloc, &mut desk, 9, ReadEnd::ReadFault)
            && writes_file(&mut desk, b"seven of")
            && reads_file(alloc, &mut desk, 8, b"seven of")
            && prints(&mut desk, b"out")
            && prints(&mut desk, b"put")
            && desk.output.as_slice() == b"output".as_slice()
            && desk.starved == 0,
    )
}

const FIFTH_TAKE: [Fail; 1] = [Fail {
    kind: Kind::TakeFile,
    nth: 4,
}];

fn fails_in_mid_file(alloc: Global) -> Result<bool, AllocError> {
    let mut desk = memory_desk(alloc, 3, &FIFTH_TAKE)?;
    Ok(
        writes_file(&mut desk, b"seven of")
            && ends_file(alloc, &mut desk, 7, ReadEnd::TooLong)
            && ends_file(alloc, &mut desk, 8, ReadEnd::ReadFault)
            && desk.calls == [0, 5, 0, 3, 1]
            && desk.faults == [0, 1, 0, 0, 0]
            && reads_file(alloc, &mut desk, 8, b"seven of")
            && desk.input.as_slice() == b"hello".as_slice(),
    )
}

// Takes at most four bytes of the input.
fn take<D: Desk>(desk: &mut D) -> Result<usize, Failed> {
    let mut buf = [0; 4];
    desk.take_input(&mut buf)
}

// Empties the file.
fn clear<D: Desk>(desk: &mut D) -> Result<(), Failed> {
    desk.clear_file()
}

// Puts three bytes to the output.
fn put<D: Desk>(desk: &mut D) -> Result<usize, Failed> {
    desk.put_output(b"out")
}

fn fails_at_the_last_values(alloc: Global) -> Result<bool, AllocError> {
    let mut desk = memory_desk(alloc, 9, &[])?;
    desk.starved = u64::MAX;
    desk.calls = [u32::MAX; 5];
    let starved = take(&mut desk) == Err(Failed) && clear(&mut desk) == Err(Failed);
    desk.starved = 0;
    desk.faults[2] = u64::MAX;
    Ok(
        starved
            && put(&mut desk) == Err(Failed)
            && take(&mut desk) == Ok(4)
            && desk.calls == [u32::MAX; 5]
            && desk.faults == [1, 0, u64::MAX, 0, 1]
            && desk.output.is_empty(),
    )
}

#[test]
fn memory_desks(rt: HostRuntime) -> Result<(), TestFail> {
    assert!(rt; takes_single_bytes(rt.alloc())?);
    assert!(rt; refuses_a_long_input(rt.alloc())?);
    assert!(rt; fails_a_read_in_mid_stream(rt.alloc())?);
    assert!(rt; fails_a_write_in_mid_stream(rt.alloc())?);
    assert!(rt; writes_and_reads(rt.alloc())?);
    assert!(rt; fails_in_mid_file(rt.alloc())?);
    assert!(rt; fails_at_the_last_values(rt.alloc())?);
    Ok(())
}

// The input is `in` and the file `rows`, whatever is written.
fn is_honest(alloc: Global) -> Result<bool, AllocError> {
    let mut desk = HonestDesk {
        name: String::from_str(alloc, "table")?,
        input: Vec::from_slice(alloc, b"in")?,
        file: Vec::from_slice(alloc, b"rows")?,
        written: 0,
    };
    Ok(
        reads_input(alloc, &mut desk, 9, b"in")
            && writes_file(&mut desk, b"other")
            && reads_file(alloc, &mut desk, 9, b"rows")
            && prints(&mut desk, b"out")
            && desk.written == 8,
    )
}

#[test]
fn honest_desk(rt: HostRuntime) -> Result<(), TestFail> {
    assert!(rt; is_honest(rt.alloc())?);
    Ok(())
}

// The file is not there at first, and is what was written last.
fn keeps_a_file<D: Desk>(alloc: Global, desk: &mut D) -> bool {
    ends_file(alloc, desk, 9, ReadEnd::ReadFault)
        && writes_file(desk, b"an older table")
        && writes_file(desk, b"table")
        && reads_file(alloc, desk, 9, b"table")
        && prints(desk, b"")
}

#[test]
fn real_desk(rt: HostRuntime) -> Result<(), TestFail> {
    let name = "desk_io_test";
    let mut desk = RealDesk::new(&rt, String::from_str(rt.alloc(), name)?);
    let is_kept = keeps_a_file(rt.alloc(), &mut desk);
    fs::remove_file(&rt, name)?;
    assert!(rt; is_kept);
    Ok(())
}

#[test]
fn numbers_and_texts_of_ends(rt: HostRuntime) -> Result<(), TestFail> {
    assert_eq!(rt; ReadEnd::TooLong as u8, 1);
    assert_eq!(rt; ReadEnd::ReadFault as u8, 2);
    assert_eq!(rt; ReadEnd::NoMemory as u8, 3);
    let printed = format!(in rt.alloc(); "{}; {}; {}", ReadEnd::TooLong, WriteFault, Failed)?;
    assert!(rt;
        printed.as_str() == "more bytes than the limit; a write failed; a call of the desk failed"
    );
    Ok(())
}
