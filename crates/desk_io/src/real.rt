//! The desk of a running program: standard input, standard output and the file of its name. It tells no bytes.
ghost use Rattle.std.specs.Prelude.{◌≡◌, ◌<◌, ◌^◌, IsTrue, IsFalse, ◌-◌, true, None, replicate, string_bytes};
ghost use Rattle.std.specs.Io.{ReadsAtMost, WritesAtMost};
ghost use Rattle.desk_io.specs.Counts.{Counts, count_of, raised};

use crate::desk::{Desk, Failed, Kind};
use std::fs::OpenOptions;
use std::io::{Read, Seek, SeekFrom, Write};
use std::rt::Files;
use std::{fs, io};

/// The desk of a running program: standard input, standard output and the file of its name.
///
/// It tells no bytes, since no proof can say what the outside holds. So what is proved of its calls is what `Desk`
/// says where nothing is told: how many bytes a call answers at most and, of a put, at least; which fault counts
/// rise and which stay; and that its name stays. The rules are this project's convention.
///
/// No clause says what the operating system is asked to do; that stands in the code alone. The name is one relative
/// to the working folder, and each call on the file opens it anew; a put makes a missing file, and a take does not.
/// A call is `Failed` where the operating system answers an error, where it writes 0 bytes of a piece that is not
/// empty, and, before anything is asked, where the fault count of its kind stands at its last value, 2^64 - 1.
#[derive(Drop)]
pub struct RealDesk<'a, R: Input + Print + Files> {
    rt: &'a R,
    name: String,
    input: R::Reader,
    faults: [u64; 5],
}

impl<'a, R: Input + Print + Files> RealDesk<'a, R> {
    /// The desk over this runtime whose file has this name. No call of it has failed yet.
    pub fn new(rt: &'a R, name: String) -> RealDesk<'a, R>
        ensures named { string_bytes result.name ≡ string_bytes name }
        ensures fresh { result.faults ≡ replicate 5 0 }
    {
        RealDesk {
            rt,
            name,
            input: rt.reader(),
            faults: [0; 5],
        }
    }

    // Whether the count of this kind stands at its last value.
    fn is_spent(&self, kind: Kind) -> bool
        ensures open { IsFalse result → count_of self.now.faults kind < 2 ^ 64 - 1 }
        ensures spent { IsTrue result → count_of self.now.faults kind ≡ 2 ^ 64 - 1 }
    {
        self.faults[kind.place()] == u64::MAX
    }

    // Counts a failed call: the count of its kind rises by exactly one, and stands still at its last value.
    fn fail(&mut self, kind: Kind) -> Failed
        ensures after { self.new.faults ≡ raised self.old.faults kind (2 ^ 64 - 1) }
        ensures counts { Counts kind (count_of self.old.faults) (count_of self.new.faults) true }
        ensures same_name { self.new.name ≡ self.old.name }
    {
        let place = kind.place();
        self.faults[place] = self.faults[place].saturating_add(1);
        Failed
    }

    // Reads from the file at a place.
    fn read_at(&self, from: u32, buf: &mut [u8]) -> io::Result<usize>
        ensures { ReadsAtMost result buf.new }
    {
        let mut file = fs::open(self.rt, self.name.as_str())?;
        file.seek(SeekFrom::Start(u64::from(from)))?;
        file.read(buf)
    }

    // Appends to the file, and makes it where it is missing.
    fn append(&self, piece: &[u8]) -> io::Result<usize>
        ensures { WritesAtMost result piece.now }
    {
        let mut file = OpenOptions::new()
            .append(true)
            .create(true)
            .open(self.rt, self.name.as_str())?;
        file.write(piece)
    }
}

impl<'a, R: Input + Print + Files> Desk for RealDesk<'a, R> {
    ghost name = { λ desk. string_bytes desk.name };

    ghost input = { λ _. None };

    ghost file = { λ _. None };

    ghost output = { λ _. None };

    ghost faults = { λ desk. count_of desk.faults };

    fn take_input(&mut self, buf: &mut [u8]) -> Result<usize, Failed> {
        if self.is_spent(Kind::TakeInput) {
            return Err(Failed);
        }
        match self.input.read(buf) {
            Ok(count) => Ok(count),
            Err(_) => Err(self.fail(Kind::TakeInput)),
        }
    }

    fn take_file(&mut self, from: u32, buf: &mut [u8]) -> Result<usize, Failed> {
        if self.is_spent(Kind::TakeFile) {
            return Err(Failed);
        }
        match self.read_at(from, buf) {
            Ok(count) => Ok(count),
            Err(_) => Err(self.fail(Kind::TakeFile)),
        }
    }

    fn put_output(&mut self, piece: &[u8]) -> Result<usize, Failed> {
        if self.is_spent(Kind::PutOutput) {
            return Err(Failed);
        }
        match self.rt.write_some(piece) {
            Ok(count) if count > 0 || piece.is_empty() => Ok(count),
            _ => Err(self.fail(Kind::PutOutput)),
        }
    }

    fn put_file(&mut self, piece: &[u8]) -> Result<usize, Failed> {
        if self.is_spent(Kind::PutFile) {
            return Err(Failed);
        }
        match self.append(piece) {
            Ok(count) if count > 0 || piece.is_empty() => Ok(count),
            _ => Err(self.fail(Kind::PutFile)),
        }
    }

    fn clear_file(&mut self) -> Result<(), Failed> {
        if self.is_spent(Kind::ClearFile) {
            return Err(Failed);
        }
        match fs::create(self.rt, self.name.as_str()) {
            Ok(_) => Ok(()),
            Err(_) => Err(self.fail(Kind::ClearFile)),
        }
    }
}
