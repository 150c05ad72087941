//! Executed assignments.
ghost use Rattle.std.specs.Prelude.{◌≡◌};

use comp_graph::operation::Op;
use kernel_ast::Cell;
use kernel_walk::Stop;
use sqlite_items::Items;
use std::marker::Model;

/// A part of an expression in postfix order: a constant, an element that is read, or an operation on the values of the parts before it.
/// `at` is a place in the kernel's text, in bytes from 0: the name's of the element that is read, and the sign's or the function word's
/// of the operation.
#[derive(Clone, Copy)]
pub enum Item {
    Number(i64),
    Read { cell: Cell, at: u32 },
    Apply { op: Op, at: u32 },
}

/// An executed assignment: the element that is assigned, and its right side in postfix order, with the indices of the open loops as
/// constants.
#[derive(Drop)]
pub struct Flat {
    pub target: Cell,
    pub items: Items<Item>,
}

/// The executed assignments of a kernel, in order. Contracts see them as a list.
#[derive(Drop)]
pub struct Flats {
    list: Items<Flat>,
}

impl Model for Flats {
    ghost use Rattle.loop_unroll.specs.declared.flat.Flat.{Flat};
    ghost use Rattle.std.specs.Prelude.{List};

    ghost Value = { List Flat };

    ghost view = { λ f. f.list };
}

impl Flats {
    /// These assignments.
    pub fn new(list: Items<Flat>) -> Flats
        ensures { result ≡ list }
    {
        Flats { list }
    }

    /// The assignments in order.
    pub fn as_slice(&self) -> &[Flat]
        ensures { result.now ≡ self.now }
    {
        self.list.as_slice()
    }
}

/// Why there is no answer: a fault of the kernel's run, with its code and its place in the text in bytes from 0, or want of memory.
#[derive(Clone, Copy, Debug, PartialEq, Eq)]
pub enum ShapeEnd {
    Fault { code: u8, at: u32 },
    NoMemory,
}

impl From<Stop> for ShapeEnd {
    ghost use Rattle.std.specs.Prelude.{◌≡◌};
    ghost use Rattle.loop_unroll.specs.ShapeEnds.{end_of};

    ghost from_gives = { λ stop e. e ≡ end_of stop };

    fn from(stop: Stop) -> ShapeEnd {
        match stop {
            Stop::Fault(fault) => ShapeEnd::Fault {
                code: fault.code,
                at: fault.at,
            },
            Stop::NoMemory => ShapeEnd::NoMemory,
        }
    }
}
