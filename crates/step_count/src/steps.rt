//! A number of steps, kept in tokens that have no bytes.
ghost use Rattle.std.specs.Prelude.{◌≡◌, ◌+◌, ◌<◌};
ghost use Rattle.step_count.specs.Openings.{Opens};

use std::marker::Model;
use std::sync::ledger::{Blank, Book, Ledger, Share};

/// How many steps were taken. Contracts see it as that number. It has no bytes, no function reads it when the program runs, and only
/// [`Steps::tick`] and [`Steps::add`] change it. `L` names the ledger that the steps stand in; a caller takes any.
#[derive(Drop)]
pub struct Steps<L: Ledger> {
    book: Book<L>,
    share: Share<L>,
}

impl<L: Ledger> Model for Steps<L> {
    ghost use Rattle.std.specs.Prelude.{ℕ, ◌<◌};

    ghost Value = { ℕ };

    ghost view = { λ s. s.book.total };

    ghost invariant = { λ s. 0 < s.share.parts };
}

impl<L: Ledger> Steps<L> {
    /// No steps, in a ledger that has none yet. It takes no memory.
    pub fn new(blank: Blank) -> Steps<L>
        requires { Opens L.name L.parts blank }
        ensures { result ≡ 0 }
    {
        let (book, share) = blank.open();
        Steps { book, share }
    }

    /// One step more. It does nothing when the program runs.
    pub fn tick(&mut self)
        ensures { self.new ≡ self.old + 1 }
    {
        self.book.add(&mut self.share, 1);
    }

    /// This many steps more. It does nothing when the program runs.
    pub fn add(&mut self, count: usize)
        ensures { self.new ≡ self.old + count }
    {
        self.book.add(&mut self.share, count as u64);
    }
}
