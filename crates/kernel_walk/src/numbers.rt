//! The numbers that a loop's index takes.
use std::marker::Model;

/// The numbers that a loop's index has still to take: the next one, and then each time the step more, while they are below the end.
/// Contracts see it as the list of these numbers.
#[derive(Drop)]
pub struct LoopNumbers {
    next: i64,
    end: i64,
    step: i64,
}

impl Model for LoopNumbers {
    ghost use Rattle.std.specs.Prelude.{List, ℤ, pos, ◌≤ℤ◌};
    ghost use Rattle.kernel_ast.specs.Steps.{numbers};

    ghost Value = { List ℤ };

    ghost view = { λ n. numbers n.next n.end n.step };

    ghost invariant = { λ n. pos 1 ≤ℤ n.step };
}

impl LoopNumbers {
    ghost use Rattle.std.specs.Prelude.{◌≡◌, pos, ◌≤ℤ◌};
    ghost use Rattle.kernel_ast.specs.Steps.{numbers};

    /// The numbers from one to below another, each time a step more.
    pub fn new(from: i64, to: i64, step: i64) -> LoopNumbers
        requires { pos 1 ≤ℤ step }
        ensures { result ≡ numbers from to step }
    {
        LoopNumbers {
            next: from,
            end: to,
            step,
        }
    }
}

impl Iterator for LoopNumbers {
    ghost use Rattle.std.specs.Iterator.{YieldsFirst, item_count};

    type Item = i64;

    ghost next_gives = { YieldsFirst (λ n. n) };

    ghost remaining = { item_count (λ n. n) };

    fn next(&mut self) -> Option<i64> {
        if self.next >= self.end {
            return None;
        }
        let number = self.next;
        self.next = number.saturating_add(self.step);
        Some(number)
    }
}
