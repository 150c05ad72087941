//! The rules of a kernel's run, and its limits.
ghost use Rattle.std.specs.Prelude.{◌≡◌};
ghost use Rattle.kernel_ast.specs.Places.{fault};
ghost use Rattle.kernel_ast.specs.RunRules.{code_of};

use crate::element::Fault;

/// The most turns that a kernel's run may count, and the most that one statement may weigh.
pub const MAX_TURNS: u32 = 65_536;

/// The most vertices that a kernel's graph may have.
pub const MAX_VERTICES: u32 = 256;

/// A rule of runs that is broken (this project's convention).
#[derive(Clone, Copy, Debug, PartialEq, Eq)]
pub enum RunRule {
    /// 7: an index value is below 0 or not below its size; at the place's name.
    OutOfRange,
    /// 8: an element is read that is not set; at the place's name.
    Unset,
    /// 10: an output element is not set at the end; at the name in its declaration.
    OutputUnset,
    /// 11: a 257th vertex is needed; at the operator's sign or the function word, or at the name in the declaration of the input or output.
    TooManyVertices,
    /// 12: there are more than 65,536 turns; at the statement's first token, and for a turn of a loop at its `for`.
    TooManyTurns,
    /// 14: a number, or the value of an operator or a minus sign, in an index is below -1,000,000 or above 1,000,000; at the first token of
    /// that whole index.
    BigIndex,
    /// 17: the value of a step is below 1; at the first token of the step.
    BadStep,
}

impl RunRule {
    /// The fault that this rule is broken at a place of the kernel's text.
    pub fn at(self, at: u32) -> Fault
        ensures { result ≡ fault (code_of self) at }
    {
        let code = match self {
            RunRule::OutOfRange => 7,
            RunRule::Unset => 8,
            RunRule::OutputUnset => 10,
            RunRule::TooManyVertices => 11,
            RunRule::TooManyTurns => 12,
            RunRule::BigIndex => 14,
            RunRule::BadStep => 17,
        };
        Fault { code, at }
    }
}
