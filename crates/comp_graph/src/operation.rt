//! The operations of a program, on 64-bit two's complement numbers.
ghost use Rattle.std.specs.Prelude.{◌≡◌, ◌≢◌, slice_index_or, pos};
ghost use Rattle.comp_graph.specs.Operations.{arity_of, op_word, value_of};

/// What a vertex computes. `Input` is given from outside, `Set` is a constant, `Sel` of `c`, `a`, `b` is `a` where `c` is not 0 and
/// else `b`, and `Mad` of `a`, `b`, `c` is `a * b + c`. `Min` and `Max` compare as signed numbers.
#[derive(Clone, Copy, PartialEq, Eq)]
pub enum Op {
    Input,
    Set,
    Add,
    Sub,
    Mul,
    And,
    Or,
    Xor,
    Neg,
    Min,
    Max,
    Sel,
    Mad,
}

impl Op {
    /// How many operands it takes: 0 for `Input`, 1 for `Set` and `Neg`, 3 for `Sel` and `Mad`, else 2.
    pub fn arity(self) -> u8
        ensures { result ≡ arity_of self }
    {
        match self {
            Op::Input => 0,
            Op::Set | Op::Neg => 1,
            Op::Sel | Op::Mad => 3,
            _ => 2,
        }
    }

    /// Its word, as texts of graphs and of code write it: `set`, `add`, and so on, and `in` for `Input`.
    pub fn word(self) -> &'static str
        ensures { result.now ≡ op_word self }
    {
        match self {
            Op::Input => "in",
            Op::Set => "set",
            Op::Add => "add",
            Op::Sub => "sub",
            Op::Mul => "mul",
            Op::And => "and",
            Op::Or => "or",
            Op::Xor => "xor",
            Op::Neg => "neg",
            Op::Min => "min",
            Op::Max => "max",
            Op::Sel => "sel",
            Op::Mad => "mad",
        }
    }

    /// Its value at the first `arity` of the numbers. Sums, differences, products and the negation wrap at 64 bits; `Set` gives its
    /// first number.
    pub fn value(self, args: [i64; 3]) -> i64
        requires { self ≢ Op.Input }
        ensures { result ≡ value_of self (slice_index_or args 0 (pos 0)) (slice_index_or args 1 (pos 0)) (slice_index_or args 2 (pos 0)) }
    {
        let [a, b, c] = args;
        match self {
            Op::Input => unreachable!(),
            Op::Set => a,
            Op::Add => a.wrapping_add(b),
            Op::Sub => a.wrapping_sub(b),
            Op::Mul => a.wrapping_mul(b),
            Op::And => a & b,
            Op::Or => a | b,
            Op::Xor => a ^ b,
            Op::Neg => a.wrapping_neg(),
            Op::Min => a.min(b),
            Op::Max => a.max(b),
            Op::Sel => { if a != 0 { b } else { c } }
            Op::Mad => a.wrapping_mul(b).wrapping_add(c),
        }
    }
}
