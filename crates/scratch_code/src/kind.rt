//! The kinds of lines, by their first words.
ghost use Rattle.std.specs.Prelude.{◌≡◌, ◌≢◌};
ghost use Rattle.line_texts.specs.Words.{IsSpelled};
ghost use Rattle.scratch_code.specs.Items.{word_of_kind, IsKind};

use comp_graph::Op;

/// What the first word of a line says.
#[derive(Clone, Copy)]
pub(crate) enum Kind {
    Slots,
    Words,
    In,
    Out,
    Load,
    Store,
    Apply(Op),
    End,
}

impl Kind {
    /// The word that a line of this kind begins with.
    fn word(self) -> &'static str
        ensures { result.now ≡ word_of_kind self }
    {
        match self {
            Kind::Slots => "slots",
            Kind::Words => "words",
            Kind::In => "in",
            Kind::Out => "out",
            Kind::Load => "load",
            Kind::Store => "store",
            Kind::Apply(op) => op.word(),
            Kind::End => "end",
        }
    }
}

// All kinds of lines. Code has no `Input`.
const KINDS: [Kind; 19] = [
    Kind::Slots,
    Kind::Words,
    Kind::In,
    Kind::Out,
    Kind::Load,
    Kind::Store,
    Kind::End,
    Kind::Apply(Op::Set),
    Kind::Apply(Op::Add),
    Kind::Apply(Op::Sub),
    Kind::Apply(Op::Mul),
    Kind::Apply(Op::And),
    Kind::Apply(Op::Or),
    Kind::Apply(Op::Xor),
    Kind::Apply(Op::Neg),
    Kind::Apply(Op::Min),
    Kind::Apply(Op::Max),
    Kind::Apply(Op::Sel),
    Kind::Apply(Op::Mad),
];

/// The kind of line that begins with a word.
pub(crate) fn kind_of(word: &[u8]) -> Option<Kind>
    ensures { IsSpelled word_of_kind IsKind word.now result }
{
    for kind in KINDS {
        if word == kind.word().as_bytes() {
            return Some(kind);
        }
    }
    None
}
