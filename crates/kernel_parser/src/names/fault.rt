//! The faults of names.
ghost use Rattle.std.specs.Prelude.{◌≡◌};
ghost use Rattle.kernel_parser.specs.NameFaults.{code_of};

use crate::parse_end::ParseEnd;

/// A rule of names that is broken.
#[derive(Clone, Copy)]
pub enum NameRule {
    /// The name is not known where it stands.
    Unknown,
    /// The name is known already.
    Twice,
    /// The place has another number of brackets than its declaration has sizes, or an open index has brackets.
    Indices,
    /// The target is an input or an open index.
    NotWritable,
    /// The size is 0 or above 64.
    BadSize,
}

impl NameRule {
    /// Reading ends with this fault at the place.
    pub fn at(self, at: u32) -> ParseEnd
        ensures { result ≡ ParseEnd.Fault (code_of self) at }
    {
        let code = match self {
            NameRule::Unknown => 4,
            NameRule::Twice => 5,
            NameRule::Indices => 6,
            NameRule::NotWritable => 9,
            NameRule::BadSize => 16,
        };
        ParseEnd::Fault { code, at }
    }
}
