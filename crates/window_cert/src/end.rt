//! Why bytes are not read.

/// The bytes spell no certificate, and the first part that is not there begins at the byte `at`, or memory ran out.
#[derive(Clone, Copy, PartialEq, Eq, Debug)]
pub enum CertEnd {
    Shape { at: u32 },
    NoMemory,
}
