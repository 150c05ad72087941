//! Certificates by windows: windows of a game with tables of their positions, and their bytes, both ways.
#![tactic(auto)]

pub mod certs;
pub mod charged;
pub mod decoding;
pub mod end;
mod header;
pub mod laws;
mod parts;
mod pieces;
mod reading;
mod sets;
mod stop;
pub mod writing;

pub use certs::{CertWindow, Renaming, WindowCert};
pub use charged::ChargedLoads;
pub use decoding::decode;
pub use end::CertEnd;
pub use writing::encode;
