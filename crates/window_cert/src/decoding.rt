//! Reading a certificate from bytes.
ghost use Rattle.std.specs.Prelude.{◌≡◌, ℕ, ◌-◌, ◌≤◌, nat_eq, length, IfOk, IfErr};
ghost use Rattle.window_cert.specs.Certs.{CertParts};
ghost use Rattle.window_cert.specs.Bytes.{IsSpelling};
ghost use Rattle.window_cert.specs.Faults.{FaultOfCert, IsFaultAt};

use crate::certs::WindowCert;
use crate::end::CertEnd;
use crate::header::read_header;
use crate::reading::read_windows;
use crate::stop::Stop;
use potential_cert::cursor::Cursor;
use std::alloc::Global;

/// Reads a certificate from at most 20,000,000 bytes. `Shape` comes exactly if they spell none, with the place at which the first part that
/// is not there begins (`specs/Faults.antt`). `NoMemory` comes only if memory runs out. This call does not test what a
/// certificate has to hold to prove its bound.
pub fn decode(alloc: Global, bytes: &[u8]) -> Result<WindowCert, CertEnd>
    requires few { length bytes.now ≤ 20000000 }
    ensures ok { IfOk result (IsSpelling bytes.now) }
    ensures shape { IfErr result (λ e. (at : ℕ) → e ≡ CertEnd.Shape at
        → (c : CertParts) → IsSpelling bytes.now c → ⊥) }
    ensures place { IfErr result (λ e. (at : ℕ) → e ≡ CertEnd.Shape at → IsFaultAt bytes.now at) }
{
    let mut cursor = Cursor::new(bytes);
    match read_cert(alloc, &mut cursor) {
        Ok(cert) => Ok(cert),
        Err(Stop::NoMemory) => Err(CertEnd::NoMemory),
        Err(Stop::Shape { left }) => Err(CertEnd::Shape {
            at: place(bytes, left),
        }),
    }
}

// The place from which so many bytes are left.
fn place(bytes: &[u8], left: usize) -> u32
    requires { length bytes.now ≤ 20000000 }
    ensures { result ≡ length bytes.now - left }
{
    bytes.len().saturating_sub(left) as u32
}

// The certificate that all bytes are.
fn read_cert(alloc: Global, cursor: &mut Cursor) -> Result<WindowCert, Stop>
    ensures ok { IfOk result (IsSpelling cursor.old) }
    ensures fault { IfErr result (λ e. (left : ℕ) → e ≡ Stop.Shape left
        → FaultOfCert cursor.old left) }
{
    let left = cursor.left();
    let header = match read_header(cursor) {
        Some(header) => header,
        None => return Err(Stop::Shape { left }),
    };
    let windows = match read_windows(alloc, cursor, header.vertices) {
        Ok(windows) => windows,
        Err(stop) => return Err(stop),
    };
    let left = cursor.left();
    if !is_done(cursor) {
        return Err(Stop::Shape { left });
    }
    Ok(WindowCert {
        vertices: header.vertices,
        slots: header.slots,
        weights: header.weights,
        bound: header.bound,
        windows,
    })
}

// Whether no bytes are left.
fn is_done(cursor: &Cursor) -> bool
    ensures { result ≡ nat_eq (length cursor.now) 0 }
{
    cursor.left() == 0
}
