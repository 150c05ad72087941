//! The bytes of a certificate with one window, worked out by hand.
ghost use Rattle.std.specs.Prelude.{◌≡◌, length, IfOk};
ghost use Rattle.window_cert.specs.Bytes.{IsCountable};

use crate::builders::set;
use comp_graph::{NoMemory, Weights};
use std::alloc::{AllocError, Global};
use std::process::Abort;
use std::test::Fail;
use window_cert::{CertEnd, CertWindow, ChargedLoads, WindowCert, decode, encode};

/// The certificate of the window on 4 and 6 of the butterfly, with the bound 2 and no rows.
const BYTES: [u8; 41] = [
    // the mark and the version, 12 vertices, 3 slots, the weights 1 and 1
    0x52, 0x42, 0x50, 0x57, 0, 1, 0, 12, 0, 3, 1, 1,
    // the bound 2, one window
    0, 0, 0, 2, 0, 0, 0, 1,
    // all loads of tracked values by 8 and 9
    2, 0, 3,
    // the charged stores 4 and 6, the tracked vertices 4 and 6, the required vertices 8 and 9
    0x50, 0, 0x50, 0, 0, 3,
    // no renamings, the bound 2, no rows
    0, 0, 0, 0, 0, 0, 0, 2, 0, 0, 0, 0,
];

/// The first and the last length of prefixes, and the place of their fault.
fn prefixes() -> [[u32; 3]; 10] {
    [
        [0, 15, 0],
        [16, 19, 16],
        [20, 20, 20],
        [21, 22, 21],
        [23, 24, 23],
        [25, 26, 25],
        [27, 28, 27],
        [29, 32, 29],
        [33, 36, 33],
        [37, 40, 37],
    ]
}

/// A place in the bytes, what is there instead, and the place of the fault, if that is one.
fn changes() -> [(usize, u8, Option<u32>); 15] {
    [
        // the mark of a table
        (3, 0x54, Some(0)),
        (0, 0, Some(0)),
        (5, 2, Some(0)),
        (7, 0, Some(0)),
        (9, 0, Some(0)),
        (9, 65, Some(0)),
        (10, 0, Some(0)),
        (11, 17, Some(0)),
        // the bytes do not ask whether the bound is the sum
        (15, 9, None),
        // bytes follow the last window
        (19, 0, Some(20)),
        (19, 2, Some(41)),
        (20, 3, Some(20)),
        // 12 is no vertex
        (22, 0x10, Some(21)),
        (28, 0x13, Some(27)),
        // the row is missing
        (40, 1, Some(41)),
    ]
}

fn example_bytes() -> &'static [u8] {
    &BYTES
}

// The window of the example.
fn example_window(alloc: Global) -> CertWindow
    ensures renamings { length result.renamings ≡ 0 }
    ensures rows { length result.rows ≡ 0 }
{
    CertWindow {
        charged: ChargedLoads::By(set(0b11_0000_0000)),
        stores: set(0b101_0000),
        tracked: set(0b101_0000),
        required: set(0b11_0000_0000),
        renamings: Vec::new(alloc),
        bound: 2,
        rows: Vec::new(alloc),
    }
}

// The certificate of the example.
fn example(alloc: Global) -> Result<WindowCert, AllocError>
    ensures { IfOk result IsCountable }
{
    let windows = vec![in alloc; example_window(alloc)]?;
    Ok(WindowCert {
        vertices: 12,
        slots: 3,
        weights: Weights { load: 1, store: 1 },
        bound: 2,
        windows,
    })
}

// The bytes of the example.
fn written(alloc: Global) -> Result<Vec<u8>, NoMemory> {
    let cert = example(alloc)?;
    Ok(encode(alloc, &cert)?)
}

// Whether charged loads are those of the example.
fn are_charged(charged: &ChargedLoads) -> bool {
    match charged {
        ChargedLoads::By(works) => *works == set(0b11_0000_0000),
        ChargedLoads::Each(_) => false,
        ChargedLoads::OfTracked => false,
    }
}

// Whether a window is that of the example.
fn is_example_window(window: &CertWindow) -> bool {
    are_charged(&window.charged)
        && window.stores == set(0b101_0000)
        && window.tracked == set(0b101_0000)
        && window.required == set(0b11_0000_0000)
        && window.renamings.len() == 0
        && window.bound == 2
        && window.rows.len() == 0
}

// Whether the numbers of a certificate are those of the example.
fn has_numbers(cert: &WindowCert) -> bool {
    cert.vertices == 12
        && cert.slots == 3
        && cert.weights.load == 1
        && cert.weights.store == 1
        && cert.bound == 2
}

// Whether a certificate is the example.
fn is_example(cert: &WindowCert) -> bool {
    has_numbers(cert) && cert.windows.len() == 1 && is_example_window(&cert.windows[0])
}

// Whether bytes spell the example.
fn spell_example(rt: &impl Abort, alloc: Global, bytes: &[u8]) -> bool {
    assert!(rt; bytes.len() <= 20000000);
    match decode(alloc, bytes) {
        Ok(cert) => is_example(&cert),
        Err(_) => false,
    }
}

// The place where bytes fail to spell a certificate.
fn place(rt: &impl Abort, alloc: Global, bytes: &[u8]) -> Option<u32> {
    assert!(rt; bytes.len() <= 20000000);
    match decode(alloc, bytes) {
        Ok(_) => None,
        Err(CertEnd::Shape { at }) => Some(at),
        Err(CertEnd::NoMemory) => panic!(rt; "there is memory"),
    }
}

// The bytes of the example after a change.
fn changed(at: usize, byte: u8) -> [u8; 41] {
    let mut bytes = BYTES;
    if at < 41 {
        bytes[at] = byte;
    }
    bytes
}

// Compares the places of the prefixes of some lengths.
fn check_prefixes(rt: &impl Abort, alloc: Global, bytes: &[u8], row: [u32; 3]) {
    let [first, last, wanted] = row;
    assert!(rt; last < 41 && bytes.len() == 41);
    for length in first..last + 1 {
        assert_eq!(rt; place(rt, alloc, &bytes[..length as usize]), Some(wanted));
    }
}

#[test]
fn a_certificate_is_written(rt: HostRuntime) -> Result<(), Fail> {
    assert!(rt; written(rt.alloc())?.as_slice() == example_bytes());
    Ok(())
}

#[test]
fn a_certificate_is_read(rt: HostRuntime) -> Result<(), Fail> {
    assert!(rt; spell_example(&rt, rt.alloc(), example_bytes()));
    Ok(())
}

#[test]
fn prefixes_have_faults(rt: HostRuntime) -> Result<(), Fail> {
    for row in prefixes() {
        check_prefixes(&rt, rt.alloc(), example_bytes(), row);
    }
    Ok(())
}

#[test]
fn nothing_follows_the_last_window(rt: HostRuntime) -> Result<(), Fail> {
    let mut longer = example_bytes().to_vec(rt.alloc())?;
    longer.push(0)?;
    assert_eq!(rt; place(&rt, rt.alloc(), &longer), Some(41));
    Ok(())
}

#[test]
fn faults_have_places(rt: HostRuntime) -> Result<(), Fail> {
    for (at, byte, wanted) in changes() {
        assert_eq!(rt; place(&rt, rt.alloc(), &changed(at, byte)), wanted);
    }
    Ok(())
}
