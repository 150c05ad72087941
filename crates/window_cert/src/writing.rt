//! Writing a certificate as bytes.
ghost use Rattle.std.specs.Prelude.{◌≡◌, ◌++◌, ◌≤◌, ◌<◌, ◌^◌, length, flat_map, OnOk, IfOk};
ghost use Rattle.comp_graph.specs.Lists.{IsIn};
ghost use Rattle.window_cert.specs.Certs.{WindowParts, charged_of};
ghost use Rattle.window_cert.specs.Bytes.{set_bytes, counted, charged_bytes, renaming_bytes, row_bytes, window_bytes, bytes_of, IsCertShape, IsCountable, IsSpelling};

use crate::certs::{CertWindow, Renaming, WindowCert};
use crate::charged::ChargedLoads;
use crate::sets::add_set;
use comp_graph::{NoMemory, VertexSet};
use potential_cert::Row;
use potential_cert::writing::{add_u8, add_u16, add_u32};
use std::alloc::Global;

/// The version of the format.
const VERSION: u16 = 1;

/// The bytes of a certificate, as docs/FORMATS.md lays them out. It has at most 256 vertices, and fewer than 2^32 windows and, in each
/// window, renamings and rows. They spell it if its numbers and sets are in their ranges and its rows rise. [`NoMemory`] may come at any
/// allocation.
pub fn encode(alloc: Global, cert: &WindowCert) -> Result<Vec<u8>, NoMemory>
    requires { IsCountable cert.now }
    ensures exact { IfOk result (λ bytes. bytes.items ≡ bytes_of cert.now) }
    ensures spelled { IsCertShape cert.now → IfOk result (λ bytes. IsSpelling bytes.items cert.now) }
{
    let mut bytes = Vec::from_slice(alloc, b"RBPW")?;
    add_u16(&mut bytes, VERSION)?;
    add_u16(&mut bytes, cert.vertices)?;
    add_u16(&mut bytes, cert.slots)?;
    add_u8(&mut bytes, cert.weights.load)?;
    add_u8(&mut bytes, cert.weights.store)?;
    add_u32(&mut bytes, cert.bound)?;
    add_u32(&mut bytes, cert.windows.len() as u32)?;
    add_windows(&mut bytes, cert.vertices, &cert.windows)?;
    Ok(bytes)
}

// Adds windows.
fn add_windows(bytes: &mut Vec<u8>, vertices: u16, windows: &[CertWindow]) -> Result<(), NoMemory>
    requires few { vertices ≤ 256 }
    requires renamings { (w : WindowParts) → IsIn w windows.now → length w.renamings < 2 ^ 32 }
    requires rows { (w : WindowParts) → IsIn w windows.now → length w.rows < 2 ^ 32 }
    ensures { OnOk result (bytes.new.items
        ≡ bytes.old.items ++ flat_map (window_bytes vertices) windows.now) }
{
    for window in windows {
        add_window(bytes, vertices, window)?;
    }
    Ok(())
}

// Adds a window.
fn add_window(bytes: &mut Vec<u8>, vertices: u16, window: &CertWindow) -> Result<(), NoMemory>
    requires few { vertices ≤ 256 }
    requires renamings { length window.now.renamings < 2 ^ 32 }
    requires rows { length window.now.rows < 2 ^ 32 }
    ensures { OnOk result (bytes.new.items ≡ bytes.old.items ++ window_bytes vertices window.now) }
{
    add_charged(bytes, vertices, &window.charged)?;
    add_set(bytes, vertices, &window.stores)?;
    add_set(bytes, vertices, &window.tracked)?;
    add_set(bytes, vertices, &window.required)?;
    add_renamings(bytes, &window.renamings)?;
    add_u32(bytes, window.bound)?;
    add_rows(bytes, vertices, &window.rows)?;
    Ok(())
}

// Adds charged loads.
fn add_charged(bytes: &mut Vec<u8>, vertices: u16, charged: &ChargedLoads) -> Result<(), NoMemory>
    requires { vertices ≤ 256 }
    ensures { OnOk result (bytes.new.items
        ≡ bytes.old.items ++ charged_bytes vertices (charged_of charged.now)) }
{
    match charged {
        ChargedLoads::Each(sets) => {
            bytes.push(0)?;
            add_sets(bytes, vertices, sets)?;
        }
        ChargedLoads::OfTracked => bytes.push(1)?,
        ChargedLoads::By(works) => {
            bytes.push(2)?;
            add_set(bytes, vertices, works)?;
        }
    }
    Ok(())
}

// Adds sets.
fn add_sets(bytes: &mut Vec<u8>, vertices: u16, sets: &[VertexSet]) -> Result<(), NoMemory>
    requires { vertices ≤ 256 }
    ensures { OnOk result (bytes.new.items
        ≡ bytes.old.items ++ flat_map (set_bytes vertices) sets.now) }
{
    for set in sets {
        add_set(bytes, vertices, set)?;
    }
    Ok(())
}

// Adds renamings, and before them how many there are.
fn add_renamings(bytes: &mut Vec<u8>, renamings: &[Renaming]) -> Result<(), NoMemory>
    requires { length renamings.now < 2 ^ 32 }
    ensures { OnOk result (bytes.new.items
        ≡ bytes.old.items ++ counted renaming_bytes renamings.now) }
{
    add_u32(bytes, renamings.len() as u32)?;
    for renaming in renamings {
        add_renaming(bytes, renaming)?;
    }
    Ok(())
}

// Adds a renaming.
fn add_renaming(bytes: &mut Vec<u8>, renaming: &Renaming) -> Result<(), NoMemory>
    ensures { OnOk result (bytes.new.items ≡ bytes.old.items ++ renaming_bytes renaming.now) }
{
    bytes.extend_from_slice(&renaming.images)?;
    Ok(())
}

// Adds rows, and before them how many there are.
fn add_rows(bytes: &mut Vec<u8>, vertices: u16, rows: &[Row]) -> Result<(), NoMemory>
    requires few { vertices ≤ 256 }
    requires rows { length rows.now < 2 ^ 32 }
    ensures { OnOk result (bytes.new.items
        ≡ bytes.old.items ++ counted (row_bytes vertices) rows.now) }
{
    add_u32(bytes, rows.len() as u32)?;
    for row in rows {
        add_set(bytes, vertices, &row.position.red)?;
        add_set(bytes, vertices, &row.position.blue)?;
        add_u32(bytes, row.cost)?;
    }
    Ok(())
}
