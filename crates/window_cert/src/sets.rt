//! Sets of vertices in bytes: vertex v is the bit of value 2^(v mod 8) in byte v div 8.
ghost use Rattle.std.specs.Prelude.{◌≡◌, ◌++◌, ◌≤◌, ◌<◌, OnOk};
ghost use Rattle.window_cert.specs.Bytes.{byte_of, set_bytes};

use comp_graph::{NoMemory, VertexSet};

// Byte k of a set.
fn set_byte(set: &VertexSet, k: u16) -> u8
    requires { k < 32 }
    ensures { result ≡ byte_of set.now k }
{
    let mut value: u16 = 0;
    let mut power: u16 = 1;
    'bits: for i in 0..8u16 {
        if set.has(8 * k + i) {
            value += power;
        }
        power *= 2;
    }
    value as u8
}

// Adds the bytes of a set of so many vertices.
pub(crate) fn add_set(bytes: &mut Vec<u8>, vertices: u16, set: &VertexSet) -> Result<(), NoMemory>
    requires { vertices ≤ 256 }
    ensures { OnOk result (bytes.new.items ≡ bytes.old.items ++ set_bytes vertices set.now) }
{
    let count = (vertices + 7) / 8;
    'bytes: for k in 0..count {
        bytes.push(set_byte(set, k))?;
    }
    Ok(())
}
