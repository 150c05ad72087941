//! The index: where each row is found. It is a list of place numbers with open addressing.
ghost use Rattle.std.specs.Prelude.{◌≡◌, ℕ, ◌<◌, ◌≤◌, length, take, MatchOption, IfOk, IsTrue, ◌↔◌};
ghost use Rattle.position_arena.specs.Stores.{row_at};
ghost use Rattle.position_arena.specs.Index.{mixed, hash_of, homed, probed, free_count, IsIndex, IsPlaced, keys_of, IsNoKey, IsKeyAt};

use crate::store::Store;
use std::alloc::{AllocError, Global};

/// What stands at a free place.
const NOWHERE: u32 = 4294967295;

// One word is mixed into a hash.
fn mix(hash: u64, word: u64) -> u64
    ensures { result ≡ mixed hash word }
{
    let product = (hash ^ word).wrapping_mul(0x9e37_79b9_7f4a_7c15);
    product ^ (product >> 32)
}

/// The hash of a row's words.
pub fn hash(words: &[u64]) -> u64
    ensures { result ≡ hash_of words.now }
{
    let mut hash = 0;
    for word in words {
        hash = mix(hash, *word);
    }
    hash
}

// The place that a hash names. It takes the high half of a product, since a division would cost more than the rest of a search.
fn home(hash: u64, size: usize) -> usize
    requires { 0 < size }
    ensures place { result ≡ homed size hash }
    ensures within { result < size }
{
    ((hash as u128 * size as u128) >> 64) as usize
}

// The place after another, round the end.
fn next(at: usize, size: usize) -> usize
    requires { at < size }
    ensures { result ≡ probed size at 1 }
{
    if at + 1 < size { at + 1 } else { at + 1 - size }
}

// Whether a row begins with the key.
fn has_key(store: &Store, k: u32, key: &[u64]) -> bool
    requires row { k < length store.now.rows }
    requires width { length key.now ≤ length (row_at store.now k) }
    ensures { IsTrue result ↔ (take (length key.now) (row_at store.now k) ≡ key.now) }
{
    let row = store.row(k);
    &row[..key.len()] == key
}

/// The row that begins with the key.
pub fn find(places: &[u32], store: &Store, key: &[u64]) -> Option<u32>
    requires wide { (k : ℕ) → k < length store.now.rows → length key.now ≤ length (row_at store.now k) }
    requires few { length store.now.rows ≤ 4294967295 }
    requires index { IsIndex (keys_of (length key.now) store.now.rows) places.now }
    ensures { MatchOption result (IsNoKey (keys_of (length key.now) store.now.rows) key.now) (IsKeyAt (keys_of (length key.now) store.now.rows) key.now) }
{
    let size = places.len();
    if size == 0 {
        return None;
    }
    let mut at = home(hash(key), size);
    'turns: for _turn in 0..size {
        let place = places[at];
        if place == NOWHERE {
            return None;
        }
        if has_key(store, place, key) {
            return Some(place);
        }
        at = next(at, size);
    }
    None
}

/// Writes a place number at the first free place from the hash on.
pub fn insert(places: &mut [u32], hash: u64, place: u32)
    requires { 0 < free_count places.old }
    ensures { IsPlaced places.old places.new (homed (length places.old) hash) place }
{
    let size = places.len();
    let mut at = home(hash, size);
    'turns: for _turn in 0..size {
        if places[at] == NOWHERE {
            places[at] = place;
            return;
        }
        at = next(at, size);
    }
    unreachable!()
}

/// An index of all rows, by their first `width` words, with `size` places.
pub fn rebuilt(
    alloc: Global,
    store: &Store,
    width: usize,
    size: usize,
) -> Result<Vec<u32>, AllocError>
    requires wide { (k : ℕ) → k < length store.now.rows → width ≤ length (row_at store.now k) }
    requires few { length store.now.rows ≤ 4294967295 }
    requires room { length store.now.rows < size }
    ensures { IfOk result (λ places. IsIndex (keys_of width store.now.rows) places.items × (length places.items ≡ size)) }
{
    let mut places = Vec::from_elem(alloc, NOWHERE, size)?;
    'rows: for k in 0..store.len() {
        let row = store.row(k);
        insert(&mut places, hash(&row[..width]), k);
    }
    Ok(places)
}
