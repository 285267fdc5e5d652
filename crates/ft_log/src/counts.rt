//! How many outcomes each client has.

ghost use Rattle.std.specs.Prelude.{◌≡◌, ◌+◌, ◌^◌, ◌<◌, ◌≤◌, ◌==◌, ◌&&◌, if◌then◌else◌, List, ℕ, IsTrue, OnOk, bytes_eq, true, false};
ghost use Rattle.indexmap.specs.IndexMap.{index_map_len, spare};
ghost use Rattle.ft_log.specs.Maps.{held_at, is_countable};

use crate::name::{Lent, Name};
use indexmap::IndexMap;
use std::alloc::AllocError;
use std::hash::RandomState;

/// How many outcomes a client has, under its bare name.
pub(crate) type Counts = IndexMap<Name, u32, RandomState>;

/// How many outcomes a client has.
pub(crate) fn count_of(counts: &Counts, client_id: &[u8]) -> u32
    ensures { result ≡ held_at counts.now client_id.now }
{
    let name = Lent {
        client_id,
        number: None,
    };
    match counts.get(name) {
        Some(count) => *count,
        None => 0,
    }
}

/// Makes room to count one more client, where clients are counted.
pub(crate) fn reserve_if(is_counted: bool, counts: &mut Counts) -> Result<(), AllocError>
    ensures same { counts.new.entries ≡ counts.old.entries }
    ensures ok { OnOk result (IsTrue (is_countable is_counted counts.new)) }
{
    if is_counted {
        counts.reserve(1)
    } else {
        Ok(())
    }
}

/// Counts one more outcome of a client, where clients are counted.
pub(crate) fn count_up_if(is_counted: bool, counts: &mut Counts, client_id: Vec<u8>)
    requires room { IsTrue (is_countable is_counted counts.old) }
    requires fits { is_counted ≡ true → held_at counts.old client_id.items + 1 < 2 ^ 32 }
    ensures held { is_counted ≡ true → (client : List ℕ) → held_at counts.new client ≡ held_at counts.old client + (if bytes_eq client_id.items client then 1 else 0) }
    ensures slots { index_map_len counts.new ≤ index_map_len counts.old + (if is_counted && held_at counts.old client_id.items == 0 then 1 else 0) }
{
    if is_counted {
        count_up(counts, client_id);
    }
}

/// Counts one outcome of a client less, where clients are counted.
pub(crate) fn count_down_if(is_counted: bool, counts: &mut Counts, client_id: &[u8])
    requires { is_counted ≡ true → 0 < held_at counts.old client_id.now }
    ensures held { is_counted ≡ true → (client : List ℕ) → held_at counts.new client + (if bytes_eq client_id.now client then 1 else 0) ≡ held_at counts.old client }
    ensures slots { index_map_len counts.new + (if is_counted && held_at counts.old client_id.now == 1 then 1 else 0) ≤ index_map_len counts.old }
    ensures room { spare counts.old ≤ spare counts.new }
{
    if is_counted {
        count_down(counts, client_id);
    }
}

/// Counts one more outcome of a client.
fn count_up(counts: &mut Counts, client_id: Vec<u8>)
    requires room { 0 < spare counts.old }
    requires fits { held_at counts.old client_id.items + 1 < 2 ^ 32 }
    ensures held { (client : List ℕ) → held_at counts.new client ≡ held_at counts.old client + (if bytes_eq client_id.items client then 1 else 0) }
    ensures slots { index_map_len counts.new ≤ index_map_len counts.old + (if held_at counts.old client_id.items == 0 then 1 else 0) }
{
    if raised(counts, client_id.as_slice()) {
        return;
    }
    let name = Name {
        client_id,
        number: None,
    };
    counts.insert(name, 1).unwrap();
}

/// Counts one outcome of a client less. A client that has none left is forgotten.
fn count_down(counts: &mut Counts, client_id: &[u8])
    requires { 0 < held_at counts.old client_id.now }
    ensures held { (client : List ℕ) → held_at counts.new client + (if bytes_eq client_id.now client then 1 else 0) ≡ held_at counts.old client }
    ensures slots { index_map_len counts.new + (if held_at counts.old client_id.now == 1 then 1 else 0) ≤ index_map_len counts.old }
    ensures room { spare counts.old ≤ spare counts.new }
{
    if lowered(counts, client_id) {
        return;
    }
    let name = Lent {
        client_id,
        number: None,
    };
    counts.swap_remove(name);
}

/// Counts one more outcome of a client that has a count, and says whether it has.
fn raised(counts: &mut Counts, client_id: &[u8]) -> bool
    requires { held_at counts.old client_id.now + 1 < 2 ^ 32 }
    ensures yes { result ≡ true → (client : List ℕ) → held_at counts.new client ≡ held_at counts.old client + (if bytes_eq client_id.now client then 1 else 0) }
    ensures no { result ≡ false → (held_at counts.old client_id.now ≡ 0) × ((client : List ℕ) → held_at counts.new client ≡ held_at counts.old client) }
    ensures slots { index_map_len counts.new ≡ index_map_len counts.old }
    ensures room { spare counts.old ≤ spare counts.new }
{
    let name = Lent {
        client_id,
        number: None,
    };
    match counts.get_mut(name) {
        Some(count) => {
            let more = *count + 1;
            *count = more;
            true
        }
        None => false,
    }
}

/// Counts one outcome less of a client that has more than one, and says whether it has.
fn lowered(counts: &mut Counts, client_id: &[u8]) -> bool
    ensures yes { result ≡ true → (1 < held_at counts.old client_id.now) × ((client : List ℕ) → held_at counts.new client + (if bytes_eq client_id.now client then 1 else 0) ≡ held_at counts.old client) }
    ensures no { result ≡ false → (held_at counts.old client_id.now ≤ 1) × ((client : List ℕ) → held_at counts.new client ≡ held_at counts.old client) }
    ensures slots { index_map_len counts.new ≡ index_map_len counts.old }
    ensures room { spare counts.old ≤ spare counts.new }
{
    let name = Lent {
        client_id,
        number: None,
    };
    match counts.get_mut(name) {
        Some(count) => {
            let held = *count;
            if held <= 1 {
                return false;
            }
            *count = held - 1;
            true
        }
        None => false,
    }
}
