//! The keys of requests, and the first request with each, as far as they are remembered.

ghost use Rattle.std.specs.Prelude.{◌≡◌, [], ℕ, None, OnOk, IfOk};
ghost use Rattle.std.specs.List.{find};
ghost use Rattle.giop_core.specs.Ft.{ft_seen};
ghost use Rattle.giop_tap.specs.Keys.{AreNamed, KeysStand};
ghost use Rattle.giop_tap.specs.Pairing as pairs;
ghost use Rattle.giop_tap.specs.Remembered as memory;
ghost use Rattle.giop_tap.specs.Pairing.{has_key};
ghost use Rattle.giop_tap.specs.Remembered.{Memory};

use crate::key::Key;
use giop_core::FtField;
use std::alloc::{AllocError, Global};
use std::collections::BTreeMap;
use std::marker::Model;
use std::mem;

/// The number of the first request with each key.
type Numbers = BTreeMap<Key, u64>;

/// The keys that are remembered: those that came last, and those that came before them. Where there is no room for one
/// more, those before are forgotten, and the last ones take their place.
#[derive(Debug, Drop)]
pub(crate) struct Keyed {
    alloc: Global,
    /// How much the last ones weigh at most, but for the very last.
    most: u64,
    last: Numbers,
    before: Numbers,
    room: u64,
    has_before: bool,
    forgot: Option<u64>,
}

impl Model for Keyed {
    ghost use Rattle.giop_tap.specs.Keys.{Kept};

    ghost Value = { Kept };

    ghost view = { λ k. record { most = k.most; last = k.last.entries; before = k.before.entries; room = k.room; has_before = k.has_before; forgot = k.forgot } };
}

/// How much a key weighs: one, and one more for each 256 octets of the client's id.
fn weight_of(client_id: &[u8]) -> u64
    ensures { result ≡ pairs.weight_of client_id.now }
{
    client_id.len() as u64 / 256 + 1
}

impl Keyed {
    /// None so far.
    pub fn new(alloc: Global, most: u64) -> Keyed
        ensures stands { KeysStand result (memory.nothing most) }
        ensures most { result.most ≡ most }
    {
        Keyed {
            alloc,
            most,
            last: BTreeMap::new(alloc),
            before: BTreeMap::new(alloc),
            room: most,
            has_before: false,
            forgot: None,
        }
    }

    /// The number of the message at which keys were forgotten first, if some were.
    pub fn forgot(&self) -> Option<u64>
        ensures { result ≡ self.now.forgot }
    {
        self.forgot
    }

    /// Makes the last keys those before, for the message of a number.
    fn turn(&mut self, number: u64)
        ensures stands { (s : Memory) → KeysStand self.old s → KeysStand self.new (memory.turned self.old.most number s) }
        ensures most { self.new.most ≡ self.old.most }
    {
        if self.has_before && self.forgot.is_none() {
            self.forgot = Some(number);
        }
        self.before = mem::replace(&mut self.last, BTreeMap::new(self.alloc));
        self.has_before = true;
        self.room = self.most;
    }

    /// Makes room for one more key, for the message of a number.
    fn make_room(&mut self, number: u64)
        ensures stands { (s : Memory) → KeysStand self.old s → KeysStand self.new (memory.roomy self.old.most number s) }
        ensures most { self.new.most ≡ self.old.most }
    {
        if self.room == 0 {
            self.turn(number);
        }
    }

    /// Takes a key that is none of the last, and the number of the first request with it.
    fn push(&mut self, key: Key, number: u64) -> Result<(), AllocError>
        ensures stands { (s : Memory) → KeysStand self.old s → find (has_key key.client_id.items key.retention_id) s.last ≡ None
            → OnOk result (KeysStand self.new (memory.pushed (record { client_id = key.client_id.items; retention_id = key.retention_id; number = number }) s)) }
        ensures most { self.new.most ≡ self.old.most }
    {
        let weight = weight_of(&key.client_id);
        self.room = self.room.saturating_sub(weight);
        self.last.insert(key, number)?;
        Ok(())
    }

    /// Takes the key of the next request, and returns the number of the first that had it, if one had.
    fn first_with(
        &mut self,
        client_id: &[u8],
        retention_id: i32,
        number: u64,
    ) -> Result<Option<u64>, AllocError>
        ensures first { (s : Memory) → KeysStand self.old s → IfOk result (λ n. n ≡ memory.first_in client_id.now retention_id s) }
        ensures stands { (s : Memory) → KeysStand self.old s → OnOk result (KeysStand self.new (memory.with_key self.old.most client_id.now retention_id number s)) }
        ensures most { self.new.most ≡ self.old.most }
    {
        let key = Key {
            client_id: Vec::from_slice(self.alloc, client_id)?,
            retention_id,
        };
        if let Some(first) = self.last.get(&key) {
            return Ok(Some(*first));
        }
        let first = self.before.get(&key).copied();
        self.make_room(number);
        self.push(key, first.unwrap_or(number))?;
        Ok(first)
    }

    /// Takes what the next message says of its client, and returns the number of the first request with its key, if it
    /// has one, and one had it before.
    pub fn take(&mut self, number: u64, field: FtField) -> Result<Option<u64>, AllocError>
        ensures first { (s : Memory) → KeysStand self.old s → IfOk result (λ n. n ≡ memory.first_with (ft_seen field.entry) s) }
        ensures stands { (s : Memory) → KeysStand self.old s → OnOk result (KeysStand self.new (memory.remembered_after self.old.most number (ft_seen field.entry) s)) }
        ensures most { self.new.most ≡ self.old.most }
    {
        match field {
            FtField::Present {
                client_id,
                retention_id,
                expiration: _,
            } => self.first_with(client_id, retention_id, number),
            FtField::Absent | FtField::Bad => Ok(None),
        }
    }
}
