//! A log and the plain program of its definition, on the same calls.

use crate::list_log::ListLog;
use crate::minors::{minor_held, outcome_of};
use ft_log::{Held, Key, Log, LogError, Retention};
use std::alloc::Global;
use std::hash::RandomState;

/// The clients that ask. One has no octets, and one begins as another.
static CLIENTS: [&[u8]; 6] = [b"A", b"B", b"AB", b"", b"BA", b"ABC"];

/// The next of a row of numbers that looks like chance.
fn after(number: u64) -> u64 {
    let next = number
        .wrapping_mul(6_364_136_223_846_793_005)
        .wrapping_add(1_442_695_040_888_963_407);
    next ^ (next >> 29)
}

/// The two on which the same calls are made.
#[derive(Drop)]
struct Both {
    log: Log,
    list: ListLog,
}

/// The key that a number names: one of some sixty.
fn key_of(alloc: Global, number: u64) -> Result<Key, LogError> {
    let client = (number % 6) as usize;
    let retention_id = (number / 8 % 10) as i32 - 5;
    Ok(Key::new(alloc, CLIENTS[client], retention_id)?)
}

impl Both {
    /// Whether what both say of a key is the same.
    fn agree_on(&self, key: &Key) -> bool {
        let (one, other) = (self.log.find(key), self.list.find(key));
        let found = minor_held(one) == minor_held(other) && number_of(one) == number_of(other);
        let held = self.log.held_by(&key.client_id) as usize == self.list.held_by(&key.client_id);
        let len = self.log.len() == self.list.len();
        found && held && len && self.log.next_expiry() == self.list.next_expiry()
    }

    /// Makes room for a key that has no outcome, and says whether both did alike.
    fn make_room(&mut self, key: &Key) -> bool {
        self.log.find(key).is_some() || self.log.make_room(key) == self.list.make_room(key)
    }

    /// Keeps an outcome of a key that has none, and says whether both did alike.
    fn keep(
        &mut self,
        alloc: Global,
        key: Key,
        expiration: u64,
        minor: u32,
    ) -> Result<bool, LogError> {
        if self.log.find(&key).is_some() {
            return Ok(true);
        }
        let made = self.log.make_room(&key);
        let alike = made == self.list.make_room(&key);
        if made.is_ok() {
            let copy = key.copy(alloc)?;
            self.log.keep(key, expiration, outcome_of(minor));
            self.list
                .keep(copy, expiration, Held::Known(outcome_of(minor)))?;
        }
        Ok(alike)
    }

    /// Keeps the place of an outcome of a key that has none, and says whether both did alike.
    fn park(
        &mut self,
        alloc: Global,
        key: Key,
        expiration: u64,
        number: u64,
    ) -> Result<bool, LogError> {
        if self.log.find(&key).is_some() {
            return Ok(true);
        }
        let made = self.log.make_room(&key);
        let alike = made == self.list.make_room(&key);
        if made.is_ok() {
            let copy = key.copy(alloc)?;
            self.log.keep_parked(key, expiration, number);
            self.list.keep(copy, expiration, Held::Parked(number))?;
        }
        Ok(alike)
    }

    /// One call that a number names, at a moment, and whether both are alike afterwards.
    fn step(&mut self, alloc: Global, number: u64, now: u64) -> Result<bool, LogError> {
        let key = key_of(alloc, number >> 20)?;
        let asked = key.copy(alloc)?;
        let alike = match number >> 8 & 7 {
            0 => {
                self.log.forget(now);
                self.list.forget(now);
                true
            }
            1 => self.make_room(&key),
            2 | 3 => {
                self.log.withdraw(&key, number >> 60 & 1);
                self.list.withdraw(&key, number >> 60 & 1);
                true
            }
            4 | 5 => {
                let expiration = now.saturating_add(number >> 40 & 1023);
                self.park(alloc, key, expiration, number >> 60 & 1)?
            }
            _ => {
                let expiration = now.saturating_add(number >> 40 & 63);
                self.keep(alloc, key, expiration, (number & 0xffff) as u32)?
            }
        };
        Ok(alike && self.agree_on(&asked))
    }
}

/// The number of the call, if it is parked.
fn number_of(held: Option<&Held>) -> Option<u64> {
    held?.number()
}

/// A log and its list, of that capacity and share.
fn both_of(alloc: Global, hasher: RandomState, capacity: u32, share: u32) -> Both {
    Both {
        log: Log::new(alloc, Retention { capacity, share }, hasher),
        list: ListLog::new(alloc, capacity as usize, share as usize),
    }
}

/// Whether both are alike over so many calls.
fn are_alike(alloc: Global, both: &mut Both, calls: u64) -> Result<bool, LogError> {
    let mut number = 1;
    for now in 0..calls {
        number = after(number);
        if !both.step(alloc, number, now)? {
            return Ok(false);
        }
    }
    Ok(true)
}

/// Whether both are alike over so many calls, where the moment leaps now and then, so that most of what is kept expires at
/// once, and where a call may come at a moment before the leap.
fn are_alike_in_leaps(alloc: Global, both: &mut Both, calls: u64) -> Result<bool, LogError> {
    let mut number = 2;
    let mut now: u64 = 2000;
    for call in 0..calls {
        number = after(number);
        if call % 128 == 127 {
            now = now.saturating_add(1500);
            both.log.forget(now);
            both.list.forget(now);
        }
        let moment = if number >> 52 & 3 == 0 {
            now.saturating_sub(1400)
        } else {
            now
        };
        if !both.step(alloc, number, moment)? {
            return Ok(false);
        }
    }
    Ok(true)
}

/// Capacities and shares: ample, a full log, full shares, and none.
static SIZES: [(u32, u32); 4] = [(64, 64), (20, 20), (40, 5), (0, 0)];

#[test]
fn a_log_is_its_list(rt: HostRuntime) {
    let hasher = RandomState::new(&rt).expect(&rt, "random");
    for (capacity, share) in &SIZES {
        let mut both = both_of(rt.alloc(), hasher, *capacity, *share);
        assert!(rt; are_alike(rt.alloc(), &mut both, 4000).unwrap_or(false));
    }
}

#[test]
fn a_log_is_its_list_where_many_expire_at_once(rt: HostRuntime) {
    let hasher = RandomState::new(&rt).expect(&rt, "random");
    for (capacity, share) in &SIZES {
        let mut both = both_of(rt.alloc(), hasher, *capacity, *share);
        assert!(rt; are_alike_in_leaps(rt.alloc(), &mut both, 4000).unwrap_or(false));
    }
}
