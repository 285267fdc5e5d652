//! A log that keeps one outcome more.

use crate::misses::log_miss;
use ft_log::{Completion, Held, Key, Log, Outcome, Retention, SystemName};
use std::alloc::Global;
use std::hash::RandomState;
use trials::{Miss, Sample, Trial, Wrong};

/// How many outcomes a log may keep, and how many of each client.
const MOST: u32 = 8;

/// When an outcome expires.
const EXPIRATION: u64 = 100;

/// Makes room for the outcome of a key that has none, and keeps a system exception whose minor code is the
/// number of the request.
fn keep(log: &mut Log, key: Key) -> Result<(), Miss> {
    if log.find(&key).is_some() {
        return Ok(());
    }
    log.make_room(&key).map_err(log_miss)?;
    let minor = key.retention_id.unsigned_abs();
    let outcome = Outcome::System(SystemName::Transient, minor, Completion::Maybe);
    log.keep(key, EXPIRATION, outcome);
    Ok(())
}

/// Whether a log keeps such an outcome for a key.
fn is_kept(log: &Log, key: &Key) -> bool {
    match log.find(key) {
        Some(Held::Known(Outcome::System(SystemName::Transient, minor, Completion::Maybe))) => {
            *minor == key.retention_id.unsigned_abs()
        }
        _ => false,
    }
}

/// `Key::copy`, `Log::make_room`, `keep` and `find`: the log keeps the outcome of one key more of the client
/// of a sample.
#[derive(Drop)]
pub struct Keeping {
    log: Log,
    /// The keys of the outcomes that the log kept before.
    earlier: Vec<Key>,
    key: Key,
}

impl Keeping {
    /// A log that keeps the outcomes of so many requests, and the key of the next.
    pub(crate) fn new(
        alloc: Global,
        hasher: RandomState,
        sample: &Sample,
        count: i32,
    ) -> Result<Keeping, Miss> {
        let retention = Retention {
            capacity: MOST,
            share: MOST,
        };
        let mut log = Log::new(alloc, retention, hasher);
        let mut earlier = Vec::new(alloc);
        for number in 0..count {
            let key = Key::new(alloc, sample.octets, number)?;
            keep(&mut log, key.copy(alloc)?)?;
            earlier.push(key)?;
        }
        let key = Key::new(alloc, sample.octets, count)?;
        Ok(Keeping { log, earlier, key })
    }
}

impl Trial for Keeping {
    fn call(&mut self, alloc: Global) -> Result<(), Miss> {
        keep(&mut self.log, self.key.copy(alloc)?)?;
        if self.log.len() != self.earlier.len() + 1 || !is_kept(&self.log, &self.key) {
            return Err(Wrong::Value.into());
        }
        Ok(())
    }

    /// The entries are as they were.
    fn is_unchanged(&self) -> bool {
        let all = self.log.len() == self.earlier.len();
        all && self.earlier.iter().all(|key| is_kept(&self.log, key))
    }
}
