//! What a log is, as a plain program: a list of what is kept, which is looked at in turn.

use ft_log::{Held, Key, LogError};
use std::alloc::Global;

/// What is held under a key, and the last moment at which it is repeated.
#[derive(Drop)]
struct Entry {
    key: Key,
    expiration: u64,
    held: Held,
}

/// The outcomes that are kept, in the order in which they were kept.
#[derive(Drop)]
pub(crate) struct ListLog {
    capacity: usize,
    share: usize,
    alloc: Global,
    entries: Vec<Entry>,
    room: Option<Key>,
}

impl ListLog {
    pub(crate) fn new(alloc: Global, capacity: usize, share: usize) -> ListLog {
        ListLog {
            capacity,
            share,
            alloc,
            entries: Vec::new(alloc),
            room: None,
        }
    }

    pub(crate) fn find(&self, key: &Key) -> Option<&Held> {
        for entry in &self.entries {
            if key.is_same(&entry.key) {
                return Some(&entry.held);
            }
        }
        None
    }

    pub(crate) fn len(&self) -> usize {
        self.entries.len()
    }

    pub(crate) fn held_by(&self, client_id: &[u8]) -> usize {
        self.entries
            .iter()
            .filter(|entry| entry.key.client_id.as_slice() == client_id)
            .count()
    }

    pub(crate) fn next_expiry(&self) -> Option<u64> {
        self.entries.iter().map(|entry| entry.expiration).min()
    }

    pub(crate) fn forget(&mut self, now: u64) {
        self.entries.retain(|entry| now <= entry.expiration);
    }

    pub(crate) fn make_room(&mut self, key: &Key) -> Result<(), LogError> {
        self.room = None;
        if self.len() == self.capacity {
            return Err(LogError::Full);
        }
        if self.held_by(&key.client_id) == self.share {
            return Err(LogError::ShareFull);
        }
        self.room = Some(key.copy(self.alloc)?);
        Ok(())
    }

    pub(crate) fn withdraw(&mut self, key: &Key, number: u64) {
        self.entries.retain(|entry| !key.is_same(&entry.key)
            || entry.held.number() != Some(number));
    }

    /// Keeps an outcome, or its place, if room is made for its key.
    pub(crate) fn keep(&mut self, key: Key, expiration: u64, held: Held) -> Result<(), LogError> {
        let Some(room) = self.room.take() else {
            return Ok(());
        };
        if room.is_same(&key) {
            let entry = Entry {
                key,
                expiration,
                held,
            };
            if self.entries.push(entry).is_err() {
                return Err(LogError::Memory);
            }
        }
        Ok(())
    }
}
