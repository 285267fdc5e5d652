//! A row of a store in memory.

use ft_log::{Key, Outcome};

/// What was committed under a key.
#[derive(Drop)]
pub(crate) struct Kept {
    pub(crate) key: Key,
    pub(crate) expiration: u64,
    pub(crate) outcome: Outcome,
}
