//! When what is kept expires.

use crate::story::Mark;
use std::cmp::Reverse;

/// The slot of an outcome, and the last moment at which it is repeated. Of two the later one comes first. Proofs read its key.
#[derive(Drop)]
#[derive_where(PartialEq, Eq, PartialOrd, Ord)]
pub(crate) struct Due {
    pub(crate) until: Reverse<u64>,
    #[derive_where(skip(EqHashOrd))]
    pub(crate) slot: usize,
    #[derive_where(skip(EqHashOrd))]
    pub(crate) key: Mark,
}

/// Where an outcome is kept: its slot, a number that stays, and its place, which changes as others go. Proofs read its key.
#[derive(Drop)]
pub(crate) struct Spot {
    pub(crate) slot: usize,
    pub(crate) place: usize,
    pub(crate) key: Mark,
}
