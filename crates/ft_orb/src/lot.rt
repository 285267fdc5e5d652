//! The requests that are parked, and how many of them came on each connection.

ghost use Rattle.std.specs.Prelude.{[], ◌≡◌, ◌==◌, ◌+◌, ◌-◌, ◌<◌, ◌^◌, ℕ, false, if◌then◌else◌, IfErr, OnErr, OnOk, None, Some};
ghost use Rattle.std.specs.BTreeMap.{btree_map_len, get};
ghost use Rattle.std.specs.Map.{count_at};
ghost use Rattle.std.specs.Ordering.{nat_cmp};
ghost use Rattle.ft_orb.specs.Counts.{AreCounted, parked_on};

use crate::parked::Parked;
use std::alloc::{AllocError, Global};
use std::collections::BTreeMap;

/// What is parked, by its numbers, and how many of these came on each connection.
#[derive(Drop)]
pub(crate) struct Lot {
    pub(crate) requests: BTreeMap<u64, Parked>,
    pub(crate) counts: BTreeMap<u64, u32>,
    ghost few: { btree_map_len requests < 4294967296 },
    ghost counted: { AreCounted requests counts },
}

/// The count of a connection.
fn count_in(counts: &BTreeMap<u64, u32>, connection: u64) -> u32
    ensures { result ≡ count_at (get nat_cmp counts.now) connection }
{
    match counts.get(&connection) {
        Some(count) => *count,
        None => 0,
    }
}

/// Counts one more of a connection.
fn count_up(counts: &mut BTreeMap<u64, u32>, connection: u64) -> Result<(), AllocError>
    requires few { count_at (get nat_cmp counts.old) connection + 1 < 2 ^ 32 }
    ensures more { OnOk result ((c : ℕ) → count_at (get nat_cmp counts.new) c ≡ count_at (get nat_cmp counts.old) c + (if connection == c then 1 else 0)) }
    ensures err { OnErr result ((c : ℕ) → count_at (get nat_cmp counts.new) c ≡ count_at (get nat_cmp counts.old) c) }
{
    if let Some(count) = counts.get_mut(&connection) {
        *count += 1;
        return Ok(());
    }
    match counts.insert(connection, 1) {
        Ok(_) => Ok(()),
        Err(_) => Err(AllocError),
    }
}

/// Counts one less of a connection, and forgets a count of none.
fn count_down(counts: &mut BTreeMap<u64, u32>, connection: u64)
    ensures { (c : ℕ) → count_at (get nat_cmp counts.new) c ≡ count_at (get nat_cmp counts.old) c - (if connection == c then 1 else 0) }
{
    if let Some(count) = counts.get_mut(&connection) {
        if *count > 1 {
            *count -= 1;
            return;
        }
    }
    counts.remove(&connection);
}

impl Lot {
    /// Nothing is parked.
    pub(crate) fn new(alloc: Global) -> Lot
        ensures { result.requests.entries ≡ [] }
    {
        Lot {
            requests: BTreeMap::new(alloc),
            counts: BTreeMap::new(alloc),
        }
    }

    /// How many came on a connection.
    pub(crate) fn count_of(&self, connection: u64) -> u32
        ensures { result ≡ parked_on self.now.requests connection }
    {
        count_in(&self.counts, connection)
    }

    /// Parks a request under a number, in place of what was there. Where an allocation fails it comes back.
    pub(crate) fn put(&mut self, number: u64, parked: Parked) -> Result<(), Parked>
        requires few { btree_map_len self.old.requests + 1 < 4294967296 }
        requires share { parked_on self.old.requests parked.pending.connection + 1 < 2 ^ 32 }
        ensures put { OnOk result ((get nat_cmp self.new.requests number ≡ Some parked) × ((q : ℕ) → (q == number) ≡ false → get nat_cmp self.new.requests q ≡ get nat_cmp self.old.requests q)) }
        ensures back { IfErr result (λ back. back ≡ parked) }
        ensures err { OnErr result (self.new.requests.entries ≡ self.old.requests.entries) }
    {
        let connection = parked.pending.connection;
        if count_up(&mut self.counts, connection).is_err() {
            return Err(parked);
        }
        match self.requests.insert(number, parked) {
            Ok(None) => Ok(()),
            Ok(Some(before)) => {
                count_down(&mut self.counts, before.pending.connection);
                Ok(())
            }
            Err(failed) => {
                count_down(&mut self.counts, connection);
                let (_, parked) = failed.value;
                Err(parked)
            }
        }
    }

    /// Takes out what is parked under a number.
    pub(crate) fn take(&mut self, number: u64) -> Option<Parked>
        ensures value { result ≡ get nat_cmp self.old.requests number }
        ensures gone { get nat_cmp self.new.requests number ≡ None }
        ensures others { (q : ℕ) → (q == number) ≡ false → get nat_cmp self.new.requests q ≡ get nat_cmp self.old.requests q }
    {
        let parked = self.requests.remove(&number)?;
        count_down(&mut self.counts, parked.pending.connection);
        Some(parked)
    }
}
