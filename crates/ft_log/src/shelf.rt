//! What a log keeps under keys.

ghost use Rattle.std.specs.Prelude.{◌≡◌, ◌<◌, ◌&&◌, if◌then◌else◌, ℕ, Some, None, IfNone, IfSome, bytes_eq, nat_le, option_map, slice_get, true, false};
ghost use Rattle.std.specs.Option.{option_copied, option_map_or};
ghost use Rattle.indexmap.specs.IndexMap.{index_map_len, spare};
ghost use Rattle.ft_log.specs.Filled.{put_at};
ghost use Rattle.ft_log.specs.Keys.{RequestKey, same_key};
ghost use Rattle.ft_log.specs.Kept.{is_parked};
ghost use Rattle.ft_log.specs.Maps.{IsPushed, IsRefilled, due_at, key_in, under};
ghost use Rattle.ft_log.specs.Shelf.{IsStale, is_stale, lesser};
ghost use Rattle.ft_log.specs.View.{holding_in, key_of};

use crate::due::Spot;
use crate::held::Held;
use crate::key::Key;
use crate::name::{Lent, Name};
use crate::story::Mark;
use indexmap::IndexMap;
use std::alloc::{AllocError, Global};
use std::hash::RandomState;

/// What is kept for a request, the slot that has its place, and the last moment at which it is repeated.
#[derive(Drop)]
pub(crate) struct Kept {
    pub(crate) slot: usize,
    pub(crate) until: u64,
    pub(crate) outcome: Held,
}

impl Kept {
    /// The outcome, where it is repeated at a moment.
    fn outcome_from(&self, now: u64) -> Option<&Held>
        ensures { option_copied result ≡ (if nat_le now self.now.until then Some self.now.outcome else None) }
    {
        if now <= self.until {
            Some(&self.outcome)
        } else {
            None
        }
    }
}

/// Outcomes by their keys.
pub(crate) type Outcomes = IndexMap<Name, Kept, RandomState>;

/// Outcomes by their keys, each with its slot. Its place among them changes as others go.
#[derive(Drop)]
pub(crate) struct Shelf {
    outcomes: Outcomes,
}

impl Shelf {
    ghost use Rattle.std.specs.Prelude.{◌+◌, [], IsTrue, OnOk, length};
    ghost use Rattle.std.specs.List.{count_by, sum_by};
    ghost use Rattle.ft_log.specs.Shelf.{IsLeast, IsStale, IsTaken, at_key, has_room, is_at, is_stale, kept_at, live_at, slot_at, until_in};

    /// No outcome.
    pub(crate) fn new(alloc: Global, hasher: RandomState) -> Shelf
        ensures { result.outcomes.entries ≡ [] }
    {
        Shelf {
            outcomes: IndexMap::with_hasher(alloc, hasher),
        }
    }

    /// What stands under a key.
    fn kept_under(&self, key: &Key) -> Option<&Kept>
        ensures { option_copied result ≡ at_key self.now (key_of key.now) }
    {
        let name = Lent {
            client_id: key.client_id.as_slice(),
            number: Some(key.retention_id),
        };
        self.outcomes.get(name)
    }

    /// What is kept for a key, where it is repeated at a moment.
    pub(crate) fn outcome_at(&self, key: &Key, now: u64) -> Option<&Held>
        ensures { option_copied result ≡ live_at now (at_key self.now (key_of key.now)) }
    {
        match self.kept_under(key) {
            Some(kept) => kept.outcome_from(now),
            None => None,
        }
    }

    /// How many of the outcomes are repeated at a moment.
    pub(crate) fn len_from(&self, now: u64) -> usize
        ensures { result ≡ count_by (λ p. nat_le now p.1.until) self.now.outcomes.entries }
    {
        let mut live = 0;
        for place in 0..self.outcomes.len() {
            if is_live_at(&self.outcomes, place, now) {
                live += 1;
            }
        }
        live
    }

    /// How many of these are a client's.
    pub(crate) fn held_by(&self, client_id: &[u8], now: u64) -> usize
        ensures { result ≡ count_by (λ p. nat_le now p.1.until && bytes_eq (key_in p.0).client_id client_id.now) self.now.outcomes.entries }
    {
        let mut held = 0;
        for place in 0..self.outcomes.len() {
            if is_held_at(&self.outcomes, place, client_id, now) {
                held += 1;
            }
        }
        held
    }

    /// The least expiration of these.
    pub(crate) fn least_from(&self, now: u64) -> Option<u64>
        ensures { IsLeast now result self.now.outcomes.entries }
    {
        let mut least = None;
        for place in 0..self.outcomes.len() {
            least = lesser_at(&self.outcomes, place, now, least);
        }
        least
    }

    /// Where the first of these is that expired before a moment and is a client's, if there is one.
    pub(crate) fn stale_of(&self, client_id: &[u8], now: u64) -> Option<Spot>
        ensures none { IfNone result (count_by (is_stale now client_id.now) self.now.outcomes.entries ≡ 0) }
        ensures stale { IfSome result (λ spot. IsStale spot now client_id.now self.now.outcomes.entries) }
    {
        for place in 0..self.outcomes.len() {
            if let Some(spot) = stale_at(&self.outcomes, place, client_id, now) {
                return Some(spot);
            }
        }
        None
    }

    /// How many outcomes: the place of the next.
    pub(crate) fn len(&self) -> usize
        ensures { result ≡ length self.now.outcomes.entries }
    {
        self.outcomes.len()
    }

    /// Makes room for one more outcome.
    pub(crate) fn reserve(&mut self) -> Result<(), AllocError>
        ensures same { self.new.outcomes.entries ≡ self.old.outcomes.entries }
        ensures ok { OnOk result (IsTrue (has_room self.new)) }
    {
        self.outcomes.reserve(1)
    }

    /// Puts an outcome under a key that has none, for which there is room, last of all.
    pub(crate) fn put(&mut self, key: Key, kept: Kept)
        requires absent { at_key self.old (key_of key) ≡ None }
        requires room { IsTrue (has_room self.old) }
        ensures kept { (other : RequestKey) → at_key self.new other ≡ (if same_key other (key_of key) then Some kept else at_key self.old other) }
        ensures sums { (f : ℕ × RequestKey → ℕ) → sum_by (λ p. f (due_at p)) self.new.outcomes.entries ≡ sum_by (λ p. f (due_at p)) self.old.outcomes.entries + f (kept.until, key_of key) }
        ensures last { IsPushed (key_of key) kept self.old.outcomes.entries self.new.outcomes.entries }
    {
        insert(&mut self.outcomes, key, kept);
    }

    /// Puts an outcome under a key, where the call of this number is parked there.
    pub(crate) fn fill(&mut self, key: Key, number: u64, outcome: Held)
        ensures kept { (other : RequestKey) → at_key self.new other ≡ (if same_key other (key_of key) then option_map (put_at number outcome) (at_key self.old other) else at_key self.old other) }
        ensures sums { (f : ℕ × RequestKey → ℕ) → sum_by (λ p. f (due_at p)) self.new.outcomes.entries ≡ sum_by (λ p. f (due_at p)) self.old.outcomes.entries }
        ensures room { has_room self.new ≡ has_room self.old }
        ensures len { index_map_len self.new.outcomes ≡ index_map_len self.old.outcomes }
        ensures is { IsRefilled self.old.outcomes.entries self.new.outcomes.entries }
    {
        refill(&mut self.outcomes, key, number, outcome);
    }

    /// Where the call of this number is parked under a key, if it is.
    pub(crate) fn parked_at(&self, key: &Key, number: u64) -> Option<Spot>
        ensures none { IfNone result (option_map_or (λ h. is_parked number (holding_in h)) (kept_at self.now (key_of key.now)) false ≡ false) }
        ensures parked { IfSome result (λ spot. option_map_or (λ h. is_parked number (holding_in h)) (kept_at self.now (key_of key.now)) false ≡ true) }
        ensures key { IfSome result (λ spot. key_of spot.key.key ≡ key_of key.now) }
        ensures slot { IfSome result (λ spot. slot_at self.now (key_of key.now) ≡ Some spot.slot) }
        ensures place { IfSome result (λ spot. option_map (λ p. p.1.slot) (slice_get self.now.outcomes.entries spot.place) ≡ Some spot.slot) }
    {
        let name = Lent {
            client_id: key.client_id.as_slice(),
            number: Some(key.retention_id),
        };
        let (place, _, kept) = self.outcomes.get_full(name)?;
        if kept.outcome.number() == Some(number) {
            return Some(Spot {
                slot: kept.slot,
                place,
                key: Mark::of(key),
            });
        }
        None
    }

    /// Where what is kept for a key is, if there is something.
    pub(crate) fn spot_of(&self, key: &Key) -> Option<Spot>
        ensures none { IfNone result (at_key self.now (key_of key.now) ≡ None) }
        ensures key { IfSome result (λ spot. key_of spot.key.key ≡ key_of key.now) }
        ensures slot { IfSome result (λ spot. slot_at self.now (key_of key.now) ≡ Some spot.slot) }
        ensures place { IfSome result (λ spot. option_map (λ p. p.1.slot) (slice_get self.now.outcomes.entries spot.place) ≡ Some spot.slot) }
    {
        let name = Lent {
            client_id: key.client_id.as_slice(),
            number: Some(key.retention_id),
        };
        let (place, _, kept) = self.outcomes.get_full(name)?;
        Some(Spot {
            slot: kept.slot,
            place,
            key: Mark::of(key),
        })
    }

    /// Takes the outcome of a key away, by its place, and gives the client.
    pub(crate) fn take(&mut self, place: usize, _key: &Mark) -> Vec<u8>
        requires { IsTrue (is_at (key_of _key.now.key) place self.old) }
        ensures client { result.items ≡ (key_of _key.now.key).client_id }
        ensures kept { (other : RequestKey) → at_key self.new other ≡ (if same_key other (key_of _key.now.key) then None else at_key self.old other) }
        ensures sums { (f : ℕ × RequestKey → ℕ) → sum_by (λ p. f (due_at p)) self.new.outcomes.entries + f (until_in place self.old, key_of _key.now.key) ≡ sum_by (λ p. f (due_at p)) self.old.outcomes.entries }
        ensures room { IsTrue (has_room self.old) → IsTrue (has_room self.new) }
        ensures taken { IsTaken place self.old.outcomes.entries self.new.outcomes.entries }
    {
        let (name, _) = self.outcomes.swap_remove_index(place).unwrap();
        name.client_id
    }

    /// The slot of the outcome in a place, if there is one.
    pub(crate) fn slot_in(&self, place: usize) -> Option<usize>
        ensures { result ≡ option_map (λ p. p.1.slot) (slice_get self.now.outcomes.entries place) }
    {
        match self.outcomes.get_index(place) {
            Some((_, kept)) => Some(kept.slot),
            None => None,
        }
    }
}

/// Puts an outcome under a key that has none, last of all.
fn insert(outcomes: &mut Outcomes, key: Key, kept: Kept)
    requires absent { under outcomes.old (key_of key) ≡ None }
    requires room { 0 < spare outcomes.old }
    ensures kept { (other : RequestKey) → under outcomes.new other ≡ (if same_key other (key_of key) then Some kept else under outcomes.old other) }
    ensures last { IsPushed (key_of key) kept outcomes.old.entries outcomes.new.entries }
{
    let Key {
        client_id,
        retention_id,
    } = key;
    let name = Name {
        client_id,
        number: Some(retention_id),
    };
    outcomes.insert(name, kept).unwrap();
}

/// Puts an outcome under a key, where the call of this number is parked there.
fn refill(outcomes: &mut Outcomes, key: Key, number: u64, outcome: Held)
    ensures kept { (other : RequestKey) → under outcomes.new other ≡ (if same_key other (key_of key) then option_map (put_at number outcome) (under outcomes.old other) else under outcomes.old other) }
    ensures is { IsRefilled outcomes.old.entries outcomes.new.entries }
    ensures len { index_map_len outcomes.new ≡ index_map_len outcomes.old }
    ensures room { spare outcomes.new ≡ spare outcomes.old }
{
    let name = Lent {
        client_id: key.client_id.as_slice(),
        number: Some(key.retention_id),
    };
    if let Some(kept) = outcomes.get_mut(name) {
        if kept.outcome.number() == Some(number) {
            kept.outcome = outcome;
        }
    }
}

/// Whether the outcome in a place is repeated at a moment.
fn is_live_at(outcomes: &Outcomes, place: usize, now: u64) -> bool
    ensures { result ≡ option_map_or (λ p. nat_le now p.1.until) (slice_get outcomes.now.entries place) false }
{
    match outcomes.get_index(place) {
        Some((_, kept)) => now <= kept.until,
        None => false,
    }
}

/// .. and is a client's.
fn is_held_at(outcomes: &Outcomes, place: usize, client_id: &[u8], now: u64) -> bool
    ensures { result ≡ option_map_or (λ p. nat_le now p.1.until && bytes_eq (key_in p.0).client_id client_id.now) (slice_get outcomes.now.entries place) false }
{
    match outcomes.get_index(place) {
        Some((name, kept)) => now <= kept.until && name.client_id.as_slice() == client_id,
        None => false,
    }
}

/// Where the outcome in a place is, if it expired before a moment and is a client's.
fn stale_at(outcomes: &Outcomes, place: usize, client_id: &[u8], now: u64) -> Option<Spot>
    ensures none { IfNone result (option_map_or (is_stale now client_id.now) (slice_get outcomes.now.entries place) false ≡ false) }
    ensures stale { IfSome result (λ spot. IsStale spot now client_id.now outcomes.now.entries) }
{
    let (name, kept) = outcomes.get_index(place)?;
    if kept.until < now && name.client_id.as_slice() == client_id {
        return Some(Spot {
            slot: kept.slot,
            place,
            key: Mark::named(name),
        });
    }
    None
}

/// The lesser of this expiration and of that of the outcome in a place, where that is repeated at a moment.
fn lesser_at(outcomes: &Outcomes, place: usize, now: u64, least: Option<u64>) -> Option<u64>
    ensures { result ≡ option_map_or (λ p. lesser now p.1.until least) (slice_get outcomes.now.entries place) least }
{
    match outcomes.get_index(place) {
        Some((_, kept)) => lesser(now, kept.until, least),
        None => least,
    }
}

/// The lesser of this expiration and of another one, where that is not before a moment.
fn lesser(now: u64, until: u64, least: Option<u64>) -> Option<u64>
    ensures { result ≡ lesser now until least }
{
    if until < now {
        return least;
    }
    match least {
        Some(moment) => Some(moment.min(until)),
        None => Some(until),
    }
}
