//! The fields of a log, and what each says of the others.

ghost use Rattle.std.specs.Prelude.{◌≡◌, ◌≤◌, ◌+◌, IsTrue, List, ℕ, if◌then◌else◌, length, nat_lt, not, option_map};
ghost use Rattle.std.specs.List.{count_by, sum_by};
ghost use Rattle.indexmap.specs.IndexMap.{index_map_len};
ghost use Rattle.ft_log.specs.Dues.{dues, places, under};
ghost use Rattle.ft_log.specs.Keys.{RequestKey, are_distinct, clients_in, held_of};
ghost use Rattle.ft_log.specs.Kept.{keys_of};
ghost use Rattle.ft_log.specs.Maps.{due_at, held_at};
ghost use Rattle.ft_log.specs.Placed.{ArePlaced, ArePlaced-prop};
ghost use Rattle.ft_log.specs.Tied.{AreDues, AreOutcomes, AreOutcomes-prop, due_of, is_copied, is_free, is_ready, is_slotted};
ghost use Rattle.ft_log.specs.View.{entries_at, key_of};

use crate::counts::{Counts, count_down_if, count_of, count_up_if, reserve_if};
use crate::due::Spot;
use crate::error::LogError;
use crate::held::Held;
use crate::key::Key;
use crate::order::Order;
use crate::outcome::Outcome;
use crate::room::{Room, room_for};
use crate::shelf::{Kept, Shelf};
use crate::story::{Entry, Story};
use indexmap::IndexMap;
use std::alloc::Global;
use std::hash::RandomState;

/// The outcomes that a log keeps, in the order in which they were kept, each under a key of its own.
///
/// `kept` has the outcome of each entry and no other, and `order` its slot there, by its expiration. `counts` has how many
/// entries each client of an entry has, where the share is below the capacity, and nothing else. There `room` holds a copy of
/// a client id, so that keeping takes no memory. `story` takes none.
#[derive(Drop)]
pub(crate) struct Store {
    pub(crate) capacity: u32,
    pub(crate) share: u32,
    alloc: Global,
    kept: Shelf,
    counts: Counts,
    order: Order,
    room: Option<Room>,
    story: Story,
    ghost within: { length story.entries ≤ capacity },
    ghost distinct: { IsTrue (are_distinct (keys_of (entries_at story.entries))) },
    ghost shared: { (client : List ℕ) → held_of client (keys_of (entries_at story.entries)) ≤ share },
    ghost found: { AreOutcomes kept story.entries } by { AreOutcomes-prop kept story.entries },
    ghost listed: { (f : ℕ × RequestKey → ℕ) → sum_by (λ p. f (due_at p)) kept.outcomes.entries ≡ sum_by (λ e. f (due_of e)) story.entries },
    ghost counted: { IsTrue (nat_lt share capacity) → (client : List ℕ) → held_at counts client ≡ held_of client (keys_of (entries_at story.entries)) },
    ghost slim: { index_map_len counts ≤ (if nat_lt share capacity then clients_in (keys_of (entries_at story.entries)) else 0) },
    ghost dated: { AreDues order story.entries },
    ghost slotted: { count_by (λ d. not (is_slotted kept d)) (dues order) ≡ 0 },
    ghost placed: { ArePlaced kept.outcomes.entries (under order) } by { ArePlaced-prop kept.outcomes.entries (under order) },
    ghost copied: { IsTrue (nat_lt share capacity) → IsTrue (is_copied room) },
    ghost ready: { IsTrue (is_ready (option_map (λ r. key_of r.key.key) room) (keys_of (entries_at story.entries)) capacity share (places order) (is_free (nat_lt share capacity) kept counts)) },
}

impl Store {
    ghost use Rattle.std.specs.Prelude.{◌≡◌, ◌↔◌, ◌<◌, ◌*◌, ◌++◌, [], ◌∷◌, None, Some, Err, OnOk, OnErr, MatchOption, true, false, length, map};
    ghost use Rattle.ft_log.specs.Kept.{filled, kept_for, least_expiration, unexpired, withdrawn};
    ghost use Rattle.ft_log.specs.Logged.{dues_of, logged, slots_of};
    ghost use Rattle.ft_log.specs.Shelf.{slot_at};
    ghost use Rattle.ft_log.specs.Store.{shown};
    ghost use Rattle.ft_log.specs.View.{holding_in, performed_in};
    ghost use Rattle.ft_log.specs.Without.{without};
    ghost use Rattle.ft_log.specs.declared.error.LogError.TheVariants.{Full, ShareFull};

    /// A log that keeps nothing. It may keep `capacity` outcomes, `share` of them for each client.
    #[tactic(auto, unfolding(crate::specs::Logged::logged))]
    pub(crate) fn new(alloc: Global, capacity: u32, share: u32, hasher: RandomState) -> Store
        ensures { logged (shown result) ≡ record { capacity = capacity; share = share; entries = []; room = None } }
    {
        Store {
            capacity,
            share,
            alloc,
            kept: Shelf::new(alloc, hasher),
            counts: IndexMap::with_hasher(alloc, hasher),
            order: Order::new(alloc),
            room: None,
            story: Story::new(),
        }
    }

    /// What is kept for a key, where it is repeated at a moment.
    #[tactic(auto, unfolding(crate::specs::Logged::logged))]
    pub(crate) fn find(&self, key: &Key, now: u64) -> Option<&Held>
        ensures { option_map (λ o. holding_in o.now) result ≡ kept_for (key_of key.now) (unexpired now (logged (shown self.now)).entries) }
    {
        self.kept.outcome_at(key, now)
    }

    /// How many outcomes are kept.
    #[tactic(auto, unfolding(crate::specs::Logged::logged))]
    pub(crate) fn len(&self) -> usize
        ensures length { result ≡ length (logged (shown self.now)).entries }
        ensures bound { result ≤ (logged (shown self.now)).capacity }
    {
        self.order.len()
    }

    /// How many of them are repeated at a moment. Where something expired before it, they are looked at one by one.
    #[tactic(auto, unfolding(crate::specs::Logged::logged))]
    pub(crate) fn len_from(&self, now: u64) -> usize
        ensures length { result ≡ length (unexpired now (logged (shown self.now)).entries) }
        ensures bound { result ≤ (logged (shown self.now)).capacity }
    {
        if self.has_stale(now) {
            self.kept.len_from(now)
        } else {
            self.len()
        }
    }

    /// How many outcomes of a client are repeated at a moment. Where clients are not counted, or something expired before it,
    /// they are looked at one by one.
    #[tactic(auto, unfolding(crate::specs::Logged::logged))]
    pub(crate) fn held_from(&self, client_id: &[u8], now: u64) -> u32
        ensures held { result ≡ held_of client_id.now (keys_of (unexpired now (logged (shown self.now)).entries)) }
        ensures bound { result ≤ (logged (shown self.now)).share }
    {
        let _share = self.share;
        if self.is_counted_from(now) {
            count_of(&self.counts, client_id)
        } else {
            self.kept.held_by(client_id, now) as u32
        }
    }

    /// Whether clients are counted, and nothing expired before a moment.
    #[tactic(auto, unfolding(crate::specs::Logged::logged))]
    fn is_counted_from(&self, now: u64) -> bool
        ensures counts { result ≡ true → nat_lt (logged (shown self.now)).share (logged (shown self.now)).capacity ≡ true }
        ensures stays { result ≡ true → unexpired now (logged (shown self.now)).entries ≡ (logged (shown self.now)).entries }
    {
        if self.has_stale(now) {
            return false;
        }
        self.counts_clients()
    }

    /// Whether the share is below the capacity. Where it isn't, no client can have its share before the log is full, and
    /// clients are not counted.
    #[tactic(auto, unfolding(crate::specs::Logged::logged))]
    #[inline(always)]
    fn counts_clients(&self) -> bool
        ensures { result ≡ nat_lt (logged (shown self.now)).share (logged (shown self.now)).capacity }
    {
        self.share < self.capacity
    }

    /// The least expiration of what is kept.
    #[tactic(auto, unfolding(crate::specs::Logged::logged))]
    pub(crate) fn next_expiry(&self) -> Option<u64>
        ensures least { result ≡ least_expiration (logged (shown self.now)).entries }
        ensures stays { (now : ℕ) → MatchOption result (Unit {0}) (λ t. now ≤ t) → unexpired now (logged (shown self.now)).entries ≡ (logged (shown self.now)).entries }
    {
        self.order.least()
    }

    /// The least expiration of what is repeated at a moment. Where something expired before it, they are looked at one by one.
    #[tactic(auto, unfolding(crate::specs::Logged::logged))]
    pub(crate) fn next_from(&self, now: u64) -> Option<u64>
        ensures { result ≡ least_expiration (unexpired now (logged (shown self.now)).entries) }
    {
        if self.has_stale(now) {
            self.kept.least_from(now)
        } else {
            self.next_expiry()
        }
    }

    /// Whether something expired before a moment.
    #[tactic(auto, unfolding(crate::specs::Logged::logged))]
    pub(crate) fn has_stale(&self, now: u64) -> bool
        ensures yes { result ≡ true → length (unexpired now (logged (shown self.now)).entries) < length (logged (shown self.now)).entries }
        ensures no { result ≡ false → unexpired now (logged (shown self.now)).entries ≡ (logged (shown self.now)).entries }
    {
        match self.next_expiry() {
            Some(least) => least < now,
            None => false,
        }
    }

    /// Drops exactly the entries whose expiration lies before a moment, given as the number of 100 ns
    /// since 15 October 1582.
    #[tactic(auto, unfolding(crate::specs::Logged::logged))]
    pub(crate) fn forget(&mut self, now: u64)
        ensures { logged (shown self.new) ≡ record (logged (shown self.old)) { entries = unexpired now (logged (shown self.old)).entries } }
    {
        while self.forget_next(now) {}
    }

    /// Drops one entry whose expiration lies before a moment, and says whether there was one.
    #[tactic(auto, unfolding(crate::specs::Logged::logged))]
    pub(crate) fn forget_next(&mut self, now: u64) -> bool
        ensures one { length (logged (shown self.new)).entries + (if result then 1 else 0) ≡ length (logged (shown self.old)).entries }
        ensures none { result ≡ false → unexpired now (logged (shown self.new)).entries ≡ (logged (shown self.new)).entries }
        ensures same { unexpired now (logged (shown self.new)).entries ≡ unexpired now (logged (shown self.old)).entries }
        ensures absent { (key : RequestKey) → kept_for key (logged (shown self.old)).entries ≡ None → kept_for key (logged (shown self.new)).entries ≡ None }
        ensures others { logged (shown self.new) ≡ record (logged (shown self.old)) { entries = (logged (shown self.new)).entries } }
        ensures held { (client : List ℕ) → held_of client (keys_of (logged (shown self.new)).entries) ≤ held_of client (keys_of (logged (shown self.old)).entries) }
    {
        match self.order.before(now) {
            Some(spot) => {
                self.take_out(spot);
                true
            }
            None => false,
        }
    }

    /// Drops one entry of a client whose expiration lies before a moment, if there is one. They are looked at one by one.
    #[tactic(auto, unfolding(crate::specs::Logged::logged))]
    pub(crate) fn forget_one_of(&mut self, client_id: &[u8], now: u64)
        ensures same { unexpired now (logged (shown self.new)).entries ≡ unexpired now (logged (shown self.old)).entries }
        ensures absent { (key : RequestKey) → kept_for key (logged (shown self.old)).entries ≡ None → kept_for key (logged (shown self.new)).entries ≡ None }
        ensures full { length (logged (shown self.new)).entries ≡ (logged (shown self.new)).capacity → (logged (shown self.new)).entries ≡ (logged (shown self.old)).entries }
        ensures share { held_of client_id.now (keys_of (logged (shown self.new)).entries) ≡ (logged (shown self.new)).share
            → held_of client_id.now (keys_of (unexpired now (logged (shown self.new)).entries)) ≡ (logged (shown self.new)).share }
        ensures others { logged (shown self.new) ≡ record (logged (shown self.old)) { entries = (logged (shown self.new)).entries } }
        ensures few { length (logged (shown self.old)).entries ≤ length (logged (shown self.new)).entries + 1 }
    {
        match self.kept.stale_of(client_id, now) {
            Some(spot) => self.take_out(spot),
            None => {}
        }
    }

    /// Takes out what is kept for a key, if there is something.
    #[tactic(auto, unfolding(crate::specs::Logged::logged))]
    pub(crate) fn take_key(&mut self, key: &Key)
        ensures entries { self.new.story.entries ≡ without (key_of key.now) self.old.story.entries }
        ensures others { logged (shown self.new) ≡ record (logged (shown self.old)) { entries = (logged (shown self.new)).entries } }
        ensures few { length (logged (shown self.old)).entries ≤ length (logged (shown self.new)).entries + 1 }
    {
        match self.kept.spot_of(key) {
            Some(spot) => self.take_out(spot),
            None => {}
        }
    }

    /// Takes out the entry that is kept there.
    #[tactic(auto, unfolding(crate::specs::Logged::logged))]
    fn take_out(&mut self, spot: Spot)
        requires slot { slot_at self.old.kept (key_of spot.key.key) ≡ Some spot.slot }
        requires place { under self.old.order spot.slot ≡ Some spot.place }
        ensures entries { self.new.story.entries ≡ without (key_of spot.key.key) self.old.story.entries }
        ensures others { logged (shown self.new) ≡ record (logged (shown self.old)) { entries = (logged (shown self.new)).entries } }
    {
        let counts = self.counts_clients();
        let client_id = self.kept.take(spot.place, &spot.key);
        self.order.withdraw(spot.slot, &spot.key);
        self.order
            .move_to(self.kept.slot_in(spot.place), spot.place);
        count_down_if(counts, &mut self.counts, client_id.as_slice());
        self.story = Story::without(&self.story, &spot.key);
    }

    /// Whether a client has its share, in a log that isn't full.
    #[tactic(auto, unfolding(crate::specs::Logged::logged))]
    pub(crate) fn is_share_full(&self, client_id: &[u8]) -> bool
        requires { length (logged (shown self.now)).entries < (logged (shown self.now)).capacity }
        ensures yes { result ≡ true → held_of client_id.now (keys_of (logged (shown self.now)).entries) ≡ (logged (shown self.now)).share }
        ensures no { result ≡ false → held_of client_id.now (keys_of (logged (shown self.now)).entries) < (logged (shown self.now)).share }
    {
        self.counts_clients() && count_of(&self.counts, client_id) == self.share
    }

    /// Makes room for the outcome of a key that has none, and for no other. An error leaves room for no
    /// key. The entries stay as they are in every case.
    #[tactic(auto, unfolding(crate::specs::Logged::logged))]
    pub(crate) fn make_room(&mut self, key: &Key) -> Result<(), LogError>
        requires { kept_for (key_of key.now) (logged (shown self.old)).entries ≡ None }
        ensures ok { OnOk result (logged (shown self.new) ≡ record (logged (shown self.old)) { room = Some (key_of key.now) }) }
        ensures err { OnErr result (logged (shown self.new) ≡ record (logged (shown self.old)) { room = None }) }
        ensures full { (result ≡ Err Full) ↔ (length (logged (shown self.old)).entries ≡ (logged (shown self.old)).capacity) }
        ensures share_full { (result ≡ Err ShareFull) ↔ ((length (logged (shown self.old)).entries < (logged (shown self.old)).capacity)
            × (held_of (key_of key.now).client_id (keys_of (logged (shown self.old)).entries) ≡ (logged (shown self.old)).share)) }
        ensures within { OnOk result (length (logged (shown self.old)).entries < (logged (shown self.old)).capacity) }
        ensures shared { OnOk result (held_of (key_of key.now).client_id (keys_of (logged (shown self.old)).entries) < (logged (shown self.old)).share) }
        ensures same { (logged (shown self.new)).entries ≡ (logged (shown self.old)).entries }
    {
        self.room = None;
        if self.len() == self.capacity as usize {
            return Err(LogError::Full);
        }
        if self.is_share_full(&key.client_id) {
            return Err(LogError::ShareFull);
        }
        let counts = self.counts_clients();
        let room = room_for(counts, self.alloc, key)?;
        self.order.reserve()?;
        self.kept.reserve()?;
        reserve_if(counts, &mut self.counts)?;
        self.room = Some(room);
        Ok(())
    }

    /// Keeps the outcome of the key that room is made for, last of all, until its expiration. Afterwards
    /// room is made for none. It can't fail.
    #[tactic(auto, unfolding(crate::specs::Logged::logged))]
    pub(crate) fn keep(&mut self, key: Key, expiration: u64, outcome: Held)
        requires { (logged (shown self.old)).room ≡ Some (key_of key) }
        ensures { logged (shown self.new) ≡ record (logged (shown self.old)) {
          entries = (logged (shown self.old)).entries ++ record { key = key_of key; expiration = expiration; outcome = holding_in outcome } ∷ [];
          room = None;
        } }
    {
        let _share = self.share;
        let counts = self.counts_clients();
        let Some(room) = self.room.take() else {
            return;
        };
        let entry = Entry {
            key,
            expiration,
            outcome,
        };
        self.story = Story::with(&self.story, &entry);
        let slot = self.order.push(expiration, room.key, self.kept.len());
        let kept = Kept {
            slot,
            until: expiration,
            outcome: entry.outcome,
        };
        self.kept.put(entry.key, kept);
        count_up_if(counts, &mut self.counts, room.client_id);
    }

    /// Puts the outcome of a call that was parked under a number in the place of that, under its key. Where nothing is kept
    /// for it any more, nothing changes. It can't fail.
    #[tactic(auto, unfolding(crate::specs::Logged::logged))]
    pub(crate) fn fill(&mut self, key: Key, number: u64, outcome: Outcome)
        ensures { logged (shown self.new) ≡ record (logged (shown self.old)) { entries = map (filled (key_of key) number (performed_in outcome)) (logged (shown self.old)).entries } }
    {
        let entry = Entry {
            key,
            expiration: number,
            outcome: Held::Known(outcome),
        };
        self.story = Story::filled(&self.story, &entry);
        self.kept.fill(entry.key, number, entry.outcome);
    }

    /// Takes out what is kept for a call that is parked under a number, under its key; its room is given back. Where it is
    /// forgotten, or has its outcome, nothing changes. It takes no memory.
    #[tactic(auto, unfolding(crate::specs::Logged::logged))]
    pub(crate) fn withdraw(&mut self, key: &Key, number: u64)
        ensures { logged (shown self.new) ≡ record (logged (shown self.old)) { entries = withdrawn (key_of key.now) number (logged (shown self.old)).entries } }
    {
        match self.kept.parked_at(key, number) {
            Some(spot) => self.take_out(spot),
            None => {}
        }
    }

    /// No two entries have one key.
    #[tactic(auto, unfolding(crate::specs::Logged::logged))]
    pub(crate) fn keys_are_distinct(&self)
        ensures { IsTrue (are_distinct (keys_of (logged (shown self.now)).entries)) }
    {}

    /// The map has at most one slot for each entry and one for each client of an entry, however many clients
    /// have asked; and the heap two expirations for each entry, however many calls were withdrawn.
    #[tactic(auto, unfolding(crate::specs::Logged::logged, crate::specs::Logged::slots_of, crate::specs::Logged::dues_of))]
    pub(crate) fn slots_are_few(&self)
        ensures each { slots_of (shown self.now) ≤ length (logged (shown self.now)).entries + clients_in (keys_of (logged (shown self.now)).entries) }
        ensures twice { slots_of (shown self.now) ≤ 2 * length (logged (shown self.now)).entries }
        ensures bound { slots_of (shown self.now) ≤ 2 * (logged (shown self.now)).capacity }
        ensures dues { dues_of (shown self.now) ≤ 2 * length (logged (shown self.now)).entries }
    {}
}
