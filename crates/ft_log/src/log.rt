//! The log: outcomes by their keys.

ghost use Rattle.std.specs.Prelude.{◌≡◌, ◌≤◌, ◌+◌, IsTrue, List, ℕ, length, option_map};
ghost use Rattle.ft_log.specs.Keys.{are_distinct, clients_in, held_of};
ghost use Rattle.ft_log.specs.Kept.{keys_of};
ghost use Rattle.ft_log.specs.View.{key_of};

use crate::error::LogError;
use crate::held::Held;
use crate::key::Key;
use crate::outcome::Outcome;
use crate::retention::Retention;
use crate::stale::AT_ONCE;
use crate::store::Store;
use std::alloc::Global;
use std::fmt;
use std::hash::RandomState;
use std::marker::Model;

/// The outcomes that a server keeps, in the order in which they were kept, each under a key of its own.
///
/// A contract sees a log as `logged` of it: how many outcomes it may keep, how many of each client, the
/// entries, and the key that room is made for, if there is one. Besides it sees of how many outcomes that are forgotten the
/// memory is not given back, `stale_of`, how many of these are a client's, `stale_held`, and the clock, `clock_of`: the
/// greatest moment that was given to `forget`. The clock is 0 again once an outcome is kept that expires before it. `find`,
/// `forget`, `keep`, `keep_parked`, `fill`, `withdraw`, `len`, `held_by` and `next_expiry` allocate nothing.
///
/// What is forgotten is no entry from then on. Its memory is given back later, by and by: that of at most eight
/// outcomes at each `forget`, and of nine at each `make_room`, or of 522 where a client would have its share else, so that such
/// a call takes no longer where many expire at once.
#[derive(Drop)]
pub struct Log {
    store: Store,
    clock: u64,
}

impl Model for Log {
    ghost use Rattle.ft_log.specs.Logged.{Shown};
    ghost use Rattle.ft_log.specs.Store.{shown_at};
    ghost use Rattle.ft_log.specs.contracts.story.Entry as entry;
    ghost use Rattle.std.specs.Coded.{codes};

    ghost Value = { Shown };

    ghost coded = { Prim.hlevel (codes, entry.the_row.coded) };

    ghost view = { λ l. shown_at l.clock l.store };
}

impl Log {
    ghost use Rattle.std.specs.Prelude.{◌≡◌, ◌↔◌, ◌<◌, ◌-◌, ◌*◌, ◌++◌, [], ◌∷◌, None, Some, Err, OnOk, OnErr, MatchOption, true, false, length, map, max};
    ghost use Rattle.ft_log.specs.Holding.{known, parked};
    ghost use Rattle.ft_log.specs.Kept.{filled, kept_for, least_expiration, unexpired, withdrawn};
    ghost use Rattle.ft_log.specs.Logged.{clock_of, dues_of, logged, slots_of, stale_held, stale_of};
    ghost use Rattle.ft_log.specs.View.{holding_in, performed_in};
    ghost use Rattle.ft_log.specs.declared.error.LogError.TheVariants.{Full, ShareFull};

    /// A log that keeps nothing.
    pub fn new(alloc: Global, retention: Retention, hasher: RandomState) -> Log
        ensures empty { logged result ≡ record { capacity = retention.capacity; share = retention.share; entries = []; room = None } }
        ensures clock { clock_of result ≡ 0 }
        ensures stale { stale_of result ≡ 0 }
    {
        Log {
            store: Store::new(alloc, retention.capacity, retention.share, hasher),
            clock: 0,
        }
    }

    /// What is kept for a key.
    pub fn find(&self, key: &Key) -> Option<&Held>
        ensures { option_map (λ h. holding_in h.now) result ≡ kept_for (key_of key.now) (logged self.now).entries }
    {
        self.store.find(key, self.clock)
    }

    /// How many outcomes are kept. As long as the memory of some that are forgotten is not given back, it looks at
    /// all of them.
    pub fn len(&self) -> usize
        ensures length { result ≡ length (logged self.now).entries }
        ensures bound { result ≤ (logged self.now).capacity }
    {
        self.store.len_from(self.clock)
    }

    /// How many outcomes of a client are kept. It looks at all outcomes where the share is the capacity or more, and as long
    /// as the memory of some that are forgotten is not given back.
    pub fn held_by(&self, client_id: &[u8]) -> u32
        ensures held { result ≡ held_of client_id.now (keys_of (logged self.now).entries) }
        ensures bound { result ≤ (logged self.now).share }
    {
        self.store.held_from(client_id, self.clock)
    }

    /// The least expiration of what is kept. As long as the memory of some outcomes that are forgotten is not given back, it
    /// looks at all of them.
    pub fn next_expiry(&self) -> Option<u64>
        ensures least { result ≡ least_expiration (logged self.now).entries }
        ensures stays { (now : ℕ) → MatchOption result (Unit {0}) (λ t. now ≤ t) → unexpired now (logged self.now).entries ≡ (logged self.now).entries }
    {
        self.store.next_from(self.clock)
    }

    /// Drops exactly the entries whose expiration lies before a moment, given as the number of 100 ns
    /// since 15 October 1582. Of what expired and is here yet it gives back the memory of eight, or of all where they are fewer.
    pub fn forget(&mut self, now: u64)
        ensures entries { logged self.new ≡ record (logged self.old) { entries = unexpired now (logged self.old).entries } }
        ensures stale { stale_of self.new ≡ length (logged self.old).entries + stale_of self.old - length (logged self.new).entries - 8 }
        ensures clock { clock_of self.new ≡ max (clock_of self.old) now }
    {
        self.clock = self.clock.max(now);
        self.store.forget_some(self.clock, AT_ONCE);
    }

    /// Gives back the memory of so many outcomes that are forgotten, or of all where they are fewer.
    pub fn give_back(&mut self, most: u32)
        ensures same { logged self.new ≡ logged self.old }
        ensures stale { stale_of self.new ≡ stale_of self.old - most }
        ensures clock { clock_of self.new ≡ clock_of self.old }
    {
        self.store.forget_some(self.clock, most);
    }

    /// Makes room for the outcome of a key that has none, and for no other. An error leaves room for no
    /// key. The entries stay as they are in every case. It gives back the memory of at most nine that are forgotten. Where
    /// with those of a client that are left it would have its share, it gives back that of at most 512 more; and where it
    /// would even then, it looks at all outcomes for one of the client's that is forgotten, and gives back the memory of that.
    pub fn make_room(&mut self, key: &Key) -> Result<(), LogError>
        requires { kept_for (key_of key.now) (logged self.old).entries ≡ None }
        ensures ok { OnOk result (logged self.new ≡ record (logged self.old) { room = Some (key_of key.now) }) }
        ensures err { OnErr result (logged self.new ≡ record (logged self.old) { room = None }) }
        ensures full { (result ≡ Err Full) ↔ (length (logged self.old).entries ≡ (logged self.old).capacity) }
        ensures share_full { (result ≡ Err ShareFull) ↔ ((length (logged self.old).entries < (logged self.old).capacity)
            × (held_of (key_of key.now).client_id (keys_of (logged self.old).entries) ≡ (logged self.old).share)) }
        ensures within { OnOk result (length (logged self.old).entries < (logged self.old).capacity) }
        ensures shared { OnOk result (held_of (key_of key.now).client_id (keys_of (logged self.old).entries) < (logged self.old).share) }
        ensures stale { stale_of self.old ≤ stale_of self.new + 522 }
        ensures nine { held_of (key_of key.now).client_id (keys_of (logged self.old).entries) + stale_held (key_of key.now).client_id self.old < (logged self.old).share → stale_of self.old ≤ stale_of self.new + 9 }
        ensures clock { clock_of self.new ≡ clock_of self.old }
    {
        self.store.make_room_from(key, self.clock)
    }

    /// Keeps the outcome of the key that room is made for, last of all, until its expiration. Afterwards
    /// room is made for none. It can't fail. Where the expiration lies before the clock, it first
    /// gives back the memory of all that are forgotten, and the clock is 0 from then on.
    pub fn keep(&mut self, key: Key, expiration: u64, outcome: Outcome)
        requires { (logged self.old).room ≡ Some (key_of key) }
        ensures entries { logged self.new ≡ record (logged self.old) {
          entries = (logged self.old).entries ++ record { key = key_of key; expiration = expiration; outcome = known (performed_in outcome) } ∷ [];
          room = None;
        } }
        ensures clock { clock_of self.old ≤ expiration → clock_of self.new ≡ clock_of self.old }
        ensures stale { clock_of self.old ≤ expiration → stale_of self.new ≡ stale_of self.old }
        ensures past { expiration < clock_of self.old → (clock_of self.new ≡ 0) × (stale_of self.new ≡ 0) }
    {
        self.clock = self.store.clock_for(self.clock, expiration);
        self.store.keep(key, expiration, Held::Known(outcome));
    }

    /// Keeps the place of the outcome of a call that is parked under a number, for the key that room is made for, as `keep`
    /// keeps an outcome. It can't fail.
    pub fn keep_parked(&mut self, key: Key, expiration: u64, number: u64)
        requires { (logged self.old).room ≡ Some (key_of key) }
        ensures entries { logged self.new ≡ record (logged self.old) {
          entries = (logged self.old).entries ++ record { key = key_of key; expiration = expiration; outcome = parked number } ∷ [];
          room = None;
        } }
        ensures clock { clock_of self.old ≤ expiration → clock_of self.new ≡ clock_of self.old }
        ensures stale { clock_of self.old ≤ expiration → stale_of self.new ≡ stale_of self.old }
        ensures past { expiration < clock_of self.old → (clock_of self.new ≡ 0) × (stale_of self.new ≡ 0) }
    {
        self.clock = self.store.clock_for(self.clock, expiration);
        self.store.keep(key, expiration, Held::Parked(number));
    }

    /// Puts the outcome of a call that is parked under a number in its place, under its key. Where that is forgotten, nothing
    /// changes. It can't fail.
    pub fn fill(&mut self, key: Key, number: u64, outcome: Outcome)
        ensures entries { logged self.new ≡ record (logged self.old) { entries = map (filled (key_of key) number (performed_in outcome)) (logged self.old).entries } }
        ensures clock { clock_of self.new ≡ clock_of self.old }
        ensures stale { stale_of self.new ≡ stale_of self.old }
    {
        self.store.fill(key, number, outcome);
    }

    /// Takes out what is kept for a call that is parked under a number, under its key; its room is given back. Where it is
    /// forgotten, or has its outcome, nothing changes, but that its memory may be given back. It takes no memory.
    pub fn withdraw(&mut self, key: &Key, number: u64)
        ensures entries { logged self.new ≡ record (logged self.old) { entries = withdrawn (key_of key.now) number (logged self.old).entries } }
        ensures clock { clock_of self.new ≡ clock_of self.old }
        ensures stale { stale_of self.new ≤ stale_of self.old }
        ensures one { length (logged self.old).entries + stale_of self.old ≤ length (logged self.new).entries + stale_of self.new + 1 }
    {
        self.store.withdraw(key, number);
    }

    /// No two entries have one key.
    pub fn keys_are_distinct(&self)
        ensures { IsTrue (are_distinct (keys_of (logged self.now).entries)) }
    {
        self.store.keys_are_distinct();
    }

    /// The map has at most one slot for each entry and one for each client of an entry, however many clients
    /// have asked; and the heap two expirations for each entry, however many calls were withdrawn. What is forgotten, and
    /// its client, count too until its memory is given back; with the entries it is never more than the capacity.
    pub fn slots_are_few(&self)
        ensures each { slots_of self.now ≤ length (logged self.now).entries + clients_in (keys_of (logged self.now).entries) + 2 * stale_of self.now }
        ensures twice { slots_of self.now ≤ 2 * (length (logged self.now).entries + stale_of self.now) }
        ensures bound { slots_of self.now ≤ 2 * (logged self.now).capacity }
        ensures dues { dues_of self.now ≤ 2 * (length (logged self.now).entries + stale_of self.now) }
        ensures within { length (logged self.now).entries + stale_of self.now ≤ (logged self.now).capacity }
    {
        self.store.slots_are_few();
    }
}

/// How many outcomes are kept, and how many may be; not the outcomes.
impl fmt::Debug for Log {
    fn fmt<W: fmt::Write>(&self, f: &mut fmt::Formatter<W>) -> fmt::Result {
        f.debug_struct("Log")
            .field("capacity", &self.store.capacity)
            .field("share", &self.store.share)
            .field("len", &self.len())
            .finish_non_exhaustive()
    }
}
