//! What a store does with what expired and is here yet.

ghost use Rattle.std.specs.Prelude.{◌≡◌, ℕ, ◌↔◌, ◌+◌, ◌<◌, ◌≤◌, ◌⊎◌, OnOk, OnErr, Err, List, None, Some, true, false, length};
ghost use Rattle.ft_log.specs.Keys.{RequestKey, held_of};
ghost use Rattle.ft_log.specs.Kept.{keys_of, kept_for, unexpired};
ghost use Rattle.ft_log.specs.Logged.{logged};
ghost use Rattle.ft_log.specs.Store.{live_from, shown};
ghost use Rattle.ft_log.specs.View.{key_of};
ghost use Rattle.ft_log.specs.declared.error.LogError.TheVariants.{Full, ShareFull};

use crate::error::LogError;
use crate::key::Key;
use crate::store::Store;

/// How many entries that expired are dropped at a call.
pub(crate) const AT_ONCE: u32 = 8;

/// How many more are dropped where a client would have its share else.
const AT_A_FULL_SHARE: u32 = 512;

impl Store {
    /// Drops so many entries whose expiration lies before a moment, or all of them where they are fewer.
    #[tactic(auto, unfolding(crate::specs::Logged::logged))]
    pub(crate) fn forget_some(&mut self, now: u64, most: u32)
        ensures same { live_from now (logged (shown self.new)) ≡ live_from now (logged (shown self.old)) }
        ensures absent { (key : RequestKey) → kept_for key (logged (shown self.old)).entries ≡ None → kept_for key (logged (shown self.new)).entries ≡ None }
        ensures few { length (logged (shown self.old)).entries ≤ length (logged (shown self.new)).entries + most }
        ensures held { (client : List ℕ) → held_of client (keys_of (logged (shown self.new)).entries) ≤ held_of client (keys_of (logged (shown self.old)).entries) }
        ensures left { (length (logged (shown self.new)).entries + most ≡ length (logged (shown self.old)).entries) ⊎ (unexpired now (logged (shown self.new)).entries ≡ (logged (shown self.new)).entries) }
    {
        for dropped in 0..most {
            if !self.forget_next(now) {
                return;
            }
        }
    }

    /// Makes room, as `make_room` does, in a log whose entries are those that expire at or after a moment.
    #[tactic(auto, unfolding(crate::specs::Logged::logged))]
    pub(crate) fn make_room_from(&mut self, key: &Key, now: u64) -> Result<(), LogError>
        requires { kept_for (key_of key.now) (live_from now (logged (shown self.old))).entries ≡ None }
        ensures ok { OnOk result (live_from now (logged (shown self.new)) ≡ record (live_from now (logged (shown self.old))) { room = Some (key_of key.now) }) }
        ensures err { OnErr result (live_from now (logged (shown self.new)) ≡ record (live_from now (logged (shown self.old))) { room = None }) }
        ensures full { (result ≡ Err Full) ↔ (length (live_from now (logged (shown self.old))).entries ≡ (logged (shown self.old)).capacity) }
        ensures share_full { (result ≡ Err ShareFull) ↔ ((length (live_from now (logged (shown self.old))).entries < (logged (shown self.old)).capacity)
            × (held_of (key_of key.now).client_id (keys_of (live_from now (logged (shown self.old))).entries) ≡ (logged (shown self.old)).share)) }
        ensures within { OnOk result (length (live_from now (logged (shown self.old))).entries < (logged (shown self.old)).capacity) }
        ensures shared { OnOk result (held_of (key_of key.now).client_id (keys_of (live_from now (logged (shown self.old))).entries) < (logged (shown self.old)).share) }
        ensures few { length (logged (shown self.old)).entries ≤ length (logged (shown self.new)).entries + 522 }
        ensures nine { held_of (key_of key.now).client_id (keys_of (logged (shown self.old)).entries) < (logged (shown self.old)).share → length (logged (shown self.old)).entries ≤ length (logged (shown self.new)).entries + 9 }
        ensures many { length (live_from now (logged (shown self.new))).entries ≡ length (live_from now (logged (shown self.old))).entries }
    {
        self.make_way(key, now);
        self.make_room(key)
    }

    /// Drops what expired as `drop_stale` does, where something did.
    #[tactic(auto, unfolding(crate::specs::Logged::logged))]
    #[inline(always)]
    fn make_way(&mut self, key: &Key, now: u64)
        requires { kept_for (key_of key.now) (live_from now (logged (shown self.old))).entries ≡ None }
        ensures same { live_from now (logged (shown self.new)) ≡ live_from now (logged (shown self.old)) }
        ensures absent { kept_for (key_of key.now) (logged (shown self.new)).entries ≡ None }
        ensures full { length (logged (shown self.new)).entries ≡ (logged (shown self.new)).capacity → unexpired now (logged (shown self.new)).entries ≡ (logged (shown self.new)).entries }
        ensures share { length (logged (shown self.new)).entries < (logged (shown self.new)).capacity → held_of (key_of key.now).client_id (keys_of (logged (shown self.new)).entries) ≡ (logged (shown self.new)).share
            → held_of (key_of key.now).client_id (keys_of (unexpired now (logged (shown self.new)).entries)) ≡ (logged (shown self.new)).share }
        ensures few { length (logged (shown self.old)).entries ≤ length (logged (shown self.new)).entries + 522 }
        ensures nine { held_of (key_of key.now).client_id (keys_of (logged (shown self.old)).entries) < (logged (shown self.old)).share → length (logged (shown self.old)).entries ≤ length (logged (shown self.new)).entries + 9 }
    {
        if self.has_stale(now) {
            self.drop_stale(key, now);
        }
    }

    /// Drops what expired under a key, some of the rest, and more of it where the client would have its share else.
    #[tactic(auto, unfolding(crate::specs::Logged::logged))]
    #[inline(never)]
    fn drop_stale(&mut self, key: &Key, now: u64)
        requires { kept_for (key_of key.now) (live_from now (logged (shown self.old))).entries ≡ None }
        ensures same { live_from now (logged (shown self.new)) ≡ live_from now (logged (shown self.old)) }
        ensures absent { kept_for (key_of key.now) (logged (shown self.new)).entries ≡ None }
        ensures full { length (logged (shown self.new)).entries ≡ (logged (shown self.new)).capacity → unexpired now (logged (shown self.new)).entries ≡ (logged (shown self.new)).entries }
        ensures share { length (logged (shown self.new)).entries < (logged (shown self.new)).capacity → held_of (key_of key.now).client_id (keys_of (logged (shown self.new)).entries) ≡ (logged (shown self.new)).share
            → held_of (key_of key.now).client_id (keys_of (unexpired now (logged (shown self.new)).entries)) ≡ (logged (shown self.new)).share }
        ensures few { length (logged (shown self.old)).entries ≤ length (logged (shown self.new)).entries + 522 }
        ensures nine { held_of (key_of key.now).client_id (keys_of (logged (shown self.old)).entries) < (logged (shown self.old)).share → length (logged (shown self.old)).entries ≤ length (logged (shown self.new)).entries + 9 }
    {
        self.take_key(key);
        self.forget_some(now, AT_ONCE);
        if !self.has_its_share(&key.client_id) {
            return;
        }
        self.drop_more(&key.client_id, now);
    }

    /// Drops some of what expired, and where a client would have its share else, one that it has itself.
    #[tactic(auto, unfolding(crate::specs::Logged::logged))]
    fn drop_more(&mut self, client_id: &[u8], now: u64)
        ensures same { live_from now (logged (shown self.new)) ≡ live_from now (logged (shown self.old)) }
        ensures absent { (key : RequestKey) → kept_for key (logged (shown self.old)).entries ≡ None → kept_for key (logged (shown self.new)).entries ≡ None }
        ensures full { length (logged (shown self.new)).entries ≡ (logged (shown self.new)).capacity → unexpired now (logged (shown self.new)).entries ≡ (logged (shown self.new)).entries }
        ensures share { length (logged (shown self.new)).entries < (logged (shown self.new)).capacity → held_of client_id.now (keys_of (logged (shown self.new)).entries) ≡ (logged (shown self.new)).share
            → held_of client_id.now (keys_of (unexpired now (logged (shown self.new)).entries)) ≡ (logged (shown self.new)).share }
        ensures few { length (logged (shown self.old)).entries ≤ length (logged (shown self.new)).entries + 513 }
    {
        self.forget_some(now, AT_A_FULL_SHARE);
        if self.has_its_share(client_id) {
            self.forget_one_of(client_id, now);
        }
    }

    /// Whether a client has its share, though the log isn't full.
    #[tactic(auto, unfolding(crate::specs::Logged::logged))]
    fn has_its_share(&self, client_id: &[u8]) -> bool
        ensures yes { result ≡ true → (length (logged (shown self.now)).entries < (logged (shown self.now)).capacity) × (held_of client_id.now (keys_of (logged (shown self.now)).entries) ≡ (logged (shown self.now)).share) }
        ensures no { result ≡ false → length (logged (shown self.now)).entries < (logged (shown self.now)).capacity → held_of client_id.now (keys_of (logged (shown self.now)).entries) < (logged (shown self.now)).share }
    {
        if self.len() == self.capacity as usize {
            return false;
        }
        self.is_share_full(client_id)
    }

    /// A clock at which what is kept until a moment is there, and all else as it was. Where the clock lies after that moment,
    /// all that expired is dropped first.
    #[tactic(auto, unfolding(crate::specs::Logged::logged))]
    pub(crate) fn clock_for(&mut self, clock: u64, expiration: u64) -> u64
        ensures below { result ≤ expiration }
        ensures same { live_from result (logged (shown self.new)) ≡ live_from clock (logged (shown self.old)) }
        ensures stays { clock ≤ expiration → (result ≡ clock) × ((logged (shown self.new)).entries ≡ (logged (shown self.old)).entries) }
        ensures past { expiration < clock → result ≡ 0 }
    {
        if clock <= expiration {
            return clock;
        }
        self.forget(clock);
        0
    }
}
