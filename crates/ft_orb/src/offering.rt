//! What an engine serves, and how that changes.

ghost use Rattle.std.specs.Prelude.{◌≡◌, ◌∷◌, ℕ, suc, true, false, List, None, Some, IfOk, OnErr, OnOk};
ghost use Rattle.std.specs.Fn.{FnOnceReturnsAtMut};
ghost use Rattle.ft_log.specs.Holding.{Holding};
ghost use Rattle.ft_log.specs.View.{key_of};
ghost use Rattle.ft_orb.specs.History as history;
ghost use Rattle.ft_orb.specs.History.{changes};
ghost use Rattle.ft_orb.specs.Offerings.{terms_by};
ghost use Rattle.ft_orb.specs.Requests.{Call, is_named_within};
ghost use Rattle.ft_orb.specs.declared.parked.Waiter.{Waiter};

use crate::engine::Engine;
use crate::error::ChangeError;
use ft_log::Key;
use ft_objects::Catalogue;

/// What is on offer; how many octets a client's id may have, where that is bounded; and whether the owner is asked before a
/// request with a key is refused.
#[derive(Drop)]
pub(crate) struct Offering<C: Drop> {
    pub(crate) catalogue: C,
    pub(crate) longest: Option<usize>,
    pub(crate) first: bool,
}

impl<C: Drop> Offering<C> {
    /// Whether the id of a key's client has not too many octets.
    #[inline(always)]
    pub(crate) fn allows(&self, key: &Key) -> bool
        ensures { result ≡ is_named_within self.now.longest (key_of key.now).client_id }
    {
        match self.longest {
            Some(longest) => key.client_id.len() <= longest,
            None => true,
        }
    }
}

impl<C: Catalogue + Drop> Engine<C> {
    ghost use Rattle.ft_orb.specs.DeedsPlayed.{IsChange};
    ghost use Rattle.ft_orb.specs.Engines.{AreEndings, Rests, asks_in, counts_in, waits_in};
    ghost use Rattle.ft_orb.specs.Owners.{Owner};
    ghost use Rattle.ft_orb.specs.Parking.{AreParked, Settings, Stays, is_wanted_in, others_under};

    /// Changes what is on offer: calls `change` with the catalogue, to add objects to it or take some away. What comes from
    /// now on is served by what it is then. What is kept stays: a repeat is known by its key alone, so it gets the outcome of
    /// its first performance though its object is gone.
    ///
    /// A request that is parked is settled with an outcome of its operation as that is on offer when it is settled; or,
    /// whatever is on offer, with raw octets or a system exception (`change_object`).
    pub fn change<R, F: FnOnce(&mut C) -> R>(&mut self, change: F) -> R
        requires idle { waits_in self.old ≡ None }
        requires callable { F.IsAlwaysCallable change }
        ensures changed { FnOnceReturnsAtMut F.FnOnce change self.old.offering.catalogue result self.new.offering.catalogue }
        ensures late { (s : Settings) (held : ℕ → Holding) (calls : List Call) (past : List history.Event) (waiting : ℕ → List Waiter) → Stays C.offers s held calls self.old past waiting
            → s.terms (suc (changes past)) ≡ terms_by C.offers self.new.offering → Stays C.offers s held calls self.new (history.Changed ∷ past) waiting }
        // .. and it is a deed, which a run of deeds may have
        ensures deed { IsChange C.offers self.old self.new }
        // where the same is served as before
        ensures table { (owner : Owner) (calls : List Call) (past : List history.Event) → Rests C.offers owner calls self.old past
            → terms_by C.offers self.new.offering ≡ terms_by C.offers self.old.offering → Rests C.offers owner calls self.new (history.Changed ∷ past) }
        ensures bound { self.new.offering.longest ≡ self.old.offering.longest }
        ensures first { self.new.offering.first ≡ self.old.offering.first }
        ensures idle { waits_in self.new ≡ None }
        ensures asks { asks_in self.new ≡ asks_in self.old }
        ensures parked { AreParked self.old self.new }
        ensures waiting { (c q : ℕ) → others_under self.new c q ≡ others_under self.old c q }
        ensures counts { counts_in self.new ≡ counts_in self.old }
        ensures ended { AreEndings self.old self.new }
    {
        change(&mut self.offering.catalogue)
    }

    /// Whether a request of the object under this key is parked. It looks at each request that is.
    pub fn is_wanted(&self, object_key: &[u8]) -> bool
        ensures { result ≡ is_wanted_in self.now object_key.now }
    {
        self.parked.requests.values().any(|parked| parked.pending.waiting.object_key.as_slice()
            == object_key)
    }

    /// Changes what is on offer as `change` does, unless a request of the object under this key is parked (`is_wanted`): then
    /// `change` is not called, and nothing has changed. It looks at this key alone, and not at what `change` does: that it
    /// leaves the objects under other keys as they are is left to who calls.
    pub fn change_object<R, F: FnOnce(&mut C) -> R>(
        &mut self,
        object_key: &[u8],
        change: F,
    ) -> Result<R, ChangeError>
        requires idle { waits_in self.old ≡ None }
        requires callable { F.IsAlwaysCallable change }
        ensures unwanted { OnOk result (is_wanted_in self.old object_key.now ≡ false) }
        ensures wanted { OnErr result (is_wanted_in self.old object_key.now ≡ true) }
        ensures same { OnErr result (self.new ≡ self.old) }
        ensures changed { IfOk result (λ r. FnOnceReturnsAtMut F.FnOnce change self.old.offering.catalogue r self.new.offering.catalogue) }
        ensures late { OnOk result ((s : Settings) (held : ℕ → Holding) (calls : List Call) (past : List history.Event) (waiting : ℕ → List Waiter) → Stays C.offers s held calls self.old past waiting
            → s.terms (suc (changes past)) ≡ terms_by C.offers self.new.offering → Stays C.offers s held calls self.new (history.Changed ∷ past) waiting) }
        ensures deed { OnOk result (IsChange C.offers self.old self.new) }
        ensures table { OnOk result ((owner : Owner) (calls : List Call) (past : List history.Event) → Rests C.offers owner calls self.old past
            → terms_by C.offers self.new.offering ≡ terms_by C.offers self.old.offering → Rests C.offers owner calls self.new (history.Changed ∷ past)) }
        ensures bound { self.new.offering.longest ≡ self.old.offering.longest }
        ensures first { self.new.offering.first ≡ self.old.offering.first }
        ensures idle { waits_in self.new ≡ None }
        ensures asks { asks_in self.new ≡ asks_in self.old }
        ensures parked { AreParked self.old self.new }
        ensures waiting { (c q : ℕ) → others_under self.new c q ≡ others_under self.old c q }
        ensures counts { counts_in self.new ≡ counts_in self.old }
        ensures ended { AreEndings self.old self.new }
    {
        if self.is_wanted(object_key) {
            return Err(ChangeError::Wanted);
        }
        Ok(self.change(change))
    }

    /// Bounds the ids of clients, in octets. From now on a request whose FT_REQUEST context names a client by more is refused
    /// BAD_CONTEXT, unless its key is one under which an outcome is kept or a request is parked. An engine is made without a
    /// bound.
    pub fn bound_client_ids(&mut self, octets: usize)
        requires idle { waits_in self.old ≡ None }
        ensures bound { self.new.offering ≡ record { catalogue = self.old.offering.catalogue; longest = Some octets; first = self.old.offering.first } }
        ensures late { (s : Settings) (held : ℕ → Holding) (calls : List Call) (past : List history.Event) (waiting : ℕ → List Waiter) → Stays C.offers s held calls self.old past waiting
            → s.terms (suc (changes past)) ≡ terms_by C.offers self.new.offering → Stays C.offers s held calls self.new (history.Changed ∷ past) waiting }
        // .. and it is a deed, which a run of deeds may have
        ensures deed { IsChange C.offers self.old self.new }
        ensures idle { waits_in self.new ≡ None }
        ensures asks { asks_in self.new ≡ asks_in self.old }
        ensures parked { AreParked self.old self.new }
        ensures waiting { (c q : ℕ) → others_under self.new c q ≡ others_under self.old c q }
        ensures counts { counts_in self.new ≡ counts_in self.old }
        ensures ended { AreEndings self.old self.new }
    {
        self.offering.longest = Some(octets);
    }

    /// Has the owner be asked, or no longer, of each request with FT_REQUEST that would be refused for its target, its operation
    /// or its arguments: one that is not expired, under whose key nothing is kept and no request is parked, whose client's id is
    /// within the bound, and for whose outcome there is room. It is asked with what would refuse it (`Asked::refused`), as a raw
    /// call: its body as it came, under the object key that its target names, or none. So an owner whose store outlives the
    /// engine finds what it performed while the object was on offer, or its operation had other types; and of what it has not,
    /// it says the refusal, by `decline` and `withdraw` of that name and minor code 0. An engine is made without this.
    pub fn ask_first(&mut self, is_first: bool)
        requires idle { waits_in self.old ≡ None }
        ensures first { self.new.offering ≡ record { catalogue = self.old.offering.catalogue; longest = self.old.offering.longest; first = is_first } }
        ensures late { (s : Settings) (held : ℕ → Holding) (calls : List Call) (past : List history.Event) (waiting : ℕ → List Waiter) → Stays C.offers s held calls self.old past waiting
            → s.terms (suc (changes past)) ≡ terms_by C.offers self.new.offering → Stays C.offers s held calls self.new (history.Changed ∷ past) waiting }
        // .. and it is a deed, which a run of deeds may have
        ensures deed { IsChange C.offers self.old self.new }
        // where the same is served as before
        ensures table { (owner : Owner) (calls : List Call) (past : List history.Event) → Rests C.offers owner calls self.old past
            → terms_by C.offers self.new.offering ≡ terms_by C.offers self.old.offering → Rests C.offers owner calls self.new (history.Changed ∷ past) }
        ensures idle { waits_in self.new ≡ None }
        ensures asks { asks_in self.new ≡ asks_in self.old }
        ensures parked { AreParked self.old self.new }
        ensures waiting { (c q : ℕ) → others_under self.new c q ≡ others_under self.old c q }
        ensures counts { counts_in self.new ≡ counts_in self.old }
        ensures ended { AreEndings self.old self.new }
    {
        self.offering.first = is_first;
    }
}
