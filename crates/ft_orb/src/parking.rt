//! Requests whose outcomes come later: the engine goes on while they are parked.

ghost use Rattle.std.specs.Prelude.{◌≡◌, ◌==◌, ◌↔◌, ◌⊎◌, ◌+◌, ◌<◌, ◌≤◌, ◌++◌, ◌∷◌, [], ℕ, Bool, List, IsTrue, IsSome, IfErr, IfSome, false, IsOk, OnOk, OnErr, None, Some, Err, Option, length, map};
ghost use Rattle.std.specs.Option.{option_map};
ghost use Rattle.giop_core.specs.Items.{item_at};
ghost use Rattle.ft_log.specs.Holding.{Holding, known, parked};
ghost use Rattle.ft_log.specs.Performed.{Performed};
ghost use Rattle.ft_log.specs.View.{performed_in};
ghost use Rattle.ft_objects.specs.Replies.{IsRenderable};
ghost use Rattle.ft_orb.specs.Declined.{standing};
ghost use Rattle.ft_orb.specs.ExactlyOnce.{OneExpiration, state_after, state_of};
ghost use Rattle.ft_orb.specs.History as history;
ghost use Rattle.ft_orb.specs.History.{KeepsAll, arrivals};
ghost use Rattle.ft_orb.specs.Now.{performed_now};
ghost use Rattle.ft_orb.specs.Owners.{owned_rules};
ghost use Rattle.ft_orb.specs.Requests.{Call};
ghost use Rattle.ft_orb.specs.declared.parked.Waiter.{Waiter as Waiting};
ghost use Rattle.ft_orb.specs.declared.error.ParkError.TheVariants.{Full, Share};
ghost use Rattle.ft_orb.specs.declared.events.Note.TheVariants.{Done};

use crate::arguments::let_go;
use crate::asked::{Asked, lent};
use crate::carrying::can_carry;
use crate::counts::count;
use crate::desk::Step;
use crate::ending::{Ending, end_link};
use crate::engine::Engine;
use crate::error::{ParkError, ServeError};
use crate::keeper;
use crate::outcomes::may_answer;
use crate::parked::Parked;
use crate::pausing::Pending;
use crate::waiters::{copy_of, count_all, count_going, is_going, own_waiter};
use ft_log::Outcome;
use ft_objects::Catalogue;
use std::mem;

impl<C: Catalogue + Drop> Engine<C> {
    ghost use Rattle.ft_orb.specs.Engines.{AreEndings, Awaited, EndsShort, IsOpen, asks_in, awaited_lent, counts_in, handled_in, waits_in};
    ghost use Rattle.ft_orb.specs.Carrying.{CanCarry, due_in, due_on, next_in, reply_if, unless_failed};
    ghost use Rattle.ft_orb.specs.Decisions.{one_more};
    ghost use Rattle.ft_orb.specs.Parked.{own_waiters};
    ghost use Rattle.ft_orb.specs.Parking.{AreParked, AsksLate, CanSettle, IsDueLate, RepliesLate, ResumesLate, Settings, Stays, by_number, own_of, parked_at, parked_count, parked_in, parked_of, places_of, places_of_one, put_at, left_in, told_in, waits_on, wanted_in};

    /// How many requests are parked.
    pub fn parked_len(&self) -> usize
        ensures { result ≡ parked_count self.now }
    {
        self.parked.requests.len()
    }

    /// How many of the parked requests came on a connection, whatever became of it: an owner who reads no more from one while these
    /// are many holds its client back.
    pub fn parked_of(&self, connection: u64) -> usize
        ensures { result ≡ parked_of self.now connection }
    {
        self.parked.count_of(connection) as usize
    }

    /// How many wait on a connection for outcomes of parked requests: nobody where it isn't connected, was closed, or has ended. It
    /// looks at all that is parked.
    pub fn waits_on(&self, connection: u64) -> usize
        ensures { result ≡ waits_on self.now connection }
    {
        if !is_going(&self.links, connection) {
            return 0;
        }
        count_all(&self.parked.requests, connection)
    }

    /// How many wait for the outcome of the request that is parked under this number, on connections that go on: nobody where
    /// nothing is parked so.
    pub fn wanted(&self, number: u64) -> usize
        ensures many { result ≡ wanted_in self.now number }
        // who waits is who is told
        ensures late { (s : Settings) (held : ℕ → Holding) (calls : List Call) (past : List history.Event) (waiting : ℕ → List Waiting) → Stays C.offers s held calls self.now past waiting → IsSome (parked_in self.now number) → result ≡ length (waiting number) }
    {
        match self.parked.requests.get(&number) {
            Some(parked) => count_going(&parked.waiters, &self.links),
            None => 0,
        }
    }

    /// The request that is parked under this number, if one is.
    pub fn parked(&self, number: u64) -> Option<Asked<'_>>
        ensures { option_map awaited_lent result ≡ parked_in self.now number }
    {
        let pending = &self.parked.requests.get(&number)?.pending;
        Some(Asked {
            number: pending.number,
            connection: pending.connection,
            ft_request: lent(&pending.waiting.retained),
            object_key: &pending.waiting.object_key,
            operation: &pending.waiting.operation,
            arguments: &pending.waiting.arguments,
            refused: pending.waiting.refused,
        })
    }

    /// Whether an outcome can be that of the request that is parked under this number: it has none yet, and the outcome can be
    /// sent, and is one of its operation as that is on offer now. Whatever is on offer a system exception may be it, and a raw
    /// outcome, the stored form of any: its types are not looked at (`can_answer`).
    pub fn can_settle(&self, number: u64, outcome: &Outcome) -> bool
        ensures { IsTrue result ↔ CanSettle (C.offers self.now.offering.catalogue) (parked_at self.now number) (performed_in outcome.now) }
    {
        let Some(parked) = self.parked.requests.get(&number) else {
            return false;
        };
        let waiting = &parked.pending.waiting;
        let catalogue = &self.offering.catalogue;
        parked.outcome.is_none()
            && may_answer(catalogue, &waiting.object_key, &waiting.operation, outcome)
    }

    /// Parks the request of this number, which waits (`is_open`): its outcome comes later, by `settle`, and the engine goes
    /// on. An error leaves it waiting.
    pub fn park(&mut self, number: u64) -> Result<(), ParkError>
        requires open { IsOpen number (waits_in self.old) }
        ensures late { (s : Settings) (held : ℕ → Holding) (calls : List Call) (past : List history.Event) (waiting : ℕ → List Waiting) (moment : ℕ) (octets written : List ℕ) (w : Awaited) → (a : AsksLate C.offers s held calls self.old past waiting moment octets written w)
            → OnOk result (ResumesLate C.offers s (put_at (length calls) (parked w.number) held) (calls ++ w.call ∷ []) past (put_at w.number (own_of w.connection a.asks.question) waiting) w.connection moment octets written Done self.new [] []) }
        // .. and where it is not parked it waits on
        ensures kept { (s : Settings) (held : ℕ → Holding) (calls : List Call) (past : List history.Event) (waiting : ℕ → List Waiting) (moment : ℕ) (octets written : List ℕ) (w : Awaited) → AsksLate C.offers s held calls self.old past waiting moment octets written w
            → OnErr result (AsksLate C.offers s held calls self.new past waiting moment octets written w) }
        ensures parked { OnOk result ((parked_in self.new number ≡ waits_in self.old) × (told_in self.new number ≡ None)) }
        ensures others { OnOk result ((q : ℕ) → (q == number) ≡ false → (parked_in self.new q ≡ parked_in self.old q) × (told_in self.new q ≡ told_in self.old q)) }
        ensures full { (result ≡ Err Full) ↔ (places_of self.old ≤ parked_count self.old) }
        ensures share { (result ≡ Err Share) ↔ ((parked_count self.old < places_of self.old) × IfSome (waits_in self.old) (λ w. places_of_one self.old ≤ parked_of self.old w.connection)) }
        ensures unchanged { (result ≡ Err Full) ⊎ (result ≡ Err Share) → self.new ≡ self.old }
        ensures idle { OnOk result (waits_in self.new ≡ None) }
        ensures err { OnErr result ((waits_in self.new ≡ waits_in self.old) × AreParked self.old self.new) }
        ensures asks { asks_in self.new ≡ asks_in self.old }
        ensures catalogue { self.new.offering ≡ self.old.offering }
        ensures counted { OnOk result (counts_in self.new ≡ record (counts_in self.old) { parked = one_more (counts_in self.old).parked }) }
        ensures uncounted { OnErr result (counts_in self.new ≡ counts_in self.old) }
        ensures handled { OnErr result (handled_in self.new ≡ handled_in self.old) }
        ensures ended { AreEndings self.old self.new }
    {
        giop_link::laws::streams_are_heard::<giop_link::Server>();
        if self.parked.requests.len() >= self.places.parked as usize {
            return Err(ParkError::Full);
        }
        let Some(ask) = self.asking else {
            return Ok(());
        };
        if self.parked.count_of(ask.connection) >= self.places.of_one {
            return Err(ParkError::Share);
        }
        let alloc = self.keeper.alloc;
        let Ok(own) = copy_of(alloc, &self.keeper.slot.retained) else {
            return Err(ParkError::Memory);
        };
        let Ok(waiters) = own_waiter(alloc, ask.connection, self.keeper.slot.asker) else {
            return Err(ParkError::Memory);
        };
        self.asking = None;
        let pending = Pending {
            number: ask.number,
            connection: ask.connection,
            waiting: mem::replace(&mut self.keeper.slot, keeper::Waiting::none(alloc)),
            place: ask.place,
        };
        let parked = Parked {
            pending,
            waiters,
            outcome: None,
        };
        if let Err(parked) = self.parked.put(number, parked) {
            self.keeper.slot = parked.pending.waiting;
            self.asking = Some(ask);
            return Err(ParkError::Memory);
        }
        self.keeper.keep_parked(own, number);
        count(&mut self.keeper.counts.parked);
        Ok(())
    }

    /// Takes the outcome of the request that is parked under this number, as `can_settle` tests: `due` and `reply` tell it
    /// to all who wait for it.
    pub fn settle(&mut self, number: u64, outcome: Outcome)
        requires idle { waits_in self.old ≡ None }
        requires can { CanSettle (C.offers self.old.offering.catalogue) (parked_at self.old number) (performed_in outcome) }
        ensures late { (s : Settings) (held : ℕ → Holding) (calls : List Call) (past : List history.Event) (waiting : ℕ → List Waiting) → Stays C.offers s held calls self.old past waiting → Stays C.offers s held calls self.new past waiting }
        ensures told { told_in self.new number ≡ Some (performed_in outcome) }
        ensures others { (q : ℕ) → (q == number) ≡ false → told_in self.new q ≡ told_in self.old q }
        ensures left { (q : ℕ) → left_in self.new q ≡ left_in self.old q }
        ensures parked { (q : ℕ) → parked_in self.new q ≡ parked_in self.old q }
        ensures waits { waits_in self.new ≡ waits_in self.old }
        ensures asks { asks_in self.new ≡ asks_in self.old }
        ensures catalogue { self.new.offering ≡ self.old.offering }
        ensures counted { counts_in self.new ≡ record (counts_in self.old) { settled = one_more (counts_in self.old).settled } }
        ensures ended { AreEndings self.old self.new }
    {
        if let Some(parked) = self.parked.requests.get_mut(&number) {
            // (an assignment would let the old one go by a branch for each kind of value)
            drop(mem::replace(&mut parked.outcome, Some(outcome)));
            count(&mut self.keeper.counts.settled);
        }
    }

    /// The connection on which the next reply is due for the request that is parked under this number, once it has its
    /// outcome. Where none is left the outcome is kept, if it is to be, and nothing is parked under the number any more.
    pub fn due(&mut self, number: u64) -> Option<u64>
        requires idle { waits_in self.old ≡ None }
        ensures late { (s : Settings) (held : ℕ → Holding) (calls : List Call) (past : List history.Event) (waiting : ℕ → List Waiting) → Stays C.offers s held calls self.old past waiting
            → IsDueLate C.offers s held calls past waiting number (told_in self.old number) result self.new }
        ensures parked { IfSome result (λ c. AreParked self.old self.new) }
        ensures others { (q : ℕ) → (q == number) ≡ false → (parked_in self.new q ≡ parked_in self.old q) × (told_in self.new q ≡ told_in self.old q) }
        ensures left { IfSome result (λ c. IsSome (told_in self.new number) × (0 < left_in self.new number) × (left_in self.new number ≤ left_in self.old number)) }
        ensures early { told_in self.old number ≡ None → (result ≡ None) × AreParked self.old self.new }
        ensures done { IsSome (told_in self.old number) → result ≡ None → parked_in self.new number ≡ None }
        // that of who is told next, who stays so
        ensures next { IsSome (told_in self.old number) → result ≡ due_on self.old number }
        ensures stays { IfSome result (λ c. next_in self.new number ≡ next_in self.old number) }
        ensures waits { waits_in self.new ≡ waits_in self.old }
        ensures asks { asks_in self.new ≡ asks_in self.old }
        ensures catalogue { self.new.offering ≡ self.old.offering }
        ensures counts { counts_in self.new ≡ counts_in self.old }
        ensures ended { AreEndings self.old self.new }
    {
        let parked = self.parked.requests.get_mut(&number)?;
        if parked.outcome.is_none() {
            return None;
        }
        parked.clear(&self.links);
        if let Some(first) = parked.waiters.front() {
            return Some(first.connection);
        }
        let parked = self.parked.take(number)?;
        let told = parked.outcome;
        let Some(outcome) = told else {
            return None;
        };
        let pending = parked.pending;
        let mut waiting = pending.waiting;
        let retained = waiting.retained.take();
        self.keeper.fill(retained, number, outcome);
        let_go(&mut waiting.arguments);
        self.keeper.slot = waiting; // the next request is put into its vectors
        None
    }

    /// Appends the reply that is due for this number: that to who is told next (`next_in`), on the connection that `due` gives
    /// (`due_on`). Whoever calls anything in between, as `lost`, asks `due` again. Where an allocation fails the connection
    /// is lost.
    pub fn reply(&mut self, number: u64, out: &mut Vec<u8>) -> Result<(), ServeError>
        requires idle { waits_in self.old ≡ None }
        // what goes out is what who is told next is told ..
        ensures sent { out.new.items ≡ out.old.items ++ unless_failed result (reply_if [] (due_in self.old number) (told_in self.old number)) }
        // .. after which these wait
        ensures late { (s : Settings) (held : ℕ → Holding) (calls : List Call) (past : List history.Event) (waiting : ℕ → List Waiting) (outcome : Performed) (w : Waiting) (rest : List Waiting) → Stays C.offers s held calls self.old past waiting
            → told_in self.old number ≡ Some outcome → waiting number ≡ w ∷ rest → RepliesLate C.offers s held calls past waiting number outcome w rest result self.new out.old.items out.new.items }
        // .. and where none is due nothing is done
        ensures nothing { (s : Settings) (held : ℕ → Holding) (calls : List Call) (past : List history.Event) (waiting : ℕ → List Waiting) → Stays C.offers s held calls self.old past waiting → (told_in self.old number ≡ None) ⊎ (waiting number ≡ [])
            → IsOk result × (out.new.items ≡ out.old.items) × Stays C.offers s held calls self.new past waiting }
        ensures parked { AreParked self.old self.new }
        ensures fewer { IsSome (told_in self.old number) → 0 < left_in self.old number → left_in self.new number < left_in self.old number }
        ensures waits { waits_in self.new ≡ waits_in self.old }
        ensures asks { asks_in self.new ≡ asks_in self.old }
        ensures catalogue { self.new.offering ≡ self.old.offering }
        ensures counts { counts_in self.new ≡ counts_in self.old }
        ensures ended { OnOk result (AreEndings self.old self.new) }
        ensures short { (s : Settings) (held : ℕ → Holding) (calls : List Call) (past : List history.Event) (waiting : ℕ → List Waiting) (w : Waiting) (rest : List Waiting) → Stays C.offers s held calls self.old past waiting
            → waiting number ≡ w ∷ rest → IfErr result (λ e. EndsShort self.old self.new w.connection e) }
    {
        self.reply_with(number, &[], out)
    }

    /// Whether the reply that is due for what is parked under this number can carry these service contexts: they take at most
    /// 1,048,576 octets, and the octets of a raw outcome stand behind them at a place divisible by 8, which only a Reply
    /// of 1.0 or 1.1 can miss (CDR 9.3.1). Where no reply goes out any contexts will do.
    pub fn can_reply_with(&self, number: u64, contexts: &[(u32, &[u8])]) -> bool
        ensures { IsTrue result ↔ CanCarry (map item_at contexts.now) (due_in self.now number) (told_in self.now number) }
    {
        let Some(parked) = self.parked.requests.get(&number) else {
            return true;
        };
        match (parked.first_going(&self.links), &parked.outcome) {
            (Some(first), Some(outcome)) => can_carry(contexts, first.asker, outcome),
            _ => true,
        }
    }

    /// Appends the reply that is due for this number on the connection that `due` gives, as `reply` does, and it carries these
    /// service contexts in their order (GIOP 9.4.3), as `can_reply_with` tests. They are those of this reply alone: others
    /// who wait for the outcome, and who ask again, are told it without them.
    pub fn reply_with(
        &mut self,
        number: u64,
        contexts: &[(u32, &[u8])],
        out: &mut Vec<u8>,
    ) -> Result<(), ServeError>
        requires idle { waits_in self.old ≡ None }
        requires carries { CanCarry (map item_at contexts.now) (due_in self.old number) (told_in self.old number) }
        // what goes out carries the contexts ..
        ensures sent { out.new.items ≡ out.old.items ++ unless_failed result (reply_if (map item_at contexts.now) (due_in self.old number) (told_in self.old number)) }
        // .. and for the rest as `reply`, as if it carried none
        ensures late { (s : Settings) (held : ℕ → Holding) (calls : List Call) (past : List history.Event) (waiting : ℕ → List Waiting) (outcome : Performed) (w : Waiting) (rest : List Waiting) → Stays C.offers s held calls self.old past waiting
            → told_in self.old number ≡ Some outcome → waiting number ≡ w ∷ rest → RepliesLate C.offers s held calls past waiting number outcome w rest result self.new out.old.items (out.old.items ++ unless_failed result (reply_if [] (due_in self.old number) (told_in self.old number))) }
        // .. and where none is due nothing is done
        ensures nothing { (s : Settings) (held : ℕ → Holding) (calls : List Call) (past : List history.Event) (waiting : ℕ → List Waiting) → Stays C.offers s held calls self.old past waiting → (told_in self.old number ≡ None) ⊎ (waiting number ≡ [])
            → IsOk result × (out.new.items ≡ out.old.items) × Stays C.offers s held calls self.new past waiting }
        ensures parked { AreParked self.old self.new }
        ensures fewer { IsSome (told_in self.old number) → 0 < left_in self.old number → left_in self.new number < left_in self.old number }
        ensures waits { waits_in self.new ≡ waits_in self.old }
        ensures asks { asks_in self.new ≡ asks_in self.old }
        ensures catalogue { self.new.offering ≡ self.old.offering }
        ensures counts { counts_in self.new ≡ counts_in self.old }
        ensures ended { OnOk result (AreEndings self.old self.new) }
        ensures short { (s : Settings) (held : ℕ → Holding) (calls : List Call) (past : List history.Event) (waiting : ℕ → List Waiting) (w : Waiting) (rest : List Waiting) → Stays C.offers s held calls self.old past waiting
            → waiting number ≡ w ∷ rest → IfErr result (λ e. EndsShort self.old self.new w.connection e) }
    {
        giop_link::laws::streams_are_heard::<giop_link::Server>();
        let Some(parked) = self.parked.requests.get_mut(&number) else {
            return Ok(());
        };
        parked.clear(&self.links);
        let Some(outcome) = &parked.outcome else {
            return Ok(());
        };
        let Some(first) = parked.waiters.pop_front() else {
            return Ok(());
        };
        if let Step::Answered = first.asker.answer_with(outcome, contexts, out) {
            return Ok(());
        }
        end_link(
            &mut self.links,
            &mut self.keeper.ended,
            first.connection,
            Ending::Memory,
        );
        Err(ServeError::Memory {
            handled: 0,
            answered: 0,
        })
    }

    /// While requests are parked too, the calls taken are those of the distinct admissible requests, each once, in the order
    /// of their first arrivals, where none is declined.
    pub fn calls_are_taken_once(&self)
        ensures { (s : Settings) (held : ℕ → Holding) (calls : List Call) (past : List history.Event) (waiting : ℕ → List Waiting) → Stays C.offers s held calls self.now past waiting → KeepsAll past → OneExpiration (arrivals s.limits past)
            → calls ≡ state_of (owned_rules (by_number s held)) [] (arrivals s.limits past) }
    {}

    /// .. and those that are performed with each key by itself, whatever expirations requests carry.
    pub fn calls_are_taken_now(&self)
        ensures { (s : Settings) (held : ℕ → Holding) (calls : List Call) (past : List history.Event) (waiting : ℕ → List Waiting) → Stays C.offers s held calls self.now past waiting → KeepsAll past
            → calls ≡ state_after (owned_rules (by_number s held)) [] (performed_now (owned_rules (by_number s held)) (arrivals s.limits past)) }
    {}

    /// .. and, also where some were declined, those of the requests for which there was room beside what stood when they came.
    pub fn calls_stand(&self)
        ensures { (s : Settings) (held : ℕ → Holding) (calls : List Call) (past : List history.Event) (waiting : ℕ → List Waiting) → Stays C.offers s held calls self.now past waiting → calls ≡ (standing s past).calls }
    {}
}
