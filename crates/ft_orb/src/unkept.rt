//! Outcomes that are told, and of which an engine keeps nothing.

ghost use Rattle.std.specs.Prelude.{◌≡◌, ◌==◌, ◌+◌, ◌<◌, [], ℕ, List, None, Some, IfErr, OnErr, OnOk, false, length};
ghost use Rattle.std.specs.Option.{option_map};
ghost use Rattle.ft_log.specs.View.{performed_in};
ghost use Rattle.ft_objects.specs.Replies.{IsRenderable};
ghost use Rattle.ft_orb.specs.Decisions.{answered_unkept, settled_unkept};
ghost use Rattle.ft_orb.specs.History as history;
ghost use Rattle.ft_orb.specs.History.{completed};
ghost use Rattle.ft_orb.specs.Requests.{Call};

use crate::counts::{Counts, count};
use crate::desk::Step;
use crate::ending::{Ending, end_link};
use crate::engine::Engine;
use crate::error::ServeError;
use ft_log::Outcome;
use ft_objects::Catalogue;

/// What an outcome is of which an engine keeps nothing.
#[derive(Clone, Copy, Debug)]
pub enum Unkept {
    /// The request was performed, and its owner keeps the outcome.
    Performed,
    /// The request is refused for now.
    Refusal,
}

impl Unkept {
    /// Counts a request that waited.
    fn count_answered(self, counts: &mut Counts)
        ensures { counts.new ≡ answered_unkept self counts.old }
    {
        match self {
            Unkept::Performed => count(&mut counts.answered),
            Unkept::Refusal => count(&mut counts.declined),
        }
    }

    /// .. or was parked.
    fn count_settled(self, counts: &mut Counts)
        ensures { counts.new ≡ settled_unkept self counts.old }
    {
        match self {
            Unkept::Performed => count(&mut counts.settled),
            Unkept::Refusal => count(&mut counts.withdrawn),
        }
    }
}

impl<C: Catalogue + Drop> Engine<C> {
    ghost use Rattle.ft_orb.specs.Deeds.{reply_to};
    ghost use Rattle.ft_orb.specs.Engines.{AreEndings, Awaited, EndsLast, IsOpen, asks_in, counts_in, handled_in, waits_in};
    ghost use Rattle.ft_orb.specs.Parking.{AreParked, AsksLate, CanSettle, DeclinesLate, ResumesLate, Settings, Stays, WithdrawsLate, keyless, left_in, others_under, parked_at, parked_in, told_in, waiter_of};
    ghost use Rattle.ft_orb.specs.declared.ending.Ending.TheVariants.{Memory as OutOfMemory};
    ghost use Rattle.ft_orb.specs.declared.error.ServeError.TheVariants.{Memory as Short};
    ghost use Rattle.ft_orb.specs.declared.events.Note.TheVariants.{Memory};
    ghost use Rattle.ft_orb.specs.declared.parked.Waiter.{Waiter};
    ghost use Rattle.ft_log.specs.Holding.{Holding};

    /// Tells an outcome to the request of this number, which waits (`is_open`), and keeps nothing: appends the answer, where
    /// one is wished for. Its room is free, and its connection stays. Where the request comes again its owner is asked again,
    /// and answers by what it has kept. So an owner whose store outlives the engine fills no log, and answers what the owner
    /// of another engine has performed.
    ///
    /// Where an allocation fails the request is given up.
    pub fn tell(
        &mut self,
        number: u64,
        outcome: &Outcome,
        unkept: Unkept,
        out: &mut Vec<u8>,
    ) -> Result<(), ServeError>
        requires open { IsOpen number (waits_in self.old) }
        requires renderable { IsRenderable (performed_in outcome.now) }
        ensures late { OnOk result ((s : Settings) (held : ℕ → Holding) (calls : List Call) (past : List history.Event) (waiting : ℕ → List Waiter) (moment : ℕ) (octets written : List ℕ) (w : Awaited) → AsksLate C.offers s held calls self.old past waiting moment octets written w
            → DeclinesLate C.offers s held calls past waiting moment octets written w (performed_in outcome.now) self.new out.old.items out.new.items) }
        // .. or it is given up
        ensures given_up { OnErr result ((s : Settings) (held : ℕ → Holding) (calls : List Call) (past : List history.Event) (waiting : ℕ → List Waiter) (moment : ℕ) (octets written : List ℕ) (w : Awaited) → AsksLate C.offers s held calls self.old past waiting moment octets written w
            → ResumesLate C.offers s held calls past waiting w.connection moment octets written (Memory (handled_in self.old) (handled_in self.old)) self.new [] []) }
        ensures err { IfErr result (λ e. e ≡ Short (handled_in self.old) (handled_in self.old)) }
        // which takes no memory where no answer is wished for
        ensures due { OnErr result ((s : Settings) (held : ℕ → Holding) (calls : List Call) (past : List history.Event) (waiting : ℕ → List Waiter) (moment : ℕ) (octets written : List ℕ) (w : Awaited) (a : AsksLate C.offers s held calls self.old past waiting moment octets written w)
            → 0 < length (reply_to (performed_in outcome.now) (waiter_of w.connection a.asks.question))) }
        ensures counts { OnErr result ((s : Settings) (held : ℕ → Holding) (calls : List Call) (past : List history.Event) (waiting : ℕ → List Waiter) (moment : ℕ) (octets written : List ℕ) (w : Awaited) → AsksLate C.offers s held calls self.old past waiting moment octets written w
            → handled_in self.old + 1 ≡ length (completed s.limits past (history.Piece w.connection moment octets))) }
        ensures unwritten { OnErr result (out.new.items ≡ out.old.items) }
        ensures idle { waits_in self.new ≡ None }
        ensures asks { asks_in self.new ≡ asks_in self.old }
        ensures parked { AreParked self.old self.new }
        ensures waiting { (w : Awaited) → waits_in self.old ≡ Some w → (q : ℕ) → others_under self.new w.connection q ≡ others_under self.old w.connection q }
        ensures catalogue { self.new.offering ≡ self.old.offering }
        ensures counted { counts_in self.new ≡ answered_unkept unkept (counts_in self.old) }
        ensures ended { OnOk result (AreEndings self.old self.new) }
        ensures short { (w : Awaited) → waits_in self.old ≡ Some w → OnErr result (EndsLast self.new w.connection OutOfMemory) }
    {
        giop_link::laws::streams_are_heard::<giop_link::Server>();
        let Some(ask) = self.asking.take() else {
            return Ok(());
        };
        unkept.count_answered(&mut self.keeper.counts);
        if let Step::Answered = self.keeper.tell(outcome, out) {
            return Ok(());
        }
        end_link(
            &mut self.links,
            &mut self.keeper.ended,
            ask.connection,
            Ending::Memory,
        );
        Err(ServeError::Memory {
            handled: ask.place.handled,
            answered: ask.place.handled,
        })
    }

    /// Takes an outcome for the request that is parked under this number, as `can_settle` tests: `due` and `reply` tell it to
    /// all who wait, and nothing is kept. Its room in what is kept and its key are free at once: where the request comes
    /// again its owner is asked again. Its place among those that are parked is free once all were told.
    pub fn tell_parked(&mut self, number: u64, outcome: Outcome, unkept: Unkept)
        requires idle { waits_in self.old ≡ None }
        requires can { CanSettle (C.offers self.old.offering.catalogue) (parked_at self.old number) (performed_in outcome) }
        ensures late { (s : Settings) (held : ℕ → Holding) (calls : List Call) (past : List history.Event) (waiting : ℕ → List Waiter) → Stays C.offers s held calls self.old past waiting → WithdrawsLate C.offers s held calls past waiting number self.new }
        ensures told { told_in self.new number ≡ Some (performed_in outcome) }
        ensures others { (q : ℕ) → (q == number) ≡ false → (parked_in self.new q ≡ parked_in self.old q) × (told_in self.new q ≡ told_in self.old q) }
        ensures parked { parked_in self.new number ≡ option_map keyless (parked_in self.old number) }
        ensures left { (q : ℕ) → left_in self.new q ≡ left_in self.old q }
        ensures waits { waits_in self.new ≡ waits_in self.old }
        ensures asks { asks_in self.new ≡ asks_in self.old }
        ensures catalogue { self.new.offering ≡ self.old.offering }
        ensures counted { counts_in self.new ≡ settled_unkept unkept (counts_in self.old) }
        ensures ended { AreEndings self.old self.new }
    {
        if let Some(parked) = self.parked.requests.get_mut(&number) {
            let retained = parked.pending.waiting.retained.take();
            parked.outcome = Some(outcome);
            self.keeper.withdraw(retained, number);
            unkept.count_settled(&mut self.keeper.counts);
        }
    }
}
