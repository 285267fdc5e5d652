//! Requests that are declined: "not now", of which nothing is kept.

ghost use Rattle.std.specs.Prelude.{◌≡◌, ◌≢◌, ◌==◌, ◌↔◌, ◌+◌, ◌++◌, ◌<◌, [], ℕ, List, None, Some, Err, IfErr, IfOk, OnErr, OnOk, false, length};
ghost use Rattle.std.specs.Option.{option_map};
ghost use Rattle.ft_orb.specs.History as history;
ghost use Rattle.ft_orb.specs.History.{completed};
ghost use Rattle.ft_orb.specs.Owners.{Owner};
ghost use Rattle.ft_orb.specs.Requests.{Call};

use crate::engine::Engine;
use crate::error::{CloseError, ServeError};
use crate::unkept::Unkept;
use ft_log::{Completion, Outcome, SystemName};
use ft_objects::Catalogue;
use giop_core::write_close;

impl<C: Catalogue + Drop> Engine<C> {
    ghost use Rattle.ft_orb.specs.Decisions.{one_more};
    ghost use Rattle.ft_orb.specs.Engines.{AreEndings, Asks, Awaited, EndsLast, IsOpen, Resumes, ResumesOnce, asks_in, counts_in, handled_in, waits_in};
    ghost use Rattle.ft_orb.specs.Deeds.{reply_to};
    ghost use Rattle.ft_orb.specs.EnginesNow.{ResumesNow};
    ghost use Rattle.ft_orb.specs.Parking.{AreParked, AsksLate, CanSettle, DeclinesLate, ResumesLate, Settings, Stays, WithdrawsLate, keyless, left_in, not_now, others_under, parked_at, parked_in, told_in, waiter_of, waits_on};
    ghost use Rattle.ft_orb.specs.declared.ending.Ending.TheVariants.{GivenUp, Memory as OutOfMemory};
    ghost use Rattle.ft_orb.specs.declared.error.CloseError.TheVariants.{NoConnection, Waits};
    ghost use Rattle.ft_orb.specs.declared.error.ServeError.TheVariants.{Memory as Short};
    ghost use Rattle.ft_orb.specs.declared.events.Note.TheVariants.{Memory};
    ghost use Rattle.ft_orb.specs.declared.parked.Waiter.{Waiter};
    ghost use Rattle.ft_log.specs.Holding.{Holding};
    ghost use Rattle.giop_link.specs.Linking.{close_connection};

    /// Declines the request of this number, which waits (`is_open`): appends a system exception with COMPLETED_NO, where an
    /// answer is wished for, and keeps nothing. Its room is free, and its connection stays. Its owner has done nothing for
    /// it, and is asked again where it comes again.
    ///
    /// COMPLETED_NO speaks of the past, and of what is kept of it: a request whose key came before with an expiration that has
    /// passed may have acted then. And until the key expires another transmission of the request may still act. An owner
    /// whose refusal has to be final answers with an outcome, which is kept.
    ///
    /// Where an allocation fails the request is given up.
    pub fn decline(
        &mut self,
        number: u64,
        name: SystemName,
        minor: u32,
        out: &mut Vec<u8>,
    ) -> Result<(), ServeError>
        requires open { IsOpen number (waits_in self.old) }
        ensures late { OnOk result ((s : Settings) (held : ℕ → Holding) (calls : List Call) (past : List history.Event) (waiting : ℕ → List Waiter) (moment : ℕ) (octets written : List ℕ) (w : Awaited) → AsksLate C.offers s held calls self.old past waiting moment octets written w
            → DeclinesLate C.offers s held calls past waiting moment octets written w (not_now name minor) self.new out.old.items out.new.items) }
        // .. or it is given up
        ensures given_up { OnErr result ((s : Settings) (held : ℕ → Holding) (calls : List Call) (past : List history.Event) (waiting : ℕ → List Waiter) (moment : ℕ) (octets written : List ℕ) (w : Awaited) → AsksLate C.offers s held calls self.old past waiting moment octets written w
            → ResumesLate C.offers s held calls past waiting w.connection moment octets written (Memory (handled_in self.old) (handled_in self.old)) self.new [] []) }
        ensures err { IfErr result (λ e. e ≡ Short (handled_in self.old) (handled_in self.old)) }
        // which takes no memory where no answer is wished for
        ensures due { OnErr result ((s : Settings) (held : ℕ → Holding) (calls : List Call) (past : List history.Event) (waiting : ℕ → List Waiter) (moment : ℕ) (octets written : List ℕ) (w : Awaited) (a : AsksLate C.offers s held calls self.old past waiting moment octets written w)
            → 0 < length (reply_to (not_now name minor) (waiter_of w.connection a.asks.question))) }
        ensures counts { OnErr result ((s : Settings) (held : ℕ → Holding) (calls : List Call) (past : List history.Event) (waiting : ℕ → List Waiter) (moment : ℕ) (octets written : List ℕ) (w : Awaited) → AsksLate C.offers s held calls self.old past waiting moment octets written w
            → handled_in self.old + 1 ≡ length (completed s.limits past (history.Piece w.connection moment octets))) }
        ensures unwritten { OnErr result (out.new.items ≡ out.old.items) }
        ensures idle { waits_in self.new ≡ None }
        ensures asks { asks_in self.new ≡ asks_in self.old }
        ensures parked { AreParked self.old self.new }
        ensures waiting { (w : Awaited) → waits_in self.old ≡ Some w → (q : ℕ) → others_under self.new w.connection q ≡ others_under self.old w.connection q }
        ensures catalogue { self.new.offering ≡ self.old.offering }
        ensures counted { counts_in self.new ≡ record (counts_in self.old) { declined = one_more (counts_in self.old).declined } }
        ensures ended { OnOk result (AreEndings self.old self.new) }
        ensures short { (w : Awaited) → waits_in self.old ≡ Some w → OnErr result (EndsLast self.new w.connection OutOfMemory) }
    {
        let outcome = Outcome::System(name, minor, Completion::No);
        self.tell(number, &outcome, Unkept::Refusal, out)
    }

    /// Declines the request that is parked under this number, as `can_settle` tests of that system exception with
    /// COMPLETED_NO, whatever is on offer: `due` and `reply` tell it to all who wait, and nothing is kept. Its room in what is
    /// kept and its key are free at once: a repeat that comes from now on is judged anew. Its place among those that are
    /// parked is free once all were told. What `decline` says of COMPLETED_NO holds here too.
    pub fn withdraw(&mut self, number: u64, name: SystemName, minor: u32)
        requires idle { waits_in self.old ≡ None }
        requires can { CanSettle (C.offers self.old.offering.catalogue) (parked_at self.old number) (not_now name minor) }
        ensures late { (s : Settings) (held : ℕ → Holding) (calls : List Call) (past : List history.Event) (waiting : ℕ → List Waiter) → Stays C.offers s held calls self.old past waiting → WithdrawsLate C.offers s held calls past waiting number self.new }
        ensures told { told_in self.new number ≡ Some (not_now name minor) }
        ensures others { (q : ℕ) → (q == number) ≡ false → (parked_in self.new q ≡ parked_in self.old q) × (told_in self.new q ≡ told_in self.old q) }
        ensures parked { parked_in self.new number ≡ option_map keyless (parked_in self.old number) }
        ensures left { (q : ℕ) → left_in self.new q ≡ left_in self.old q }
        ensures waits { waits_in self.new ≡ waits_in self.old }
        ensures asks { asks_in self.new ≡ asks_in self.old }
        ensures catalogue { self.new.offering ≡ self.old.offering }
        ensures counted { counts_in self.new ≡ record (counts_in self.old) { withdrawn = one_more (counts_in self.old).withdrawn } }
        ensures ended { AreEndings self.old self.new }
    {
        let outcome = Outcome::System(name, minor, Completion::No);
        self.tell_parked(number, outcome, Unkept::Refusal);
    }

    /// Gives up the request of this number, which waits (`is_open`), as `give_up` does, and says goodbye first: appends
    /// CloseConnection (GIOP 9.4.7), by which its client takes this request, and what it sent after it, as not processed. It
    /// may send them again at once, on a new connection: so this is for draining and restarts, and for no outage that
    /// lasts. Its owner has done nothing for the request. Gives what `give_up` gives.
    ///
    /// On an error nothing has changed, and the request waits still: somebody waits on its connection for the outcome of a
    /// request that is parked, or an allocation failed.
    pub fn goodbye(&mut self, number: u64, out: &mut Vec<u8>) -> Result<u64, CloseError>
        requires open { IsOpen number (waits_in self.old) }
        ensures closed { OnOk result (out.new.items ≡ out.old.items ++ close_connection) }
        // .. and for the rest as `give_up`
        ensures table { (owner : Owner) (calls : List Call) (past : List history.Event) (moment : ℕ) (octets written : List ℕ) (w : Awaited) → Asks C.offers owner calls self.old past moment octets written w
            → IfOk result (λ handled. Resumes C.offers owner calls past w.connection moment octets written (Memory handled handled) self.new [] []) }
        ensures once { (owner : Owner) (calls : List Call) (past : List history.Event) (moment : ℕ) (octets written : List ℕ) (w : Awaited) → Asks C.offers owner calls self.old past moment octets written w
            → IfOk result (λ handled. ResumesOnce C.offers owner calls past w.connection moment octets written (Memory handled handled) [] []) }
        ensures now { (owner : Owner) (calls : List Call) (past : List history.Event) (moment : ℕ) (octets written : List ℕ) (w : Awaited) → Asks C.offers owner calls self.old past moment octets written w
            → IfOk result (λ handled. ResumesNow owner calls past w.connection moment octets written (Memory handled handled) [] []) }
        // while requests are parked
        ensures counts { (s : Settings) (held : ℕ → Holding) (calls : List Call) (past : List history.Event) (waiting : ℕ → List Waiter) (moment : ℕ) (octets written : List ℕ) (w : Awaited) → AsksLate C.offers s held calls self.old past waiting moment octets written w
            → IfOk result (λ handled. handled + 1 ≡ length (completed s.limits past (history.Piece w.connection moment octets))) }
        ensures late { (s : Settings) (held : ℕ → Holding) (calls : List Call) (past : List history.Event) (waiting : ℕ → List Waiter) (moment : ℕ) (octets written : List ℕ) (w : Awaited) → AsksLate C.offers s held calls self.old past waiting moment octets written w
            → IfOk result (λ handled. ResumesLate C.offers s held calls past waiting w.connection moment octets written (Memory handled handled) self.new [] []) }
        ensures handled { IfOk result (λ handled. handled ≡ handled_in self.old) }
        ensures waits { (w : Awaited) → waits_in self.old ≡ Some w → (result ≡ Err Waits) ↔ (0 < waits_on self.old w.connection) }
        ensures there { result ≢ Err NoConnection }
        ensures unchanged { OnErr result ((self.new ≡ self.old) × (out.new.items ≡ out.old.items)) }
        ensures idle { OnOk result (waits_in self.new ≡ None) }
        ensures asks { asks_in self.new ≡ asks_in self.old }
        ensures parked { AreParked self.old self.new }
        ensures waiting { (w : Awaited) → waits_in self.old ≡ Some w → (q : ℕ) → others_under self.new w.connection q ≡ others_under self.old w.connection q }
        ensures catalogue { self.new.offering ≡ self.old.offering }
        ensures counted { OnOk result (counts_in self.new ≡ record (counts_in self.old) { given_up = one_more (counts_in self.old).given_up }) }
        ensures ended { (w : Awaited) → waits_in self.old ≡ Some w → OnOk result (EndsLast self.new w.connection GivenUp) }
    {
        let Some(ask) = self.asking else {
            return Ok(0);
        };
        if self.waits_on(ask.connection) > 0 {
            return Err(CloseError::Waits);
        }
        if write_close(out).is_err() {
            return Err(CloseError::Memory);
        }
        Ok(self.give_up(number))
    }
}
