//! What waits in an engine has its outcome, or is given up.

ghost use Rattle.std.specs.Prelude.{◌≡◌, ◌+◌, ◌++◌, ◌∷◌, [], ℕ, List, None, Some, IfErr, OnOk, length, map};
ghost use Rattle.giop_core.specs.Items.{item_at};
ghost use Rattle.ft_log.specs.View.{performed_in};
ghost use Rattle.ft_orb.specs.History as history;
ghost use Rattle.ft_orb.specs.History.{completed};
ghost use Rattle.ft_orb.specs.Owners.{Owner};
ghost use Rattle.ft_orb.specs.Requests.{Call};

use crate::counts::count;
use crate::ending::{Ending, end_link};
use crate::engine::Engine;
use crate::error::ServeError;
use crate::serving::counted;
use ft_log::Outcome;
use ft_objects::Catalogue;

impl<C: Catalogue + Drop> Engine<C> {
    ghost use Rattle.ft_orb.specs.Carrying.{CanCarry, asker_in, reply_if, unless_failed};
    ghost use Rattle.ft_orb.specs.Decisions.{one_more};
    ghost use Rattle.ft_orb.specs.Engines.{AreEndings, Asks, Awaited, CanAnswer, EndsLast, EndsShort, IsOpen, Resumes, ResumesOnce, asks_in, counts_in, handled_in, waits_in};
    ghost use Rattle.ft_orb.specs.EnginesNow.{ResumesNow};
    ghost use Rattle.ft_orb.specs.Parking.{AreParked, AsksLate, ResumesLate, Settings, others_under, put_at};
    ghost use Rattle.ft_orb.specs.Standing.{note_of};
    ghost use Rattle.ft_orb.specs.declared.ending.Ending.TheVariants.{GivenUp};
    ghost use Rattle.ft_orb.specs.declared.error.ServeError.TheVariants.{Memory as Short};
    ghost use Rattle.ft_orb.specs.declared.events.Note.TheVariants.{Memory};
    ghost use Rattle.ft_orb.specs.declared.parked.Waiter.{Waiter};
    ghost use Rattle.ft_log.specs.Holding.{Holding, known};

    /// Gives up the request of this number, which waits (`is_open`), as where it can't be performed now: it does not count,
    /// nothing is kept for it, and its connection is lost. Gives how many requests and locates of its piece are answered.
    pub fn give_up(&mut self, number: u64) -> u64
        requires open { IsOpen number (waits_in self.old) }
        ensures table { (owner : Owner) (calls : List Call) (past : List history.Event) (moment : ℕ) (octets written : List ℕ) (w : Awaited) → Asks C.offers owner calls self.old past moment octets written w
            → Resumes C.offers owner calls past w.connection moment octets written (Memory result result) self.new [] [] }
        ensures once { (owner : Owner) (calls : List Call) (past : List history.Event) (moment : ℕ) (octets written : List ℕ) (w : Awaited) → Asks C.offers owner calls self.old past moment octets written w
            → ResumesOnce C.offers owner calls past w.connection moment octets written (Memory result result) [] [] }
        ensures now { (owner : Owner) (calls : List Call) (past : List history.Event) (moment : ℕ) (octets written : List ℕ) (w : Awaited) → Asks C.offers owner calls self.old past moment octets written w
            → ResumesNow owner calls past w.connection moment octets written (Memory result result) [] [] }
        ensures count { (owner : Owner) (calls : List Call) (past : List history.Event) (moment : ℕ) (octets written : List ℕ) (w : Awaited) → Asks C.offers owner calls self.old past moment octets written w
            → result + 1 ≡ length (completed owner.limits past (history.Piece w.connection moment octets)) }
        // while requests are parked
        ensures counts { (s : Settings) (held : ℕ → Holding) (calls : List Call) (past : List history.Event) (waiting : ℕ → List Waiter) (moment : ℕ) (octets written : List ℕ) (w : Awaited) → AsksLate C.offers s held calls self.old past waiting moment octets written w
            → result + 1 ≡ length (completed s.limits past (history.Piece w.connection moment octets)) }
        ensures late { (s : Settings) (held : ℕ → Holding) (calls : List Call) (past : List history.Event) (waiting : ℕ → List Waiter) (moment : ℕ) (octets written : List ℕ) (w : Awaited) → AsksLate C.offers s held calls self.old past waiting moment octets written w
            → ResumesLate C.offers s held calls past waiting w.connection moment octets written (Memory result result) self.new [] [] }
        ensures idle { waits_in self.new ≡ None }
        ensures asks { asks_in self.new ≡ asks_in self.old }
        ensures parked { AreParked self.old self.new }
        ensures waiting { (w : Awaited) → waits_in self.old ≡ Some w → (q : ℕ) → others_under self.new w.connection q ≡ others_under self.old w.connection q }
        ensures catalogue { self.new.offering ≡ self.old.offering }
        ensures counted { counts_in self.new ≡ record (counts_in self.old) { given_up = one_more (counts_in self.old).given_up } }
        ensures ended { (w : Awaited) → waits_in self.old ≡ Some w → EndsLast self.new w.connection GivenUp }
        ensures few { result ≡ handled_in self.old }
    {
        giop_link::laws::streams_are_heard::<giop_link::Server>();
        let Some(ask) = self.asking.take() else {
            return 0;
        };
        end_link(
            &mut self.links,
            &mut self.keeper.ended,
            ask.connection,
            Ending::GivenUp,
        );
        count(&mut self.keeper.counts.given_up);
        ask.place.handled
    }

    /// Takes the outcome of the request of this number, which waits, as `can_answer` tests: keeps it, if it is to be kept, and
    /// appends the answer. Where an allocation fails for the answer the outcome is kept all the same, and the
    /// connection is lost.
    #[inline(always)]
    pub fn answer(
        &mut self,
        number: u64,
        outcome: Outcome,
        out: &mut Vec<u8>,
    ) -> Result<(), ServeError>
        requires can { CanAnswer (C.offers self.old.offering.catalogue) (waits_in self.old) number (performed_in outcome) }
        ensures table { (owner : Owner) (calls : List Call) (past : List history.Event) (moment : ℕ) (octets written : List ℕ) (w : Awaited) → Asks C.offers owner calls self.old past moment octets written w
            → owner.answers calls w.call ≡ performed_in outcome
            → Resumes C.offers owner (calls ++ w.call ∷ []) past w.connection moment octets written (note_of result) self.new out.old.items out.new.items }
        // each distinct admissible request is answered once
        ensures once { (owner : Owner) (calls : List Call) (past : List history.Event) (moment : ℕ) (octets written : List ℕ) (w : Awaited) → Asks C.offers owner calls self.old past moment octets written w
            → owner.answers calls w.call ≡ performed_in outcome
            → ResumesOnce C.offers owner (calls ++ w.call ∷ []) past w.connection moment octets written (note_of result) out.old.items out.new.items }
        // each key by itself
        ensures now { (owner : Owner) (calls : List Call) (past : List history.Event) (moment : ℕ) (octets written : List ℕ) (w : Awaited) → Asks C.offers owner calls self.old past moment octets written w
            → owner.answers calls w.call ≡ performed_in outcome
            → ResumesNow owner (calls ++ w.call ∷ []) past w.connection moment octets written (note_of result) out.old.items out.new.items }
        // while requests are parked
        ensures late { (s : Settings) (held : ℕ → Holding) (calls : List Call) (past : List history.Event) (waiting : ℕ → List Waiter) (moment : ℕ) (octets written : List ℕ) (w : Awaited) → AsksLate C.offers s held calls self.old past waiting moment octets written w
            → ResumesLate C.offers s (put_at (length calls) (known (performed_in outcome)) held) (calls ++ w.call ∷ []) past waiting w.connection moment octets written (note_of result) self.new out.old.items out.new.items }
        ensures idle { waits_in self.new ≡ None }
        ensures asks { asks_in self.new ≡ asks_in self.old }
        ensures parked { AreParked self.old self.new }
        ensures waiting { (w : Awaited) → waits_in self.old ≡ Some w → (q : ℕ) → others_under self.new w.connection q ≡ others_under self.old w.connection q }
        ensures catalogue { self.new.offering ≡ self.old.offering }
        ensures counted { counts_in self.new ≡ record (counts_in self.old) { answered = one_more (counts_in self.old).answered } }
        ensures few { IfErr result (λ e. e ≡ Short (handled_in self.old + 1) (handled_in self.old)) }
        ensures ended { OnOk result (AreEndings self.old self.new) }
        ensures short { (w : Awaited) → waits_in self.old ≡ Some w → IfErr result (λ e. EndsShort self.old self.new w.connection e) }
    {
        self.answer_with(number, outcome, &[], out)
    }

    /// Takes the outcome of the request of this number, which waits, as `answer` does, and the Reply that it appends carries
    /// these service contexts in their order (GIOP 9.4.3), as `can_answer_with` tests. No contexts go out where no Reply is
    /// wished for. They are those of this Reply alone and are not kept: where the request comes again, the outcome is told
    /// without them.
    #[inline(always)]
    pub fn answer_with(
        &mut self,
        number: u64,
        outcome: Outcome,
        contexts: &[(u32, &[u8])],
        out: &mut Vec<u8>,
    ) -> Result<(), ServeError>
        requires can { CanAnswer (C.offers self.old.offering.catalogue) (waits_in self.old) number (performed_in outcome) }
        requires carries { CanCarry (map item_at contexts.now) (asker_in self.old) (Some (performed_in outcome)) }
        // what goes out carries the contexts ..
        ensures sent { out.new.items ≡ out.old.items ++ unless_failed result (reply_if (map item_at contexts.now) (asker_in self.old) (Some (performed_in outcome))) }
        // .. and for the rest as `answer`, as if it carried none
        ensures table { (owner : Owner) (calls : List Call) (past : List history.Event) (moment : ℕ) (octets written : List ℕ) (w : Awaited) → Asks C.offers owner calls self.old past moment octets written w
            → owner.answers calls w.call ≡ performed_in outcome
            → Resumes C.offers owner (calls ++ w.call ∷ []) past w.connection moment octets written (note_of result) self.new out.old.items (out.old.items ++ unless_failed result (reply_if [] (asker_in self.old) (Some (performed_in outcome)))) }
        // each distinct admissible request is answered once
        ensures once { (owner : Owner) (calls : List Call) (past : List history.Event) (moment : ℕ) (octets written : List ℕ) (w : Awaited) → Asks C.offers owner calls self.old past moment octets written w
            → owner.answers calls w.call ≡ performed_in outcome
            → ResumesOnce C.offers owner (calls ++ w.call ∷ []) past w.connection moment octets written (note_of result) out.old.items (out.old.items ++ unless_failed result (reply_if [] (asker_in self.old) (Some (performed_in outcome)))) }
        // each key by itself
        ensures now { (owner : Owner) (calls : List Call) (past : List history.Event) (moment : ℕ) (octets written : List ℕ) (w : Awaited) → Asks C.offers owner calls self.old past moment octets written w
            → owner.answers calls w.call ≡ performed_in outcome
            → ResumesNow owner (calls ++ w.call ∷ []) past w.connection moment octets written (note_of result) out.old.items (out.old.items ++ unless_failed result (reply_if [] (asker_in self.old) (Some (performed_in outcome)))) }
        // while requests are parked
        ensures late { (s : Settings) (held : ℕ → Holding) (calls : List Call) (past : List history.Event) (waiting : ℕ → List Waiter) (moment : ℕ) (octets written : List ℕ) (w : Awaited) → AsksLate C.offers s held calls self.old past waiting moment octets written w
            → ResumesLate C.offers s (put_at (length calls) (known (performed_in outcome)) held) (calls ++ w.call ∷ []) past waiting w.connection moment octets written (note_of result) self.new out.old.items (out.old.items ++ unless_failed result (reply_if [] (asker_in self.old) (Some (performed_in outcome)))) }
        ensures idle { waits_in self.new ≡ None }
        ensures asks { asks_in self.new ≡ asks_in self.old }
        ensures parked { AreParked self.old self.new }
        ensures waiting { (w : Awaited) → waits_in self.old ≡ Some w → (q : ℕ) → others_under self.new w.connection q ≡ others_under self.old w.connection q }
        ensures catalogue { self.new.offering ≡ self.old.offering }
        ensures counted { counts_in self.new ≡ record (counts_in self.old) { answered = one_more (counts_in self.old).answered } }
        ensures few { IfErr result (λ e. e ≡ Short (handled_in self.old + 1) (handled_in self.old)) }
        ensures ended { OnOk result (AreEndings self.old self.new) }
        ensures short { (w : Awaited) → waits_in self.old ≡ Some w → IfErr result (λ e. EndsShort self.old self.new w.connection e) }
    {
        giop_link::laws::streams_are_heard::<giop_link::Server>();
        let Some(ask) = self.asking.take() else {
            return Ok(());
        };
        let step = self.keeper.finish(outcome, contexts, out);
        count(&mut self.keeper.counts.answered);
        match counted(ask.place.handled, step) {
            Ok(_) => Ok(()),
            Err(cut) => {
                end_link(
                    &mut self.links,
                    &mut self.keeper.ended,
                    ask.connection,
                    Ending::Memory,
                );
                Err(ServeError::Memory {
                    handled: cut.handled,
                    answered: cut.answered,
                })
            }
        }
    }
}
