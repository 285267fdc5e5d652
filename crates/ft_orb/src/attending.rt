//! A connection served over a wire by an engine, whose owner performs.

ghost use Rattle.std.specs.Prelude.{◌≡◌, ◌<◌, ◌≤◌, ◌∷◌, ◌++◌, ℕ, false, true, List, IfErr, IfOk, IsSome, None, Some, length};
ghost use Rattle.ft_log.specs.Holding.{Holding};
ghost use Rattle.ft_log.specs.View.{performed_in};
ghost use Rattle.ft_orb.specs.Answers.{Agrees, calls_of};
ghost use Rattle.ft_orb.specs.Engines.{Asks, Awaited, CanAnswer, IsFit, IsOpen, Rests, Resumes, waits_in};
ghost use Rattle.ft_orb.specs.Handovers.{AreHandedIn, Handover, IsServedLate, OwnerSays, handed_in};
ghost use Rattle.ft_orb.specs.History as history;
ghost use Rattle.ft_orb.specs.History.{line};
ghost use Rattle.ft_orb.specs.Now.{now_says, state_now};
ghost use Rattle.ft_orb.specs.Outputs.{Plays, is_going, is_gone, table_says};
ghost use Rattle.ft_orb.specs.Owners.{Owner, made_of, meaning_of};
ghost use Rattle.ft_orb.specs.Parking.{AreParked, AsksLate, Settings, Stays, others_under, parked_in, told_in};
ghost use Rattle.ft_orb.specs.Requests.{Call};
ghost use Rattle.ft_orb.specs.Sessions.{Attends, AttendsLate, IsAttended, IsCut, IsEnded, calls_with};
ghost use Rattle.ft_orb.specs.Visits.{HandsIn, ServesAsked, ServesPart, TakesPart};
ghost use Rattle.ft_orb.specs.Wires.{Act, AreNoted, AreReadInTime, AreSmall, ClockSays, DidSo, HasCause, HasEnded, Turn, WireSays, entries_of, events_in, past_with};
ghost use Rattle.ft_orb.specs.declared.events.Note.{Note};
ghost use Rattle.ft_orb.specs.declared.parked.Waiter.{Waiter};

use crate::engine::{Engine, Fed};
use crate::error::{CloseError, ServeError};
use crate::hosting::{Host, serve_host};
use crate::performer::Performer;
use crate::wire::{Clock, StreamEnd, Wire};
use ft_log::{Completion, Outcome, SystemName};
use ft_objects::Catalogue;
use std::alloc::Global;

/// The outcome to hand in for the request that waits: the owner's, or INTERNAL where that one can't answer it.
fn fitting<C: Catalogue + Drop>(engine: &Engine<C>, number: u64, outcome: Outcome) -> Outcome
    requires fit { IsFit engine.now.offering.first (C.offers engine.now.offering.catalogue) (waits_in engine.now) }
    requires open { IsOpen number (waits_in engine.now) }
    ensures can { CanAnswer (C.offers engine.now.offering.catalogue) (waits_in engine.now) number (performed_in result) }
    ensures handed { HandsIn (C.offers engine.now.offering.catalogue) (waits_in engine.now) (performed_in outcome) (performed_in result) }
{
    if engine.can_answer(number, &outcome) {
        return outcome;
    }
    Outcome::System(SystemName::Internal, 0, Completion::Maybe)
}

/// Lets the owner perform the call that waits, and answers it, or gives it up.
fn attend_ask<C: Catalogue + Drop, O: Performer>(
    alloc: Global,
    engine: &mut Engine<C>,
    owner: &mut O,
    out: &mut Vec<u8>,
) -> Result<(), StreamEnd>
    requires fit { IsFit engine.old.offering.first (C.offers engine.old.offering.catalogue) (waits_in engine.old) }
    requires asking { IsSome (waits_in engine.old) }
    ensures idle { waits_in engine.new ≡ None }
    ensures parked { AreParked engine.old engine.new }
    ensures waiting { (w : Awaited) → waits_in engine.old ≡ Some w → (q : ℕ) → others_under engine.new w.connection q ≡ others_under engine.old w.connection q }
    ensures late { (log : List Handover) × OwnerSays log (O.answered owner.old) (O.answered owner.new) × ((s : Settings) (held : ℕ → Holding) (calls : List Call) (past : List history.Event) (waiting : ℕ → List Waiter) (moment : ℕ) (octets written : List ℕ) (w : Awaited)
        → AsksLate C.offers s held calls engine.old past waiting moment octets written w → IsAttended (λ s held calls engine past waiting. Stays C.offers s held calls engine past waiting) w.connection (ServesAsked w.connection octets result) s held calls past waiting log engine.new) }
    ensures cut { IfErr result IsCut }
    ensures table { (log : List Handover) × OwnerSays log (O.answered owner.old) (O.answered owner.new) × ((o : Owner) (calls : List Call) (past : List history.Event) (moment : ℕ) (octets written : List ℕ) (w : Awaited) → Asks C.offers o calls engine.old past moment octets written w
        → is_gone (line past w.connection) ≡ false → Agrees o.answers calls (handed_in log) → AreHandedIn o.offer log × (note : Note) × IsEnded result note
        × Resumes C.offers o (calls_with calls log) past w.connection moment octets written note engine.new out.old.items out.new.items) }
{
    let Some(asked) = engine.asked() else {
        return Ok(());
    };
    let number = asked.number;
    let Some(outcome) = owner.perform(alloc, &asked) else {
        engine.give_up(number);
        return Err(StreamEnd::Memory);
    };
    let outcome = fitting(engine, number, outcome);
    match engine.answer(number, outcome, out) {
        Ok(()) => Ok(()),
        Err(_) => Err(StreamEnd::Memory),
    }
}

/// Feeds a piece up to and with the first request that is to be performed, or to its end, and lets the owner perform.
/// The result is how many octets were taken.
fn attend_part<C: Catalogue + Drop, O: Performer>(
    alloc: Global,
    engine: &mut Engine<C>,
    owner: &mut O,
    connection: u64,
    moment: u64,
    piece: &[u8],
    out: &mut Vec<u8>,
) -> Result<usize, StreamEnd>
    requires idle { waits_in engine.old ≡ None }
    requires some { 0 < length piece.now }
    ensures idle { waits_in engine.new ≡ None }
    ensures parked { AreParked engine.old engine.new }
    ensures waiting { (q : ℕ) → others_under engine.new connection q ≡ others_under engine.old connection q }
    ensures taken { IfOk result (λ n. (0 < n) × (n ≤ length piece.now)) }
    ensures late { AttendsLate (λ s held calls engine past waiting. Stays C.offers s held calls engine past waiting) connection (ServesPart connection piece.now result) (O.answered owner.old) (O.answered owner.new) engine.old engine.new }
    ensures cut { IfErr result IsCut }
    ensures table { Attends (λ o. o) (O.answered owner.old) (O.answered owner.new) (λ o calls past. Rests C.offers o calls engine.old past × (is_gone (line past connection) ≡ false))
        (λ o calls past. TakesPart C.offers o calls past connection moment piece.now result engine.new out.old.items out.new.items) }
{
    giop_link::laws::streams_are_heard::<giop_link::Server>();
    match engine.feed(connection, moment, piece, out) {
        Ok(Fed::Whole) => Ok(piece.len()),
        Ok(Fed::Asks(taken)) => {
            attend_ask(alloc, engine, owner, out)?;
            Ok(taken)
        }
        Ok(Fed::Repeats(taken)) => Ok(taken),
        Err(ServeError::NoConnection) => Err(StreamEnd::LinkClosed),
        Err(ServeError::Memory { .. }) => Err(StreamEnd::Memory),
    }
}

impl<C: Catalogue + Drop, O: Performer> Host<O> for Engine<C> {
    ghost World = { Owner };

    ghost as_owner = { λ o. o };

    ghost says = { λ o. table_says (meaning_of o) (made_of o) };

    ghost Holds = { λ o calls engine past. Rests C.offers o calls engine past };

    ghost HoldsLate = { λ s held calls engine past waiting. Stays C.offers s held calls engine past waiting };

    ghost IsIdle = { λ engine. waits_in engine ≡ None };

    ghost parked_under = { λ engine. parked_in engine };

    ghost told_under = { λ engine. told_in engine };

    ghost waiting_under = { λ engine. others_under engine };

    ghost answered = { O.answered };

    fn feed_whole(
        &mut self,
        owner: &mut O,
        alloc: Global,
        connection: u64,
        moment: u64,
        piece: &[u8],
        out: &mut Vec<u8>,
    ) -> Result<(), StreamEnd> {
        giop_link::laws::streams_are_heard::<giop_link::Server>();
        let mut taken = 0;
        while taken < piece.len() {
            let (_, left) = piece.split_at(taken);
            taken += attend_part(alloc, self, owner, connection, moment, left, out)?;
        }
        Ok(())
    }

    fn has_ended(&self, connection: u64) -> bool {
        self.is_closed(connection)
    }

    /// The connection is lost instead where somebody waits on it for the outcome of a request that is parked.
    fn part(&mut self, connection: u64, out: &mut Vec<u8>) -> Result<(), StreamEnd> {
        match self.close(connection, out) {
            Ok(()) => Ok(()),
            Err(CloseError::Waits) => {
                self.lost(connection);
                Err(StreamEnd::Memory)
            }
            Err(CloseError::NoConnection) => Err(StreamEnd::LinkClosed),
            Err(CloseError::Memory) => Err(StreamEnd::Memory),
        }
    }

    fn forget(&mut self, connection: u64) {
        self.lost(connection);
    }
}

/// Serves a connection over a wire to its end, as `serve_stream` does, by an engine whose owner performs: reads
/// pieces of at most 4,096 octets, asks the clock for the moment of each, lets the owner perform each call that is
/// asked for in it, and writes the answers to the piece once it is fed to its end. After `max_reads` reads
/// CloseConnection is sent (GIOP 9.4.7). In every case the connection is lost afterwards.
///
/// The connection is there, was not closed, and its stream has not ended (`Engine::is_closed`). A call that the
/// owner can't perform now is given up, and does not count. That ends the connection (`StreamEnd::Memory`), as does an
/// allocation that fails: before a call is asked for, which does not count then, or once its outcome is there, which is
/// kept. Nothing is written for the piece in which it came; what was performed before it stays performed, and is kept. So
/// does a connection end on which somebody still waits, where CloseConnection would be sent. An outcome that can't answer
/// its call is answered INTERNAL in its place, and this is kept.
///
/// What is parked in the engine stays (`parked`), and who waits for it on other connections waits on (`waiting`). While a
/// request is parked that has a key and is not expired, the engine stands for no past in which each outcome is known
/// (`Rests`): its log keeps a number in place of the outcome. So `table` and `now` say nothing then, nor once what is
/// served has changed. What holds in every case is `cause` and `late`: that the end is what the wire did, and which calls
/// were taken, and what is known of each; that what happened did so on this connection alone, first its pieces, which are
/// what the wire gave, and then what the end says; and that the engine goes on. What was written they do not say.
pub fn serve_engine<C: Catalogue + Drop, O: Performer, W: Wire, K: Clock>(
    alloc: Global,
    engine: &mut Engine<C>,
    owner: &mut O,
    connection: u64,
    wire: &mut W,
    clock: &mut K,
    max_reads: u32,
) -> StreamEnd
    requires idle { waits_in engine.old ≡ None }
    ensures idle { waits_in engine.new ≡ None }
    ensures parked { AreParked engine.old engine.new }
    ensures waiting { (q : ℕ) → others_under engine.new connection q ≡ others_under engine.old connection q }
    // the end is what the wire did
    ensures cause { DidSo (HasCause max_reads result) (W.traffic wire.old) (W.traffic wire.new) }
    // whatever is parked, and however often what is served has changed
    ensures late { (log : List Handover) × OwnerSays log (O.answered owner.old) (O.answered owner.new) × ((s : Settings) (held : ℕ → Holding) (calls : List Call) (past : List history.Event) (waiting : ℕ → List Waiter) → Stays C.offers s held calls engine.old past waiting
        → IsServedLate C.offers s held calls past waiting connection log result (W.traffic wire.old) (W.traffic wire.new) engine.new) }
    // each call that the owner performed was handed in once; in turns a piece is read and the table's answers to what it
    // completes are written, by the owner that answers as it did; and each end has its cause
    ensures table { (log : List Handover) × OwnerSays log (O.answered owner.old) (O.answered owner.new) × ((o : Owner) (calls : List Call) (past : List history.Event) → Rests C.offers o calls engine.old past
        → is_going o.limits (line past connection) ≡ true → Agrees o.answers calls (handed_in log) → AreHandedIn o.offer log × (turns : List Turn) × (last : List Act)
        × Plays o.limits o.offer.knows (table_says (meaning_of o) (made_of o)) past (events_in connection turns) (entries_of turns)
        × AreNoted result (entries_of turns)
        × HasEnded o.limits past connection max_reads turns result last
        × AreReadInTime o.limits past connection turns
        × AreSmall turns
        × (length turns ≤ max_reads)
        × Rests C.offers o (calls ++ calls_of (handed_in log)) engine.new (history.Lost connection ∷ past_with o.limits past connection turns)
        × WireSays turns last (W.traffic wire.old) (W.traffic wire.new)
        × ClockSays turns (K.given clock.old) (K.given clock.new)) }
    // each key by itself, whatever expirations requests carry: the same turns, what is written in them, and the calls that are
    // answered up to them
    ensures now { (log : List Handover) × OwnerSays log (O.answered owner.old) (O.answered owner.new) × ((o : Owner) (calls : List Call) (past : List history.Event) → Rests C.offers o calls engine.old past
        → is_going o.limits (line past connection) ≡ true → Agrees o.answers calls (handed_in log) → AreHandedIn o.offer log × (turns : List Turn) × (last : List Act)
        × Plays o.limits o.offer.knows (table_says (meaning_of o) (made_of o)) past (events_in connection turns) (entries_of turns)
        × Plays o.limits o.offer.knows (now_says (meaning_of o) (made_of o)) past (events_in connection turns) (entries_of turns)
        × AreNoted result (entries_of turns)
        × HasEnded o.limits past connection max_reads turns result last
        × AreReadInTime o.limits past connection turns
        × AreSmall turns
        × (length turns ≤ max_reads)
        × Rests C.offers o (calls ++ calls_of (handed_in log)) engine.new (history.Lost connection ∷ past_with o.limits past connection turns)
        × (calls ++ calls_of (handed_in log) ≡ state_now (meaning_of o) (made_of o) (history.Lost connection ∷ past_with o.limits past connection turns))
        × WireSays turns last (W.traffic wire.old) (W.traffic wire.new)
        × ClockSays turns (K.given clock.old) (K.given clock.new)) }
{
    serve_host(alloc, engine, owner, connection, wire, clock, max_reads)
}
