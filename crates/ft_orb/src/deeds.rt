//! Deeds played on an engine, one after another: what happens to it, and what its owner does.

ghost use Rattle.std.specs.Prelude.{◌≡◌, ◌++◌, ◌∷◌, ◌+◌, ◌≤◌, ◌<◌, ℕ, List, [], IfOk, OnOk, IfErr, None, Some, flat_map, length, map, take};
ghost use Rattle.ft_log.specs.Holding.{Holding};
ghost use Rattle.ft_orb.specs.Deeds.{Deed as History, Ledger, Runs, after_deeds, notes_of, opening};
ghost use Rattle.ft_orb.specs.DeedsPlayed.{AreOf, Becomes, Holds, IsAnsweredLate, IsDone, IsRefused, IsRefusedIn, LeaveAtLast, Remains, deeds_done, left_after, left_fed, left_in as left_at};
ghost use Rattle.ft_orb.specs.Engines.{waits_in};
ghost use Rattle.ft_orb.specs.Outputs.{noted};
ghost use Rattle.ft_orb.specs.Parking.{Settings};
ghost use Rattle.ft_orb.specs.Standing.{note_of, note_of_closing};
ghost use Rattle.ft_orb.specs.declared.deeds.Deed.TheVariants as code;
ghost use Rattle.ft_orb.specs.declared.events.Event.TheVariants as happening;

use crate::engine::{Engine, Fed};
use crate::error::{CloseError, ParkError, ServeError};
use crate::events::{Event, Note, Written};
use crate::playing::{opened, served};
use crate::telling::{do_settle, do_tell, do_tell_parked, do_withdraw};
use ft_log::{Outcome, SystemName};
use ft_objects::Catalogue;
use std::alloc::Global;
use thiserror::Error;

/// What an engine meets, and what its owner does with it.
#[derive(Debug, Drop)]
pub enum Deed {
    /// Something happens on a connection. A piece is taken up to the first request that is asked for in it, or repeats one
    /// that is parked.
    Event(Event),
    /// The outcome of the request that waits is there.
    Answer(Outcome),
    /// The request that waits is parked under its number. Numbers count from 0 what the engine asked for.
    Park,
    /// The request that waits is given up, and its connection is lost: it does not count.
    GiveUp,
    /// The outcome of the request that is parked under a number is there, and is told to all who wait for it.
    Settle(u64, Outcome),
    /// The request that waits is declined, by a system exception and its minor code. Where an allocation fails it is given up.
    Decline(SystemName, u32),
    /// The request that is parked under a number is declined, and all who wait for it are told so.
    Withdraw(u64, SystemName, u32),
    /// An outcome is told to the request that waits, and nothing is kept. Where an allocation fails it is given up.
    Tell(Outcome),
    /// An outcome is told to all who wait for the request that is parked under a number, and nothing is kept.
    TellParked(u64, Outcome),
}

/// Why a deed was not done. The engine stands for what it stood for.
#[derive(Clone, Copy, Debug, PartialEq, Eq, Error)]
pub enum DeedError {
    /// A request waits: it is answered, parked or given up first.
    #[error("asking")]
    Asking,
    /// No request waits.
    #[error("nothing asked")]
    NothingAsked,
    /// The outcome can't be that of the request that waits.
    #[error("not fit")]
    NotFit,
    /// No request is parked under the number for which the outcome is fit.
    #[error("not parked")]
    NotParked,
    /// The request was not parked, and waits.
    #[error("unparked")]
    Unparked(ParkError),
    /// The connection was not closed: somebody waits on it for the outcome of a request that is parked.
    #[error("waits")]
    Waits,
    /// An allocation failed for the outcome, or for what is said of the deed.
    #[error("memory")]
    Memory,
}

/// Why deeds were not all done.
#[derive(Clone, Copy, Debug, PartialEq, Eq, Error)]
pub enum DeedsError {
    /// So many were done, and of the piece of the last so many octets were taken. What is left is fed by a next deed, at the
    /// same moment, once the request that waits, if one does, is answered or parked. Given up, its connection is lost.
    #[error("left")]
    Left { deeds: u64, taken: usize },
    /// So many were done, and the next was not.
    #[error("refused")]
    Refused { deeds: u64, why: DeedError },
}

/// How many octets were taken of a piece, where some are left.
fn left_after(taken: usize, size: usize) -> Option<usize>
    ensures { result ≡ left_after taken size }
{
    if taken < size { Some(taken) } else { None }
}

/// How a piece ended, and how many octets of it were taken, where some are left.
fn fed_as(fed: Result<Fed, ServeError>, size: usize) -> (Note, Option<usize>)
    ensures note { result.0 ≡ note_of fed }
    ensures left { result.1 ≡ left_fed size fed }
{
    match fed {
        Ok(Fed::Whole) => (Note::Done, None),
        Ok(Fed::Asks(taken)) => (Note::Done, left_after(taken, size)),
        Ok(Fed::Repeats(taken)) => (Note::Done, left_after(taken, size)),
        Err(error) => (served(Err(error)), None),
    }
}

/// How a close ended, where it was not refused.
fn closed(ended: Result<(), CloseError>) -> Option<Note>
    ensures { result ≡ note_of_closing ended }
{
    match ended {
        Ok(()) => Some(Note::Done),
        Err(CloseError::NoConnection) => Some(Note::Refused),
        Err(CloseError::Waits) => None,
        Err(CloseError::Memory) => Some(Note::Memory {
            handled: 0,
            answered: 0,
        }),
    }
}

/// A connection is closed, where nobody waits on it.
fn do_close<C: Catalogue + Drop>(
    alloc: Global,
    engine: &mut Engine<C>,
    connection: u64,
) -> Result<Written, DeedError>
    requires idle { waits_in engine.old ≡ None }
    ensures ok { IfOk result (λ written. Becomes C.offers (code.Event (happening.Close connection)) None (noted written ∷ []) engine.old engine.new) }
    ensures err { IfErr result (λ why. IsRefused C.offers engine.new (code.Event (happening.Close connection)) why × Remains C.offers engine.old engine.new) }
    ensures catalogue { engine.new.offering ≡ engine.old.offering }
{
    let mut octets = Vec::new(alloc);
    let Some(note) = closed(engine.close(connection, &mut octets)) else {
        return Err(DeedError::Waits);
    };
    Ok(Written {
        connection,
        octets,
        note,
    })
}

/// Something happens: what was written for it, and what is left of a piece.
fn do_event<C: Catalogue + Drop>(
    alloc: Global,
    engine: &mut Engine<C>,
    event: &Event,
) -> Result<(Written, Option<usize>), DeedError>
    requires idle { waits_in engine.old ≡ None }
    ensures ok { IfOk result (λ done. Becomes C.offers (code.Event event.now) done.1 (noted done.0 ∷ []) engine.old engine.new) }
    ensures err { IfErr result (λ why. IsRefused C.offers engine.new (code.Event event.now) why × Remains C.offers engine.old engine.new) }
    ensures catalogue { engine.new.offering ≡ engine.old.offering }
{
    let mut octets = Vec::new(alloc);
    let (connection, note, left) = match event {
        Event::Opened(c) => (*c, opened(engine.connect(*c)), None),
        Event::Piece(c, moment, piece) => {
            let fed = engine.feed(*c, *moment, piece, &mut octets);
            let (note, left) = fed_as(fed, piece.len());
            (*c, note, left)
        }
        Event::Close(c) => return Ok((do_close(alloc, engine, *c)?, None)),
        Event::Lost(c) => {
            engine.lost(*c);
            (*c, Note::Done, None)
        }
    };
    let written = Written {
        connection,
        octets,
        note,
    };
    Ok((written, left))
}

/// The request that waits has its outcome.
fn do_answer<C: Catalogue + Drop>(
    alloc: Global,
    engine: &mut Engine<C>,
    outcome: &Outcome,
) -> Result<Written, DeedError>
    ensures ok { IfOk result (λ written. Becomes C.offers (code.Answer outcome.now) None (noted written ∷ []) engine.old engine.new) }
    ensures err { IfErr result (λ why. IsRefused C.offers engine.new (code.Answer outcome.now) why × Remains C.offers engine.old engine.new) }
    ensures catalogue { engine.new.offering ≡ engine.old.offering }
{
    let Some(asked) = engine.asked() else {
        return Err(DeedError::NothingAsked);
    };
    let number = asked.number;
    let connection = asked.connection;
    if !engine.can_answer(number, outcome) {
        return Err(DeedError::NotFit);
    }
    let Ok(copy) = outcome.copy(alloc) else {
        return Err(DeedError::Memory);
    };
    let mut octets = Vec::new(alloc);
    let note = served(engine.answer(number, copy, &mut octets));
    Ok(Written {
        connection,
        octets,
        note,
    })
}

/// The request that waits is parked.
fn do_park<C: Catalogue + Drop>(engine: &mut Engine<C>) -> Result<(), DeedError>
    ensures ok { OnOk result (Becomes C.offers code.Park None [] engine.old engine.new) }
    ensures err { IfErr result (λ why. IsRefused C.offers engine.new code.Park why × Remains C.offers engine.old engine.new) }
    ensures catalogue { engine.new.offering ≡ engine.old.offering }
{
    let Some(asked) = engine.asked() else {
        return Err(DeedError::NothingAsked);
    };
    let number = asked.number;
    match engine.park(number) {
        Ok(()) => Ok(()),
        Err(why) => Err(DeedError::Unparked(why)),
    }
}

/// The request that waits is given up.
fn do_give_up<C: Catalogue + Drop>(
    alloc: Global,
    engine: &mut Engine<C>,
) -> Result<Written, DeedError>
    ensures ok { IfOk result (λ written. Becomes C.offers code.GiveUp None (noted written ∷ []) engine.old engine.new) }
    ensures err { IfErr result (λ why. IsRefused C.offers engine.new code.GiveUp why × Remains C.offers engine.old engine.new) }
    ensures catalogue { engine.new.offering ≡ engine.old.offering }
{
    let Some(asked) = engine.asked() else {
        return Err(DeedError::NothingAsked);
    };
    let number = asked.number;
    let connection = asked.connection;
    let handled = engine.give_up(number);
    let note = Note::Memory {
        handled,
        answered: handled,
    };
    Ok(Written {
        connection,
        octets: Vec::new(alloc),
        note,
    })
}

/// The request that waits is declined, or given up.
fn do_decline<C: Catalogue + Drop>(
    alloc: Global,
    engine: &mut Engine<C>,
    name: SystemName,
    minor: u32,
) -> Result<Written, DeedError>
    ensures ok { IfOk result (λ written. Becomes C.offers (code.Decline name minor) None (noted written ∷ []) engine.old engine.new) }
    ensures err { IfErr result (λ why. IsRefused C.offers engine.new (code.Decline name minor) why × Remains C.offers engine.old engine.new) }
    ensures catalogue { engine.new.offering ≡ engine.old.offering }
{
    let Some(asked) = engine.asked() else {
        return Err(DeedError::NothingAsked);
    };
    let number = asked.number;
    let connection = asked.connection;
    let mut octets = Vec::new(alloc);
    let note = served(engine.decline(number, name, minor, &mut octets));
    Ok(Written {
        connection,
        octets,
        note,
    })
}

/// Does one deed, and appends what was written. The result is what is left of a piece.
fn do_deed<C: Catalogue + Drop>(
    alloc: Global,
    engine: &mut Engine<C>,
    deed: &Deed,
    out: &mut Vec<Written>,
) -> Result<Option<usize>, DeedError>
    ensures ok { IfOk result (λ left. (s : Settings) (g : Ledger) → Holds C.offers s g engine.old → (written : List Written) × (out.new.items ≡ out.old.items ++ written)
        × IsDone C.offers s g deed.now left (map noted written) engine.new) }
    ensures err { IfErr result (λ why. (out.new.items ≡ out.old.items) × IsRefused C.offers engine.new deed.now why × Remains C.offers engine.old engine.new) }
    ensures catalogue { engine.new.offering ≡ engine.old.offering }
{
    if out.reserve(1).is_err() {
        return Err(DeedError::Memory);
    }
    let (written, left) = match deed {
        Deed::Event(event) => {
            if engine.is_asking() {
                return Err(DeedError::Asking);
            }
            do_event(alloc, engine, event)?
        }
        Deed::Answer(outcome) => (do_answer(alloc, engine, outcome)?, None),
        Deed::Park => {
            do_park(engine)?;
            return Ok(None);
        }
        Deed::GiveUp => (do_give_up(alloc, engine)?, None),
        Deed::Settle(number, outcome) => {
            if engine.is_asking() {
                return Err(DeedError::Asking);
            }
            do_settle(alloc, engine, *number, outcome, out)?;
            return Ok(None);
        }
        Deed::Decline(name, minor) => (do_decline(alloc, engine, *name, *minor)?, None),
        Deed::Withdraw(number, name, minor) => {
            if engine.is_asking() {
                return Err(DeedError::Asking);
            }
            do_withdraw(alloc, engine, *number, *name, *minor, out)?;
            return Ok(None);
        }
        Deed::Tell(outcome) => (do_tell(alloc, engine, outcome)?, None),
        Deed::TellParked(number, outcome) => {
            if engine.is_asking() {
                return Err(DeedError::Asking);
            }
            do_tell_parked(alloc, engine, *number, outcome, out)?;
            return Ok(None);
        }
    };
    out.push(written).unwrap();
    Ok(left)
}

/// Does deeds on an engine, one after another, and appends what was written in each: an entry for each connection on which
/// something happened, and for each that was told an outcome. It ends at the first that can't be done, and where octets of
/// a piece are left.
pub fn play_deeds<C: Catalogue + Drop>(
    alloc: Global,
    engine: &mut Engine<C>,
    deeds: &[Deed],
    out: &mut Vec<Written>,
) -> Result<(), DeedsError>
    // from any ledger: the deeds that were done are a run, which wrote this, and the engine is one of the ledger after them
    ensures run { (s : Settings) (g : Ledger) → Holds C.offers s g engine.old → (ds : List History) × (written : List Written)
        × (out.new.items ≡ out.old.items ++ written)
        × AreOf (take (deeds_done (length deeds.now) result) deeds.now) ds
        × Runs s g ds
        × (flat_map notes_of ds ≡ map noted written)
        × LeaveAtLast ds (left_at result)
        × Holds C.offers s (after_deeds s g ds) engine.new }
    // from a new engine on: each distinct admissible request is a call once, where none is declined or told unkept, and who waits
    // for one is told once
    ensures new { (s : Settings) (held : ℕ → Holding) → Holds C.offers s (opening held) engine.old → (ds : List History) × (written : List Written)
        × (out.new.items ≡ out.old.items ++ written)
        × AreOf (take (deeds_done (length deeds.now) result) deeds.now) ds
        × Runs s (opening held) ds
        × (flat_map notes_of ds ≡ map noted written)
        × LeaveAtLast ds (left_at result)
        × Holds C.offers s (after_deeds s (opening held) ds) engine.new
        × IsAnsweredLate s held ds }
    ensures done { deeds_done (length deeds.now) result ≤ length deeds.now }
    ensures refused { IsRefusedIn C.offers engine.new deeds.now result }
    ensures catalogue { engine.new.offering ≡ engine.old.offering }
{
    giop_link::laws::streams_are_heard::<giop_link::Server>();
    for (i, deed) in deeds.iter().enumerate() {
        match do_deed(alloc, engine, deed, out) {
            Ok(None) => {}
            Ok(Some(taken)) => {
                return Err(DeedsError::Left {
                    deeds: i as u64 + 1,
                    taken,
                });
            }
            Err(why) => {
                return Err(DeedsError::Refused {
                    deeds: i as u64,
                    why,
                });
            }
        }
    }
    Ok(())
}
