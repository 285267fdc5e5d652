//! Keep outcomes beyond an engine's life: each engine is new, and the store stays.

ghost use Rattle.std.specs.Prelude.{◌≡◌, IsSome, None, Some};
ghost use Rattle.ft_orb.specs.Engines.{Awaited, waits_in};

use ft_lives::{MemoryStore, Store, Verdict, look_once, perform_once};
use ft_log::{Retention, SystemName};
use ft_objects::{Catalogue, Servant};
use ft_orb::{ConnectError, Engine, Fed, Places, ServeError, Unkept, outcome_len};
use giop_frames::Limits;
use std::alloc::Global;
use std::hash::RandomState;
use thiserror::Error;

/// Why a life ended.
#[derive(Debug, Drop, Error)]
pub enum DurableError {
    #[error("{0}")]
    Connect(#[from] ConnectError),
    #[error("{0}")]
    Serve(#[from] ServeError),
    /// It is not known what came of a request, so it was neither answered nor declined: its connection is lost, and a
    /// later transmission finds out.
    #[error("given up")]
    GivenUp,
}

/// How often a request is looked up, where a transaction brings no answer.
const TRIES: u32 = 3;

/// Takes the owner's steps for the request that waits, and does what they come to. The store keeps the outcome, so the
/// engine keeps none. A request without a key is given up: a repeat of it could not be told from a new one.
fn answer<C: Catalogue + Drop, S: Store>(
    alloc: Global,
    engine: &mut Engine<C>,
    store: &mut S,
    out: &mut Vec<u8>,
) -> Result<(), DurableError>
    requires asking { IsSome (waits_in engine.old) }
    requires performs { (w : Awaited) → waits_in engine.old ≡ Some w → w.refused ≡ None → S.performs w.call }
    ensures idle { waits_in engine.new ≡ None }
{
    let Some(asked) = engine.asked() else {
        return Ok(());
    };
    let (number, refused) = (asked.number, asked.refused);
    let verdict = match (asked.ft_request, refused) {
        (Some(request), None) => perform_once(alloc, store, &asked, request, TRIES),
        (Some(request), Some(_)) => look_once(alloc, store, &asked, request, TRIES),
        (None, _) => Verdict::Unknown,
    };
    match verdict {
        Verdict::Answer(outcome) if outcome_len(&outcome).is_some() => {
            engine.tell(number, &outcome, Unkept::Performed, out)?;
        }
        Verdict::Over => engine.decline(number, SystemName::BadContext, 0, out)?,
        Verdict::Decline => {
            let name = refused.unwrap_or(SystemName::Transient);
            engine.decline(number, name, 0, out)?;
        }
        Verdict::Answer(_) | Verdict::Unknown => {
            engine.give_up(number);
            return Err(DurableError::GivenUp);
        }
    }
    Ok(())
}

/// Feeds a piece of connection 1 to its end, and answers each request that waits in it.
fn feed<S: Servant + Drop>(
    alloc: Global,
    engine: &mut Engine<S>,
    store: &mut MemoryStore<S>,
    moment: u64,
    piece: &[u8],
    out: &mut Vec<u8>,
) -> Result<(), DurableError>
    requires idle { waits_in engine.old ≡ None }
    ensures idle { waits_in engine.new ≡ None }
{
    let mut left = piece;
    while !left.is_empty() {
        let taken = match engine.feed(1, moment, left, out)? {
            Fed::Whole => return Ok(()),
            Fed::Asks(taken) => {
                answer(alloc, engine, store, out)?;
                taken
            }
            Fed::Repeats(taken) => taken,
        };
        (_, left) = left.split_at(taken);
    }
    Ok(())
}

/// Serves one piece on a connection to a new engine, whose owner keeps its outcomes in a store. `offered` says what the
/// store's servant offers. Whatever engines came before: what is performed for a key is performed once, and a repeat gets
/// what the store holds, also where it would be refused by now.
pub fn live_durably<S: Servant + Drop>(
    alloc: Global,
    hasher: RandomState,
    offered: S,
    store: &mut MemoryStore<S>,
    moment: u64,
    piece: &[u8],
    out: &mut Vec<u8>,
) -> Result<(), DurableError> {
    let retention = Retention {
        capacity: 100,
        share: 100,
    };
    let places = Places {
        parked: 0,
        of_one: 0,
        joined: 0,
    };
    let mut engine = Engine::new(alloc, offered, Limits::default(), retention, places, hasher);
    engine.ask_first(true);
    engine.connect(1)?;
    feed(alloc, &mut engine, store, moment, piece, out)
}
