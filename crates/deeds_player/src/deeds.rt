//! Deeds in words.

use crate::requests::requests_in;
use cdr_core::Val;
use ft_log::{Completion, Outcome, SystemName};
use ft_orb::{Deed, Event};
use std::alloc::Global;
use trials::{Stop, parted};

/// The repository id of the exception that `add` raises.
const OVERFLOW: &[u8] = b"IDL:Counter/Overflow:1.0";

/// A connection, a moment, or the number of a request.
pub(crate) fn number(word: &str) -> Result<u64, Stop> {
    word.parse().map_err(|_| Stop::BadLine)
}

/// The outcome that a word is: the total that is returned, `overflow`, or `unknown`.
fn outcome_in(alloc: Global, word: &str) -> Result<Outcome, Stop> {
    if word == "overflow" {
        let id = Vec::from_slice(alloc, OVERFLOW)?;
        return Ok(Outcome::Raised(id, Vec::new(alloc)));
    }
    if word == "unknown" {
        return Ok(Outcome::System(SystemName::Unknown, 0, Completion::Maybe));
    }
    let total = word.parse().map_err(|_| Stop::BadLine)?;
    Ok(Outcome::Returned(vec![in alloc; Val::LongLong(total)]?))
}

/// The deed of `settle NUMBER OUTCOME`.
fn settling(alloc: Global, words: &str) -> Result<Deed, Stop> {
    let (asked, outcome) = parted(words)?;
    Ok(Deed::Settle(number(asked)?, outcome_in(alloc, outcome)?))
}

/// The deed of `tell_parked NUMBER OUTCOME`.
fn telling(alloc: Global, words: &str) -> Result<Deed, Stop> {
    let (asked, outcome) = parted(words)?;
    Ok(Deed::TellParked(number(asked)?, outcome_in(alloc, outcome)?))
}

/// The event of `asks C NOW REQUEST,..`, or of `piece C NOW HEX`.
fn piece_in(alloc: Global, name: &str, words: &str) -> Result<Event, Stop> {
    let (connection, words) = parted(words)?;
    let (now, words) = parted(words)?;
    let octets = match name {
        "asks" => requests_in(alloc, words)?,
        _ => hex::decode(alloc, words)?,
    };
    Ok(Event::Piece(number(connection)?, number(now)?, octets))
}

/// The event of that name.
fn event_in(alloc: Global, name: &str, words: &str) -> Result<Event, Stop> {
    match name {
        "opened" => Ok(Event::Opened(number(words)?)),
        "close" => Ok(Event::Close(number(words)?)),
        "lost" => Ok(Event::Lost(number(words)?)),
        "asks" | "piece" => piece_in(alloc, name, words),
        _ => Err(Stop::BadLine),
    }
}

/// The deed that a line is.
pub(crate) fn deed_in(alloc: Global, line: &str) -> Result<Deed, Stop> {
    match line {
        "park" => return Ok(Deed::Park),
        "give_up" => return Ok(Deed::GiveUp),
        "decline" => return Ok(Deed::Decline(SystemName::Transient, 0)),
        _ => {}
    }
    let (name, words) = parted(line)?;
    match name {
        "answer" => Ok(Deed::Answer(outcome_in(alloc, words)?)),
        "settle" => settling(alloc, words),
        "tell" => Ok(Deed::Tell(outcome_in(alloc, words)?)),
        "tell_parked" => telling(alloc, words),
        "withdraw" => Ok(Deed::Withdraw(number(words)?, SystemName::Transient, 0)),
        _ => Ok(Deed::Event(event_in(alloc, name, words)?)),
    }
}
