//! A script of events on a server of one counter, for what it writes to be compared.
//!
//! The words are how many outcomes the server keeps, how many of each client, the counter's total at the beginning, how
//! many octets a message may have, how many messages of a connection may be partial, and the events: a word each, which is
//! a line of a script as `giop play` takes it. What is printed is what `giop play` prints: for each event that writes, its
//! connection and the octets, and last the total.

use crate::stop::Stop;
use counter::Counter;
use ft_log::Retention;
use ft_orb::{Event, Note, Server, Written, play};
use giop_frames::Limits;
use hex::FromHexError;
use std::alloc::Global;
use std::hash::RandomState;

/// How the words go.
const USAGE: Stop = Stop::Words(
    "usage: benches script CAPACITY SHARE START LIMIT PARTIALS EVENT..",
);

/// What a server keeps to.
#[derive(Clone, Copy)]
struct Terms {
    capacity: u32,
    share: u32,
    start: i64,
    limits: Limits,
}

/// The terms, each from its word.
fn terms_of(words: [&str; 5]) -> Option<Terms> {
    let [capacity, share, start, message, partials] = words;
    Some(Terms {
        capacity: capacity.parse().ok()?,
        share: share.parse().ok()?,
        start: start.parse().ok()?,
        limits: Limits::new(message.parse().ok()?, partials.parse().ok()?)?,
    })
}

/// The number of a connection, or a moment.
fn number(word: &str) -> Result<u64, Stop> {
    word.parse().map_err(|_| USAGE)
}

/// The piece in the words `C M HEX`.
fn piece_in(alloc: Global, words: &str) -> Result<Event, Stop> {
    let (connection, words) = words.split_once(' ').ok_or(USAGE)?;
    let (moment, digits) = words.split_once(' ').ok_or(USAGE)?;
    let connection = number(connection)?;
    let moment = number(moment)?;
    match hex::decode(alloc, digits) {
        Ok(octets) => Ok(Event::Piece(connection, moment, octets)),
        Err(FromHexError::OutOfMemory) => Err(Stop::Memory),
        Err(_) => Err(USAGE),
    }
}

/// The event in a word.
fn event_in(alloc: Global, word: &str) -> Result<Event, Stop> {
    let (name, words) = word.split_once(' ').ok_or(USAGE)?;
    match name {
        "open" => Ok(Event::Opened(number(words)?)),
        "bytes" => piece_in(alloc, words),
        "close" => Ok(Event::Close(number(words)?)),
        "lost" => Ok(Event::Lost(number(words)?)),
        _ => Err(USAGE),
    }
}

/// The events in words, in order.
fn events_in(alloc: Global, words: &[&str]) -> Result<Vec<Event>, Stop> {
    let mut events = Vec::new(alloc);
    for word in words {
        events.push(event_in(alloc, word)?)?;
    }
    Ok(events)
}

/// Prints what was written for an event.
fn print_written(rt: &HostRuntime, written: &Written) -> Result<(), Stop> {
    if matches!(written.note, Note::Memory { .. }) {
        return Err(Stop::Memory);
    }
    if !written.octets.is_empty() {
        let connection = written.connection;
        let digits = hex::encode(rt.alloc(), &written.octets)?;
        println!(rt; "{connection} {digits}")?;
    }
    Ok(())
}

/// Plays events on a new server, and prints what is written.
fn print_played(
    rt: &HostRuntime,
    hasher: RandomState,
    terms: Terms,
    events: &[Event],
) -> Result<(), Stop> {
    let alloc = rt.alloc();
    let counter = Counter::new(alloc, terms.start)?;
    let retention = Retention {
        capacity: terms.capacity,
        share: terms.share,
    };
    let mut server = Server::new(alloc, counter, terms.limits, retention, hasher);
    let mut written = Vec::new(alloc);
    if play(alloc, &mut server, events, &mut written).is_err() {
        return Err(Stop::Memory);
    }
    for entry in &written {
        print_written(rt, entry)?;
    }
    println!(rt; "total {}", server.servant().total())?;
    Ok(())
}

/// Does what the words ask for.
pub(crate) fn run(rt: &HostRuntime, hasher: RandomState, words: &[&str]) -> Result<(), Stop> {
    let [capacity, share, start, message, partials, events @ ..] = words else {
        return Err(USAGE);
    };
    let terms = terms_of([*capacity, *share, *start, *message, *partials]).ok_or(USAGE)?;
    let events = events_in(rt.alloc(), events)?;
    print_played(rt, hasher, terms, events.as_slice())
}
