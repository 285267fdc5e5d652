//! The script of events, a line for each.

ghost use Rattle.std.specs.Prelude.{IfErr};
ghost use Rattle.giop_run.specs.Script.{CountsFromOne};

use digits::decode;
use ft_orb::Event;
use hex::FromHexError;
use std::alloc::{AllocError, Global};

/// Why a script was not read.
#[derive(Clone, Copy, Debug)]
pub enum ScriptError {
    /// The line with that number, counted from 1, is no event.
    BadLine(u64),
    /// An allocation failed.
    Memory,
}

/// Why a line gave no event: it is none, or an allocation failed.
#[derive(Clone, Copy)]
pub(crate) enum EventError {
    Bad,
    Memory,
}

/// A number in decimal digits alone.
pub(crate) fn decimal(word: &str) -> Result<u64, EventError> {
    if !word.bytes().all(|b| b.is_ascii_digit()) {
        return Err(EventError::Bad);
    }
    match word.parse() {
        Ok(number) => Ok(number),
        Err(_) => Err(EventError::Bad),
    }
}

/// Octets in hexadecimal digits of either case, at least one octet.
fn octets_in(alloc: Global, word: &str) -> Result<Vec<u8>, EventError> {
    if word.is_empty() {
        return Err(EventError::Bad);
    }
    match decode(alloc, word.as_bytes()) {
        Ok(octets) => Ok(octets),
        Err(FromHexError::OutOfMemory) => Err(EventError::Memory),
        Err(_) => Err(EventError::Bad),
    }
}

/// The piece in the words `C M HEX`.
fn piece_in(alloc: Global, words: &str) -> Result<Event, EventError> {
    let (connection, words) = words.split_once(' ').ok_or(EventError::Bad)?;
    let (moment, digits) = words.split_once(' ').ok_or(EventError::Bad)?;
    let connection = decimal(connection)?;
    let moment = decimal(moment)?;
    Ok(Event::Piece(connection, moment, octets_in(alloc, digits)?))
}

/// The event in a line.
pub(crate) fn event_in(alloc: Global, line: &str) -> Result<Event, EventError> {
    let (word, words) = line.split_once(' ').ok_or(EventError::Bad)?;
    match word {
        "open" => Ok(Event::Opened(decimal(words)?)),
        "bytes" => piece_in(alloc, words),
        "close" => Ok(Event::Close(decimal(words)?)),
        "lost" => Ok(Event::Lost(decimal(words)?)),
        _ => Err(EventError::Bad),
    }
}

/// Appends the event in a line, unless the line is passed over.
fn put_event(alloc: Global, line: &str, events: &mut Vec<Event>) -> Result<(), EventError> {
    if line.is_empty() || line.starts_with('#') {
        return Ok(());
    }
    let event = event_in(alloc, line)?;
    match events.push(event) {
        Ok(()) => Ok(()),
        Err(_) => Err(EventError::Memory),
    }
}

/// The events of a script, in order.
///
/// A line is `open C`, `bytes C M HEX`, `close C` or `lost C`, with one space between words: C is
/// the number of a connection and M a moment, both in decimal digits, and HEX octets in hexadecimal
/// digits. A CR before the LF is dropped. Empty lines and lines that begin with `#` are passed over.
pub fn read_script(alloc: Global, script: &str) -> Result<Vec<Event>, ScriptError>
    ensures { IfErr result CountsFromOne }
{
    let mut events = Vec::new(alloc);
    for (i, line) in script.lines().enumerate() {
        match put_event(alloc, line, &mut events) {
            Ok(()) => {}
            Err(EventError::Bad) => return Err(ScriptError::BadLine(i as u64 + 1)),
            Err(EventError::Memory) => return Err(ScriptError::Memory),
        }
    }
    Ok(events)
}
