//! Lists of deeds in the lines of an input.
//!
//! The line `engine PARKED OF_ONE JOINED CAPACITY SHARE` makes a new engine: how many requests may be parked, in all and
//! of one connection, how many may wait with one beside the last who came, and how many outcomes are kept, in all and of
//! one client. Each of these lines is a deed, and the line `play` plays those since the last one, by one call. C is a
//! connection, and NOW a moment.
//!
//! - `opened C`, `close C`, `lost C`
//! - `piece C NOW HEX`: octets in hexadecimal digits
//! - `asks C NOW REQUEST,..`: requests as `requests` says, with a comma between them
//! - `answer OUTCOME`, `park`, `give_up`, `settle NUMBER OUTCOME`: an outcome is a total, `overflow`, or `unknown`, the
//!   system exception with the minor code 0 and COMPLETED_MAYBE
//! - `tell OUTCOME`, `tell_parked NUMBER OUTCOME`: the same, and nothing is kept
//! - `decline`, `withdraw NUMBER`: with TRANSIENT and the minor code 0
//!
//! `hide` takes the counter away from what is on offer and `show` offers it again, unless a request of it is parked; `drop`
//! takes it away also then; `bound N` allows the ids of clients N octets; `first` has the owner be asked first, and `last` no
//! longer. While a request waits nothing of this changes.
//!
//! `refuse` and `refuse NUMBER` are `decline` and `withdraw` with what would refuse the request that waits, or is parked. Where
//! nothing would it prints `no`, and is no deed.
//!
//! The line `counts` prints the engine's counts, `ending C` why a connection ended, and `heard` what became of each request
//! since the last one. `tick NOW` tells the engine a moment, and prints its moment, how many outcomes it keeps, how many of the client
//! `A`, and the first expiration; while a request waits it is told none.
//!
//! There is one space between words, and numbers are in decimal digits. Empty lines, and lines that begin with `#`, are
//! printed as they stand.

use crate::deeds::{deed_in, number};
use crate::heard::HeardCounter;
use crate::printing::{print_counts, print_ended, print_ending, print_written};
use counter::Counter;
use ft_log::{Retention, SystemName};
use ft_orb::{Deed, Engine, Places, play_deeds};
use giop_frames::Limits;
use std::alloc::Global;
use std::hash::RandomState;
use std::io::{BufRead, BufReader, BufWriter, Read, Write};
use trials::{Stop, ulong};

/// An engine, and the deeds that are to be played on it.
#[derive(Drop)]
struct Player {
    engine: Engine<HeardCounter>,
    deeds: Vec<Deed>,
}

/// A new engine with the numbers of words.
fn player_in(alloc: Global, hasher: RandomState, words: &str) -> Result<Player, Stop> {
    let mut numbers = Vec::new(alloc);
    for word in words.split(' ') {
        numbers.push(ulong(word)?)?;
    }
    let [parked, of_one, joined, capacity, share] = *numbers.as_slice() else {
        return Err(Stop::BadLine);
    };
    let places = Places {
        parked,
        of_one,
        joined,
    };
    let retention = Retention { capacity, share };
    let counter = HeardCounter::new(alloc, Counter::new(alloc, 0)?);
    Ok(Player {
        engine: Engine::new(alloc, counter, Limits::default(), retention, places, hasher),
        deeds: Vec::new(alloc),
    })
}

/// Plays the deeds, prints what came of them, and leaves none.
fn play<W: Write>(alloc: Global, player: &mut Player, out: &mut W) -> Result<(), Stop> {
    let mut written = Vec::new(alloc);
    let ended = play_deeds(alloc, &mut player.engine, &player.deeds, &mut written);
    player.deeds.clear();
    print_written(alloc, &written, out)?;
    Ok(print_ended(ended, out)?)
}

/// Tells an engine a moment, and prints what became of it.
fn tick<W: Write>(engine: &mut Engine<HeardCounter>, now: u64, out: &mut W) -> Result<(), Stop> {
    if engine.asked().is_some() {
        return Ok(writeln!(out, "asking")?);
    }
    engine.tick(now);
    let (moment, kept, own) = (engine.moment(), engine.kept_len(), engine.held_by(b"A"));
    write!(out, "at {moment} keeps {kept}, {own} of A")?;
    match engine.next_expiry() {
        Some(least) => Ok(writeln!(out, ", till {least}")?),
        None => Ok(writeln!(out)?),
    }
}

/// Offers the counter, or hides it.
fn offer<W: Write>(
    engine: &mut Engine<HeardCounter>,
    is_hidden: bool,
    out: &mut W,
) -> Result<(), Stop> {
    if engine.asked().is_some() {
        return Ok(writeln!(out, "asking")?);
    }
    match engine.change_object(b"c", |counter| counter.is_hidden = is_hidden) {
        Ok(()) => Ok(()),
        Err(why) => Ok(writeln!(out, "{why}")?),
    }
}

/// Takes the counter away, also where a request of it is parked.
fn drop_counter<W: Write>(engine: &mut Engine<HeardCounter>, out: &mut W) -> Result<(), Stop> {
    if engine.asked().is_some() {
        return Ok(writeln!(out, "asking")?);
    }
    engine.change(|counter| counter.is_hidden = true);
    Ok(())
}

/// Bounds the ids of clients.
fn bound<W: Write>(
    engine: &mut Engine<HeardCounter>,
    octets: u64,
    out: &mut W,
) -> Result<(), Stop> {
    if engine.asked().is_some() {
        return Ok(writeln!(out, "asking")?);
    }
    engine.bound_client_ids(octets as usize);
    Ok(())
}

/// Has the owner be asked first, or not.
fn ask_first<W: Write>(
    engine: &mut Engine<HeardCounter>,
    is_first: bool,
    out: &mut W,
) -> Result<(), Stop> {
    if engine.asked().is_some() {
        return Ok(writeln!(out, "asking")?);
    }
    engine.ask_first(is_first);
    Ok(())
}

/// What would refuse the request that waits, if one waits and anything would.
fn refusal(engine: &Engine<HeardCounter>) -> Option<SystemName> {
    engine.asked()?.refused
}

/// .. or the one that is parked under a number.
fn parked_refusal(engine: &Engine<HeardCounter>, number: u64) -> Option<SystemName> {
    engine.parked(number)?.refused
}

/// Refuses the request that waits, or the one that is parked under the number of a word, as it would be.
fn refuse<W: Write>(player: &mut Player, word: Option<&str>, out: &mut W) -> Result<(), Stop> {
    let deed = match word {
        None => refusal(&player.engine).map(|name| Deed::Decline(name, 0)),
        Some(word) => {
            let number = number(word)?;
            parked_refusal(&player.engine, number).map(|name| Deed::Withdraw(number, name, 0))
        }
    };
    match deed {
        Some(deed) => Ok(player.deeds.push(deed)?),
        None => Ok(writeln!(out, "no")?),
    }
}

/// Takes a line for an engine.
fn take_deed<W: Write>(
    alloc: Global,
    line: &str,
    player: &mut Player,
    out: &mut W,
) -> Result<(), Stop> {
    if let Some(word) = line.strip_prefix("ending ") {
        let connection = number(word)?;
        return Ok(print_ending(player.engine.ending(connection), out)?);
    }
    if let Some(word) = line.strip_prefix("tick ") {
        return tick(&mut player.engine, number(word)?, out);
    }
    if let Some(word) = line.strip_prefix("bound ") {
        return bound(&mut player.engine, number(word)?, out);
    }
    if let Some(word) = line.strip_prefix("refuse ") {
        return refuse(player, Some(word), out);
    }
    match line {
        "play" => play(alloc, player, out),
        "first" => ask_first(&mut player.engine, true, out),
        "last" => ask_first(&mut player.engine, false, out),
        "refuse" => refuse(player, None, out),
        "hide" => offer(&mut player.engine, true, out),
        "show" => offer(&mut player.engine, false, out),
        "drop" => drop_counter(&mut player.engine, out),
        "counts" => Ok(print_counts(&player.engine.counts(), out)?),
        "heard" => Ok(player.engine.catalogue().print(out)?),
        _ => Ok(player.deeds.push(deed_in(alloc, line)?)?),
    }
}

/// Takes a line.
fn take_line<W: Write>(
    alloc: Global,
    hasher: RandomState,
    line: &str,
    player: &mut Option<Player>,
    out: &mut W,
) -> Result<(), Stop> {
    if line.is_empty() || line.starts_with('#') {
        return Ok(writeln!(out, "{line}")?);
    }
    if let Some(words) = line.strip_prefix("engine ") {
        *player = Some(player_in(alloc, hasher, words)?);
        return Ok(());
    }
    match player {
        Some(player) => take_deed(alloc, line, player, out),
        None => Err(Stop::BadLine),
    }
}

/// Plays the lists of deeds of an input, and prints what comes of each.
pub(crate) fn play_lines<R: Read, W: Write>(
    alloc: Global,
    hasher: RandomState,
    input: &mut R,
    out: &mut W,
) -> Result<(), Stop> {
    let mut out = BufWriter::new(alloc, out)?;
    let mut player = None;
    for line in BufReader::new(alloc, input)?.lines(alloc) {
        take_line(alloc, hasher, &line?, &mut player, &mut out)?;
    }
    Ok(out.flush()?)
}
