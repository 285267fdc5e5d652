//! A server of one counter that is fed with a stream of messages, or an engine whose owner keeps the counter, and with `later`
//! parks each request, and performs those that are parked once they are as many as the first word says.
//!
//! The words are how many messages the stream has, how many octets a piece has, and of what kind the messages
//! are: `add` without FT_REQUEST (the one where no word is), `repeat` with one key, or `locate`. What it gives is
//! how many octets were written, a checksum of them, and the total. With pieces of 0 octets it only makes the stream.
//!
//! Of the other kinds each message has a key of its own and is a piece of its own. The fourth word is how many outcomes
//! the server keeps, a power of two from 1,024 (the one where no word is) to 65,536, and the fifth how many of each client
//! (as many where no word is: clients are not counted). They expire as `expiry` says. Of `rising` and `scattered` all
//! messages are one client's, of `clients` and `together` each is of a client of its own, whose id has 32 octets, and
//! `clients` expire as `rising` do. Of `together` it also gives how many nanoseconds the last message took.

use crate::expiry::{Expiry, moments};
use crate::messages::{ADD, CLIENT_REQUEST, LOCATE, REQUEST};
use crate::report::{Report, mixed};
use crate::serving::{Deferred, Owned, Serving};
use crate::stop::Stop;
use crate::words::number;
use counter::Counter;
use ft_log::Retention;
use ft_orb::{Engine, Places, Server};
use giop_frames::Limits;
use std::alloc::{AllocError, Global};
use std::hash::RandomState;
use std::ops::Range;
use std::time::Instant;

/// How the words go.
const USAGE: &str =
    "usage: benches server|engine|(later PARKED) COUNT PIECE [add|repeat|locate|rising|scattered|clients|together [ENTRIES [SHARE]]]";

/// A kind of messages.
#[derive(Clone, Copy)]
enum Kind {
    /// The same message again and again.
    Same(&'static [u8]),
    /// Requests with a key of their own.
    Keyed(Keys),
    /// The same, the last of them by a clock.
    Timed(Keys),
}

/// Of requests with a key of their own: how their outcomes expire, and whether all are one client's.
#[derive(Clone, Copy)]
struct Keys {
    expiry: Expiry,
    is_one_client: bool,
}

/// The keys of one client.
fn of_one(expiry: Expiry) -> Keys {
    Keys {
        expiry,
        is_one_client: true,
    }
}

/// Keys each of a client of its own.
fn of_each(expiry: Expiry) -> Keys {
    Keys {
        expiry,
        is_one_client: false,
    }
}

impl Kind {
    fn named(word: &str) -> Option<Kind> {
        match word {
            "add" => Some(Kind::Same(&ADD)),
            "repeat" => Some(Kind::Same(&REQUEST)),
            "locate" => Some(Kind::Same(&LOCATE)),
            "rising" => Some(Kind::Keyed(of_one(Expiry::Rising))),
            "scattered" => Some(Kind::Keyed(of_one(Expiry::Scattered))),
            "clients" => Some(Kind::Keyed(of_each(Expiry::Rising))),
            "together" => Some(Kind::Timed(of_each(Expiry::Together))),
            _ => None,
        }
    }
}

/// How many octets were written, and a checksum of them.
#[derive(Clone, Copy)]
struct Tally {
    octets: u64,
    sum: u64,
}

/// A tally with what was written for a piece.
fn added(tally: Tally, written: &[u8]) -> Tally {
    let last = written.last().copied().unwrap_or(0);
    Tally {
        octets: tally.octets.wrapping_add(written.len() as u64),
        sum: mixed(tally.sum, u64::from(last)),
    }
}

/// What a server gave before anything was written.
const NOTHING: Tally = Tally { octets: 0, sum: 0 };

/// Puts a key of its own and its expiration into a Request.
fn put_key(message: &mut [u8; 84], index: u32, expiration: u64) {
    message[64..68].copy_from_slice(&index.wrapping_add(1).to_be_bytes());
    message[68..76].copy_from_slice(&expiration.to_be_bytes());
}

/// Puts a client of its own, a number and its expiration into a Request. The client's id begins with eight letters, one for
/// each half of an octet of the number.
fn put_client(message: &mut [u8; 116], index: u32, expiration: u64) {
    let high = (index >> 4) & 0x0f0f_0f0f | 0x4040_4040;
    let low = index & 0x0f0f_0f0f | 0x4040_4040;
    message[60..64].copy_from_slice(&high.to_be_bytes());
    message[64..68].copy_from_slice(&low.to_be_bytes());
    message[96..100].copy_from_slice(&index.wrapping_add(1).to_be_bytes());
    message[100..108].copy_from_slice(&expiration.to_be_bytes());
}

/// Feeds the messages of these numbers, each with a key of its own, on connection 1; or only makes them.
fn drive_keyed<S: Serving>(
    alloc: Global,
    server: &mut S,
    numbers: Range<u32>,
    task: Task,
    keys: Keys,
    before: Tally,
) -> Option<Tally> {
    let mut tally = before;
    let mut out = Vec::new(alloc);
    let mut usual = REQUEST;
    let mut long = CLIENT_REQUEST;
    for index in numbers {
        let (moment, until) = moments(keys.expiry, task.entries, index);
        let message: &[u8] = if keys.is_one_client {
            put_key(&mut usual, index, until);
            &usual
        } else {
            put_client(&mut long, index, until);
            &long
        };
        if task.size > 0 {
            out.clear();
            server.feed(moment, message, &mut out)?;
            tally = added(tally, &out);
        } else {
            tally = added(tally, message);
        }
    }
    Some(tally)
}

/// A stream of `count` times a message.
fn stream_of(alloc: Global, count: u32, message: &[u8]) -> Result<Vec<u8>, AllocError> {
    let mut stream = Vec::with_capacity(alloc, (count as usize).saturating_mul(message.len()))?;
    for _ in 0..count {
        stream.extend_from_slice(message)?;
    }
    Ok(stream)
}

/// Feeds a stream in pieces of `size` octets, on connection 1 at the moment 50.
fn drive<S: Serving>(alloc: Global, server: &mut S, stream: &[u8], size: usize) -> Option<Tally> {
    let mut tally = NOTHING;
    let mut out = Vec::new(alloc);
    let mut left = stream;
    for _ in 0..u64::MAX {
        if left.is_empty() {
            return Some(tally);
        }
        let (piece, others) = left.split_at(size.min(left.len()));
        out.clear();
        server.feed(50, piece, &mut out)?;
        tally = added(tally, &out);
        left = others;
    }
    None
}

/// Feeds `count` times a message; or only makes the stream.
fn drive_same<S: Serving>(
    alloc: Global,
    server: &mut S,
    count: u32,
    size: u32,
    message: &[u8],
) -> Result<Tally, Stop> {
    let stream = stream_of(alloc, count, message)?;
    if size == 0 {
        return Ok(Tally {
            octets: stream.len() as u64,
            sum: 0,
        });
    }
    drive(alloc, server, stream.as_slice(), size as usize).ok_or(Stop::Memory)
}

/// What the words ask for.
#[derive(Clone, Copy)]
struct Task {
    count: u32,
    size: u32,
    kind: Kind,
    entries: u32,
    share: u32,
}

/// How many outcomes the server keeps, as a word says.
fn entries_of(word: &str) -> Option<u32> {
    let entries = number(word)?;
    let is_right = entries.is_power_of_two() && (1024..=65_536).contains(&entries);
    is_right.then_some(entries)
}

/// A task, each part of it from its word.
fn task_from(count: &str, size: &str, kind: &str, entries: &str, share: &str) -> Option<Task> {
    Some(Task {
        count: number(count)?,
        size: number(size)?,
        kind: Kind::named(kind)?,
        entries: entries_of(entries)?,
        share: number(share)?,
    })
}

/// The task that the words are.
fn task_of(words: &[&str]) -> Option<Task> {
    match *words {
        [count, size] => task_from(count, size, "add", "1024", "1024"),
        [count, size, kind] => task_from(count, size, kind, "1024", "1024"),
        [count, size, kind, entries] => task_from(count, size, kind, entries, entries),
        [count, size, kind, entries, share] => task_from(count, size, kind, entries, share),
        _ => None,
    }
}

/// Feeds messages with a key of their own, the last of them by a clock.
fn work_timed<S: Serving>(
    rt: &HostRuntime,
    server: &mut S,
    task: Task,
    keys: Keys,
) -> Result<Report, Stop> {
    let alloc = rt.alloc();
    let last = task.count.saturating_sub(1);
    let before = drive_keyed(alloc, server, 0..last, task, keys, NOTHING).ok_or(Stop::Memory)?;
    let start = Instant::now(rt)?;
    let tally = drive_keyed(alloc, server, last..task.count, task, keys, before).ok_or(
        Stop::Memory,
    )?;
    let took = start.elapsed(rt)?;
    Ok(Report::Timed {
        octets: tally.octets,
        sum: tally.sum,
        total: server.total(),
        last: took.as_nanos(),
    })
}

/// Feeds the messages of a task.
fn work<S: Serving>(rt: &HostRuntime, server: &mut S, task: Task) -> Result<Report, Stop> {
    let alloc = rt.alloc();
    let tally = match task.kind {
        Kind::Same(message) => drive_same(alloc, server, task.count, task.size, message)?,
        Kind::Keyed(keys) => {
            drive_keyed(alloc, server, 0..task.count, task, keys, NOTHING).ok_or(Stop::Memory)?
        }
        Kind::Timed(keys) => return work_timed(rt, server, task, keys),
    };
    Ok(Report::Answers {
        octets: tally.octets,
        sum: tally.sum,
        total: server.total(),
    })
}

/// A server of a counter from 0 that keeps so many outcomes, and whose connection 1 is open.
fn new_server(alloc: Global, hasher: RandomState, task: Task) -> Result<Server<Counter>, Stop> {
    let counter = Counter::new(alloc, 0)?;
    let retention = Retention {
        capacity: task.entries,
        share: task.share,
    };
    let mut server = Server::new(alloc, counter, Limits::default(), retention, hasher);
    match server.connect(1) {
        Ok(()) => Ok(server),
        Err(_) => Err(Stop::Memory),
    }
}

/// An engine that keeps so many outcomes, with so many places, whose connection 1 is open, and whose owner counts from 0.
fn new_engine(
    alloc: Global,
    hasher: RandomState,
    task: Task,
    places: Places,
) -> Result<Owned, Stop> {
    let catalogue = Counter::new(alloc, 0)?;
    let retention = Retention {
        capacity: task.entries,
        share: task.share,
    };
    let mut engine = Engine::new(
        alloc,
        catalogue,
        Limits::default(),
        retention,
        places,
        hasher,
    );
    match engine.connect(1) {
        Ok(()) => Ok(Owned { engine, total: 0 }),
        Err(_) => Err(Stop::Memory),
    }
}

/// What a task gives on a new server.
fn serve(rt: &HostRuntime, hasher: RandomState, task: Task) -> Result<Report, Stop> {
    let mut server = new_server(rt.alloc(), hasher, task)?;
    work(rt, &mut server, task)
}

/// What a task gives on a new engine.
fn own(rt: &HostRuntime, hasher: RandomState, task: Task) -> Result<Report, Stop> {
    let mut owned = new_engine(rt.alloc(), hasher, task, Places::none())?;
    work(rt, &mut owned, task)
}

/// The same, where so many requests are parked at a time.
fn defer(rt: &HostRuntime, hasher: RandomState, task: Task, most: u32) -> Result<Report, Stop> {
    let places = Places {
        parked: most,
        of_one: most,
        joined: 0,
    };
    let mut deferred = Deferred {
        owned: new_engine(rt.alloc(), hasher, task, places)?,
        parked: Vec::new(rt.alloc()),
        most: most as usize,
    };
    work(rt, &mut deferred, task)
}

/// Does what the words ask for, on a server.
pub(crate) fn run(rt: &HostRuntime, hasher: RandomState, words: &[&str]) -> Result<Report, Stop> {
    match task_of(words) {
        Some(task) => serve(rt, hasher, task),
        None => Err(Stop::Words(USAGE)),
    }
}

/// The same on an engine whose owner performs.
pub(crate) fn run_owned(
    rt: &HostRuntime,
    hasher: RandomState,
    words: &[&str],
) -> Result<Report, Stop> {
    match task_of(words) {
        Some(task) => own(rt, hasher, task),
        None => Err(Stop::Words(USAGE)),
    }
}

/// The same on an engine whose owner parks as many requests as the first word says before it performs them.
pub(crate) fn run_later(
    rt: &HostRuntime,
    hasher: RandomState,
    words: &[&str],
) -> Result<Report, Stop> {
    let [parked, others @ ..] = words else {
        return Err(Stop::Words(USAGE));
    };
    match (number(parked), task_of(others)) {
        (Some(most), Some(task)) => defer(rt, hasher, task, most),
        _ => Err(Stop::Words(USAGE)),
    }
}
