//! Streams that an assembler is fed with, and messages and references that are read by themselves.
//!
//! The words are how many rounds the stream has, how many octets a piece has, and the kind of work: `request`
//! (the one where no word is), `cut` (eight cut messages that interleave), `large` (a megabyte) and `large_cut`
//! are fed to an assembler; of `read`, `reply` and `locate` each message is read by itself; `reference` parses a
//! text. What it gives is how many messages there were and a checksum of their fields. With pieces of 0 octets it
//! only makes the stream.

use crate::messages::{LOCATE, REFERENCE, REPLY, REQUEST};
use crate::report::{Report, mixed};
use crate::stop::Stop;
use crate::words::number;
use giop_core::{Content, Header, Message, Target, read_message};
use giop_frames::{Assembler, Cuts, Limits};
use ior_core::parse_text;
use std::alloc::{AllocError, Global};

/// How the words go.
const USAGE: &str =
    "usage: benches frames COUNT PIECE [request|cut|large|large_cut|read|reply|locate|reference]";

/// A kind of work.
#[derive(Clone, Copy)]
enum Kind {
    Request,
    Cut,
    Large,
    LargeCut,
    Read,
    Reply,
    Locate,
    Reference,
}

impl Kind {
    fn named(word: &str) -> Option<Kind> {
        match word {
            "request" => Some(Kind::Request),
            "cut" => Some(Kind::Cut),
            "large" => Some(Kind::Large),
            "large_cut" => Some(Kind::LargeCut),
            "read" => Some(Kind::Read),
            "reply" => Some(Kind::Reply),
            "locate" => Some(Kind::Locate),
            "reference" => Some(Kind::Reference),
            _ => None,
        }
    }
}

/// The limits under which the stream is read.
const LIMITS: Limits = Limits {
    message: 1_048_576,
    partials: 8,
    cuts: Cuts::Aligned,
};

/// How many messages completed, and a checksum of their fields.
#[derive(Clone, Copy)]
struct Tally {
    messages: u64,
    sum: u64,
}

/// A tally with one message more.
fn added(tally: Tally, message: &Message) -> Tally {
    let (a, b, c) = match &message.content {
        Content::Request(request) => (
            u64::from(request.request_id),
            request.operation.len(),
            request.body.octets.len(),
        ),
        Content::Reply(reply) => (
            u64::from(reply.request_id),
            reply.status as usize,
            reply.body.octets.len(),
        ),
        Content::LocateRequest(request) => match &request.target {
            Target::Key(key) => (u64::from(request.request_id), key.len(), 0),
            _ => (0, 0, 0),
        },
        _ => (0, 0, 0),
    };
    Tally {
        messages: tally.messages.wrapping_add(1),
        sum: mixed(mixed(mixed(tally.sum, a), b as u64), c as u64),
    }
}

/// The frame of a message that is cut: its first one, and those of its Fragments.
const FIRST: u8 = 0;

const FRAGMENT: u8 = 7;

/// Appends a frame of 1.2: its header, the request id, octets after it, and zeros up to a size.
fn put_frame(
    more: bool,
    kind: u8,
    size: u32,
    id: u32,
    after: &[u8],
    stream: &mut Vec<u8>,
) -> Result<(), AllocError> {
    let flags = if more { 2 } else { 0 };
    let zeros = (size as usize)
        .saturating_sub(after.len())
        .saturating_sub(16);
    stream.extend_from_slice(&[0x47, 0x49, 0x4f, 0x50, 1, 2, flags, kind])?;
    stream.extend_from_slice(&size.saturating_sub(12).to_be_bytes())?;
    stream.extend_from_slice(&id.to_be_bytes())?;
    stream.extend_from_slice(after)?;
    for _ in 0..zeros {
        stream.push(0)?;
    }
    Ok(())
}

/// Appends a frame of each of eight messages that are cut into four.
fn put_turn(turn: u32, stream: &mut Vec<u8>) -> Result<(), AllocError> {
    for id in 0..8 {
        match turn {
            0 => put_frame(true, FIRST, 256, id, &REQUEST[16..80], stream)?,
            3 => put_frame(false, FRAGMENT, 256, id, &[], stream)?,
            _ => put_frame(true, FRAGMENT, 256, id, &[], stream)?,
        }
    }
    Ok(())
}

/// Appends eight messages that are cut, and interleave.
fn put_cut(stream: &mut Vec<u8>) -> Result<(), AllocError> {
    for turn in 0..4 {
        put_turn(turn, stream)?;
    }
    Ok(())
}

/// Appends a message of almost a megabyte that is cut.
fn put_large_cut(stream: &mut Vec<u8>) -> Result<(), AllocError> {
    put_frame(true, FIRST, 4096, 5, &REQUEST[16..80], stream)?;
    for _ in 0..254 {
        put_frame(true, FRAGMENT, 4096, 5, &[], stream)?;
    }
    put_frame(false, FRAGMENT, 4096, 5, &[], stream)
}

/// Appends one round of a kind of stream. A reference has no stream.
fn put_round(kind: Kind, stream: &mut Vec<u8>) -> Result<(), AllocError> {
    match kind {
        Kind::Request | Kind::Read => stream.extend_from_slice(&REQUEST),
        Kind::Cut => put_cut(stream),
        Kind::Large => put_frame(false, FIRST, 1_048_576, 5, &REQUEST[16..80], stream),
        Kind::LargeCut => put_large_cut(stream),
        Kind::Reply => stream.extend_from_slice(&REPLY),
        Kind::Locate => stream.extend_from_slice(&LOCATE),
        Kind::Reference => Ok(()),
    }
}

/// A stream of so many rounds.
#[inline(never)]
fn stream_of(alloc: Global, kind: Kind, count: u32) -> Result<Vec<u8>, AllocError> {
    let mut stream = Vec::new(alloc);
    for _ in 0..count {
        put_round(kind, &mut stream)?;
    }
    Ok(stream)
}

/// Reads each message of a stream by itself.
#[inline(never)]
fn read_each(stream: &[u8]) -> Option<Tally> {
    let mut tally = Tally {
        messages: 0,
        sum: 0,
    };
    let mut left = stream;
    for _ in 0..u64::MAX {
        let Some(head) = left.first_chunk::<{ Header::LEN }>() else {
            return Some(tally);
        };
        let Ok(header) = Header::read(head) else {
            return None;
        };
        let (_, after) = left.split_at(Header::LEN);
        let (octets, others) = after.split_at_checked(header.size as usize)?;
        let read = read_message(&header, octets);
        match &read {
            Ok(message) => tally = added(tally, message),
            Err(_) => return None,
        }
        left = others;
    }
    None
}

/// Parses a reference so many times.
#[inline(never)]
fn references(alloc: Global, count: u32) -> Option<Tally> {
    let mut tally = Tally {
        messages: 0,
        sum: 0,
    };
    for _ in 0..count {
        let Ok(ior) = parse_text(alloc, REFERENCE) else {
            return None;
        };
        let first = match ior.profiles.as_slice().first() {
            Some(profile) => profile.octets.len(),
            None => 0,
        };
        let sum = mixed(
            mixed(tally.sum, ior.type_id.len() as u64),
            ior.profiles.len() as u64,
        );
        tally = Tally {
            messages: tally.messages.wrapping_add(1),
            sum: mixed(sum, first as u64),
        };
    }
    Some(tally)
}

/// Feeds a piece to its end or the first fault.
fn feed_piece(assembler: &mut Assembler, piece: &[u8], before: Tally) -> Option<Tally> {
    let mut tally = before;
    let mut left = piece;
    for _ in 0..u64::MAX {
        if left.is_empty() {
            return Some(tally);
        }
        let Ok(taken) = assembler.feed(left) else {
            return None;
        };
        if let Some(message) = assembler.message() {
            tally = added(tally, &message);
        }
        left = &left[taken..];
    }
    None
}

/// Feeds a stream in pieces of `size` octets.
#[inline(never)]
fn drive(alloc: Global, stream: &[u8], size: usize) -> Option<Tally> {
    let mut assembler = Assembler::new(alloc, LIMITS);
    let mut tally = Tally {
        messages: 0,
        sum: 0,
    };
    let mut left = stream;
    for _ in 0..u64::MAX {
        if left.is_empty() {
            return Some(tally);
        }
        let (piece, others) = left.split_at(size.min(left.len()));
        tally = feed_piece(&mut assembler, piece, tally)?;
        left = others;
    }
    None
}

/// What the words ask for.
#[derive(Clone, Copy)]
struct Task {
    count: u32,
    size: u32,
    kind: Kind,
}

/// A task, each part of it from its word.
fn task_from(count: &str, size: &str, kind: &str) -> Option<Task> {
    Some(Task {
        count: number(count)?,
        size: number(size)?,
        kind: Kind::named(kind)?,
    })
}

/// The task that the words are.
fn task_of(words: &[&str]) -> Option<Task> {
    match *words {
        [count, size] => task_from(count, size, "request"),
        [count, size, kind] => task_from(count, size, kind),
        _ => None,
    }
}

/// Does a kind of work.
fn work(alloc: Global, task: Task, stream: &[u8]) -> Option<Tally> {
    match task.kind {
        Kind::Read | Kind::Reply | Kind::Locate => read_each(stream),
        Kind::Reference => references(alloc, task.count),
        Kind::Request | Kind::Cut | Kind::Large | Kind::LargeCut => {
            drive(alloc, stream, task.size as usize)
        }
    }
}

/// What a task gives over its stream.
fn report(alloc: Global, task: Task, stream: &[u8]) -> Option<Report> {
    if task.size == 0 {
        return Some(Report::Stream {
            octets: stream.len(),
        });
    }
    let tally = work(alloc, task, stream)?;
    Some(Report::Messages {
        count: tally.messages,
        sum: tally.sum,
    })
}

/// Does what the words ask for.
pub(crate) fn run(alloc: Global, words: &[&str]) -> Result<Report, Stop> {
    let task = task_of(words).ok_or(Stop::Words(USAGE))?;
    let stream = stream_of(alloc, task.kind, task.count)?;
    report(alloc, task, stream.as_slice()).ok_or(Stop::Fault)
}
