//! What is printed of a play.
//!
//! For each entry of what was written a line: its connection; how it ended, which is `done`, `refused`, or `lost HANDLED
//! ANSWERED` where a request was given up or memory ran out; and the messages. These are `reply ID` with the total, the
//! repository id of the exception, or the name, the minor code and the completion of the system exception; `located ID
//! STATUS`; `close`, and `error`. The line after these is `done`, `left DEEDS TAKEN` or `refused DEEDS WHY`.
//!
//! `counts` has each count that is not 0, after its name; `ending` has why a connection ended, or `none`.

use ft_orb::{Counts, DeedError, DeedsError, Ending, Note, Written};
use giop_core::{Body, Content, Header, Message, Reply, ReplyStatus, read_message};
use giop_text::{completion_name, exception_id, exception_name, system_exception, text_of};
use std::alloc::Global;
use std::io;
use std::io::Write;
use trials::{Stop, Wrong};

/// What was written is no message that is expected.
const ODD: Stop = Stop::Wrong(Wrong::Octets);

/// Prints a system exception.
fn print_system<W: Write>(body: &Body, out: &mut W) -> Result<(), Stop> {
    let system = system_exception(body).ok_or(ODD)?;
    let name = exception_name(system.id).ok_or(ODD)?;
    let completion = completion_name(system.completed);
    Ok(write!(out, " {name} {} {completion}", system.minor)?)
}

/// Prints a reply.
fn print_reply<W: Write>(alloc: Global, reply: &Reply, out: &mut W) -> Result<(), Stop> {
    write!(out, " reply {}", reply.request_id)?;
    match ReplyStatus::from_number(reply.status) {
        Some(ReplyStatus::NoException) => {
            let octets = reply.body.octets.first_chunk::<8>().ok_or(ODD)?;
            Ok(write!(out, " {}", i64::from_be_bytes(*octets))?)
        }
        Some(ReplyStatus::UserException) => {
            let id = exception_id(&reply.body).ok_or(ODD)?;
            Ok(write!(out, " {}", text_of(alloc, id)?)?)
        }
        _ => print_system(&reply.body, out),
    }
}

/// Prints a message.
fn print_message<W: Write>(alloc: Global, message: &Message, out: &mut W) -> Result<(), Stop> {
    match &message.content {
        Content::Reply(reply) => print_reply(alloc, reply, out),
        Content::LocateReply(reply) => {
            Ok(write!(out, " located {} {}", reply.request_id, reply.status)?)
        }
        Content::Close => Ok(write!(out, " close")?),
        Content::Error => Ok(write!(out, " error")?),
        _ => Err(ODD),
    }
}

/// The first message of octets, and what stands after it.
fn first_of(octets: &[u8]) -> Result<(Message<'_>, &[u8]), Stop> {
    let (head, after) = octets.split_first_chunk::<{ Header::LEN }>().ok_or(ODD)?;
    let header = Header::read(head).map_err(|_| ODD)?;
    let (after, others) = after.split_at_checked(header.size as usize).ok_or(ODD)?;
    let message = read_message(&header, after).map_err(|_| ODD)?;
    Ok((message, others))
}

/// Prints the messages that octets are.
fn print_messages<W: Write>(alloc: Global, octets: &[u8], out: &mut W) -> Result<(), Stop> {
    let mut left = octets;
    for _ in octets {
        if left.is_empty() {
            break;
        }
        let (message, others) = first_of(left)?;
        print_message(alloc, &message, out)?;
        left = others;
    }
    Ok(())
}

/// Prints how an entry ended.
fn print_note<W: Write>(note: Note, out: &mut W) -> io::Result<()> {
    match note {
        Note::Done => write!(out, "done"),
        Note::Refused => write!(out, "refused"),
        Note::Memory { handled, answered } => write!(out, "lost {handled} {answered}"),
    }
}

/// Prints the lines of what was written.
pub(crate) fn print_written<W: Write>(
    alloc: Global,
    written: &[Written],
    out: &mut W,
) -> Result<(), Stop> {
    for entry in written {
        write!(out, "{} ", entry.connection)?;
        print_note(entry.note, out)?;
        print_messages(alloc, &entry.octets, out)?;
        writeln!(out)?;
    }
    Ok(())
}

/// Prints how a play ended.
pub(crate) fn print_ended<W: Write>(ended: Result<(), DeedsError>, out: &mut W) -> io::Result<()> {
    let Err(error) = ended else {
        return writeln!(out, "done");
    };
    match error {
        DeedsError::Left { deeds, taken } => writeln!(out, "{error} {deeds} {taken}"),
        DeedsError::Refused { deeds, why } => match why {
            DeedError::Unparked(full) => writeln!(out, "{error} {deeds} {why} {full}"),
            _ => writeln!(out, "{error} {deeds} {why}"),
        },
    }
}

/// Prints what became of requests, counted.
pub(crate) fn print_counts<W: Write>(counts: &Counts, out: &mut W) -> io::Result<()> {
    write!(out, "counts")?;
    let named = [
        ("asked", counts.asked),
        ("repeated", counts.repeated),
        ("joined", counts.joined),
        ("expired", counts.expired),
        ("malformed", counts.malformed),
        ("invalid", counts.invalid),
        ("log_full", counts.log_full),
        ("share_full", counts.share_full),
        ("located", counts.located),
        ("dropped", counts.dropped),
        ("answered", counts.answered),
        ("parked", counts.parked),
        ("settled", counts.settled),
        ("given_up", counts.given_up),
        ("declined", counts.declined),
        ("withdrawn", counts.withdrawn),
    ];
    for (name, count) in &named {
        if *count > 0 {
            write!(out, " {name} {count}")?;
        }
    }
    writeln!(out)
}

/// Prints why a connection ended, if it is the one that did last.
pub(crate) fn print_ending<W: Write>(ending: Option<Ending>, out: &mut W) -> io::Result<()> {
    match ending {
        None => writeln!(out, "ending none"),
        Some(Ending::Faulty(fault)) => writeln!(out, "ending faulty {fault}"),
        Some(Ending::PeerClosed) => writeln!(out, "ending peer closed"),
        Some(Ending::PeerError) => writeln!(out, "ending peer error"),
        Some(Ending::Closed) => writeln!(out, "ending closed"),
        Some(Ending::GivenUp) => writeln!(out, "ending given up"),
        Some(Ending::Memory) => writeln!(out, "ending memory"),
    }
}
