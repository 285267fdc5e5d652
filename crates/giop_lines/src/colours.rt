//! The colours of lines on a terminal (ECMA-48, select graphic rendition).

use crate::shown::Shown;
use giop_core::{Content, LocateStatus, ReplyStatus};
use std::alloc::{AllocError, Global};

/// What a line tells, which has its colour.
#[derive(Clone, Copy)]
pub(crate) enum Tone {
    /// A message of which nothing has to be said.
    Plain,
    /// What messages are of: a connection, an object, how a side closed.
    Frame,
    /// A request that repeats another.
    Repeat,
    /// An answer that leads on to another reference.
    Forward,
    /// An answer that is an exception, or says that the object is not known.
    Exception,
    /// What should not be there, or is missing.
    Fault,
}

/// What begins lines of a tone; nothing for plain ones.
fn beginning_of(tone: Tone) -> &'static str {
    match tone {
        Tone::Plain => "",
        Tone::Frame => "\x1b[1m",
        Tone::Repeat => "\x1b[33m",
        Tone::Forward => "\x1b[36m",
        Tone::Exception => "\x1b[35m",
        Tone::Fault => "\x1b[31m",
    }
}

/// What begins lines that stand below another, which are faint.
const BELOW: &str = "\x1b[2m";

/// What ends a colour.
const END: &str = "\x1b[0m";

/// The tone of a reply by its status.
fn tone_of_reply(status: Option<ReplyStatus>) -> Tone {
    match status {
        Some(ReplyStatus::NoException) => Tone::Plain,
        Some(ReplyStatus::UserException | ReplyStatus::SystemException) => Tone::Exception,
        Some(_) => Tone::Forward,
        None => Tone::Fault,
    }
}

/// The tone of the answer to a locate by its status.
fn tone_of_location(status: Option<LocateStatus>) -> Tone {
    match status {
        Some(LocateStatus::ObjectHere) => Tone::Plain,
        Some(LocateStatus::UnknownObject | LocateStatus::SystemException) => Tone::Exception,
        Some(_) => Tone::Forward,
        None => Tone::Fault,
    }
}

/// The tone of a message. An answer without a request is none that should be there.
pub(crate) fn tone_of(shown: &Shown) -> Tone {
    let has_request = shown.seen.tie.request.is_some();
    match &shown.seen.message.content {
        Content::Reply(_) | Content::LocateReply(_) if !has_request => Tone::Fault,
        Content::Reply(reply) => tone_of_reply(ReplyStatus::from_number(reply.status)),
        Content::LocateReply(reply) => tone_of_location(LocateStatus::from_number(reply.status)),
        Content::Error => Tone::Fault,
        Content::Request(_) if shown.seen.tie.repeats.is_some() => Tone::Repeat,
        Content::Cancel(_) => Tone::Repeat,
        _ => Tone::Plain,
    }
}

/// What begins a line: of those of a message by its tone, unless it stands below it or names an object.
fn beginning(tone: Tone, line: &str) -> &'static str {
    if line.starts_with(' ') {
        return BELOW;
    }
    if line.starts_with("object ") {
        return beginning_of(Tone::Frame);
    }
    beginning_of(tone)
}

/// The lines of a text, each in its colour.
pub(crate) fn coloured(alloc: Global, tone: Tone, text: &str) -> Result<String, AllocError> {
    let mut shown = String::with_capacity(alloc, text.len())?;
    for line in text.lines() {
        let beginning = beginning(tone, line);
        shown.push_str(beginning)?;
        shown.push_str(line)?;
        if !beginning.is_empty() {
            shown.push_str(END)?;
        }
        shown.push('\n')?;
    }
    Ok(shown)
}
