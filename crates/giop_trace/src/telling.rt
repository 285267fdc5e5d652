//! What is said of messages: which lines are printed of those that are asked for, and what is counted.

use crate::asked::{Asked, Request};
use crate::choice::{Chooser, key_in};
use crate::open::Open;
use crate::sink::Sink;
use crate::stop::Stop;
use crate::values::values_in;
use giop_core::{Body, Content, LocateStatus, ReplyStatus};
use giop_lines::{Called, Caught, Counts, Objects, Printer, Shown, Summary, time_between};
use giop_tap::Seen;
use giop_text::{exception_id, exception_name, system_exception};
use giop_types::Table;
use std::alloc::{AllocError, Global};
use std::io::Write;

/// What becomes of the lines of a message.
#[derive(Clone, Copy)]
enum Fate {
    /// They are printed.
    Print,
    /// They are kept at the request of this number, which is printed or not by its answer.
    Keep(u64),
    /// They are printed behind those that are kept at the request of this number.
    Release(u64),
    /// They are not printed.
    Drop,
}

/// What is printed and counted of messages so far.
#[derive(Drop)]
pub(crate) struct Teller {
    alloc: Global,
    pub printer: Printer,
    objects: Objects,
    asked: Asked,
    pub chooser: Chooser,
    /// What is counted of calls, where it is that what is printed, and no messages.
    summary: Option<Summary>,
    /// The types of bodies.
    types: Table,
    pub counts: Counts,
}

/// The request that a message answers, if it is an answer.
fn answered_by(seen: &Seen) -> Option<u64> {
    match &seen.message.content {
        Content::Reply(_) | Content::LocateReply(_) => seen.tie.request,
        _ => None,
    }
}

/// Whether a message is a request.
fn is_request(content: &Content) -> bool {
    matches!(content, Content::Request(_) | Content::LocateRequest(_))
}

/// The body of an answer, and the exception that it is: its name, or its repository id.
fn outcome_of<'m>(content: &Content<'m>) -> (usize, Option<&'m [u8]>) {
    match content {
        Content::Reply(reply) => (
            reply.body.octets.len(),
            match ReplyStatus::from_number(reply.status) {
                Some(ReplyStatus::SystemException) => system_name(&reply.body),
                Some(ReplyStatus::UserException) => exception_id(&reply.body),
                _ => None,
            },
        ),
        Content::LocateReply(reply) => {
            (
                reply.body.octets.len(),
                match LocateStatus::from_number(reply.status) {
                    Some(LocateStatus::SystemException) => system_name(&reply.body),
                    _ => None,
                },
            )
        }
        _ => (0, None),
    }
}

/// The name of the system exception in a body, or its repository id.
fn system_name<'m>(body: &Body<'m>) -> Option<&'m [u8]> {
    let id = system_exception(body)?.id;
    match exception_name(id) {
        Some(name) => Some(name.as_bytes()),
        None => Some(id),
    }
}

/// The octets of a request's body, and its operation.
fn asking_of<'m>(content: &Content<'m>) -> (usize, Option<&'m [u8]>) {
    match content {
        Content::Request(request) => (request.body.octets.len(), Some(request.operation)),
        _ => (0, None),
    }
}

/// Counts what a message has to do with earlier ones.
fn count(seen: &Seen, asked: &mut Asked, counts: &mut Counts) -> Result<(), Stop> {
    if seen.tie.repeats.is_some() {
        counts.repeats.add(seen.number)?;
    }
    match (&seen.message.content, seen.tie.request) {
        (Content::Cancel(_), Some(request)) => asked.cancel(request),
        (Content::Reply(_) | Content::LocateReply(_), None) => counts.strays.add(seen.number)?,
        _ => {}
    }
    Ok(())
}

/// Counts a request or an answer in a summary.
fn tally(
    alloc: Global,
    seen: &Seen,
    request: Option<&Request>,
    latency: Option<u64>,
    summary: &mut Summary,
) -> Result<(), AllocError> {
    let content = &seen.message.content;
    if is_request(content) {
        let (octets, operation) = asking_of(content);
        let called = Called::new(alloc, key_in(content), operation)?;
        return summary.ask(&called, octets, seen.tie.repeats.is_some());
    }
    let (Some(request), Some(_)) = (request, answered_by(seen)) else {
        return Ok(());
    };
    tally_answer(alloc, content, request, latency, summary)
}

/// Counts an answer to a request in a summary.
fn tally_answer(
    alloc: Global,
    content: &Content,
    request: &Request,
    latency: Option<u64>,
    summary: &mut Summary,
) -> Result<(), AllocError> {
    let (octets, exception) = outcome_of(content);
    let called = Called::new(alloc, request.key(), request.operation())?;
    match exception {
        Some(name) => {
            let name = Vec::from_slice(alloc, name)?;
            summary.answer(&called, octets, latency, Some(name))
        }
        None => summary.answer(&called, octets, latency, None),
    }
}

impl Teller {
    /// Before the first message.
    pub fn new(
        alloc: Global,
        printer: Printer,
        chooser: Chooser,
        types: Table,
        is_summary: bool,
    ) -> Teller {
        Teller {
            alloc,
            printer,
            // (the line of a letter would be lost with the lines of a request that are not printed)
            objects: Objects::new(alloc, is_summary || !chooser.asks_late()),
            asked: Asked::new(alloc),
            chooser,
            summary: if is_summary {
                Some(Summary::new(alloc))
            } else {
                None
            },
            types,
            counts: Counts::new(alloc),
        }
    }

    /// Whether lines of connections are printed.
    pub fn prints_connections(&self) -> bool {
        self.summary.is_none() && self.chooser.is_all()
    }

    /// Whether lines of what is wrong with octets are printed.
    pub fn prints_faults(&self) -> bool {
        self.summary.is_none() && self.chooser.takes_faults()
    }

    /// Whether a message is asked for, as far as is known before its answer.
    fn is_chosen(&self, seen: &Seen) -> Result<bool, AllocError> {
        let content = &seen.message.content;
        if is_request(content) {
            return self.chooser.takes_request(seen);
        }
        match seen.tie.request {
            Some(request) => Ok(self.asked.is_chosen(request)),
            None => Ok(self.chooser.takes_apart(content)),
        }
    }

    /// What becomes of the lines of a message that is asked for so far.
    fn fate_of(&self, seen: &Seen, latency: Option<u64>) -> Fate {
        if !self.chooser.asks_late() {
            return Fate::Print;
        }
        let content = &seen.message.content;
        if is_request(content) {
            return match self.asked.waits(seen.number) {
                true => Fate::Keep(seen.number),
                false => Fate::Drop,
            };
        }
        if let Some(request) = answered_by(seen) {
            return match self.chooser.takes_answered(content, latency) {
                true => Fate::Release(request),
                false => Fate::Drop,
            };
        }
        match seen.tie.request {
            Some(request) => Fate::Keep(request),
            None => Fate::Print,
        }
    }

    /// Does with the lines of a message what becomes of them.
    fn put<W: Write>(&mut self, fate: Fate, text: &str, out: &mut Sink<W>) -> Result<(), Stop> {
        match fate {
            Fate::Print => out.print(text),
            Fate::Keep(request) => Ok(self.asked.keep(request, text)?),
            Fate::Release(request) => {
                out.print(self.asked.kept(request))?;
                out.print(text)
            }
            Fate::Drop => Ok(()),
        }
    }

    /// Takes the next message, whose last octet came last of its side.
    pub fn tell<W: Write>(
        &mut self,
        seen: Seen,
        open: &Open,
        beginning: Option<u64>,
        out: &mut Sink<W>,
    ) -> Result<(), Stop> {
        let answered = answered_by(&seen);
        let is_chosen = self.note(&seen, open)?;
        let latency = self.latency(answered, open.time(seen.sender));
        let told = match is_chosen {
            true => self.tell_chosen(seen, open, beginning, latency, out),
            false => Ok(()),
        };
        if let Some(number) = answered {
            self.asked.forget(number);
        }
        told
    }

    /// Counts a message, and keeps it where it waits for an answer. Returns whether it is asked for so far.
    fn note(&mut self, seen: &Seen, open: &Open) -> Result<bool, Stop> {
        count(seen, &mut self.asked, &mut self.counts)?;
        let is_chosen = self.is_chosen(seen)?;
        let time = open.time(seen.sender);
        self.asked
            .take(seen.number, &seen.message.content, time, is_chosen)?;
        Ok(is_chosen)
    }

    /// How long after the request that it answers a message came at this time.
    fn latency(&self, answered: Option<u64>, time: Option<u64>) -> Option<u64> {
        time_between(self.asked.time(answered?), time)
    }

    /// Takes a message that is asked for so far.
    fn tell_chosen<W: Write>(
        &mut self,
        seen: Seen,
        open: &Open,
        beginning: Option<u64>,
        latency: Option<u64>,
        out: &mut Sink<W>,
    ) -> Result<(), Stop> {
        if let Some(summary) = &mut self.summary {
            let request = self.asked.request(seen.tie.request.unwrap_or(0));
            return Ok(tally(self.alloc, &seen, request, latency, summary)?);
        }
        match self.fate_of(&seen, latency) {
            Fate::Drop => Ok(()),
            fate => {
                let caught = open.caught(seen.sender, beginning, latency);
                self.say(fate, seen, open, caught.as_ref(), out)
            }
        }
    }

    /// Makes the lines of a message, and does with them what becomes of them.
    fn say<W: Write>(
        &mut self,
        fate: Fate,
        seen: Seen,
        open: &Open,
        caught: Option<&Caught>,
        out: &mut Sink<W>,
    ) -> Result<(), Stop> {
        let values = self.values(&seen)?;
        let text = self.lines(seen, open, caught, values.as_deref())?;
        self.put(fate, &text, out)
    }

    /// What is printed of the values in a message's body.
    fn values(&mut self, seen: &Seen) -> Result<Option<String>, AllocError> {
        let request = self.asked.request(seen.tie.request.unwrap_or(0));
        let content = &seen.message.content;
        let values = values_in(
            self.alloc,
            &self.types,
            self.printer.format,
            content,
            request,
        )?;
        self.asked.pass_over(seen.number, values.others);
        Ok(values.text)
    }

    /// The lines of a message.
    fn lines(
        &mut self,
        seen: Seen,
        open: &Open,
        caught: Option<&Caught>,
        values: Option<&str>,
    ) -> Result<String, AllocError> {
        let operation = self.asked.operation(seen.tie.request.unwrap_or(0));
        let came = open.came(seen.sender);
        let shown = Shown {
            end: open.end(seen.sender),
            frames: came.frames,
            is_cut_otherwise: came.is_cut_otherwise,
            operation,
            values,
            seen,
        };
        self.printer.message(shown, caught, &mut self.objects)
    }

    /// Counts how a connection ended.
    pub fn count_ending(&mut self, open: &Open) {
        if let Some(summary) = &mut self.summary {
            summary.endings.add(open.ending);
        }
    }

    /// Prints the requests that nothing answered, where they are asked for; and what was counted.
    pub fn end<W: Write>(&mut self, unanswered: Vec<u64>, out: &mut Sink<W>) -> Result<(), Stop> {
        if self.chooser.is_unanswered {
            for number in &unanswered {
                out.print(self.asked.kept(*number))?;
            }
        }
        self.counts.cancelled = self.asked.cancelled_of(self.alloc, &unanswered)?;
        self.counts.unanswered = unanswered;
        if let Some(summary) = &self.summary {
            out.print(&self.printer.summary(summary, &mut self.objects)?)?;
        }
        out.print(&self.printer.counts(&self.counts)?)
    }
}
