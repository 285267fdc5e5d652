//! The lines of messages that a person reads.

use crate::caught::Caught;
use crate::content::{Outcome, contexts_of, ft_of, outcome_of};
use crate::forward_lines::{put_forward, put_key};
use crate::forwards::forward_in;
use crate::moments::time_of;
use crate::objects::Objects;
use crate::page::Page;
use crate::places::{put_place, put_seconds};
use crate::printing::Printer;
use crate::shown::Shown;
use giop_core::{
    Body, Content, Contexts, FtField, LocateReply, LocateRequest, Reply, Request, Target,
};
use giop_text::{
    completion_name, context_meaning, context_name, exception_name, put_body, put_ft,
    put_locate_status, put_reply_status, put_target,
};

/// How much is said of a message.
#[derive(Clone, Copy)]
enum Detail {
    /// All octets, where a capture tells no more than octets.
    Octets,
    /// Only how many octets there are, and what they mean.
    Counts,
    /// Both.
    Bodies,
}

/// How much is said of a message that a capture tells so much of.
fn detail_of(printer: &Printer, caught: Option<&Caught>) -> Detail {
    match caught {
        None => Detail::Octets,
        Some(_) if printer.has_bodies => Detail::Bodies,
        Some(_) => Detail::Counts,
    }
}

/// The request that a message answers or cancels: its number, its operation, and how many messages ago it came.
#[derive(Clone, Copy)]
pub(crate) struct Earlier<'t> {
    pub number: u64,
    pub operation: &'t [u8],
    pub later: u64,
}

/// What an answer says beside itself: its request, and how long after it it came.
#[derive(Clone, Copy)]
struct Answering<'t> {
    earlier: Option<Earlier<'t>>,
    latency: Option<u64>,
}

/// Appends what a request is for.
fn put_object(detail: Detail, target: &Target, objects: &mut Objects, page: &mut Page) {
    match (detail, target) {
        (Detail::Counts | Detail::Bodies, Target::Key(key)) => put_key(key, objects, page),
        _ => {
            let came = put_target(page.alloc, target, &mut page.text);
            page.note(came)
        }
    }
}

/// Appends the octets of a body as digits.
fn put_digits(body: &Body, page: &mut Page) {
    let came = put_body(page.alloc, body, &mut page.text);
    page.note(came);
}

/// Appends how many octets a body has, and its octets where they are asked for.
fn put_octets(detail: Detail, body: &Body, page: &mut Page) {
    if let Detail::Octets = detail {
        put_digits(body, page);
    }
    page.count(body.octets);
    if let Detail::Bodies = detail {
        put_digits(body, page);
        if !body.octets.is_empty() {
            page.put(" ");
            page.octets(body.octets);
        }
    }
}

/// Appends the line of a service context, with all its octets.
fn put_whole_context(id: u32, octets: &[u8], page: &mut Page) {
    page.number("  context ", u64::from(id), " ");
    page.digits(octets);
    page.put_all(&[" ", context_name(id).unwrap_or("unknown")]);
    page.count(octets);
    page.put("\n");
}

/// Appends what the octets of a context mean, where that is known.
fn put_meaning(id: u32, octets: &[u8], page: &mut Page) {
    let meaning = context_meaning(page.alloc, id, octets);
    if let Some(meaning) = page.made(meaning) {
        page.put_all(&[": ", &meaning]);
    }
}

/// Appends the line of a service context.
fn put_context(detail: Detail, id: u32, octets: &[u8], page: &mut Page) {
    if let Detail::Octets = detail {
        return put_whole_context(id, octets, page);
    }
    match context_name(id) {
        Some(name) => page.put_all(&["  context ", name]),
        None => page.number("  context ", u64::from(id), ""),
    }
    page.count(octets);
    if let Detail::Bodies = detail {
        page.put(" ");
        page.digits(octets);
    }
    put_meaning(id, octets, page);
    page.put("\n");
}

/// Appends a line for each service context.
fn put_contexts(detail: Detail, contexts: Option<Contexts>, page: &mut Page) {
    let Some(contexts) = contexts else {
        return;
    };
    for (id, octets) in contexts {
        put_context(detail, id, octets, page);
    }
}

/// Appends when a request expires.
fn put_expiration(moment: u64, page: &mut Page) {
    match time_of(moment) {
        Some(time) => {
            page.put(" expires ");
            page.show(&time)
        }
        None => page.put(" expires after the year 9999"),
    }
}

/// Appends the line of an FT_REQUEST context, if there is one, and which request this one repeats.
fn put_ft_line(field: &FtField, repeats: Option<u64>, page: &mut Page) {
    if let FtField::Absent = field {
        return;
    }
    page.put(" ");
    let came = put_ft(page.alloc, field, &mut page.text);
    page.note(came);
    if let FtField::Present { expiration, .. } = field {
        put_expiration(*expiration, page);
        if let Some(number) = repeats {
            page.number(", repeat of ", number, "");
        }
    }
    page.put("\n");
}

/// Appends the line of a Request.
fn put_request(detail: Detail, request: &Request, objects: &mut Objects, page: &mut Page) {
    page.number("Request id ", u64::from(request.request_id), " reply ");
    page.show(&request.reply);
    page.put(" ");
    put_object(detail, &request.target, objects, page);
    page.put(" operation ");
    page.octets(request.operation);
    put_octets(detail, &request.body, page);
}

/// Appends the line of a LocateRequest.
fn put_locate_request(
    detail: Detail,
    request: &LocateRequest,
    objects: &mut Objects,
    page: &mut Page,
) {
    page.number("LocateRequest id ", u64::from(request.request_id), " ");
    put_object(detail, &request.target, objects, page);
}

/// Appends which request a message answers or cancels.
fn put_earlier(earlier: Option<Earlier>, page: &mut Page) {
    let Some(earlier) = earlier else {
        return page.put(" without a request");
    };
    if !earlier.operation.is_empty() {
        page.put(" to ");
        page.octets(earlier.operation);
    }
    page.number(", ", earlier.later, " after request ");
    page.show(&earlier.number);
}

/// Appends the id of an answer, which request it answers, and how long after it.
fn put_answering(name: &str, id: u32, answering: Answering, page: &mut Page) {
    page.number(name, u64::from(id), "");
    put_earlier(answering.earlier, page);
    if let Some(latency) = answering.latency {
        page.put(", ");
        put_seconds(latency, page);
        page.put(" s");
    }
    page.put(":");
}

/// Appends what the exception is that an answer is, or that its body is none.
fn put_outcome(outcome: Outcome, page: &mut Page) {
    match outcome {
        Outcome::Plain => {}
        Outcome::System(None) | Outcome::User(None) => page.put(" bad"),
        Outcome::User(Some(id)) => {
            page.put(" ");
            page.octets(id)
        }
        Outcome::System(Some(raised)) => {
            page.put(" ");
            match exception_name(raised.id) {
                Some(name) => page.put(name),
                None => page.octets(raised.id),
            }
            let minor = raised.minor;
            let completed = completion_name(raised.completed);
            let came = write!(page.text, " minor {minor:#010x} completed {completed}");
            page.note(came)
        }
    }
}

/// Appends the line of a Reply.
fn put_reply(
    detail: Detail,
    reply: &Reply,
    outcome: Outcome,
    answering: Answering,
    page: &mut Page,
) {
    put_answering("Reply id ", reply.request_id, answering, page);
    let came = put_reply_status(reply.status, &mut page.text);
    page.note(came);
    put_outcome(outcome, page);
    put_octets(detail, &reply.body, page);
}

/// Appends the line of a LocateReply.
fn put_locate_reply(
    detail: Detail,
    reply: &LocateReply,
    outcome: Outcome,
    answering: Answering,
    page: &mut Page,
) {
    put_answering("LocateReply id ", reply.request_id, answering, page);
    let came = put_locate_status(reply.status, &mut page.text);
    page.note(came);
    put_outcome(outcome, page);
    put_octets(detail, &reply.body, page);
}

/// Appends the line of a CancelRequest.
fn put_cancel(id: u32, earlier: Option<Earlier>, page: &mut Page) {
    page.number("CancelRequest id ", u64::from(id), "");
    put_earlier(earlier, page);
}

/// Appends what the first line of a message says of it.
fn put_content(
    detail: Detail,
    content: &Content,
    answering: Answering,
    objects: &mut Objects,
    page: &mut Page,
) {
    let outcome = outcome_of(content);
    match content {
        Content::Request(request) => put_request(detail, request, objects, page),
        Content::LocateRequest(request) => put_locate_request(detail, request, objects, page),
        Content::Reply(reply) => put_reply(detail, reply, outcome, answering, page),
        Content::LocateReply(reply) => put_locate_reply(detail, reply, outcome, answering, page),
        Content::Cancel(cancel) => put_cancel(cancel.request_id, answering.earlier, page),
        Content::Close => page.put("CloseConnection"),
        Content::Error => page.put("MessageError"),
        Content::Fragment(_) => page.put("Fragment"),
    }
}

/// Appends what stands before what a message says itself.
fn put_beginning(printer: &Printer, shown: &Shown, caught: Option<&Caught>, page: &mut Page) {
    page.number("", shown.seen.number, " ");
    match caught {
        Some(caught) => {
            let seen = &shown.seen;
            put_place(printer, caught, seen.connection, seen.sender, page);
            page.put(": ")
        }
        None => {
            page.show(&shown.seen.sender);
            page.number(" to ", shown.end, " ")
        }
    }
    page.show(&shown.seen.message.version);
    page.put(" ");
    page.show(&shown.seen.message.order);
    page.put(" ");
    if caught.is_some() && shown.frames > 1 {
        page.number("", shown.frames, " frames ");
    }
}

/// Appends the first line of a message.
fn put_first(
    printer: &Printer,
    shown: &Shown,
    caught: Option<&Caught>,
    objects: &mut Objects,
    page: &mut Page,
) {
    let answering = Answering {
        earlier: shown.earlier(),
        latency: match caught {
            Some(caught) => caught.latency,
            None => None,
        },
    };
    let detail = detail_of(printer, caught);
    put_beginning(printer, shown, caught, page);
    put_content(
        detail,
        &shown.seen.message.content,
        answering,
        objects,
        page,
    );
    if let Some(note) = shown.note() {
        page.put_all(&[", ", note]);
    }
    page.put("\n");
}

/// Appends the line of what a table of types tells of a message, if it does.
fn put_values(values: Option<&str>, page: &mut Page) {
    if let Some(values) = values {
        page.put_all(&["  ", values, "\n"]);
    }
}

/// Appends the lines of a message.
pub(crate) fn put_message(
    printer: &Printer,
    shown: Shown,
    caught: Option<&Caught>,
    objects: &mut Objects,
    page: &mut Page,
) {
    put_first(printer, &shown, caught, objects, page);
    let values = shown.values;
    let repeats = shown.seen.tie.repeats;
    let field = ft_of(&shown.seen.message.content);
    let forward = forward_in(&shown.seen.message.content);
    let contexts = contexts_of(shown.seen.message.content);
    put_contexts(detail_of(printer, caught), contexts, page);
    put_ft_line(&field, repeats, page);
    put_values(values, page);
    if let (Some(body), Some(_)) = (forward, caught) {
        put_forward(&body, objects, page);
    }
}
