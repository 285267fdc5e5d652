//! The lines of messages as JSON, an object each.

use crate::caught::Caught;
use crate::content::{Outcome, body_of, contexts_of, ft_of, id_of, kind_of, outcome_of, target_of};
use crate::fields::Value;
use crate::forwards::forward_in;
use crate::json_forwards::put_forward;
use crate::moments::time_of;
use crate::objects::Objects;
use crate::page::Page;
use crate::printing::Printer;
use crate::reports::{address_value, direction_name, time_value};
use crate::shown::Shown;
use cdr_core::Order;
use giop_core::{
    Body, Content, Contexts, FtField, LocateStatus, ReplyStatus, ReplyWish, Target, Version,
};
use giop_text::{completion_name, context_meaning, context_name, exception_name};
use std::alloc::AllocError;
use std::fmt;

fn version_name(version: Version) -> &'static str {
    match version {
        Version::V10 => "1.0",
        Version::V11 => "1.1",
        Version::V12 => "1.2",
    }
}

fn order_name(order: Order) -> &'static str {
    match order {
        Order::Big => "big",
        Order::Little => "little",
    }
}

fn wish_name(wish: ReplyWish) -> &'static str {
    match wish {
        ReplyWish::None => "none",
        ReplyWish::Empty => "empty",
        ReplyWish::Full => "full",
    }
}

/// Which reply a Request wishes for.
fn wish_in(content: &Content) -> Option<&'static str> {
    match content {
        Content::Request(request) => Some(wish_name(request.reply)),
        _ => None,
    }
}

/// The operation of a Request, or of the request that a message has to do with.
fn operation_in<'m>(content: &Content<'m>, operation: Option<&'m [u8]>) -> Option<&'m [u8]> {
    match content {
        Content::Request(request) => Some(request.operation),
        _ => operation,
    }
}

/// Appends the fields that each message has.
fn put_head(shown: &Shown, page: &mut Page) {
    let message = &shown.seen.message;
    page.begin("message");
    page.fields(&[
        ("number", Value::Number(shown.seen.number)),
        ("connection", Value::Number(shown.seen.connection)),
        ("direction", Value::Word(direction_name(shown.seen.sender))),
        ("to", Value::Number(shown.end)),
        ("version", Value::Word(version_name(message.version))),
        ("order", Value::Word(order_name(message.order))),
        ("kind", Value::Word(kind_of(&message.content))),
        ("id", Value::short(id_of(&message.content))),
        ("reply", Value::word(wish_in(&message.content))),
    ]);
}

/// Appends the letter of an object key; where it has none null, or nothing.
pub(crate) fn put_letter(is_null: bool, key: &[u8], objects: &mut Objects, page: &mut Page) {
    let letter = objects.letter(key);
    match page.made(letter) {
        Some(letter) => page.field("object", &Value::Word(&letter)),
        None => page.field("object", &Value::lacking(is_null)),
    }
}

/// Appends what a message is for.
fn put_target(has_letter: bool, target: &Target, objects: &mut Objects, page: &mut Page) {
    let (key, tag, profile, index) = match target {
        Target::Key(key) => (Some(*key), None, None, None),
        Target::Profile(tag, octets) => (None, Some(*tag), Some(*octets), None),
        Target::Reference(index, _) => (None, None, None, Some(*index)),
    };
    page.put("{");
    page.fields(&[
        ("key", Value::digits(key)),
        ("text", Value::octets(key)),
        ("tag", Value::short(tag)),
        ("profile", Value::digits(profile)),
        ("index", Value::short(index)),
    ]);
    if let (true, Some(key)) = (has_letter, key) {
        put_letter(false, key, objects, page);
    }
    page.put("}");
}

/// Appends a status, where its number has a name.
fn put_named<T: fmt::Display + Drop>(status: Option<T>, page: &mut Page) {
    match status {
        Some(status) => page.shown("status", &status),
        None => page.field("status", &Value::Null),
    }
}

/// Appends the status of an answer.
fn put_status(content: &Content, page: &mut Page) {
    match content {
        Content::Reply(reply) => put_named(ReplyStatus::from_number(reply.status), page),
        Content::LocateReply(reply) => put_named(LocateStatus::from_number(reply.status), page),
        _ => page.field("status", &Value::Null),
    }
}

/// Appends the exception that an answer is, where it is one.
fn put_exception(outcome: Outcome, page: &mut Page) {
    let (id, name, minor, completed) = match outcome {
        Outcome::System(Some(raised)) => (
            raised.id,
            exception_name(raised.id),
            Some(raised.minor),
            Some(completion_name(raised.completed)),
        ),
        Outcome::User(Some(id)) => (id, None, None, None),
        _ => return page.field("exception", &Value::Null),
    };
    page.name("exception");
    page.put("{");
    page.fields(&[
        ("id", Value::Octets(id)),
        ("name", Value::word(name)),
        ("minor", Value::short(minor)),
        ("completed", Value::word(completed)),
    ]);
    page.put("}");
}

/// Appends a service context.
fn put_context(id: u32, octets: &[u8], page: &mut Page) {
    page.apart();
    page.put("{");
    page.fields(&[
        ("id", Value::Number(u64::from(id))),
        ("name", Value::word(context_name(id))),
        ("octets", Value::Digits(octets)),
    ]);
    let meaning = context_meaning(page.alloc, id, octets);
    put_meaning(meaning, page);
    page.put("}");
}

/// Appends what octets mean, where that is known.
pub(crate) fn put_meaning(meaning: Result<Option<String>, AllocError>, page: &mut Page) {
    if let Some(meaning) = page.made(meaning) {
        page.name("meaning");
        page.quote(&meaning);
    }
}

/// Appends service contexts.
fn put_contexts(contexts: Option<Contexts>, page: &mut Page) {
    page.name("contexts");
    page.put("[");
    if let Some(contexts) = contexts {
        for (id, octets) in contexts {
            put_context(id, octets, page);
        }
    }
    page.put("]");
}

/// The time of a moment of FT_REQUEST.
fn moment_value<'v>(moment: u64) -> Value<'v> {
    match time_of(moment) {
        Some(time) => Value::Moment(time),
        None => Value::Null,
    }
}

/// Appends what contexts say of a client, where they do.
fn put_ft(field: &FtField, page: &mut Page) {
    let (is_valid, client, retention, expiration, expires) = match field {
        FtField::Absent => return page.field("ft", &Value::Null),
        FtField::Bad => (false, Value::Null, Value::Null, Value::Null, Value::Null),
        FtField::Present {
            client_id,
            retention_id,
            expiration,
        } => (
            true,
            Value::Octets(client_id),
            Value::Signed(*retention_id),
            Value::Number(*expiration),
            moment_value(*expiration),
        ),
    };
    page.name("ft");
    page.put("{");
    page.fields(&[
        ("valid", Value::Truth(is_valid)),
        ("client", client),
        ("retention", retention),
        ("expiration", expiration),
        ("expires", expires),
    ]);
    page.put("}");
}

/// Appends the fields that stand before the contexts.
fn put_says(shown: &Shown, is_caught: bool, objects: &mut Objects, page: &mut Page) {
    let content = &shown.seen.message.content;
    let request = shown.seen.tie.request;
    let later = match request {
        Some(number) => Value::Number(shown.later(number)),
        None => Value::Null,
    };
    page.name("target");
    match target_of(content) {
        Some(target) => put_target(is_caught, target, objects, page),
        None => page.put("null"),
    }
    page.field(
        "operation",
        &Value::octets(operation_in(content, shown.operation)),
    );
    page.field("octets", &Value::number(octets_in(content)));
    put_status(content, page);
    page.field("request", &Value::number(request));
    page.field("later", &later);
    put_exception(outcome_of(content), page);
}

/// How many octets the body of a message has.
fn octets_in(content: &Content) -> Option<u64> {
    let body = body_of(content)?;
    Some(body.octets.len() as u64)
}

/// The bodies of a message that its object tells beside what it says.
#[derive(Clone, Copy)]
struct Bodies<'m> {
    /// The one that leads on to a reference.
    forward: Option<Body<'m>>,
    /// The one that is printed.
    body: Option<Body<'m>>,
}

/// Appends when and in which packet a message came.
fn put_when(caught: &Caught, page: &mut Page) {
    page.field("frame", &Value::Number(caught.stamp.frame));
    page.field("time", &time_value(caught.stamp.time, false));
    page.field("since", &Value::number_if(caught.since()));
    page.field("latency", &Value::number_if(caught.latency));
}

/// Appends the addresses of both sides, where they are known.
fn put_ends(caught: &Caught, page: &mut Page) {
    page.field("opener", &address_value(caught.ends.opener, false));
    page.field("acceptor", &address_value(caught.ends.acceptor, false));
}

/// Appends what a capture tells of a message.
fn put_caught(caught: &Caught, bodies: Bodies, objects: &mut Objects, page: &mut Page) {
    put_when(caught, page);
    if let Some(body) = bodies.forward {
        page.name("forward");
        put_forward(&body, objects, page);
    }
    put_ends(caught, page);
    if let Some(body) = bodies.body {
        page.field("body", &Value::Digits(body.octets));
        page.field("text", &Value::Octets(body.octets));
    }
}

/// The bodies of a message.
fn bodies_in<'m>(has_bodies: bool, content: &Content<'m>) -> Bodies<'m> {
    Bodies {
        forward: forward_in(content),
        body: if has_bodies { body_of(content) } else { None },
    }
}

/// Appends the fields that stand behind all others, and ends the object.
fn put_last(frames: u64, note: Option<&str>, values: Option<&str>, page: &mut Page) {
    if frames > 1 {
        page.field("frames", &Value::Number(frames));
    }
    if let Some(note) = note {
        page.field("note", &Value::Word(note));
    }
    if let Some(values) = values {
        page.name("values");
        page.put(values);
    }
    page.end();
}

/// Appends the line of a message.
pub(crate) fn put_message(
    printer: &Printer,
    shown: Shown,
    caught: Option<&Caught>,
    objects: &mut Objects,
    page: &mut Page,
) {
    put_head(&shown, page);
    put_says(&shown, caught.is_some(), objects, page);
    let (frames, note, values) = (shown.frames, shown.note(), shown.values);
    let repeats = shown.seen.tie.repeats;
    let field = ft_of(&shown.seen.message.content);
    let bodies = bodies_in(printer.has_bodies, &shown.seen.message.content);
    put_contexts(contexts_of(shown.seen.message.content), page);
    put_ft(&field, page);
    page.field("repeats", &Value::number(repeats));
    if let Some(caught) = caught {
        put_caught(caught, bodies, objects, page);
    }
    put_last(frames, note, values, page);
}
