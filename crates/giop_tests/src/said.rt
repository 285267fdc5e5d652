//! Messages as digits, what each of them says, and how that is compared with what is read.

use cdr_core::Order;
use giop_core::{
    Body, Content, Contexts, Header, IorView, LocateReply, LocateRequest, Message, Reply,
    ReplyWish, Request, Target, Version, read_message,
};
use std::process::Abort;

/// A profile of IIOP 1.2 in big order: host 127.0.0.1, port 2809, key `c`, no components.
pub(crate) const COUNTER: &[u8] = &[
    0, 1, 2, 0, 0, 0, 0, 10, b'1', b'2', b'7', b'.', b'0', b'.', b'0', b'.', b'1', 0, 0x0a, 0xf9,
    0, 0, 0, 1, b'c', 0, 0, 0, 0, 0, 0, 0,
];

/// A profile of IIOP 1.0 in little order: host `h`, port 1, key `key`.
pub(crate) const LITTLE: &[u8] = &[
    1, 1, 0, 0, 2, 0, 0, 0, b'h', 0, 1, 0, 3, 0, 0, 0, b'k', b'e', b'y',
];

/// A profile of tag 1, and one of IIOP.
pub(crate) const PAIR: Items = &[(1, &[0xaa, 0xbb]), (0, LITTLE)];

/// Contexts or profiles: the number of each and its octets.
pub(crate) type Items = &'static [(u32, &'static [u8])];

/// What a Request says.
#[derive(Clone, Copy)]
pub(crate) struct Asked {
    pub(crate) id: u32,
    pub(crate) wish: ReplyWish,
    pub(crate) target: Aim,
    pub(crate) operation: &'static [u8],
    pub(crate) contexts: Items,
    pub(crate) body: Placed,
}

/// What a target says.
#[derive(Clone, Copy)]
pub(crate) enum Aim {
    Key(&'static [u8]),
    Profile(u32, &'static [u8]),
    /// The number of the profile, the type, and the profiles.
    Reference(u32, &'static [u8], Items),
}

/// Where octets stand in their message, and the octets.
pub(crate) type Placed = (u64, &'static [u8]);

/// What a message says.
pub(crate) enum Said {
    Request(Asked),
    Reply(u32, u32, Items, Placed),
    Cancel(u32),
    LocateRequest(u32, Aim),
    LocateReply(u32, u32, Placed),
    Close,
    Error,
    Fragment(Option<u32>, &'static [u8]),
}

/// A version, an order, the digits of a message in them, and what it says.
pub(crate) type Row = (Version, Order, &'static str, Said);

/// The octets that words of hexadecimal digits stand for.
pub(crate) fn octets_in(rt: &(impl Abort + AllocGlobal), text: &str) -> Vec<u8> {
    match trials::octets_in(rt.alloc(), text) {
        Ok(octets) => octets,
        Err(_) => rt.abort(),
    }
}

/// The header of a whole message, and the octets after it.
fn parted<'m>(rt: &impl Abort, octets: &'m [u8]) -> (Header, &'m [u8]) {
    let Some((first, after)) = octets.split_first_chunk::<{ Header::LEN }>() else {
        rt.abort()
    };
    let Ok(header) = Header::read(first) else {
        rt.abort()
    };
    if header.more || header.size as usize != after.len() {
        rt.abort();
    }
    (header, after)
}

/// The whole message that octets are.
fn whole<'m>(rt: &impl Abort, octets: &'m [u8]) -> Message<'m> {
    let (header, after) = parted(rt, octets);
    match read_message(&header, after) {
        Ok(message) => message,
        Err(_) => rt.abort(),
    }
}

/// The Request that octets are.
pub(crate) fn request_in<'m>(rt: &impl Abort, octets: &'m [u8]) -> Request<'m> {
    match whole(rt, octets).content {
        Content::Request(request) => request,
        _ => rt.abort(),
    }
}

/// The target of the LocateRequest that octets are.
pub(crate) fn target_in<'m>(rt: &impl Abort, octets: &'m [u8]) -> Target<'m> {
    match whole(rt, octets).content {
        Content::LocateRequest(request) => request.target,
        _ => rt.abort(),
    }
}

/// Whether items are these, one after another, and no more.
fn are_items(mut found: Contexts, wanted: Items) -> bool {
    for item in wanted {
        if found.next() != Some(*item) {
            return false;
        }
    }
    found.next().is_none() && found.next().is_none()
}

fn is_body(body: &Body, order: Order, wanted: Placed) -> bool {
    body.order == order && body.at == wanted.0 && body.octets == wanted.1
}

/// Whether a reference is of that type and has these profiles.
fn is_reference(found: &IorView, type_id: &[u8], profiles: Items) -> bool {
    if found.type_id() != type_id || found.count() as usize != profiles.len() {
        return false;
    }
    let mut at = 0;
    for profile in profiles {
        if found.profile(at) != Some(*profile) {
            return false;
        }
        at += 1;
    }
    found.profile(at).is_none()
}

/// Whether a target is that.
fn is_target(found: &Target, wanted: &Aim) -> bool {
    match (found, wanted) {
        (Target::Key(found), Aim::Key(key)) => found == key,
        (Target::Profile(number, found), Aim::Profile(tag, octets)) => {
            number == tag && found == octets
        }
        (Target::Reference(number, found), Aim::Reference(index, type_id, profiles)) => {
            number == index && is_reference(found, type_id, profiles)
        }
        _ => false,
    }
}

/// Whether a Request of that order says that.
fn is_request(found: Request, order: Order, wanted: &Said) -> bool {
    let Said::Request(asked) = wanted else {
        return false;
    };
    found.request_id == asked.id
        && found.reply == asked.wish
        && is_target(&found.target, &asked.target)
        && found.operation == asked.operation
        && is_body(&found.body, order, asked.body)
        && are_items(found.contexts, asked.contexts)
}

/// Whether a Reply of that order says that.
fn is_reply(found: Reply, order: Order, wanted: &Said) -> bool {
    let Said::Reply(id, status, contexts, body) = wanted else {
        return false;
    };
    found.request_id == *id
        && found.status == *status
        && is_body(&found.body, order, *body)
        && are_items(found.contexts, contexts)
}

/// Whether a LocateReply of that order says that.
fn is_located(found: &LocateReply, order: Order, wanted: &Said) -> bool {
    let Said::LocateReply(id, status, body) = wanted else {
        return false;
    };
    found.request_id == *id && found.status == *status && is_body(&found.body, order, *body)
}

/// Whether a LocateRequest says that.
fn is_locating(found: &LocateRequest, id: u32, aim: &Aim) -> bool {
    found.request_id == id && is_target(&found.target, aim)
}

/// Whether the content of a message that has neither contexts nor a body says that.
fn is_plain(found: &Content, wanted: &Said) -> bool {
    match (found, wanted) {
        (Content::Cancel(found), Said::Cancel(id)) => found.request_id == *id,
        (Content::LocateRequest(found), Said::LocateRequest(id, aim)) => {
            is_locating(found, *id, aim)
        }
        (Content::Fragment(found), Said::Fragment(id, payload)) => {
            found.request_id == *id && found.payload == *payload
        }
        (Content::Close, Said::Close) | (Content::Error, Said::Error) => true,
        _ => false,
    }
}

/// Whether the content of a message of that order says that.
fn is_said(found: Content, order: Order, wanted: &Said) -> bool {
    match found {
        Content::Request(found) => is_request(found, order, wanted),
        Content::Reply(found) => is_reply(found, order, wanted),
        Content::LocateReply(found) => is_located(&found, order, wanted),
        plain => is_plain(&plain, wanted),
    }
}

/// Whether a message is of that version and order, and says that.
fn is_message(found: Message, row: &Row) -> bool {
    found.version == row.0 && found.order == row.1 && is_said(found.content, row.1, &row.3)
}

/// Asserts what was found of the row of that text.
pub(crate) fn expect(rt: &impl Abort, is_found: bool, text: &str) {
    assert!(rt; is_found, "{text}");
}

/// Asserts that octets are a message, and what it says.
fn assert_message(rt: &impl Abort, octets: &[u8], row: &Row) {
    let message = whole(rt, octets);
    expect(rt, is_message(message, row), row.2);
}

/// Asserts that each row is a message, and what it says.
pub(crate) fn assert_rows(rt: &(impl Abort + AllocGlobal), rows: &[Row]) {
    for row in rows {
        let octets = octets_in(rt, row.2);
        assert_message(rt, &octets, row);
    }
}

/// Asserts that octets are those of digits.
pub(crate) fn assert_octets(rt: &(impl Abort + AllocGlobal), found: &[u8], text: &str) {
    let wanted = octets_in(rt, text);
    expect(rt, found == wanted.as_slice(), text);
}

/// Asserts that octets that were written are a message, and that they read as what it says.
pub(crate) fn assert_written(rt: &(impl Abort + AllocGlobal), found: &[u8], row: &Row) {
    assert_octets(rt, found, row.2);
    assert_message(rt, found, row);
}
