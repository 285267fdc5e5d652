//! Writing what messages say.

ghost use Rattle.cdr_core.specs.View.{values_of};
ghost use Rattle.cdr_core.specs.Writing.{AreWritable};

use crate::said::{
    Aim, Asked, Row, Said, assert_octets, assert_written, expect, octets_in, target_in,
};
use cdr_core::{Order, Val, are_writable, has_no_nul};
use giop_core::{
    Target, Version, write_cancel, write_close, write_error, write_ft, write_locate_reply,
    write_locate_request, write_reply, write_request,
};
use std::process::Abort;

/// What is written as a body.
#[derive(Clone, Copy)]
pub(crate) enum Values {
    Nothing,
    /// A struct without members.
    Empty,
    Octet(u8),
    Long(i32),
    LongLong(i64),
    /// The octet 10 and the unsigned short 0x0b0b.
    Pair,
    /// What a system exception holds: its name, the minor code 0 and the completion NO.
    Exception(&'static [u8]),
}

/// The target that a message says. A reference is lent from a LocateRequest.
fn target_of<'m>(rt: &impl Abort, said: &Said, source: &'m [u8]) -> Target<'m> {
    let aim = match said {
        Said::Request(asked) => asked.target,
        Said::LocateRequest(_, aim) => *aim,
        _ => Aim::Key(b""),
    };
    match aim {
        Aim::Key(key) => Target::Key(key),
        Aim::Profile(tag, octets) => Target::Profile(tag, octets),
        Aim::Reference(_, _, _) => target_in(rt, source),
    }
}

/// Writes a Request. Whether it can be written and is.
fn put_request(
    version: Version,
    order: Order,
    asked: &Asked,
    target: &Target,
    body: &[Val],
    out: &mut Vec<u8>,
) -> bool
    requires { AreWritable (values_of body.now) }
{
    let is_asked = version.can_address(target) && version.can_ask(asked.wish);
    if !is_asked || !has_no_nul(asked.operation) {
        return false;
    }
    let written = write_request(
        version,
        order,
        asked.id,
        asked.wish,
        target,
        asked.operation,
        asked.contexts,
        body,
        out,
    );
    written.is_ok()
}

/// Writes what a Reply or a LocateReply says. Whether it can be written and is.
fn put_answer(version: Version, order: Order, said: &Said, body: &[Val], out: &mut Vec<u8>) -> bool
    requires { AreWritable (values_of body.now) }
{
    match said {
        Said::Reply(id, status, contexts, _) => {
            version.has_reply_status(*status)
                && write_reply(version, order, *id, *status, contexts, body, out).is_ok()
        }
        Said::LocateReply(id, status, _) => {
            version.has_locate_status(*status)
                && write_locate_reply(version, order, *id, *status, body, out).is_ok()
        }
        _ => false,
    }
}

/// Writes what a message without a target or a body says. Whether it can be written and is.
fn put_bare(version: Version, order: Order, said: &Said, out: &mut Vec<u8>) -> bool {
    match said {
        Said::Cancel(id) => write_cancel(version, order, *id, out).is_ok(),
        Said::Close => write_close(out).is_ok(),
        Said::Error => write_error(out).is_ok(),
        _ => false,
    }
}

/// Writes what a message says, for that target and with that body. Whether it can be written and
/// is.
fn put_said(row: &Row, target: &Target, body: &[Val], out: &mut Vec<u8>) -> bool
    requires { AreWritable (values_of body.now) }
{
    let (version, order) = (row.0, row.1);
    match &row.3 {
        Said::Request(asked) => put_request(version, order, asked, target, body, out),
        Said::LocateRequest(id, _) => {
            version.can_address(target)
                && write_locate_request(version, order, *id, target, out).is_ok()
        }
        Said::Reply(_, _, _, _) | Said::LocateReply(_, _, _) => {
            put_answer(version, order, &row.3, body, out)
        }
        bare => put_bare(version, order, bare, out),
    }
}

fn push(rt: &impl Abort, values: &mut Vec<Val>, value: Val) {
    if values.push(value).is_err() {
        rt.abort();
    }
}

/// What a system exception holds.
fn push_exception(rt: &(impl Abort + AllocGlobal), members: &mut Vec<Val>, name: &[u8]) {
    let Ok(name) = Vec::from_slice(rt.alloc(), name) else {
        rt.abort()
    };
    push(rt, members, Val::Str(name));
    push(rt, members, Val::ULong(0));
    push(rt, members, Val::Enum(1));
}

/// The values that are written as a body.
fn members_of(rt: &(impl Abort + AllocGlobal), values: Values) -> Vec<Val> {
    let mut members = Vec::new(rt.alloc());
    match values {
        Values::Nothing => {}
        Values::Empty => push(rt, &mut members, Val::Struct(Vec::new(rt.alloc()))),
        Values::Octet(octet) => push(rt, &mut members, Val::Octet(octet)),
        Values::Long(number) => push(rt, &mut members, Val::Long(number)),
        Values::LongLong(number) => push(rt, &mut members, Val::LongLong(number)),
        Values::Pair => {
            push(rt, &mut members, Val::Octet(10));
            push(rt, &mut members, Val::UShort(0x0b0b));
        }
        Values::Exception(name) => push_exception(rt, &mut members, name),
    }
    members
}

/// Writes what a message says, with these values as its body. The octets of a LocateRequest lend a
/// target that is a reference. Whether it can be written and is.
fn put(
    rt: &(impl Abort + AllocGlobal),
    values: Values,
    row: &Row,
    source: &[u8],
    out: &mut Vec<u8>,
) -> bool {
    let target = target_of(rt, &row.3, source);
    let body = members_of(rt, values);
    are_writable(&body) && put_said(row, &target, &body, out)
}

/// One octet: no place counts from it in what is written after it.
fn one_octet(rt: &(impl Abort + AllocGlobal)) -> Vec<u8> {
    match [0xca].to_vec(rt.alloc()) {
        Ok(out) => out,
        Err(_) => rt.abort(),
    }
}

/// Asserts that a message is written so after others, with these values as its body, and read again.
fn assert_next(rt: &(impl Abort + AllocGlobal), values: Values, row: &Row, out: &mut Vec<u8>) {
    let start = out.len();
    let is_put = put(rt, values, row, &[], out);
    expect(rt, is_put, row.2);
    let Some(written) = out.get(start..) else {
        rt.abort()
    };
    assert_written(rt, written, row);
}

/// Asserts that messages are written so one after another, with these values as their bodies, and that
/// each is read again. The first stands after an octet, from which no place counts.
pub(crate) fn assert_sent(rt: &(impl Abort + AllocGlobal), values: Values, rows: &[Row]) {
    let mut out = one_octet(rt);
    for row in rows {
        assert_next(rt, values, row, &mut out);
    }
}

/// Asserts that a message whose target is the reference of a LocateRequest is written so.
fn assert_turn(rt: &(impl Abort + AllocGlobal), values: Values, source: &str, row: &Row) {
    let octets = octets_in(rt, source);
    let mut out = Vec::new(rt.alloc());
    let is_put = put(rt, values, row, &octets, &mut out);
    expect(rt, is_put, row.2);
    assert_written(rt, &out, row);
}

/// The digits of a LocateRequest, and a message whose target is its reference.
pub(crate) type Turned = (&'static str, Row);

/// Asserts that messages whose targets are the references of LocateRequests are written so.
pub(crate) fn assert_turned(rt: &(impl Abort + AllocGlobal), values: Values, rows: &[Turned]) {
    for (source, row) in rows {
        assert_turn(rt, values, source, row);
    }
}

/// An FT_REQUEST context: its order, the client, the number of the request, the expiration, and the
/// digits.
pub(crate) type Client = (Order, &'static [u8], i32, u64, &'static str);

/// Writes a context. Whether it can be written and is.
fn put_client(row: &Client, out: &mut Vec<u8>) -> bool {
    has_no_nul(row.1) && write_ft(row.0, row.1, row.2, row.3, out).is_ok()
}

/// Asserts that a context is written so, after another octet, from which no place counts.
pub(crate) fn assert_client(rt: &(impl Abort + AllocGlobal), row: &Client) {
    let mut out = one_octet(rt);
    let is_put = put_client(row, &mut out);
    expect(rt, is_put, row.4);
    assert_octets(rt, &out, row.4);
}
