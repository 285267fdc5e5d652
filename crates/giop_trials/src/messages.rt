//! The writers of `giop_core` on the messages of samples.

ghost use Rattle.std.specs.Prelude.{◌≡◌, ◌++◌};
ghost use Rattle.cdr_core.specs.View.{values_of};
ghost use Rattle.cdr_core.specs.Writing.{AreWritable};

use crate::misses::message_miss;
use cdr_core::{Order, Ty, Val, has_no_nul, read, writable};
use giop_core::{
    Body, Content, Header, LocateReply, LocateRequest, Message, Reply, Request, Version,
    read_message, write_cancel, write_close, write_error, write_exception, write_locate_reply,
    write_locate_request, write_reply, write_request,
};
use std::alloc::Global;
use trials::{Miss, Output, Room, Sample, Trial, Wrong, check_printed, ty};

/// Service contexts: the id of each and its octets.
type Contexts = Vec<(u32, &'static [u8])>;

/// The message of a sample.
fn message_of(sample: &'static Sample) -> Result<Message<'static>, Wrong> {
    let Some((first, after)) = sample.octets.split_first_chunk::<{ Header::LEN }>() else {
        return Err(Wrong::Inputs);
    };
    let header = Header::read(first).map_err(|_| Wrong::Inputs)?;
    read_message(&header, after).map_err(|_| Wrong::Inputs)
}

/// The contexts of the message of a sample.
fn contexts_of(alloc: Global, sample: &'static Sample) -> Result<Contexts, Miss> {
    match message_of(sample)?.content {
        Content::Request(request) => Ok(request.contexts.collect(alloc)?),
        Content::Reply(reply) => Ok(reply.contexts.collect(alloc)?),
        _ => Ok(Vec::new(alloc)),
    }
}

/// The value of that type whose octets are a body.
fn value_in(alloc: Global, ty: &Ty, body: &Body) -> Result<Val, Miss> {
    if !ty.is_valid() || body.at > u64::from(u32::MAX) {
        return Err(Wrong::Inputs.into());
    }
    let (value, used) = read(alloc, ty, body.order, body.at, body.octets)?;
    if used != body.octets.len() {
        return Err(Wrong::Length.into());
    }
    Ok(value)
}

/// The values of a body, as the members of a struct.
fn values_in(alloc: Global, sample: &Sample, body: &Body) -> Result<Val, Miss> {
    if body.octets.is_empty() {
        return Ok(Val::Struct(Vec::new(alloc)));
    }
    let ty = ty(alloc, sample)?;
    value_in(alloc, &ty, body)
}

/// The body of a message, as the members of a struct.
fn body_of(alloc: Global, sample: &Sample, content: &Content) -> Result<Val, Miss> {
    match content {
        Content::Request(request) => values_in(alloc, sample, &request.body),
        Content::Reply(reply) => values_in(alloc, sample, &reply.body),
        Content::LocateReply(reply) => values_in(alloc, sample, &reply.body),
        _ => Ok(Val::Struct(Vec::new(alloc))),
    }
}

/// The body of a message, if it is printed as a sample's value is.
fn checked_body(alloc: Global, sample: &Sample, content: &Content) -> Result<Val, Miss> {
    let body = body_of(alloc, sample, content)?;
    check_printed(sample, &body)?;
    Ok(body)
}

/// Writes a Request.
fn put_request(
    version: Version,
    order: Order,
    request: &Request,
    contexts: &[(u32, &[u8])],
    body: &[Val],
    out: &mut Vec<u8>,
) -> Result<(), Miss>
    requires { AreWritable (values_of body.now) }
{
    let (id, wish, operation) = (request.request_id, request.reply, request.operation);
    let is_asked = version.can_address(&request.target) && version.can_ask(wish);
    if !is_asked || !has_no_nul(operation) {
        return Err(Wrong::Inputs.into());
    }
    let to = &request.target;
    write_request(version, order, id, wish, to, operation, contexts, body, out).map_err(
        message_miss,
    )
}

/// Writes a Reply.
fn put_reply(
    version: Version,
    order: Order,
    reply: &Reply,
    contexts: &[(u32, &[u8])],
    body: &[Val],
    out: &mut Vec<u8>,
) -> Result<(), Miss>
    requires { AreWritable (values_of body.now) }
{
    let (id, status) = (reply.request_id, reply.status);
    if !version.has_reply_status(status) {
        return Err(Wrong::Inputs.into());
    }
    write_reply(version, order, id, status, contexts, body, out).map_err(message_miss)
}

/// Writes a Reply whose body is an exception: a string, and then members.
fn put_exception(
    message: &Message,
    contexts: &[(u32, &[u8])],
    body: &[Val],
    out: &mut Vec<u8>,
) -> Result<(), Miss>
    requires { AreWritable (values_of body.now) }
{
    let (version, order) = (message.version, message.order);
    let Content::Reply(reply) = &message.content else {
        return Err(Wrong::Inputs.into());
    };
    let (id, status) = (reply.request_id, reply.status);
    let Some((Val::Str(exception), members)) = body.split_first() else {
        return Err(Wrong::Inputs.into());
    };
    if !version.has_reply_status(status) || !has_no_nul(exception) {
        return Err(Wrong::Inputs.into());
    }
    write_exception(
        version, order, id, status, contexts, exception, members, out,
    )
    .map_err(message_miss)
}

/// Writes a LocateRequest.
fn put_locate_request(
    version: Version,
    order: Order,
    request: &LocateRequest,
    out: &mut Vec<u8>,
) -> Result<(), Miss> {
    if !version.can_address(&request.target) {
        return Err(Wrong::Inputs.into());
    }
    write_locate_request(version, order, request.request_id, &request.target, out).map_err(
        message_miss,
    )
}

/// Writes a LocateReply.
fn put_locate_reply(
    version: Version,
    order: Order,
    reply: &LocateReply,
    body: &[Val],
    out: &mut Vec<u8>,
) -> Result<(), Miss>
    requires { AreWritable (values_of body.now) }
{
    let (id, status) = (reply.request_id, reply.status);
    if !version.has_locate_status(status) {
        return Err(Wrong::Inputs.into());
    }
    write_locate_reply(version, order, id, status, body, out).map_err(message_miss)
}

/// Writes a message by the writer of its kind.
fn put(
    message: &Message,
    contexts: &[(u32, &[u8])],
    body: &[Val],
    out: &mut Vec<u8>,
) -> Result<(), Miss>
    requires { AreWritable (values_of body.now) }
{
    let (version, order) = (message.version, message.order);
    match &message.content {
        Content::Request(request) => put_request(version, order, request, contexts, body, out),
        Content::Reply(reply) => put_reply(version, order, reply, contexts, body, out),
        Content::Cancel(cancel) => Ok(write_cancel(version, order, cancel.request_id, out)?),
        Content::LocateRequest(request) => put_locate_request(version, order, request, out),
        Content::LocateReply(reply) => put_locate_reply(version, order, reply, body, out),
        Content::Close => Ok(write_close(out)?),
        Content::Error => Ok(write_error(out)?),
        Content::Fragment(_) => Err(Wrong::Inputs.into()),
    }
}

/// Which writer writes a message.
#[derive(Clone, Copy)]
pub enum By {
    /// The writer of its kind.
    Kind,
    /// `write_exception`.
    Exception,
}

/// The writer of the message of a sample.
#[derive(Drop)]
pub struct MessageWriting {
    by: By,
    sample: &'static Sample,
    message: Message<'static>,
    contexts: Contexts,
    body: Val,
    output: Output,
}

impl MessageWriting {
    /// The inputs.
    pub(crate) fn new(
        alloc: Global,
        sample: &'static Sample,
        by: By,
        room: Room,
    ) -> Result<MessageWriting, Miss> {
        let message = message_of(sample)?;
        let body = checked_body(alloc, sample, &message.content)?;
        Ok(MessageWriting {
            by,
            sample,
            message,
            contexts: contexts_of(alloc, sample)?,
            body,
            output: Output::new(alloc, room)?,
        })
    }
}

impl Trial for MessageWriting {
    // The sample's octets stand after those from before.
    ghost is_right = { λ w. w.output.out.items ≡ w.output.before.now ++ w.sample.now.octets.now };

    fn call(&mut self, _alloc: Global) -> Result<(), Miss> {
        if !writable(&self.body) {
            return Err(Wrong::Inputs.into());
        }
        let Val::Struct(body) = &self.body else {
            return Err(Wrong::Inputs.into());
        };
        let out = &mut self.output.out;
        match self.by {
            By::Kind => put(&self.message, &self.contexts, body, out)?,
            By::Exception => put_exception(&self.message, &self.contexts, body, out)?,
        }
        if !self.output.has_gained(self.sample.octets) {
            return Err(Wrong::Octets.into());
        }
        Ok(())
    }

    fn is_unchanged(&self) -> bool {
        self.output.has_gained(&[])
    }
}
