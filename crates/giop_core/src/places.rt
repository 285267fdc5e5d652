//! Where the parts of a message lie, as one reading finds them, so that the message can be lent again without being read.

ghost use Rattle.std.specs.Prelude.{◌≡◌, ◌≤◌, length};
ghost use Rattle.giop_core.specs.Items.{contexts_left};
ghost use Rattle.giop_core.specs.Lent.{addressed_by, content_of, reply_of, request_of, rest_of};
ghost use Rattle.giop_core.specs.Places.{ArePartsIn, IsSpanIn, IsTargetIn, body_in, content_in, contexts_in, object_in, span_in};
ghost use Rattle.giop_core.specs.declared.places.Parts.TheVariants as Parts;
ghost use Rattle.giop_core.specs.declared.places.TargetPlace.TheVariants.{Other};

use crate::cancel::CancelRequest;
use crate::fragment::Fragment;
use crate::locate::{LocateReply, LocateRequest};
use crate::message::{AFTER_HEADER, Body, Content};
use crate::reply::Reply;
use crate::request::{ReplyWish, Request};
use crate::service_context::Contexts;
use crate::target_address::{Target, read_any_target};
use cdr_core::{Cursor, Order};

/// Octets that a message lends: how many stand before them after the header, and up to their end.
#[derive(Clone, Copy, Debug)]
pub(crate) struct Span {
    pub start: usize,
    pub end: usize,
}

/// Where a target lies.
#[derive(Clone, Copy, Debug)]
pub(crate) enum TargetPlace {
    /// An object key.
    Key(Span),
    /// A profile or a reference, which is read again: how many octets stand before it.
    Other(usize),
}

/// Where service contexts lie: how many octets stand before the first, and how many contexts there are.
#[derive(Clone, Copy, Debug)]
pub(crate) struct ContextsPlace {
    pub start: usize,
    pub left: u32,
}

/// Where a body lies: how many octets stand before it, and its place in the message, which may lie past the end of
/// an empty one.
#[derive(Clone, Copy, Debug)]
pub(crate) struct BodyPlace {
    pub start: usize,
    pub at: u64,
}

/// What a Request says that is no octets, and where its parts lie.
#[derive(Clone, Copy, Debug)]
pub(crate) struct RequestParts {
    pub request_id: u32,
    pub reply: ReplyWish,
    pub target: TargetPlace,
    pub operation: Span,
    pub contexts: ContextsPlace,
    pub body: BodyPlace,
}

/// What a Reply says that is no octets, and where its parts lie.
#[derive(Clone, Copy, Debug)]
pub(crate) struct ReplyParts {
    pub request_id: u32,
    pub status: u32,
    pub contexts: ContextsPlace,
    pub body: BodyPlace,
}

/// What a message says that is no octets, and where its parts lie, by its kind.
#[derive(Clone, Copy, Debug)]
pub(crate) enum Parts {
    Request(RequestParts),
    Reply(ReplyParts),
    /// The id.
    Cancel(u32),
    /// The id and the target.
    LocateRequest(u32, TargetPlace),
    /// The id, the status and the body.
    LocateReply(u32, u32, BodyPlace),
    Close,
    Error,
    /// The id, if it has one, and how many octets stand before the payload.
    Fragment(Option<u32>, usize),
}

impl Span {
    /// The octets.
    #[inline(always)]
    fn lend(self, octets: &[u8]) -> &[u8]
        requires { IsSpanIn self octets.now }
        ensures { result.now ≡ span_in self octets.now }
    {
        &octets[self.start..self.end]
    }
}

/// A target that is no key, which is read again behind so many octets.
#[inline(never)]
fn target_again(start: usize, order: Order, octets: &[u8]) -> Target<'_>
    requires { IsTargetIn (Other start) order octets.now }
    ensures { addressed_by result ≡ object_in (Other start) order octets.now }
{
    let mut cursor = Cursor::new(octets, order, AFTER_HEADER);
    cursor.skip(start);
    match read_any_target(&mut cursor) {
        Ok(target) => target,
        Err(_) => unreachable!(),
    }
}

impl TargetPlace {
    /// The target.
    #[inline(always)]
    pub fn lend(self, order: Order, octets: &[u8]) -> Target<'_>
        requires { IsTargetIn self order octets.now }
        ensures { addressed_by result ≡ object_in self order octets.now }
    {
        match self {
            TargetPlace::Key(span) => Target::Key(span.lend(octets)),
            TargetPlace::Other(start) => target_again(start, order, octets),
        }
    }
}

impl ContextsPlace {
    /// The contexts.
    #[inline(always)]
    fn lend(self, order: Order, octets: &[u8]) -> Contexts<'_>
        requires { self.start ≤ length octets.now }
        ensures { contexts_left result ≡ contexts_in self order octets.now }
    {
        let mut cursor = Cursor::new(octets, order, AFTER_HEADER);
        cursor.skip(self.start);
        Contexts {
            cursor,
            left: self.left,
        }
    }
}

impl BodyPlace {
    /// The body.
    #[inline(always)]
    pub fn lend(self, order: Order, octets: &[u8]) -> Body<'_>
        requires { self.start ≤ length octets.now }
        ensures { rest_of result ≡ body_in self order octets.now }
    {
        Body {
            order,
            at: self.at,
            octets: &octets[self.start..],
        }
    }
}

impl RequestParts {
    /// The Request.
    #[inline(always)]
    pub fn lend<'m>(&self, order: Order, octets: &'m [u8]) -> Request<'m>
        requires { ArePartsIn (Parts.Request self.now) order octets.now }
        ensures { request_of result ≡ content_in (Parts.Request self.now) order octets.now }
    {
        Request {
            request_id: self.request_id,
            reply: self.reply,
            target: self.target.lend(order, octets),
            operation: self.operation.lend(octets),
            contexts: self.contexts.lend(order, octets),
            body: self.body.lend(order, octets),
        }
    }
}

impl ReplyParts {
    /// The Reply.
    #[inline(always)]
    pub fn lend<'m>(&self, order: Order, octets: &'m [u8]) -> Reply<'m>
        requires { ArePartsIn (Parts.Reply self.now) order octets.now }
        ensures { reply_of result ≡ content_in (Parts.Reply self.now) order octets.now }
    {
        Reply {
            request_id: self.request_id,
            status: self.status,
            contexts: self.contexts.lend(order, octets),
            body: self.body.lend(order, octets),
        }
    }
}

impl Parts {
    /// The message.
    #[inline(always)]
    pub fn lend<'m>(&self, order: Order, octets: &'m [u8]) -> Content<'m>
        requires { ArePartsIn self.now order octets.now }
        ensures { content_of result ≡ content_in self.now order octets.now }
    {
        match self {
            Parts::Request(it) => Content::Request(it.lend(order, octets)),
            Parts::Reply(it) => Content::Reply(it.lend(order, octets)),
            Parts::Cancel(id) => Content::Cancel(CancelRequest { request_id: *id }),
            Parts::LocateRequest(id, target) => Content::LocateRequest(LocateRequest {
                request_id: *id,
                target: target.lend(order, octets),
            }),
            Parts::LocateReply(id, status, body) => Content::LocateReply(LocateReply {
                request_id: *id,
                status: *status,
                body: body.lend(order, octets),
            }),
            Parts::Close => Content::Close,
            Parts::Error => Content::Error,
            Parts::Fragment(id, start) => Content::Fragment(Fragment {
                request_id: *id,
                payload: &octets[*start..],
            }),
        }
    }
}
