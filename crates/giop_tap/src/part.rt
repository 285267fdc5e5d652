//! What a message is to the pairs of requests and answers.

ghost use Rattle.std.specs.Prelude.{◌≡◌};
ghost use Rattle.giop_core.specs.Lent.{content_of};
ghost use Rattle.giop_core.specs.Ft.{ft_seen};
ghost use Rattle.giop_tap.specs.Pairing as pairs;

use crate::place::Wanted;
use giop_core::{Content, FtField, ReplyWish, ft_request};

/// What a message is to the pairs of requests and answers.
#[derive(Clone, Copy)]
pub(crate) enum Part {
    /// A request of this id, which waits for an answer of this kind.
    Asks(Wanted, u32),
    /// An answer of this kind, to a request of this id.
    Answers(Wanted, u32),
    /// A cancel of a request of this id.
    Cancels(u32),
    /// None of these.
    Apart,
}

/// What a request with this wish is.
fn asked_by(wish: ReplyWish, id: u32) -> Part
    ensures { result ≡ pairs.asked_by wish id }
{
    match wish {
        ReplyWish::None => Part::Apart,
        ReplyWish::Empty | ReplyWish::Full => Part::Asks(Wanted::Reply, id),
    }
}

/// What a message is to the pairs.
pub(crate) fn part_of(content: &Content) -> Part
    ensures { result ≡ pairs.part_of (content_of content.now) }
{
    match content {
        Content::Request(request) => asked_by(request.reply, request.request_id),
        Content::LocateRequest(request) => Part::Asks(Wanted::Location, request.request_id),
        Content::Reply(reply) => Part::Answers(Wanted::Reply, reply.request_id),
        Content::LocateReply(reply) => Part::Answers(Wanted::Location, reply.request_id),
        Content::Cancel(cancel) => Part::Cancels(cancel.request_id),
        Content::Close | Content::Error | Content::Fragment(_) => Part::Apart,
    }
}

/// What the contexts of a message say of its client, if it is a request.
pub(crate) fn field_of<'m>(content: &Content<'m>) -> FtField<'m>
    ensures { ft_seen result ≡ pairs.ft_of (content_of content.now) }
{
    match content {
        Content::Request(request) => ft_request(&request.contexts),
        _ => FtField::Absent,
    }
}
