//! What a message says, part by part.

use giop_core::{Body, Content, Contexts, FtField, LocateStatus, ReplyStatus, Target, ft_request};
use giop_text::{SystemException, exception_id, system_exception};

/// How an answer ended.
#[derive(Clone, Copy)]
pub(crate) enum Outcome<'m> {
    /// As no exception.
    Plain,
    /// As this exception; none where the body is none.
    System(Option<SystemException<'m>>),
    /// As the exception of this repository id; none where the body has none.
    User(Option<&'m [u8]>),
}

/// How a message that is an answer ended.
pub(crate) fn outcome_of<'m>(content: &Content<'m>) -> Outcome<'m> {
    match content {
        Content::Reply(reply) => match ReplyStatus::from_number(reply.status) {
            Some(ReplyStatus::SystemException) => Outcome::System(system_exception(&reply.body)),
            Some(ReplyStatus::UserException) => Outcome::User(exception_id(&reply.body)),
            _ => Outcome::Plain,
        },
        Content::LocateReply(reply) => match LocateStatus::from_number(reply.status) {
            Some(LocateStatus::SystemException) => Outcome::System(system_exception(&reply.body)),
            _ => Outcome::Plain,
        },
        _ => Outcome::Plain,
    }
}

/// The name of its kind.
pub(crate) fn kind_of(content: &Content) -> &'static str {
    match content {
        Content::Request(_) => "Request",
        Content::Reply(_) => "Reply",
        Content::Cancel(_) => "CancelRequest",
        Content::LocateRequest(_) => "LocateRequest",
        Content::LocateReply(_) => "LocateReply",
        Content::Close => "CloseConnection",
        Content::Error => "MessageError",
        Content::Fragment(_) => "Fragment",
    }
}

/// Its request id, where its kind has one. (That of a Fragment is none of its own.)
pub(crate) fn id_of(content: &Content) -> Option<u32> {
    match content {
        Content::Request(request) => Some(request.request_id),
        Content::Reply(reply) => Some(reply.request_id),
        Content::Cancel(cancel) => Some(cancel.request_id),
        Content::LocateRequest(request) => Some(request.request_id),
        Content::LocateReply(reply) => Some(reply.request_id),
        _ => None,
    }
}

/// What it is for.
pub(crate) fn target_of<'c, 'm>(content: &'c Content<'m>) -> Option<&'c Target<'m>> {
    match content {
        Content::Request(request) => Some(&request.target),
        Content::LocateRequest(request) => Some(&request.target),
        _ => None,
    }
}

/// Its body, where its kind has one.
pub(crate) fn body_of<'m>(content: &Content<'m>) -> Option<Body<'m>> {
    match content {
        Content::Request(request) => Some(request.body),
        Content::Reply(reply) => Some(reply.body),
        Content::LocateReply(reply) => Some(reply.body),
        _ => None,
    }
}

/// What its contexts say of a client.
pub(crate) fn ft_of<'m>(content: &Content<'m>) -> FtField<'m> {
    match content {
        Content::Request(request) => ft_request(&request.contexts),
        _ => FtField::Absent,
    }
}

/// Its contexts, where its kind has some.
pub(crate) fn contexts_of<'m>(content: Content<'m>) -> Option<Contexts<'m>> {
    match content {
        Content::Request(request) => Some(request.contexts),
        Content::Reply(reply) => Some(reply.contexts),
        _ => None,
    }
}
