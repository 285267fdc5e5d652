//! The references that answers lead on to.

use giop_core::{Body, Content, LocateStatus, ReplyStatus};
use ior_core::{Ior, IorError, read_ior};
use std::alloc::{AllocError, Global};

/// Where an answer leads on to.
#[derive(Drop)]
pub(crate) enum Forward {
    /// To this reference.
    To(Ior),
    /// Its body is no reference.
    Bad,
}

/// The body that has a reference, where the status says so (GIOP 9.4.3, GIOP 9.4.6).
pub(crate) fn forward_in<'m>(content: &Content<'m>) -> Option<Body<'m>> {
    match content {
        Content::Reply(reply) => match ReplyStatus::from_number(reply.status)? {
            ReplyStatus::LocationForward | ReplyStatus::LocationForwardPerm => Some(reply.body),
            _ => None,
        },
        Content::LocateReply(reply) => match LocateStatus::from_number(reply.status)? {
            LocateStatus::ObjectForward | LocateStatus::ObjectForwardPerm => Some(reply.body),
            _ => None,
        },
        _ => None,
    }
}

/// Where such a body leads on to.
pub(crate) fn forward_of(alloc: Global, body: &Body) -> Result<Forward, AllocError> {
    if body.at >= 0x1_0000_0000 {
        return Ok(Forward::Bad);
    }
    match read_ior(alloc, body.order, body.at, body.octets) {
        Ok((ior, _)) => Ok(Forward::To(ior)),
        Err(IorError::Memory) => Err(AllocError),
        Err(_) => Ok(Forward::Bad),
    }
}
