//! Messages, lent from their octets: the choice among the kinds.

ghost use Rattle.std.specs.Prelude.{◌≡◌, ◌<◌, ◌^◌, ◌++◌, ℕ, List, Ok, Err, IfOk, MatchResult};
ghost use Rattle.cdr_core.specs.Fitting.{AreValid};
ghost use Rattle.cdr_core.specs.Spelling.{SpellsMembers};
ghost use Rattle.cdr_core.specs.Value.{Values};
ghost use Rattle.cdr_core.specs.View.{forms_of};
ghost use Rattle.giop_core.specs.Bodies.{BodyAnswers, BodyReads};
ghost use Rattle.giop_core.specs.Lent.{Shows, content_of, rest_of};
ghost use Rattle.giop_core.specs.Messages.{message_of, OnBody, StandsNear};
ghost use Rattle.giop_core.specs.Places.{ArePlacesOf, FindsParts};

use crate::cancel::{CancelRequest, find_cancel};
use crate::error::MessageFault;
use crate::fragment::{Fragment, find_fragment};
use crate::header::{Header, MessageKind, Version};
use crate::locate::{
    LocateReply, LocateRequest, find_locate_reply_10, find_locate_reply_12, find_locate_request_10,
    find_locate_request_12,
};
use crate::places::Parts;
use crate::reply::{Reply, find_reply_10, find_reply_12};
use crate::request::{Request, find_request_12, find_request_by_key};
use cdr_core::{CdrError, Order, Ty, Val};
use std::alloc::Global;

/// The place of the first octet after a header.
pub(crate) const AFTER_HEADER: u64 = Header::LEN as u64;

/// A body: its octets, their byte order, and the place of the first in the message, which counts from
/// the header on and decides the alignment of each value.
#[derive(Clone, Copy, Debug, Drop)]
pub struct Body<'m> {
    pub order: Order,
    pub at: u64,
    pub octets: &'m [u8],
}

impl<'m> Body<'m> {
    /// The values of these types that stand one after another at the front of the body, read in its
    /// order and at its place. Octets after them are ignored.
    ///
    /// An error is that of `cdr_core::read_list`: the first fault, whose place counts from the beginning
    /// of the message, or that an allocation failed.
    pub fn read(&self, alloc: Global, types: &[Ty]) -> Result<Vec<Val>, CdrError>
        requires valid { AreValid (forms_of types.now) }
        requires at { self.now.at < 2 ^ 32 }
        ensures answers { BodyAnswers (forms_of types.now) (rest_of self.now) result }
        ensures only { (vs : Values) (front rest : List ℕ) → self.now.octets.now ≡ front ++ rest → SpellsMembers (forms_of types.now) self.now.order vs self.now.at front → BodyReads vs result }
    {
        let (values, _) = cdr_core::read_list(alloc, types, self.order, self.at, self.octets)?;
        Ok(values)
    }
}

/// What a message says (GIOP 9.4.2 to GIOP 9.4.9).
#[derive(Debug, Drop)]
pub enum Content<'m> {
    Request(Request<'m>),
    Reply(Reply<'m>),
    Cancel(CancelRequest),
    LocateRequest(LocateRequest<'m>),
    LocateReply(LocateReply<'m>),
    /// CloseConnection, which is its header alone.
    Close,
    /// MessageError, which is its header alone.
    Error,
    Fragment(Fragment<'m>),
}

/// A message, with the version and the byte order of its header.
#[derive(Debug, Drop)]
pub struct Message<'m> {
    pub version: Version,
    pub order: Order,
    pub content: Content<'m>,
}

/// Finds the parts of a message of any kind and version. It is no part of its caller, so that the finder of a Request of
/// 1.2 stays small.
#[inline(never)]
#[tactic(auto, using(crate::proofs::Shared::reply_11, crate::proofs::Shared::locate_11, crate::proofs::Shared::locate_reply_11, crate::proofs::Shared::cancel_any, crate::proofs::Shared::close_any, crate::proofs::Shared::error_any))]
fn find_any(
    kind: MessageKind,
    version: Version,
    order: Order,
    octets: &[u8],
    parts: &mut Parts,
) -> Result<(), MessageFault>
    ensures { FindsParts version kind order octets.now result parts.new }
{
    match (kind, version) {
        (MessageKind::Request, Version::V12) => find_request_12(order, octets, parts),
        (MessageKind::Request, _) => find_request_by_key(version, order, octets, parts),
        (MessageKind::Reply, Version::V12) => find_reply_12(order, octets, parts),
        (MessageKind::Reply, _) => find_reply_10(order, octets, parts),
        (MessageKind::CancelRequest, _) => find_cancel(order, octets, parts),
        (MessageKind::LocateRequest, Version::V12) => find_locate_request_12(order, octets, parts),
        (MessageKind::LocateRequest, _) => find_locate_request_10(order, octets, parts),
        (MessageKind::LocateReply, Version::V12) => find_locate_reply_12(order, octets, parts),
        (MessageKind::LocateReply, _) => find_locate_reply_10(order, octets, parts),
        (MessageKind::Fragment, _) => find_fragment(version, order, octets, parts),
        (MessageKind::CloseConnection, _) => {
            *parts = Parts::Close;
            Ok(())
        }
        (MessageKind::MessageError, _) => {
            *parts = Parts::Error;
            Ok(())
        }
    }
}

/// Where the parts of a message lie: all that one reading finds, so that the message can be lent again without being
/// read.
#[derive(Clone, Copy, Debug)]
pub struct Places {
    pub(crate) parts: Parts,
}

impl Places {
    /// The places of a message that is its header alone, until others are found.
    pub fn new() -> Places {
        Places {
            parts: Parts::Close,
        }
    }

    /// Reads the message that the octets after a header are, and finds where its parts lie, or the first fault. It
    /// takes no memory.
    ///
    /// The octets are those of a whole message, as `read_message` takes them. At a fault nothing lies at these places.
    #[inline(always)]
    pub fn find(&mut self, header: &Header, octets: &[u8]) -> Result<(), MessageFault>
        ensures { MatchResult result (λ _. ArePlacesOf header.now octets.now self.new) (λ e. message_of header.now.version header.now.kind header.now.order octets.now ≡ Err e) }
    {
        if let (MessageKind::Request, Version::V12) = (header.kind, header.version) {
            return find_request_12(header.order, octets, &mut self.parts);
        }
        find_any(
            header.kind,
            header.version,
            header.order,
            octets,
            &mut self.parts,
        )
    }

    /// Lends the message from its octets, without reading it.
    #[inline(always)]
    pub fn lend<'m>(&self, header: &Header, octets: &'m [u8]) -> Message<'m>
        requires { ArePlacesOf header.now octets.now self.now }
        ensures says { message_of header.now.version header.now.kind header.now.order octets.now ≡ Ok (content_of result.content) }
        ensures same { (result.version ≡ header.now.version) × (result.order ≡ header.now.order) }
        ensures near { OnBody (StandsNear octets.now) (content_of result.content) }
    {
        Message {
            version: header.version,
            order: header.order,
            content: self.parts.lend(header.order, octets),
        }
    }
}

/// Reads the message that the octets after a header are, or finds the first fault in them. It takes no
/// memory: the message is lent from the octets.
///
/// The octets are those of a whole message: its header announces no more fragments, and its size is
/// their number. Octets after the fields of a message that has no body are ignored (own rule). Places in
/// faults and bodies count from the beginning of the message, its header included; a body's is at most 7
/// past the message's end.
#[inline(always)]
pub fn read_message<'m>(header: &Header, octets: &'m [u8]) -> Result<Message<'m>, MessageFault>
    ensures shows { Shows (λ m. content_of m.content) result (message_of header.now.version header.now.kind header.now.order octets.now) }
    ensures same { IfOk result (λ m. (m.version ≡ header.now.version) × (m.order ≡ header.now.order)) }
    ensures near { IfOk result (λ m. OnBody (StandsNear octets.now) (content_of m.content)) }
{
    let mut places = Places::new();
    places.find(header, octets)?;
    Ok(places.lend(header, octets))
}
