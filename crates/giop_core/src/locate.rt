//! LocateRequest and LocateReply (GIOP 9.4.5 and GIOP 9.4.6).

ghost use Rattle.std.specs.Prelude.{◌≡◌, ◌↔◌, Some, IsTrue, IfOk, ◌≤◌, ◌<◌, length};
ghost use Rattle.cdr_core.specs.Value.{no_values};
ghost use Rattle.cdr_core.specs.View.{values_of};
ghost use Rattle.cdr_core.specs.Writing.{AreWritable, IsWritable};
ghost use Rattle.giop_core.specs.Lent.{addressed_by};
ghost use Rattle.giop_core.specs.Places.{FindsParts};
ghost use Rattle.giop_core.specs.Private.{Adds, PutsFields};
ghost use Rattle.giop_core.specs.Statuses.{locate_status_number, locate_status_of, locate_statuses};
ghost use Rattle.giop_core.specs.Texts.{locate_status_text};
ghost use Rattle.giop_core.specs.Written.{behind_header, locate_reply_fields, locate_request_fields, message_octets, target_in, CanAddress, Wrote};
ghost use Rattle.giop_core.specs.declared.header.MessageKind.TheVariants as kind;
ghost use Rattle.giop_core.specs.declared.header.Version.TheVariants.{V10, V12};

use crate::error::{MessageFault, WriteError};
use crate::finder::Finder;
use crate::header::{Header, MessageKind, Version};
use crate::message::Body;
use crate::places::{Parts, TargetPlace};
use crate::target_address::{Target, check_target, put_target_in};
use crate::writing::{begin, cut_back, finish};
use cdr_core::{Order, Val, Writer};
use std::alloc::AllocError;
use std::fmt;

/// A LocateRequest (GIOP 9.4.5): it asks whether the server knows an object,
/// and where the object is.
#[derive(Debug, Drop)]
pub struct LocateRequest<'m> {
    pub request_id: u32,
    pub target: Target<'m>,
}

/// A LocateReply (GIOP 9.4.6): the answer to the LocateRequest of this id.
#[derive(Clone, Copy, Debug, Drop)]
pub struct LocateReply<'m> {
    pub request_id: u32,
    /// A number that `LocateStatus` names.
    pub status: u32,
    pub body: Body<'m>,
}

/// The status of a LocateReply (GIOP 9.4.6).
#[derive(Clone, Copy, Debug, PartialEq, Eq)]
pub enum LocateStatus {
    /// The server does not know the object.
    UnknownObject,
    /// The server itself serves the object.
    ObjectHere,
    /// The body holds a reference to ask in place of this one.
    ObjectForward,
    /// The body holds a reference to ask in place of this one for good. Only 1.2 has it.
    ObjectForwardPerm,
    /// The body holds a system exception. Only 1.2 has it.
    SystemException,
    /// The body holds the addressing that the server wants. Only 1.2 has it.
    NeedsAddressingMode,
}

impl LocateStatus {
    /// The status of a number, or None where no version has it.
    pub fn from_number(number: u32) -> Option<LocateStatus>
        ensures { result ≡ locate_status_of number }
    {
        match number {
            0 => Some(LocateStatus::UnknownObject),
            1 => Some(LocateStatus::ObjectHere),
            2 => Some(LocateStatus::ObjectForward),
            3 => Some(LocateStatus::ObjectForwardPerm),
            4 => Some(LocateStatus::SystemException),
            5 => Some(LocateStatus::NeedsAddressingMode),
            _ => None,
        }
    }

    /// The number of a status, as a message has it.
    pub fn number(self) -> u32
        ensures numbered { result ≡ locate_status_number self }
        ensures again { locate_status_of result ≡ Some self }
    {
        match self {
            LocateStatus::UnknownObject => 0,
            LocateStatus::ObjectHere => 1,
            LocateStatus::ObjectForward => 2,
            LocateStatus::ObjectForwardPerm => 3,
            LocateStatus::SystemException => 4,
            LocateStatus::NeedsAddressingMode => 5,
        }
    }
}

/// The name that the standard gives it, as `UNKNOWN_OBJECT`.
impl fmt::Display for LocateStatus {
    ghost output = { λ status. Some (locate_status_text status) };

    fn fmt<W: fmt::Write>(&self, f: &mut fmt::Formatter<W>) -> fmt::Result {
        match self {
            LocateStatus::UnknownObject => f.write_str("UNKNOWN_OBJECT"),
            LocateStatus::ObjectHere => f.write_str("OBJECT_HERE"),
            LocateStatus::ObjectForward => f.write_str("OBJECT_FORWARD"),
            LocateStatus::ObjectForwardPerm => f.write_str("OBJECT_FORWARD_PERM"),
            LocateStatus::SystemException => f.write_str("LOC_SYSTEM_EXCEPTION"),
            LocateStatus::NeedsAddressingMode => f.write_str("LOC_NEEDS_ADDRESSING_MODE"),
        }
    }
}

/// How many statuses a LocateReply of 1.0 or 1.1 can have: the numbers below it.
const STATUSES_10: u32 = 3;

/// How many statuses a LocateReply of 1.2 can have.
const STATUSES_12: u32 = 6;

impl Version {
    /// Whether a LocateReply of this version can have the status of this number: 0 to 2 in 1.0 and 1.1, 0 to 5 in 1.2.
    pub fn has_locate_status(self, status: u32) -> bool
        ensures { IsTrue result ↔ status < locate_statuses self }
    {
        match self {
            Version::V10 | Version::V11 => status < STATUSES_10,
            Version::V12 => status < STATUSES_12,
        }
    }
}

/// Finds the parts of a LocateRequest of 1.0 or 1.1.
#[tactic(auto, unfolding(crate::specs::Messages::message_of, crate::specs::Rows::row, crate::specs::Content::content))]
pub(crate) fn find_locate_request_10(
    order: Order,
    octets: &[u8],
    parts: &mut Parts,
) -> Result<(), MessageFault>
    ensures { FindsParts V10 kind.LocateRequest order octets.now result parts.new }
{
    let mut finder = Finder::new(octets, order);
    let request_id = finder.ulong()?;
    let key = finder.octets()?;
    *parts = Parts::LocateRequest(request_id, TargetPlace::Key(key));
    Ok(())
}

/// Finds the parts of a LocateRequest of 1.2.
#[tactic(auto, unfolding(crate::specs::Messages::message_of, crate::specs::Rows::row, crate::specs::Content::content), using(crate::proofs::Again::object_again))]
pub(crate) fn find_locate_request_12(
    order: Order,
    octets: &[u8],
    parts: &mut Parts,
) -> Result<(), MessageFault>
    ensures { FindsParts V12 kind.LocateRequest order octets.now result parts.new }
{
    let mut finder = Finder::new(octets, order);
    let request_id = finder.ulong()?;
    let target = finder.target()?;
    *parts = Parts::LocateRequest(request_id, target);
    Ok(())
}

/// Appends the fields of a LocateRequest.
fn put_locate_request(
    version: Version,
    writer: &Writer,
    request_id: u32,
    target: &Target,
    out: &mut Vec<u8>,
) -> Result<(), AllocError>
    requires start { writer.now.start ≤ length out.old.items }
    requires can { CanAddress version (addressed_by target.now) }
    requires writable { IsWritable (target_in version (addressed_by target.now)) }
    ensures { PutsFields writer.now (locate_request_fields version request_id (addressed_by target.now)) result out.old.items out.new.items }
{
    writer.ulong(request_id, out)?;
    put_target_in(version, writer, target, out)?;
    Ok(())
}

/// Appends a LocateRequest. Where that fails `out` may keep a part of it at its end.
fn append_locate_request(
    version: Version,
    order: Order,
    request_id: u32,
    target: &Target,
    out: &mut Vec<u8>,
) -> Result<(), WriteError>
    requires { CanAddress version (addressed_by target.now) }
    ensures { Adds version kind.LocateRequest order (behind_header version kind.LocateRequest order (locate_request_fields version request_id (addressed_by target.now)) no_values) result out.old.items out.new.items }
{
    check_target(version, target)?;
    let start = out.len();
    let writer = begin(order, out)?;
    put_locate_request(version, &writer, request_id, target, out)?;
    finish(
        version,
        MessageKind::LocateRequest,
        start,
        order,
        &writer,
        &[],
        out,
    )
}

/// Appends a LocateRequest (GIOP 9.4.5).
///
/// In 1.0 and 1.1 the target is an object key. On an error `out` is as it was.
pub fn write_locate_request(
    version: Version,
    order: Order,
    request_id: u32,
    target: &Target,
    out: &mut Vec<u8>,
) -> Result<(), WriteError>
    requires { CanAddress version (addressed_by target.now) }
    ensures { Wrote version kind.LocateRequest order (behind_header version kind.LocateRequest order (locate_request_fields version request_id (addressed_by target.now)) no_values) result out.old.items out.new.items }
{
    let start = out.len();
    let result = append_locate_request(version, order, request_id, target, out);
    cut_back(result, start, out)
}

/// Finds the parts of a LocateReply of 1.0 or 1.1.
#[tactic(auto, unfolding(crate::specs::Messages::message_of, crate::specs::Rows::row, crate::specs::Content::content))]
pub(crate) fn find_locate_reply_10(
    order: Order,
    octets: &[u8],
    parts: &mut Parts,
) -> Result<(), MessageFault>
    ensures { FindsParts V10 kind.LocateReply order octets.now result parts.new }
{
    let mut finder = Finder::new(octets, order);
    let request_id = finder.ulong()?;
    let status = finder.ordinal(STATUSES_10)?;
    *parts = Parts::LocateReply(request_id, status, finder.body());
    Ok(())
}

/// Finds the parts of a LocateReply of 1.2.
#[tactic(auto, unfolding(crate::specs::Messages::message_of, crate::specs::Rows::row, crate::specs::Content::content))]
pub(crate) fn find_locate_reply_12(
    order: Order,
    octets: &[u8],
    parts: &mut Parts,
) -> Result<(), MessageFault>
    ensures { FindsParts V12 kind.LocateReply order octets.now result parts.new }
{
    let mut finder = Finder::new(octets, order);
    let request_id = finder.ulong()?;
    let status = finder.ordinal(STATUSES_12)?;
    *parts = Parts::LocateReply(request_id, status, finder.body());
    Ok(())
}

/// A LocateReply without a body (GIOP 9.4.6).
pub fn locate_reply_octets(version: Version, order: Order, request_id: u32, status: u32) -> [u8; 20]
    ensures { result ≡ message_octets version kind.LocateReply order (behind_header version kind.LocateReply order (locate_reply_fields request_id status) no_values) }
{
    let header = Header {
        version,
        order,
        more: false,
        kind: MessageKind::LocateReply,
        size: 8,
    };
    let mut octets = [0; Header::LEN + 8];
    octets[..Header::LEN].copy_from_slice(&header.octets());
    order.put_ulong(request_id, &mut octets[Header::LEN..]);
    order.put_ulong(status, &mut octets[Header::LEN + 4..]);
    octets
}

/// Appends the fields of a LocateReply.
fn put_locate_reply(
    writer: &Writer,
    request_id: u32,
    status: u32,
    out: &mut Vec<u8>,
) -> Result<(), AllocError>
    requires { writer.now.start ≤ length out.old.items }
    ensures { PutsFields writer.now (locate_reply_fields request_id status) result out.old.items out.new.items }
{
    writer.ulong(request_id, out)?;
    writer.ulong(status, out)?;
    Ok(())
}

/// Appends a LocateReply. Where that fails `out` may keep a part of it at its end.
fn append_locate_reply(
    version: Version,
    order: Order,
    request_id: u32,
    status: u32,
    body: &[Val],
    out: &mut Vec<u8>,
) -> Result<(), WriteError>
    requires { AreWritable (values_of body.now) }
    ensures { Adds version kind.LocateReply order (behind_header version kind.LocateReply order (locate_reply_fields request_id status) (values_of body.now)) result out.old.items out.new.items }
{
    let start = out.len();
    let writer = begin(order, out)?;
    put_locate_reply(&writer, request_id, status, out)?;
    finish(
        version,
        MessageKind::LocateReply,
        start,
        order,
        &writer,
        body,
        out,
    )
}

/// Appends a LocateReply (GIOP 9.4.6).
///
/// The status is one that the version has. On an error `out` is as it was.
pub fn write_locate_reply(
    version: Version,
    order: Order,
    request_id: u32,
    status: u32,
    body: &[Val],
    out: &mut Vec<u8>,
) -> Result<(), WriteError>
    requires status { status < locate_statuses version }
    requires writable { AreWritable (values_of body.now) }
    ensures { Wrote version kind.LocateReply order (behind_header version kind.LocateReply order (locate_reply_fields request_id status) (values_of body.now)) result out.old.items out.new.items }
{
    let start = out.len();
    let result = append_locate_reply(version, order, request_id, status, body, out);
    cut_back(result, start, out)
}
