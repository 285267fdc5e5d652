//! Reply (GIOP 9.4.3).

ghost use Rattle.std.specs.Prelude.{◌↔◌, Some, IsTrue, ◌≡◌, ◌≤◌, ◌<◌, ◌++◌, [], length, map, OnErr, OnOk};
ghost use Rattle.cdr_core.specs.Value.{values};
ghost use Rattle.cdr_core.specs.View.{values_of};
ghost use Rattle.cdr_core.specs.Writing.{octets_of_all, AreWritable};
ghost use Rattle.giop_core.specs.Items.{item_at};
ghost use Rattle.giop_core.specs.Places.{FindsParts};
ghost use Rattle.giop_core.specs.Private.{Adds, Begins, PutsFields};
ghost use Rattle.giop_core.specs.Statuses.{reply_status_number, reply_status_of, reply_statuses};
ghost use Rattle.giop_core.specs.Texts.{reply_status_text};
ghost use Rattle.giop_core.specs.Written.{behind_header, reply_fields, Wrote};
ghost use Rattle.giop_core.specs.declared.header.MessageKind.TheVariants as kind;
ghost use Rattle.giop_core.specs.declared.header.Version.TheVariants.{V10, V12};

use crate::error::{MessageFault, WriteError};
use crate::finder::Finder;
use crate::header::{MessageKind, Version};
use crate::message::Body;
use crate::places::{Parts, ReplyParts};
use crate::service_context::{Contexts, check_contexts, put_contexts};
use crate::writing::{begin, cut_back, finish};
use cdr_core::{Order, Val, Writer};
use std::alloc::AllocError;
use std::fmt;

/// A Reply (GIOP 9.4.3): the answer to the Request of this id.
#[derive(Debug, Drop)]
pub struct Reply<'m> {
    pub request_id: u32,
    /// A number that `ReplyStatus` names.
    pub status: u32,
    pub contexts: Contexts<'m>,
    pub body: Body<'m>,
}

/// The status of a Reply (GIOP 9.4.3).
#[derive(Clone, Copy, Debug, PartialEq, Eq)]
pub enum ReplyStatus {
    /// The body holds the results.
    NoException,
    /// The body holds an exception that the operation declares.
    UserException,
    /// The body holds a system exception.
    SystemException,
    /// The body holds a reference to ask in place of this one.
    LocationForward,
    /// The body holds a reference to ask in place of this one for good. Only 1.2 has it.
    LocationForwardPerm,
    /// The body holds the addressing that the server wants. Only 1.2 has it.
    NeedsAddressingMode,
}

impl ReplyStatus {
    /// The status of a number, or None where no version has it.
    pub fn from_number(number: u32) -> Option<ReplyStatus>
        ensures { result ≡ reply_status_of number }
    {
        match number {
            0 => Some(ReplyStatus::NoException),
            1 => Some(ReplyStatus::UserException),
            2 => Some(ReplyStatus::SystemException),
            3 => Some(ReplyStatus::LocationForward),
            4 => Some(ReplyStatus::LocationForwardPerm),
            5 => Some(ReplyStatus::NeedsAddressingMode),
            _ => None,
        }
    }

    /// The number of a status, as a message has it.
    pub fn number(self) -> u32
        ensures numbered { result ≡ reply_status_number self }
        ensures again { reply_status_of result ≡ Some self }
    {
        match self {
            ReplyStatus::NoException => 0,
            ReplyStatus::UserException => 1,
            ReplyStatus::SystemException => 2,
            ReplyStatus::LocationForward => 3,
            ReplyStatus::LocationForwardPerm => 4,
            ReplyStatus::NeedsAddressingMode => 5,
        }
    }
}

/// The name that the standard gives it, as `NO_EXCEPTION`.
impl fmt::Display for ReplyStatus {
    ghost output = { λ status. Some (reply_status_text status) };

    fn fmt<W: fmt::Write>(&self, f: &mut fmt::Formatter<W>) -> fmt::Result {
        match self {
            ReplyStatus::NoException => f.write_str("NO_EXCEPTION"),
            ReplyStatus::UserException => f.write_str("USER_EXCEPTION"),
            ReplyStatus::SystemException => f.write_str("SYSTEM_EXCEPTION"),
            ReplyStatus::LocationForward => f.write_str("LOCATION_FORWARD"),
            ReplyStatus::LocationForwardPerm => f.write_str("LOCATION_FORWARD_PERM"),
            ReplyStatus::NeedsAddressingMode => f.write_str("NEEDS_ADDRESSING_MODE"),
        }
    }
}

/// How many statuses a Reply of 1.0 or 1.1 can have: the numbers below it.
const STATUSES_10: u32 = 4;

/// How many statuses a Reply of 1.2 can have.
const STATUSES_12: u32 = 6;

impl Version {
    /// Whether a Reply of this version can have the status of this number: 0 to 3 in 1.0 and 1.1, 0 to 5 in 1.2.
    pub fn has_reply_status(self, status: u32) -> bool
        ensures { IsTrue result ↔ status < reply_statuses self }
    {
        match self {
            Version::V10 | Version::V11 => status < STATUSES_10,
            Version::V12 => status < STATUSES_12,
        }
    }
}

/// Finds the parts of a Reply of 1.0 or 1.1.
#[tactic(auto, unfolding(crate::specs::Messages::message_of, crate::specs::Rows::row, crate::specs::Content::content), using(crate::proofs::Again::list_again))]
pub(crate) fn find_reply_10(
    order: Order,
    octets: &[u8],
    parts: &mut Parts,
) -> Result<(), MessageFault>
    ensures { FindsParts V10 kind.Reply order octets.now result parts.new }
{
    let mut finder = Finder::new(octets, order);
    let contexts = finder.contexts()?;
    let request_id = finder.ulong()?;
    let status = finder.ordinal(STATUSES_10)?;
    *parts = Parts::Reply(ReplyParts {
        request_id,
        status,
        contexts,
        body: finder.body(),
    });
    Ok(())
}

/// Finds the parts of a Reply of 1.2.
#[tactic(auto, unfolding(crate::specs::Messages::message_of, crate::specs::Rows::row, crate::specs::Content::content), using(crate::proofs::Again::list_again))]
pub(crate) fn find_reply_12(
    order: Order,
    octets: &[u8],
    parts: &mut Parts,
) -> Result<(), MessageFault>
    ensures { FindsParts V12 kind.Reply order octets.now result parts.new }
{
    let mut finder = Finder::new(octets, order);
    let request_id = finder.ulong()?;
    let status = finder.ordinal(STATUSES_12)?;
    let contexts = finder.contexts()?;
    *parts = Parts::Reply(ReplyParts {
        request_id,
        status,
        contexts,
        body: finder.aligned_body(),
    });
    Ok(())
}

/// Appends the fields of a Reply of 1.0 and 1.1. A status is written as the unsigned long that it is.
fn put_reply_10(
    writer: &Writer,
    request_id: u32,
    status: u32,
    contexts: &[(u32, &[u8])],
    out: &mut Vec<u8>,
) -> Result<(), AllocError>
    requires start { writer.now.start ≤ length out.old.items }
    requires writable { AreWritable (values (reply_fields V10 request_id status (map item_at contexts.now))) }
    ensures { PutsFields writer.now (reply_fields V10 request_id status (map item_at contexts.now)) result out.old.items out.new.items }
{
    put_contexts(writer, contexts, out)?;
    writer.ulong(request_id, out)?;
    writer.ulong(status, out)?;
    Ok(())
}

/// Appends the fields of a Reply of 1.2.
fn put_reply_12(
    writer: &Writer,
    request_id: u32,
    status: u32,
    contexts: &[(u32, &[u8])],
    out: &mut Vec<u8>,
) -> Result<(), AllocError>
    requires start { writer.now.start ≤ length out.old.items }
    requires writable { AreWritable (values (reply_fields V12 request_id status (map item_at contexts.now))) }
    ensures { PutsFields writer.now (reply_fields V12 request_id status (map item_at contexts.now)) result out.old.items out.new.items }
{
    writer.ulong(request_id, out)?;
    writer.ulong(status, out)?;
    put_contexts(writer, contexts, out)?;
    Ok(())
}

/// Appends the fields of a Reply.
fn put_reply(
    version: Version,
    writer: &Writer,
    request_id: u32,
    status: u32,
    contexts: &[(u32, &[u8])],
    out: &mut Vec<u8>,
) -> Result<(), AllocError>
    requires start { writer.now.start ≤ length out.old.items }
    requires writable { AreWritable (values (reply_fields version request_id status (map item_at contexts.now))) }
    ensures { PutsFields writer.now (reply_fields version request_id status (map item_at contexts.now)) result out.old.items out.new.items }
{
    match version {
        Version::V10 | Version::V11 => put_reply_10(writer, request_id, status, contexts, out),
        Version::V12 => put_reply_12(writer, request_id, status, contexts, out),
    }
}

/// Appends the fields of a Reply of 1.2 without service contexts, which begin behind its header: three unsigned longs,
/// the last the number of contexts.
fn put_bare_reply(
    order: Order,
    request_id: u32,
    status: u32,
    out: &mut Vec<u8>,
) -> Result<(), AllocError>
    ensures ok { OnOk result (out.new.items ≡ out.old.items ++ octets_of_all order (values (reply_fields V12 request_id status [])) 12) }
    ensures err { OnErr result (out.new.items ≡ out.old.items) }
{
    let mut fields = [0; 12];
    order.put_ulong(request_id, &mut fields[..4]);
    order.put_ulong(status, &mut fields[4..8]);
    out.extend_from_slice(&fields)
}

/// Appends a Reply as far as its fields, with zeros in place of its header. Where that fails `out` may
/// keep a part of it at its end.
pub(crate) fn begin_reply(
    version: Version,
    order: Order,
    request_id: u32,
    status: u32,
    contexts: &[(u32, &[u8])],
    out: &mut Vec<u8>,
) -> Result<Writer, WriteError>
    ensures { Begins order (reply_fields version request_id status (map item_at contexts.now)) result out.old.items out.new.items }
{
    check_contexts(contexts)?;
    let writer = begin(order, out)?;
    if let (Version::V12, []) = (version, contexts) {
        put_bare_reply(order, request_id, status, out)?;
        return Ok(writer);
    }
    put_reply(version, &writer, request_id, status, contexts, out)?;
    Ok(writer)
}

/// Appends a Reply. Where that fails `out` may keep a part of it at its end.
fn append_reply(
    version: Version,
    order: Order,
    request_id: u32,
    status: u32,
    contexts: &[(u32, &[u8])],
    body: &[Val],
    out: &mut Vec<u8>,
) -> Result<(), WriteError>
    requires { AreWritable (values_of body.now) }
    ensures { Adds version kind.Reply order (behind_header version kind.Reply order (reply_fields version request_id status (map item_at contexts.now)) (values_of body.now)) result out.old.items out.new.items }
{
    let start = out.len();
    let writer = begin_reply(version, order, request_id, status, contexts, out)?;
    finish(
        version,
        MessageKind::Reply,
        start,
        order,
        &writer,
        body,
        out,
    )
}

/// Appends a Reply (GIOP 9.4.3).
///
/// The status is one that the version has. On an error `out` is as it was.
pub fn write_reply(
    version: Version,
    order: Order,
    request_id: u32,
    status: u32,
    contexts: &[(u32, &[u8])],
    body: &[Val],
    out: &mut Vec<u8>,
) -> Result<(), WriteError>
    requires status { status < reply_statuses version }
    requires writable { AreWritable (values_of body.now) }
    ensures { Wrote version kind.Reply order (behind_header version kind.Reply order (reply_fields version request_id status (map item_at contexts.now)) (values_of body.now)) result out.old.items out.new.items }
{
    let start = out.len();
    let result = append_reply(version, order, request_id, status, contexts, body, out);
    cut_back(result, start, out)
}
