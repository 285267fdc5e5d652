//! A Reply whose body comes as octets (GIOP 9.4.3).

ghost use Rattle.std.specs.Prelude.{◌≡◌, MatchResult, ◌≤◌, ◌<◌, ◌++◌, length, map};
ghost use Rattle.cdr_core.specs.Private.{Keeps};
ghost use Rattle.cdr_core.specs.Writing.{place_in};
ghost use Rattle.giop_core.specs.Items.{item_at};
ghost use Rattle.giop_core.specs.Private.{Adds};
ghost use Rattle.giop_core.specs.Statuses.{reply_statuses};
ghost use Rattle.giop_core.specs.Written.{behind_header, body_octets, octets_body, reply_fields, Wrote};
ghost use Rattle.giop_core.specs.declared.header.MessageKind.TheVariants as kind;

use crate::error::WriteError;
use crate::header::{MessageKind, Version};
use crate::reply::begin_reply;
use crate::writing::{cut_back, put_header};
use cdr_core::{Order, Writer};
use std::alloc::AllocError;

/// Appends the body of a Reply that comes as octets. In 1.2 padding stands before it, if it has any.
fn put_octets(
    version: Version,
    writer: &Writer,
    octets: &[u8],
    out: &mut Vec<u8>,
) -> Result<(), AllocError>
    requires { writer.now.start ≤ length out.old.items }
    ensures { MatchResult result
        (λ _. out.new.items ≡ out.old.items ++ body_octets version kind.Reply writer.now.order (octets_body octets.now) (place_in writer.now out.old.items))
        (λ _. Keeps out.old.items out.new.items) }
{
    cdr_core::laws::are_octets(octets);
    if octets.is_empty() {
        return Ok(());
    }
    let alignment = match version {
        Version::V10 | Version::V11 => 1,
        Version::V12 => 8,
    };
    writer.align(alignment, out)?;
    out.extend_from_slice(octets)
}

/// Appends a Reply whose body comes as octets. Where that fails `out` may keep a part of it at its end.
fn append_raw_reply(
    version: Version,
    order: Order,
    request_id: u32,
    status: u32,
    contexts: &[(u32, &[u8])],
    body: &[u8],
    out: &mut Vec<u8>,
) -> Result<(), WriteError>
    ensures { Adds version kind.Reply order (behind_header version kind.Reply order (reply_fields version request_id status (map item_at contexts.now)) (octets_body body.now)) result out.old.items out.new.items }
{
    let start = out.len();
    let writer = begin_reply(version, order, request_id, status, contexts, out)?;
    put_octets(version, &writer, body, out)?;
    put_header(version, MessageKind::Reply, order, start, out)
}

/// Appends a Reply whose body comes as octets (GIOP 9.4.3), written for a place divisible by
/// 8, in the order of the message. They are copied as they stand, and nothing reads them.
///
/// In 1.2 padding leads to such a place, and no octets take no padding. In 1.0 and 1.1 the body follows
/// the fields, which end at the place 24 where there are no contexts. The status is one that the version
/// has. On an error `out` is as it was: the message is longer than 4,294,967,295 octets after its header,
/// or an allocation failed.
pub fn write_raw_reply(
    version: Version,
    order: Order,
    request_id: u32,
    status: u32,
    contexts: &[(u32, &[u8])],
    body: &[u8],
    out: &mut Vec<u8>,
) -> Result<(), WriteError>
    requires status { status < reply_statuses version }
    ensures { Wrote version kind.Reply order (behind_header version kind.Reply order (reply_fields version request_id status (map item_at contexts.now)) (octets_body body.now)) result out.old.items out.new.items }
{
    let start = out.len();
    let result = append_raw_reply(version, order, request_id, status, contexts, body, out);
    cut_back(result, start, out)
}
