//! A Reply that carries an exception (GIOP 9.4.3).

ghost use Rattle.std.specs.Prelude.{◌≡◌, MatchResult, ◌≤◌, ◌<◌, ◌++◌, length, map};
ghost use Rattle.cdr_core.specs.Private.{Keeps};
ghost use Rattle.cdr_core.specs.Spelling.{IsClean};
ghost use Rattle.cdr_core.specs.View.{values_of};
ghost use Rattle.cdr_core.specs.Writing.{place_in, AreWritable, PutsAll};
ghost use Rattle.giop_core.specs.Items.{item_at};
ghost use Rattle.giop_core.specs.Private.{Adds};
ghost use Rattle.giop_core.specs.Statuses.{reply_statuses};
ghost use Rattle.giop_core.specs.Written.{behind_header, body_octets, exception_body, reply_fields, Wrote};
ghost use Rattle.giop_core.specs.declared.header.MessageKind.TheVariants as kind;

use crate::error::WriteError;
use crate::header::{MessageKind, Version};
use crate::reply::begin_reply;
use crate::writing::{check_text, cut_back, put_header};
use cdr_core::{Order, Val, Writer};
use std::alloc::AllocError;

/// Appends the id of an exception and its members.
fn put_members(
    writer: &Writer,
    exception: &[u8],
    members: &[Val],
    out: &mut Vec<u8>,
) -> Result<(), AllocError>
    requires start { writer.now.start ≤ length out.old.items }
    requires writable { AreWritable (exception_body exception.now (values_of members.now)) }
    ensures { MatchResult result
        (λ _. PutsAll writer.now (exception_body exception.now (values_of members.now)) out.old.items out.new.items)
        (λ _. Keeps out.old.items out.new.items) }
{
    writer.string(exception, out)?;
    writer.values(members, out)
}

/// Appends the body of a Reply that carries an exception. In 1.2 padding stands before it.
fn put_exception(
    version: Version,
    writer: &Writer,
    exception: &[u8],
    members: &[Val],
    out: &mut Vec<u8>,
) -> Result<(), AllocError>
    requires start { writer.now.start ≤ length out.old.items }
    requires writable { AreWritable (exception_body exception.now (values_of members.now)) }
    ensures { MatchResult result
        (λ _. out.new.items ≡ out.old.items ++ body_octets version kind.Reply writer.now.order (exception_body exception.now (values_of members.now)) (place_in writer.now out.old.items))
        (λ _. Keeps out.old.items out.new.items) }
{
    match version {
        Version::V10 | Version::V11 => put_members(writer, exception, members, out),
        Version::V12 => {
            writer.align(8, out)?;
            put_members(writer, exception, members, out)
        }
    }
}

/// Appends a Reply that carries an exception. Where that fails `out` may keep a part of it at its end.
fn append_exception(
    version: Version,
    order: Order,
    request_id: u32,
    status: u32,
    contexts: &[(u32, &[u8])],
    exception: &[u8],
    members: &[Val],
    out: &mut Vec<u8>,
) -> Result<(), WriteError>
    requires clean { IsClean exception.now }
    requires writable { AreWritable (values_of members.now) }
    ensures { Adds version kind.Reply order (behind_header version kind.Reply order (reply_fields version request_id status (map item_at contexts.now)) (exception_body exception.now (values_of members.now))) result out.old.items out.new.items }
{
    check_text(exception)?;
    let start = out.len();
    let writer = begin_reply(version, order, request_id, status, contexts, out)?;
    put_exception(version, &writer, exception, members, out)?;
    put_header(version, MessageKind::Reply, order, start, out)
}

/// Appends a Reply that carries an exception (GIOP 9.4.3), which nothing has to copy first.
///
/// Its body is the exception's repository id, as `IDL:omg.org/CORBA/MARSHAL:1.0`, and then its members:
/// of a system exception its minor code and its completion status. `exception` is the id's octets,
/// without a NUL. The status is one that the version has: that of an exception is 1 or 2, which is left
/// to the caller. On an error `out` is as it was: the message is longer than 4,294,967,295 octets after
/// its header, or an allocation failed.
pub fn write_exception(
    version: Version,
    order: Order,
    request_id: u32,
    status: u32,
    contexts: &[(u32, &[u8])],
    exception: &[u8],
    members: &[Val],
    out: &mut Vec<u8>,
) -> Result<(), WriteError>
    requires status { status < reply_statuses version }
    requires clean { IsClean exception.now }
    requires writable { AreWritable (values_of members.now) }
    ensures { Wrote version kind.Reply order (behind_header version kind.Reply order (reply_fields version request_id status (map item_at contexts.now)) (exception_body exception.now (values_of members.now))) result out.old.items out.new.items }
{
    let start = out.len();
    let result = append_exception(
        version, order, request_id, status, contexts, exception, members, out,
    );
    cut_back(result, start, out)
}
