//! A Request and a Reply whose body stands at a place (GIOP 9.4.2, GIOP 9.4.3).

ghost use Rattle.std.specs.Prelude.{◌≡◌, ◌<◌, ◌≤◌, ◌↔◌, Err, None, length, map, take, IfOk, OnErr, OnOk};
ghost use Rattle.cdr_core.specs.Private.{Keeps};
ghost use Rattle.cdr_core.specs.Spelling.{IsClean};
ghost use Rattle.giop_core.specs.Items.{item_at};
ghost use Rattle.giop_core.specs.Statuses.{reply_statuses};
ghost use Rattle.giop_core.specs.declared.header.MessageKind.TheVariants as kind;
ghost use Rattle.giop_proxy.specs.Placing.{fields_at, may_follow, refused_as, reply_for, request_for, Appends, IsOver};
ghost use Rattle.giop_proxy.specs.PlacingPrivate.{fields_for, kind_of, AppendsAt, Begins, BeginsAt, CanBeWritten};
ghost use Rattle.giop_proxy.specs.declared.placed.PlacingError.TheVariants as refused;

pub use crate::fields::PADDING;
use crate::fields::{Fields, ReplyFields, RequestFields};
use crate::finishing::{begins_at, finish, may_begin};
use cdr_core::{Order, has_no_nul};
use giop_core::{ReplyWish, Version, WriteError};
use std::alloc::AllocError;
use thiserror::Error;

/// How many octets a message has at most, unless a caller sets another limit.
pub const LONGEST: u32 = 16 << 20;

/// Why a message is not written. The output is as it was.
#[derive(Clone, Copy, Debug, PartialEq, Eq, Error)]
pub enum PlacingError {
    /// It would have more octets than the limit, the twelve of its header among them.
    #[error("too long")]
    TooLong,
    /// The name of the operation has a NUL.
    #[error("bad operation")]
    Operation,
    /// The version has no such status.
    #[error("bad status")]
    Status,
    /// The body can't stand at its place: in 1.2 at one that isn't divisible by 8, and in a Reply of 1.0 and 1.1 at one that
    /// isn't by 4.
    #[error("bad place")]
    Place,
    /// An allocation failed.
    #[error("memory")]
    Memory,
}

/// An allocation failed.
impl From<AllocError> for PlacingError {
    ghost from_gives = { λ f e. e ≡ refused.Memory };

    fn from(_: AllocError) -> PlacingError {
        PlacingError::Memory
    }
}

/// The fields alone are too long, or an allocation failed.
impl From<WriteError> for PlacingError {
    ghost from_gives = { λ f e. e ≡ refused_as f };

    fn from(error: WriteError) -> PlacingError {
        match error {
            WriteError::TooLong => PlacingError::TooLong,
            WriteError::Memory => PlacingError::Memory,
        }
    }
}

/// Appends a message as far as its fields, without the context that says nothing or with it: whether its body may stand
/// behind them. Where that fails `out` may keep a part of it at its end.
fn begin(
    version: Version,
    order: Order,
    fields: &Fields<'_>,
    padded: bool,
    place: u64,
    body: &[u8],
    out: &mut Vec<u8>,
) -> Result<bool, WriteError>
    requires { CanBeWritten version fields.now }
    ensures begins { Begins order (fields_for version fields.now place body.now padded) result out.old.items out.new.items }
    ensures follows { IfOk result (λ may. may ≡ may_follow version order place body.now (fields_for version fields.now place body.now padded)) }
{
    let start = out.len();
    fields.put(version, order, padded, place, body, out)?;
    let end = (out.len() - start) as u64;
    Ok(may_begin(place, body, begins_at(version, end)))
}

/// Appends a message as far as those of its fields behind which its body may stand. Where that fails `out` may keep a part of it
/// at its end.
fn begin_placed(
    version: Version,
    order: Order,
    fields: &Fields<'_>,
    place: u64,
    body: &[u8],
    out: &mut Vec<u8>,
) -> Result<(), PlacingError>
    requires { CanBeWritten version fields.now }
    ensures { BeginsAt version (kind_of fields.now) order place body.now (fields_for version fields.now place body.now) result out.old.items out.new.items }
{
    let start = out.len();
    if begin(version, order, fields, false, place, body, out)? {
        return Ok(());
    }
    out.truncate(start);
    if begin(version, order, fields, true, place, body, out)? {
        return Ok(());
    }
    Err(PlacingError::Place)
}

/// Appends a message. Where that fails `out` may keep a part of it at its end.
fn append(
    version: Version,
    order: Order,
    fields: &Fields<'_>,
    place: u64,
    body: &[u8],
    limit: u32,
    out: &mut Vec<u8>,
) -> Result<(), PlacingError>
    requires { CanBeWritten version fields.now }
    ensures { AppendsAt version (kind_of fields.now) order limit body.now (fields_at version order place body.now (fields_for version fields.now place body.now)) result out.old.items out.new.items }
{
    let start = out.len();
    begin_placed(version, order, fields, place, body, out)?;
    finish(version, fields.kind(), order, start, body, limit, out)
}

/// What came of appending octets from `start` on: where that failed they are cut back.
fn cut_back(
    appended: Result<(), PlacingError>,
    start: usize,
    out: &mut Vec<u8>,
) -> Result<(), PlacingError>
    ensures same { result ≡ appended }
    ensures ok { OnOk result (out.new.items ≡ out.old.items) }
    ensures err { OnErr result (out.new.items ≡ take start out.old.items) }
{
    if appended.is_err() {
        out.truncate(start);
    }
    appended
}

/// Appends a message. Where that fails `out` is as it was.
fn write(
    version: Version,
    order: Order,
    fields: &Fields<'_>,
    place: u64,
    body: &[u8],
    limit: u32,
    out: &mut Vec<u8>,
) -> Result<(), PlacingError>
    requires { CanBeWritten version fields.now }
    ensures appends { AppendsAt version (kind_of fields.now) order limit body.now (fields_at version order place body.now (fields_for version fields.now place body.now)) result out.old.items out.new.items }
    ensures err { OnErr result (out.new.items ≡ out.old.items) }
{
    let start = out.len();
    let appended = append(version, order, fields, place, body, limit, out);
    cut_back(appended, start, out)
}

/// Appends a Request for an object key (GIOP 9.4.2), whose body is these octets, as they stand, at a place that is `place`
/// modulo 8.
///
/// In 1.2 a body that has octets stands at a multiple of 8, and no other place can be had. In 1.0 and 1.1 it follows the fields:
/// where they don't end at its place, one more service context stands behind those given, of the id `PADDING` and with four
/// octets, and a principal of up to three. The body is in the order of the message, which has at most `limit` octets. A reply
/// without its body, which 1.0 and 1.1 can't ask for, is asked for with it. On an error `out` is as it was.
pub fn write_request(
    version: Version,
    order: Order,
    request_id: u32,
    wish: ReplyWish,
    object_key: &[u8],
    operation: &[u8],
    contexts: &[(u32, &[u8])],
    place: u64,
    body: &[u8],
    limit: u32,
    out: &mut Vec<u8>,
) -> Result<(), PlacingError>
    ensures ok { OnOk result (Appends version kind.Request order limit body.now (fields_at version order place body.now (request_for version request_id wish object_key.now operation.now (map item_at contexts.now) place body.now)) out.old.items out.new.items) }
    ensures too_long { result ≡ Err refused.TooLong → IsOver version kind.Request order limit body.now (fields_at version order place body.now (request_for version request_id wish object_key.now operation.now (map item_at contexts.now) place body.now)) }
    ensures operation { (result ≡ Err refused.Operation) ↔ (¬ IsClean operation.now) }
    ensures status { ¬ (result ≡ Err refused.Status) }
    ensures place { result ≡ Err refused.Place → fields_at version order place body.now (request_for version request_id wish object_key.now operation.now (map item_at contexts.now) place body.now) ≡ None }
    ensures err { OnErr result (out.new.items ≡ out.old.items) }
{
    if !has_no_nul(operation) {
        return Err(PlacingError::Operation);
    }
    let fields = RequestFields {
        request_id,
        wish,
        object_key,
        operation,
        contexts,
    };
    write(
        version,
        order,
        &Fields::Request(fields),
        place,
        body,
        limit,
        out,
    )
}

/// Appends a Reply (GIOP 9.4.3), whose body is these octets, as they stand, at a place that is `place` modulo 8.
///
/// In 1.2 a body that has octets stands at a multiple of 8, and no other place can be had. In 1.0 and 1.1 it follows the fields,
/// at a multiple of 4: where they don't end at its place, one more service context stands behind those given, of the id
/// `PADDING` and with four octets. The body is in the order of the message, which has at most `limit` octets. On an error `out`
/// is as it was.
pub fn write_reply(
    version: Version,
    order: Order,
    request_id: u32,
    status: u32,
    contexts: &[(u32, &[u8])],
    place: u64,
    body: &[u8],
    limit: u32,
    out: &mut Vec<u8>,
) -> Result<(), PlacingError>
    ensures ok { OnOk result (Appends version kind.Reply order limit body.now (fields_at version order place body.now (reply_for version request_id status (map item_at contexts.now))) out.old.items out.new.items) }
    ensures too_long { result ≡ Err refused.TooLong → IsOver version kind.Reply order limit body.now (fields_at version order place body.now (reply_for version request_id status (map item_at contexts.now))) }
    ensures operation { ¬ (result ≡ Err refused.Operation) }
    ensures status { (result ≡ Err refused.Status) ↔ (reply_statuses version ≤ status) }
    ensures place { result ≡ Err refused.Place → fields_at version order place body.now (reply_for version request_id status (map item_at contexts.now)) ≡ None }
    ensures err { OnErr result (out.new.items ≡ out.old.items) }
{
    if !version.has_reply_status(status) {
        return Err(PlacingError::Status);
    }
    let fields = ReplyFields {
        request_id,
        status,
        contexts,
    };
    write(
        version,
        order,
        &Fields::Reply(fields),
        place,
        body,
        limit,
        out,
    )
}
