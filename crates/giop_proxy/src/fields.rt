//! The fields of a Request and of a Reply, before a body that stands at a place (GIOP 9.4.2, GIOP 9.4.3).

ghost use Rattle.std.specs.Prelude.{◌≡◌, ◌≤◌, ◌<◌, ◌+◌, ◌-◌, ◌++◌, ◌∷◌, [], drop, length, map, replicate, take, IfOk, OnErr, OnOk};
ghost use Rattle.cdr_core.specs.Numbers.{digits_of};
ghost use Rattle.cdr_core.specs.Spelling.{IsClean};
ghost use Rattle.cdr_core.specs.Value.{no_values};
ghost use Rattle.giop_core.specs.Content as content;
ghost use Rattle.giop_core.specs.Items.{item_at};
ghost use Rattle.giop_core.specs.Statuses.{reply_statuses};
ghost use Rattle.giop_core.specs.Written as written;
ghost use Rattle.giop_core.specs.Written.{behind_header, Wrote};
ghost use Rattle.giop_core.specs.declared.header.MessageKind.TheVariants as kind;
ghost use Rattle.giop_proxy.specs.Placing.{padding_context, principal_for, request_fields, wish_in};
ghost use Rattle.giop_proxy.specs.PlacingPrivate.{contexts_of, ends_with, fields_for, fields_with, kind_of, Begins, CanBeWritten, HasBody};

use cdr_core::Order;
use giop_core::{MessageKind, ReplyWish, Target, Version, WriteError, write_reply, write_request};
use std::alloc::{AllocError, Global};

/// The id of the service context that says nothing, of a vendor's range (IOP 7.7).
pub const PADDING: u32 = 0x4c52_0000;

/// Its octets.
const NOTHING: &[u8] = &[0; 4];

/// What a Request says before its body.
#[derive(Clone, Copy, Debug, Drop)]
pub(crate) struct RequestFields<'a> {
    pub(crate) request_id: u32,
    pub(crate) wish: ReplyWish,
    pub(crate) object_key: &'a [u8],
    pub(crate) operation: &'a [u8],
    pub(crate) contexts: &'a [(u32, &'a [u8])],
}

/// What a Reply says before its body.
#[derive(Clone, Copy, Debug, Drop)]
pub(crate) struct ReplyFields<'a> {
    pub(crate) request_id: u32,
    pub(crate) status: u32,
    pub(crate) contexts: &'a [(u32, &'a [u8])],
}

/// What a message says before its body.
#[derive(Clone, Copy, Debug, Drop)]
pub(crate) enum Fields<'a> {
    Request(RequestFields<'a>),
    Reply(ReplyFields<'a>),
}

/// The wish that a version can ask for: a reply with its body in place of one without.
fn wish_in(version: Version, wish: ReplyWish) -> ReplyWish
    ensures { result ≡ wish_in version wish }
{
    match (version, wish) {
        (Version::V10 | Version::V11, ReplyWish::Empty) => ReplyWish::Full,
        _ => wish,
    }
}

/// Service contexts, and behind them the one that says nothing.
fn with_padding<'a>(
    alloc: Global,
    contexts: &[(u32, &'a [u8])],
) -> Result<Vec<(u32, &'a [u8])>, AllocError>
    ensures { IfOk result (λ all. map item_at all.items ≡ map item_at contexts.now ++ padding_context ∷ []) }
{
    let mut all = Vec::with_capacity(alloc, contexts.len() + 1)?;
    all.extend_from_slice(contexts)?;
    all.push((PADDING, NOTHING))?;
    Ok(all)
}

/// How many octets the principal has before a body at a place: as many as that is past a multiple of 4, if there is a body.
fn principal_size(place: u64, body: &[u8]) -> usize
    ensures size { replicate result 0 ≡ principal_for place body.now }
    ensures few { result < 4 }
{
    if body.is_empty() {
        return 0;
    }
    (place % 4) as usize
}

/// So many zeros.
fn zeros(size: usize) -> &'static [u8]
    requires { size < 4 }
    ensures { result.now ≡ replicate size 0 }
{
    &NOTHING[..size]
}

/// Writes an unsigned long over the four octets at `at`.
fn put_ulong_at(order: Order, number: u32, at: usize, out: &mut Vec<u8>)
    requires { at + 4 ≤ length out.old.items }
    ensures { out.new.items ≡ take at out.old.items ++ (digits_of order 4 number ++ drop (at + 4) out.old.items) }
{
    let mut digits = [0; 4];
    order.put_ulong(number, &mut digits);
    out[at..at + 4].copy_from_slice(&digits);
}

/// Makes the principal, which is empty and ends what was appended, one of so many octets.
fn put_principal(order: Order, size: usize, out: &mut Vec<u8>) -> Result<(), AllocError>
    requires some { 4 ≤ length out.old.items }
    requires few { size < 4 }
    ensures ok { OnOk result (out.new.items ≡ take (length out.old.items - 4) out.old.items ++ (digits_of order 4 size ++ replicate size 0)) }
    ensures err { OnErr result (out.new.items ≡ out.old.items) }
{
    let end = out.len();
    let octets = zeros(size);
    out.extend_from_slice(octets)?;
    put_ulong_at(order, size as u32, end - 4, out);
    Ok(())
}

/// Ends the fields of a Request whose principal is empty with one of so many octets: in 1.0 and 1.1 alone.
fn end_request(
    version: Version,
    order: Order,
    principal: usize,
    out: &mut Vec<u8>,
) -> Result<(), AllocError>
    requires some { 4 ≤ length out.old.items }
    requires few { principal < 4 }
    ensures ok { OnOk result (out.new.items ≡ ends_with version order principal out.old.items) }
    ensures err { OnErr result (out.new.items ≡ out.old.items) }
{
    match version {
        Version::V10 | Version::V11 => put_principal(order, principal, out),
        Version::V12 => Ok(()),
    }
}

/// Appends a Request with these service contexts and an empty principal, and with no body.
fn put_bare_request(
    version: Version,
    order: Order,
    fields: &RequestFields<'_>,
    contexts: &[(u32, &[u8])],
    out: &mut Vec<u8>,
) -> Result<(), WriteError>
    requires { IsClean fields.now.operation.now }
    ensures { Wrote version kind.Request order (behind_header version kind.Request order (written.request_fields version fields.now.request_id (wish_in version fields.now.wish) (content.by_key fields.now.object_key.now) fields.now.operation.now (map item_at contexts.now)) no_values) result out.old.items out.new.items }
{
    write_request(
        version,
        order,
        fields.request_id,
        wish_in(version, fields.wish),
        &Target::Key(fields.object_key),
        fields.operation,
        contexts,
        &[],
        out,
    )
}

/// Appends a Request with these service contexts as far as its fields, for a body at a place. Where that fails `out` may keep
/// a part of it at its end.
fn put_request(
    version: Version,
    order: Order,
    fields: &RequestFields<'_>,
    contexts: &[(u32, &[u8])],
    principal: usize,
    out: &mut Vec<u8>,
) -> Result<(), WriteError>
    requires clean { IsClean fields.now.operation.now }
    requires few { principal < 4 }
    ensures { Begins order (request_fields version fields.now.request_id (wish_in version fields.now.wish) fields.now.object_key.now fields.now.operation.now (map item_at contexts.now) (replicate principal 0)) result out.old.items out.new.items }
{
    put_bare_request(version, order, fields, contexts, out)?;
    end_request(version, order, principal, out)?;
    Ok(())
}

/// Appends a Reply with these service contexts as far as its fields.
fn put_reply(
    version: Version,
    order: Order,
    fields: &ReplyFields<'_>,
    contexts: &[(u32, &[u8])],
    out: &mut Vec<u8>,
) -> Result<(), WriteError>
    requires { fields.now.status < reply_statuses version }
    ensures { Begins order (written.reply_fields version fields.now.request_id fields.now.status (map item_at contexts.now)) result out.old.items out.new.items }
{
    write_reply(
        version,
        order,
        fields.request_id,
        fields.status,
        contexts,
        &[],
        out,
    )
}

impl Fields<'_> {
    /// The kind of the message.
    pub(crate) fn kind(&self) -> MessageKind
        ensures is { result ≡ kind_of self.now }
        ensures bodied { HasBody result }
    {
        match self {
            Fields::Request(_) => MessageKind::Request,
            Fields::Reply(_) => MessageKind::Reply,
        }
    }

    /// The service contexts.
    fn contexts(&self) -> &[(u32, &[u8])]
        ensures { map item_at result.now ≡ contexts_of self.now }
    {
        match self {
            Fields::Request(request) => request.contexts,
            Fields::Reply(reply) => reply.contexts,
        }
    }

    /// Appends the message with these service contexts as far as its fields, for a body at a place. Where that fails `out` may
    /// keep a part of it at its end.
    fn put_with(
        &self,
        version: Version,
        order: Order,
        contexts: &[(u32, &[u8])],
        place: u64,
        body: &[u8],
        out: &mut Vec<u8>,
    ) -> Result<(), WriteError>
        requires { CanBeWritten version self.now }
        ensures { Begins order (fields_with version self.now (map item_at contexts.now) place body.now) result out.old.items out.new.items }
    {
        match self {
            Fields::Request(request) => put_request(
                version,
                order,
                request,
                contexts,
                principal_size(place, body),
                out,
            ),
            Fields::Reply(reply) => put_reply(version, order, reply, contexts, out),
        }
    }

    /// Appends the message as far as its fields, for a body at a place, without the context that says nothing or with it. Where
    /// that fails `out` may keep a part of it at its end.
    pub(crate) fn put(
        &self,
        version: Version,
        order: Order,
        padded: bool,
        place: u64,
        body: &[u8],
        out: &mut Vec<u8>,
    ) -> Result<(), WriteError>
        requires { CanBeWritten version self.now }
        ensures { Begins order (fields_for version self.now place body.now padded) result out.old.items out.new.items }
    {
        if !padded {
            return self.put_with(version, order, self.contexts(), place, body, out);
        }
        let contexts = with_padding(*out.allocator(), self.contexts())?;
        self.put_with(version, order, &contexts, place, body, out)
    }
}
