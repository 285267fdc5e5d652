//! Request (GIOP 9.4.2).

ghost use Rattle.std.specs.Prelude.{◌↔◌, Some, IsTrue, ◌≡◌, IfOk, length, ◌≤◌, [], map, MatchResult};
ghost use Rattle.cdr_core.specs.Private.{Keeps};
ghost use Rattle.cdr_core.specs.Spelling.{IsClean};
ghost use Rattle.cdr_core.specs.Value as value;
ghost use Rattle.cdr_core.specs.Value.{values};
ghost use Rattle.cdr_core.specs.View.{values_of};
ghost use Rattle.cdr_core.specs.Writing.{Appends, AreWritable};
ghost use Rattle.giop_core.specs.Content.{wish_by, wish_if};
ghost use Rattle.giop_core.specs.Items.{item_at};
ghost use Rattle.giop_core.specs.Lent.{addressed_by};
ghost use Rattle.giop_core.specs.Places.{FindsParts};
ghost use Rattle.giop_core.specs.Private.{fields_in, Reads, three_value, Adds, PutsFields};
ghost use Rattle.giop_core.specs.Rows.{reserved};
ghost use Rattle.giop_core.specs.Texts.{wish_text};
ghost use Rattle.giop_core.specs.Written.{behind_header, response_flags, response_expected, request_fields, CanAddress, CanAsk, Wrote, zeros};
ghost use Rattle.giop_core.specs.declared.header.MessageKind.TheVariants as kind;
ghost use Rattle.giop_core.specs.declared.header.Version.TheVariants.{V10, V11, V12};

use crate::error::{MessageFault, WriteError};
use crate::finder::Finder;
use crate::header::{MessageKind, Version};
use crate::message::Body;
use crate::places::{Parts, RequestParts, TargetPlace};
use crate::service_context::{Contexts, check_contexts, put_contexts};
use crate::target_address::{Target, check_target, put_key, put_target};
use crate::writing::{begin, check_text, cut_back, finish};
use cdr_core::{Cursor, Fault, Order, Val, Writer};
use std::alloc::AllocError;
use std::fmt;

/// A Request (GIOP 9.4.2): an operation is to be performed by an object.
#[derive(Debug, Drop)]
pub struct Request<'m> {
    pub request_id: u32,
    /// Which reply is asked for.
    pub reply: ReplyWish,
    pub target: Target<'m>,
    /// The name of the operation, without its NUL.
    pub operation: &'m [u8],
    pub contexts: Contexts<'m>,
    /// The arguments.
    pub body: Body<'m>,
}

/// Which reply a request wishes for (GIOP 9.4.2).
#[derive(Clone, Copy, Debug, PartialEq, Eq)]
pub enum ReplyWish {
    /// No reply.
    None,
    /// A reply whose body is empty unless it is an exception.
    Empty,
    /// A reply with its body.
    Full,
}

/// `none`, `empty` or `full`.
impl fmt::Display for ReplyWish {
    ghost output = { λ wish. Some (wish_text wish) };

    fn fmt<W: fmt::Write>(&self, f: &mut fmt::Formatter<W>) -> fmt::Result {
        match self {
            ReplyWish::None => f.write_str("none"),
            ReplyWish::Empty => f.write_str("empty"),
            ReplyWish::Full => f.write_str("full"),
        }
    }
}

impl Version {
    /// Whether a request of this version can ask for such a reply. 1.0 and 1.1 can't ask for an empty
    /// one.
    pub fn can_ask(self, wish: ReplyWish) -> bool
        ensures { IsTrue result ↔ CanAsk self wish }
    {
        match self {
            Version::V10 | Version::V11 => !matches!(wish, ReplyWish::Empty),
            Version::V12 => true,
        }
    }
}

/// The wish in response_flags, whose two low bits alone count.
#[inline(always)]
fn wish_by(flags: u8) -> ReplyWish
    ensures { result ≡ wish_by flags }
{
    if flags % 2 == 0 {
        return ReplyWish::None;
    }
    if (flags / 2) % 2 == 0 {
        return ReplyWish::Empty;
    }
    ReplyWish::Full
}

/// The wish in response_expected.
fn wish_if(expected: bool) -> ReplyWish
    ensures { result ≡ wish_if expected }
{
    if expected {
        ReplyWish::Full
    } else {
        ReplyWish::None
    }
}

/// Reads three reserved octets, which may be any.
#[inline(always)]
#[tactic(auto, using(crate::proofs::Steps::three_reads, crate::proofs::Steps::three_stop_1, crate::proofs::Steps::three_stop_2, crate::proofs::Steps::three_stop_3))]
pub(crate) fn read_reserved(cursor: &mut Cursor) -> Result<[u8; 3], Fault>
    ensures { Reads three_value result reserved cursor.old cursor.new }
{
    let a = cursor.octet()?;
    let b = cursor.octet()?;
    let c = cursor.octet()?;
    Ok([a, b, c])
}

/// Finds the parts of a Request of 1.0 or 1.1, which has three reserved octets more.
#[inline(never)]
#[tactic(auto, unfolding(crate::specs::Messages::message_of, crate::specs::Rows::row, crate::specs::Content::content), using(crate::proofs::Again::object_again, crate::proofs::Again::list_again))]
pub(crate) fn find_request_by_key(
    version: Version,
    order: Order,
    octets: &[u8],
    parts: &mut Parts,
) -> Result<(), MessageFault>
    requires { ¬ (version ≡ V12) }
    ensures { FindsParts version kind.Request order octets.now result parts.new }
{
    let mut finder = Finder::new(octets, order);
    let contexts = finder.contexts()?;
    let request_id = finder.ulong()?;
    let expected = finder.boolean()?;
    if matches!(version, Version::V11) {
        let _reserved = finder.reserved()?;
    }
    let key = finder.octets()?;
    let operation = finder.string()?;
    let _principal = finder.octets()?;
    *parts = Parts::Request(RequestParts {
        request_id,
        reply: wish_if(expected),
        target: TargetPlace::Key(key),
        operation,
        contexts,
        body: finder.body(),
    });
    Ok(())
}

/// Finds the parts of a Request of 1.2.
#[inline(always)]
#[tactic(auto, unfolding(crate::specs::Messages::message_of, crate::specs::Rows::row, crate::specs::Content::content), using(crate::proofs::Again::object_again, crate::proofs::Again::list_again))]
pub(crate) fn find_request_12(
    order: Order,
    octets: &[u8],
    parts: &mut Parts,
) -> Result<(), MessageFault>
    ensures { FindsParts V12 kind.Request order octets.now result parts.new }
{
    let mut finder = Finder::new(octets, order);
    let request_id = finder.ulong()?;
    let flags = finder.octet()?;
    let _reserved = finder.reserved()?;
    let target = finder.target()?;
    let operation = finder.string()?;
    let contexts = finder.contexts()?;
    *parts = Parts::Request(RequestParts {
        request_id,
        reply: wish_by(flags),
        target,
        operation,
        contexts,
        body: finder.aligned_body(),
    });
    Ok(())
}

/// The response_expected for a wish, in 1.0 and 1.1.
fn response_expected(wish: ReplyWish) -> bool
    ensures { result ≡ response_expected wish }
{
    match wish {
        ReplyWish::None => false,
        ReplyWish::Empty | ReplyWish::Full => true,
    }
}

/// The response_flags for a wish, in 1.2.
fn response_flags(wish: ReplyWish) -> u8
    ensures { result ≡ response_flags wish }
{
    match wish {
        ReplyWish::None => 0,
        ReplyWish::Empty => 1,
        ReplyWish::Full => 3,
    }
}

/// A reserved octet.
const RESERVED: u8 = 0;

/// Appends three reserved octets.
fn put_reserved(writer: &Writer, out: &mut Vec<u8>) -> Result<(), AllocError>
    requires { writer.now.start ≤ length out.old.items }
    ensures { MatchResult result (λ _. Appends writer.now zeros out.old.items out.new.items) (λ _. Keeps out.old.items out.new.items) }
{
    writer.octet(RESERVED, out)?;
    writer.octet(RESERVED, out)?;
    writer.octet(RESERVED, out)
}

/// Appends the principal of a Request of 1.0 and 1.1, which is empty.
fn put_principal(writer: &Writer, out: &mut Vec<u8>) -> Result<(), AllocError>
    requires { writer.now.start ≤ length out.old.items }
    ensures { MatchResult result (λ _. Appends writer.now (value.octets []) out.old.items out.new.items) (λ _. Keeps out.old.items out.new.items) }
{
    writer.octets(&[], out)
}

/// What a Request says before its body, as its writers hand it on.
#[derive(Clone, Copy)]
struct RequestFields<'a> {
    request_id: u32,
    wish: ReplyWish,
    target: &'a Target<'a>,
    operation: &'a [u8],
    contexts: &'a [(u32, &'a [u8])],
}

/// Appends the fields of a Request of 1.0.
fn put_request_10(
    writer: &Writer,
    fields: &RequestFields,
    out: &mut Vec<u8>,
) -> Result<(), AllocError>
    requires start { writer.now.start ≤ length out.old.items }
    requires can { CanAddress V10 (addressed_by fields.now.target.now) }
    requires writable { AreWritable (values (fields_in V10 fields.now)) }
    ensures { PutsFields writer.now (fields_in V10 fields.now) result out.old.items out.new.items }
{
    put_contexts(writer, fields.contexts, out)?;
    writer.ulong(fields.request_id, out)?;
    writer.boolean(response_expected(fields.wish), out)?;
    put_key(writer, fields.target, out)?;
    writer.string(fields.operation, out)?;
    put_principal(writer, out)?;
    Ok(())
}

/// Appends the fields of a Request of 1.1.
fn put_request_11(
    writer: &Writer,
    fields: &RequestFields,
    out: &mut Vec<u8>,
) -> Result<(), AllocError>
    requires can { CanAddress V11 (addressed_by fields.now.target.now) }
    requires start { writer.now.start ≤ length out.old.items }
    requires writable { AreWritable (values (fields_in V11 fields.now)) }
    ensures { PutsFields writer.now (fields_in V11 fields.now) result out.old.items out.new.items }
{
    put_contexts(writer, fields.contexts, out)?;
    writer.ulong(fields.request_id, out)?;
    writer.boolean(response_expected(fields.wish), out)?;
    put_reserved(writer, out)?;
    put_key(writer, fields.target, out)?;
    writer.string(fields.operation, out)?;
    put_principal(writer, out)?;
    Ok(())
}

/// Appends the fields of a Request of 1.2.
fn put_request_12(
    writer: &Writer,
    fields: &RequestFields,
    out: &mut Vec<u8>,
) -> Result<(), AllocError>
    requires start { writer.now.start ≤ length out.old.items }
    requires writable { AreWritable (values (fields_in V12 fields.now)) }
    ensures { PutsFields writer.now (fields_in V12 fields.now) result out.old.items out.new.items }
{
    writer.ulong(fields.request_id, out)?;
    writer.octet(response_flags(fields.wish), out)?;
    put_reserved(writer, out)?;
    put_target(writer, fields.target, out)?;
    writer.string(fields.operation, out)?;
    put_contexts(writer, fields.contexts, out)?;
    Ok(())
}

/// Appends the fields of a Request.
fn put_request(
    version: Version,
    writer: &Writer,
    fields: &RequestFields,
    out: &mut Vec<u8>,
) -> Result<(), AllocError>
    requires start { writer.now.start ≤ length out.old.items }
    requires can { CanAddress version (addressed_by fields.now.target.now) }
    requires writable { AreWritable (values (fields_in version fields.now)) }
    ensures { PutsFields writer.now (fields_in version fields.now) result out.old.items out.new.items }
{
    match version {
        Version::V10 => put_request_10(writer, fields, out),
        Version::V11 => put_request_11(writer, fields, out),
        Version::V12 => put_request_12(writer, fields, out),
    }
}

/// Appends a Request. Where that fails `out` may keep a part of it at its end.
fn append_request(
    version: Version,
    order: Order,
    fields: &RequestFields,
    body: &[Val],
    out: &mut Vec<u8>,
) -> Result<(), WriteError>
    requires can { CanAddress version (addressed_by fields.now.target.now) }
    requires clean { IsClean fields.now.operation.now }
    requires writable { AreWritable (values_of body.now) }
    ensures { Adds version kind.Request order (behind_header version kind.Request order (fields_in version fields.now) (values_of body.now)) result out.old.items out.new.items }
{
    check_target(version, fields.target)?;
    check_text(fields.operation)?;
    check_contexts(fields.contexts)?;
    let start = out.len();
    let writer = begin(order, out)?;
    put_request(version, &writer, fields, out)?;
    finish(
        version,
        MessageKind::Request,
        start,
        order,
        &writer,
        body,
        out,
    )
}

/// Appends a Request (GIOP 9.4.2), whose principal is empty.
///
/// The operation has no NUL. In 1.0 and 1.1 the target is an object key, and no empty reply can be
/// asked for. On an error `out` is as it was.
pub fn write_request(
    version: Version,
    order: Order,
    request_id: u32,
    wish: ReplyWish,
    target: &Target,
    operation: &[u8],
    contexts: &[(u32, &[u8])],
    body: &[Val],
    out: &mut Vec<u8>,
) -> Result<(), WriteError>
    requires target { CanAddress version (addressed_by target.now) }
    requires wish { CanAsk version wish }
    requires clean { IsClean operation.now }
    requires writable { AreWritable (values_of body.now) }
    ensures { Wrote version kind.Request order (behind_header version kind.Request order (request_fields version request_id wish (addressed_by target.now) operation.now (map item_at contexts.now)) (values_of body.now)) result out.old.items out.new.items }
{
    let start = out.len();
    let fields = RequestFields {
        request_id,
        wish,
        target,
        operation,
        contexts,
    };
    let result = append_request(version, order, &fields, body, out);
    cut_back(result, start, out)
}
