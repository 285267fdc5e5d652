//! Requests as they are kept, and as they are sent.

ghost use Rattle.std.specs.Prelude.{◌≡◌, ◌<◌, ◌≤◌, ◌+◌, ◌++◌, ◌∷◌, [], ◌^◌, false, suc, length, map, pos, vec_len, vec_capacity, None, IfOk, MatchResult, OnErr};
ghost use Rattle.cdr_core.specs.declared.order.Order.{Order};
ghost use Rattle.cdr_core.specs.Spelling.{IsClean};
ghost use Rattle.cdr_core.specs.View.{values_of};
ghost use Rattle.cdr_core.specs.Writing.{AreWritable};
ghost use Rattle.giop_core.specs.Items.{item_at};
ghost use Rattle.giop_core.specs.Rows.{has_id_first};
ghost use Rattle.giop_core.specs.Written.{CanAsk};
ghost use Rattle.giop_link.specs.Ids.{one_more, wanted_by};
ghost use Rattle.giop_core.specs.declared.error.WriteError.TheVariants.{TooLong};
ghost use Rattle.ft_client.specs.Clients.{begun};
ghost use Rattle.ft_client.specs.Calling.{IsLong, IsShort, call_asked, call_raw, first_transmission};
ghost use Rattle.ft_client.specs.Keeping.{after_contexts, id_place, kept_as, kept_by, kept_of, under};
ghost use Rattle.ft_client.specs.Messages.{Transmission};
ghost use Rattle.ft_client.specs.Private.{IsAsked, contexts_end};

use crate::pending::{Asked, Pending};
use crate::raw_call::{RawCall, octet_values, with_ft_request};
use cdr_core::Order;
use giop_core::{
    FT_REQUEST, Header, ReplyWish, Target, Version, WriteError, write_ft, write_request,
};
use giop_link::ClientLink;
use std::alloc::{AllocError, Global};

/// The place after service contexts that stand after the header: each is an id and a length, which stand at places
/// divisible by 4, and its octets.
fn contexts_end(contexts: &[(u32, &[u8])]) -> usize
    requires { contexts_end 16 (map item_at contexts.now) < 2 ^ 33 }
    ensures { result ≡ contexts_end 16 (map item_at contexts.now) }
{
    let mut place = Header::LEN + 4;
    for one in contexts {
        place = place.next_multiple_of(4) + 8 + one.1.len();
    }
    place
}

/// Where the request id stands in a Request with these service contexts (GIOP 9.4.2).
fn id_place(version: Version, contexts: &[(u32, &[u8])]) -> usize
    requires { has_id_first version ≡ false → contexts_end 16 (map item_at contexts.now) < 2 ^ 33 }
    ensures { (order : Order) → result ≡ id_place version order (map item_at contexts.now) }
{
    if version.has_id_first() {
        return Header::LEN;
    }
    contexts_end(contexts).next_multiple_of(4)
}

/// How a Request is written.
#[derive(Clone, Copy)]
struct Manner {
    version: Version,
    order: Order,
    wish: ReplyWish,
}

/// A call as it is kept: its Request is written once, under the request id 1, with these service contexts.
fn kept(
    alloc: Global,
    id: i32,
    manner: Manner,
    contexts: &[(u32, &[u8])],
    asked: &Asked<'_>,
) -> Result<Pending, WriteError>
    requires wish { CanAsk manner.version manner.wish }
    requires clean { IsClean asked.now.operation.now }
    requires writable { AreWritable (values_of asked.now.arguments.now) }
    ensures { (t : Transmission) → IsAsked id manner (map item_at contexts.now) asked.now t → MatchResult result
        (λ p. IsShort t × (kept_by p ≡ kept_as t None None))
        (λ e. e ≡ TooLong → IsLong t) }
{
    let mut message = Vec::new(alloc);
    write_request(
        manner.version,
        manner.order,
        1,
        manner.wish,
        &Target::Key(asked.object_key),
        asked.operation,
        contexts,
        asked.arguments,
        &mut message,
    )?;
    Ok(Pending {
        id,
        expiration: asked.expiration,
        order: manner.order,
        wish: manner.wish,
        id_at: id_place(manner.version, contexts),
        message,
        sent: None,
        led: None,
    })
}

/// A call as it is kept: its one service context is FT_REQUEST, and the whole reply is wished for, in big order.
pub(crate) fn written(
    alloc: Global,
    version: Version,
    client_id: &[u8],
    number: u32,
    asked: &Asked<'_>,
) -> Result<Pending, WriteError>
    requires number { number < 2 ^ 31 }
    requires client { IsClean client_id.now }
    requires length { length client_id.now ≤ 256 }
    requires clean { IsClean asked.now.operation.now }
    requires writable { AreWritable (values_of asked.now.arguments.now) }
    ensures { MatchResult result
        (λ p. IsShort (first_transmission version client_id.now number (call_asked asked.now)) × (kept_by p ≡ kept_of version client_id.now (begun number (call_asked asked.now) None)))
        (λ e. e ≡ TooLong → IsLong (first_transmission version client_id.now number (call_asked asked.now))) }
{
    let id = number as i32;
    let mut ft = Vec::new(alloc);
    write_ft(Order::Big, client_id, id, asked.expiration, &mut ft)?;
    let manner = Manner {
        version,
        order: Order::Big,
        wish: ReplyWish::Full,
    };
    kept(alloc, id, manner, &[(FT_REQUEST, ft.as_slice())], asked)
}

/// A raw call as it is kept: FT_REQUEST stands before its service contexts, and its body goes out as it came.
pub(crate) fn written_raw(
    alloc: Global,
    client_id: &[u8],
    number: u32,
    call: &RawCall<'_>,
) -> Result<Pending, WriteError>
    requires number { number < 2 ^ 31 }
    requires client { IsClean client_id.now }
    requires length { length client_id.now ≤ 256 }
    requires clean { IsClean call.now.operation.now }
    requires wish { CanAsk call.now.version call.now.wish }
    ensures { (version : Version) → MatchResult result
        (λ p. IsShort (first_transmission version client_id.now number (call_raw call.now)) × (kept_by p ≡ kept_of version client_id.now (begun number (call_raw call.now) None)))
        (λ e. e ≡ TooLong → IsLong (first_transmission version client_id.now number (call_raw call.now))) }
{
    let id = number as i32;
    let mut ft = Vec::new(alloc);
    write_ft(Order::Big, client_id, id, call.expiration, &mut ft)?;
    let contexts = with_ft_request(alloc, ft.as_slice(), call.contexts)?;
    let octets = octet_values(alloc, call.body.octets)?;
    let manner = Manner {
        version: call.version,
        order: call.body.order,
        wish: call.wish,
    };
    let asked = Asked {
        object_key: call.object_key,
        operation: call.operation,
        arguments: octets.as_slice(),
        expiration: call.expiration,
    };
    kept(alloc, id, manner, contexts.as_slice(), &asked)
}

/// Appends the octets of a kept call under another request id. There is room for them.
fn put_under(call: &Pending, request_id: u32, out: &mut Vec<u8>)
    requires { vec_len out.old + vec_len call.now.message ≤ vec_capacity out.old }
    ensures { out.new.items ≡ out.old.items ++ under request_id (kept_by call.now) }
{
    let message = call.message.as_slice();
    let mut id = [0; 4];
    call.order.put_ulong(request_id, &mut id);
    out.extend_from_slice(&message[..call.id_at]).unwrap();
    out.extend_from_slice(&id).unwrap();
    out.extend_from_slice(&message[call.id_at + 4..]).unwrap();
}

/// Sends a kept call under the next request id of a link, and returns that id. Where an allocation fails nothing
/// has changed.
pub(crate) fn transmit(
    link: &mut ClientLink,
    call: &Pending,
    out: &mut Vec<u8>,
) -> Result<u32, AllocError>
    ensures ok { IfOk result (λ id. (id ≡ suc link.old.ids.given) × (link.new ≡ record link.old { ids = one_more (wanted_by call.now.wish) link.old.ids })) }
    ensures out { IfOk result (λ id. out.new.items ≡ out.old.items ++ under id (kept_by call.now)) }
    ensures same { OnErr result ((link.new ≡ link.old) × (out.new.items ≡ out.old.items)) }
{
    out.reserve(call.message.len())?;
    let Ok(id) = link.give_id(call.wish) else {
        return Err(AllocError);
    };
    put_under(call, id, out);
    Ok(id)
}
