//! Replies in big-endian order without service contexts, put at once: a short one of results, and one whose body comes
//! as octets.

ghost use Rattle.std.specs.Prelude.{◌≡◌, ◌≤◌, ◌+◌, ◌++◌, [], length, OnErr, OnOk};
ghost use Rattle.cdr_core.specs.Value.{values};
ghost use Rattle.cdr_core.specs.View.{values_of};
ghost use Rattle.cdr_core.specs.Writing.{AreWritable, octets_of_all};
ghost use Rattle.cdr_core.specs.declared.order.Order.TheVariants.{Big};
ghost use Rattle.giop_core.specs.Headers.{header_octets};
ghost use Rattle.giop_core.specs.Written.{header_for, octets_body, reply_fields};
ghost use Rattle.giop_core.specs.declared.header.MessageKind.TheVariants as kind;
ghost use Rattle.ft_orb.specs.Carrying.{reply_carrying};

use crate::outcomes::BODY;
use cdr_core::{Order, Val, write_list};
use giop_core::{Header, MessageKind, Version};
use std::alloc::AllocError;

/// The most octets of a short Reply.
pub(crate) const SHORT: u64 = 64;

/// The octets before the body: the header, after which there are so many, and the fields.
fn front_of(version: Version, request_id: u32, status: u32, size: u32) -> [u8; 24]
    ensures { result ≡ header_octets (header_for version kind.Reply Big size) ++ octets_of_all Big (values (reply_fields version request_id status [])) 12 }
{
    let header = Header {
        version,
        order: Order::Big,
        more: false,
        kind: MessageKind::Reply,
        size,
    };
    let mut octets = [0; BODY as usize];
    octets[..Header::LEN].copy_from_slice(&header.write());
    let id = if version.has_id_first() { 12 } else { 16 };
    Order::Big.put_ulong(request_id, &mut octets[id..]);
    Order::Big.put_ulong(status, &mut octets[id + 4..]);
    octets
}

/// Appends a short Reply of results, whose body ends at a place.
pub(crate) fn put_short(
    version: Version,
    request_id: u32,
    results: &[Val],
    end: u64,
    out: &mut Vec<u8>,
) -> Result<(), AllocError>
    requires writable { AreWritable (values_of results.now) }
    requires end { end ≡ 24 + length (octets_of_all Big (values_of results.now) 24) }
    requires short { end ≤ 64 }
    ensures ok { OnOk result (out.new.items ≡ out.old.items ++ reply_carrying [] version Big request_id 0 (values_of results.now)) }
    ensures err { OnErr result (out.new.items ≡ out.old.items) }
{
    out.reserve(SHORT as usize)?;
    let size = (end as usize - Header::LEN) as u32;
    out.extend_from_slice(&front_of(version, request_id, 0, size))?;
    write_list(Order::Big, BODY, results, out)
}

/// Appends a Reply whose body comes as octets. They begin at the place 24, so that in no version padding leads to them.
pub(crate) fn put_raw(
    version: Version,
    request_id: u32,
    status: u32,
    body: &[u8],
    out: &mut Vec<u8>,
) -> Result<(), AllocError>
    requires { length body.now ≤ 1048576 }
    ensures ok { OnOk result (out.new.items ≡ out.old.items ++ reply_carrying [] version Big request_id status (octets_body body.now)) }
    ensures err { OnErr result (out.new.items ≡ out.old.items) }
{
    cdr_core::laws::are_octets(body);
    out.reserve(BODY as usize + body.len())?;
    let size = (BODY as usize - Header::LEN + body.len()) as u32;
    out.extend_from_slice(&front_of(version, request_id, status, size))?;
    out.extend_from_slice(body)
}
