//! The body behind the fields of a message, and its header.

ghost use Rattle.std.specs.Prelude.{◌≡◌, ◌≤◌, ◌<◌, ◌+◌, ◌-◌, ◌^◌, ◌++◌, length, drop, take, OnErr, OnOk};
ghost use Rattle.cdr_core.specs.Private.{Keeps};
ghost use Rattle.giop_core.specs.Written.{body_octets, message_octets, octets_body};
ghost use Rattle.giop_proxy.specs.Placing.{begins_at, may_begin};
ghost use Rattle.giop_proxy.specs.PlacingPrivate.{begun_at, gap_at, with_octets, HasBody, IsEnded};

use crate::placed::PlacingError;
use cdr_core::{Order, Writer};
use giop_core::{Header, MessageKind, Version};
use std::alloc::AllocError;

/// Where a body begins behind fields that end at a place.
pub(crate) fn begins_at(version: Version, end: u64) -> u64
    requires { end < 2 ^ 63 }
    ensures { result ≡ begins_at version end }
{
    match version {
        Version::V10 | Version::V11 => end,
        Version::V12 => end + (8 - end % 8) % 8,
    }
}

/// Whether a body that is to stand at a place, modulo 8, may begin at another.
pub(crate) fn may_begin(place: u64, body: &[u8], at: u64) -> bool
    ensures { result ≡ may_begin place body.now at }
{
    body.is_empty() || at % 8 == place % 8
}

/// Where a body begins behind fields that end at a place; one of no octets begins there.
fn begun_at(version: Version, body: &[u8], end: u64) -> u64
    requires { end < 2 ^ 63 }
    ensures { result ≡ begun_at version end body.now }
{
    if body.is_empty() {
        return end;
    }
    begins_at(version, end)
}

/// Appends the padding before a body that has octets, behind fields that end at a place: in 1.2 alone.
fn put_gap(version: Version, order: Order, end: u64, out: &mut Vec<u8>) -> Result<(), AllocError>
    requires { end < 2 ^ 32 }
    ensures ok { OnOk result (out.new.items ≡ out.old.items ++ gap_at version end) }
    ensures err { OnErr result (out.new.items ≡ out.old.items) }
{
    match version {
        Version::V10 | Version::V11 => Ok(()),
        Version::V12 => Writer::new(order, end, out).align(8, out),
    }
}

/// Appends a body behind fields that end at a place. In 1.2 padding stands before it, if it has any octets.
fn put_body(
    version: Version,
    kind: MessageKind,
    order: Order,
    end: u64,
    body: &[u8],
    out: &mut Vec<u8>,
) -> Result<(), AllocError>
    requires bodied { HasBody kind }
    requires short { end < 2 ^ 32 }
    ensures ok { OnOk result (out.new.items ≡ out.old.items ++ body_octets version kind order (octets_body body.now) end) }
    ensures err { OnErr result (Keeps out.old.items out.new.items) }
{
    cdr_core::laws::are_octets(body);
    if body.is_empty() {
        return Ok(());
    }
    put_gap(version, order, end, out)?;
    out.extend_from_slice(body)
}

/// Writes the header of a message, which begins at `start`, over the one in its place.
fn put_header(version: Version, kind: MessageKind, order: Order, start: usize, out: &mut Vec<u8>)
    requires bodied { HasBody kind }
    requires begun { start + 12 ≤ length out.old.items }
    requires short { length out.old.items < start + 12 + 2 ^ 32 }
    ensures { out.new.items ≡ take start out.old.items ++ message_octets version kind order (drop (start + 12) out.old.items) }
{
    let header = Header {
        version,
        order,
        more: false,
        kind,
        size: (out.len() - start - Header::LEN) as u32,
    };
    out[start..start + Header::LEN].copy_from_slice(&header.write());
}

/// Appends the body behind the fields of a message that begins at `start`, and writes its header. Where that fails `out` may
/// keep a part of it at its end.
pub(crate) fn finish(
    version: Version,
    kind: MessageKind,
    order: Order,
    start: usize,
    body: &[u8],
    limit: u32,
    out: &mut Vec<u8>,
) -> Result<(), PlacingError>
    requires bodied { HasBody kind }
    requires begun { start + 12 ≤ length out.old.items }
    ensures { IsEnded limit (message_octets version kind order (with_octets version kind order body.now (drop (start + 12) out.old.items))) result (take start out.old.items) out.new.items }
{
    cdr_core::laws::are_octets(body);
    let all = out.len();
    let end = (all - start) as u64;
    let begins = begun_at(version, body, end);
    let size = begins + body.len() as u64;
    let most = u64::from(limit);
    if size > most {
        return Err(PlacingError::TooLong);
    }
    put_body(version, kind, order, end, body, out)?;
    put_header(version, kind, order, start, out);
    Ok(())
}
