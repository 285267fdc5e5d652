//! Clients, and what they complete with.

use cdr_core::{Order, Val};
use ft_client::{CallError, Ended, FtClient, ReplyBody};
use giop_core::Version;
use giop_frames::Limits;
use std::alloc::{AllocError, Global};
use std::test::Fail;

/// A client `A`, without a connection, whose messages are of a version.
pub(crate) fn client_of(alloc: Global, version: Version) -> Result<FtClient, Fail> {
    let limits = Limits::new(4096, 1).ok_or("limits")?;
    Ok(FtClient::new(alloc, b"A", version, limits)?)
}

/// A client `A` of messages of 1.2, without a connection.
pub(crate) fn client(alloc: Global) -> Result<FtClient, Fail> {
    client_of(alloc, Version::V12)
}

/// Connects a client that has no connection, and returns what it writes.
pub(crate) fn join(alloc: Global, client: &mut FtClient, now: u64) -> Result<Vec<u8>, Fail> {
    let mut out = Vec::new(alloc);
    if client.is_connected() {
        return Err("connected")?;
    }
    client.connected(now, &mut out)?;
    Ok(out)
}

/// Calls `add` of a number at the object `c` until the moment 100.
pub(crate) fn add(
    client: &mut FtClient,
    now: u64,
    number: i32,
    out: &mut Vec<u8>,
) -> Result<i32, CallError> {
    client.call(now, b"c", b"add", &[Val::Long(number)], 100, out)
}

/// Feeds octets in pieces of at most as many.
pub(crate) fn feed_in_pieces(
    client: &mut FtClient,
    octets: &[u8],
    size: usize,
) -> Result<(), AllocError> {
    for piece in octets.chunks(size.max(1)) {
        client.feed(piece)?;
    }
    Ok(())
}

/// How a call is to end. A body stands at 24, and is in big order where no order is named.
#[derive(Clone, Copy)]
pub(crate) enum Done {
    Returned(Order, &'static [u8]),
    Raised(&'static [u8]),
    System(&'static [u8]),
    Forwarded(&'static [u8]),
    NeedsAddressing,
    Sent,
    Expired,
    Cancelled,
}

/// Whether a body is that.
pub(crate) fn is_body(body: &ReplyBody, order: Order, octets: &[u8]) -> bool {
    body.order == order && body.at == 24 && body.octets.as_slice() == octets
}

/// Whether a call ended so.
pub(crate) fn is_done(ended: &Ended, done: Done) -> bool {
    match (ended, done) {
        (Ended::Returned(body), Done::Returned(order, octets)) => is_body(body, order, octets),
        (Ended::Raised(body), Done::Raised(octets))
        | (Ended::System(body), Done::System(octets))
        | (Ended::Forwarded(body), Done::Forwarded(octets)) => is_body(body, Order::Big, octets),
        (Ended::NeedsAddressing, Done::NeedsAddressing)
        | (Ended::Sent, Done::Sent)
        | (Ended::Expired, Done::Expired)
        | (Ended::Cancelled, Done::Cancelled) => true,
        _ => false,
    }
}

/// Takes the completions, and returns whether they are these, in this order.
pub(crate) fn completes(client: &mut FtClient, wanted: &[(i32, Done)]) -> bool {
    for (id, done) in wanted {
        match client.take_completion() {
            Some((number, ended)) if number == *id && is_done(&ended, *done) => {}
            _ => return false,
        }
    }
    client.take_completion().is_none()
}
