//! CancelRequest (GIOP 9.4.4).

ghost use Rattle.std.specs.Prelude.{◌≡◌, ◌++◌, MatchResult};
ghost use Rattle.cdr_core.specs.Value.{no_values};
ghost use Rattle.giop_core.specs.Places.{FindsParts};
ghost use Rattle.giop_core.specs.Written.{behind_header, cancel_fields, message_octets};
ghost use Rattle.giop_core.specs.declared.header.MessageKind.TheVariants as kind;
ghost use Rattle.giop_core.specs.declared.header.Version.TheVariants.{V10};

use crate::error::MessageFault;
use crate::finder::Finder;
use crate::header::{Header, MessageKind, Version};
use crate::places::Parts;
use cdr_core::Order;
use std::alloc::AllocError;

/// A CancelRequest (GIOP 9.4.4): the reply to a request is no longer wanted.
#[derive(Clone, Copy, Debug, PartialEq, Eq)]
pub struct CancelRequest {
    /// The id of the request that is cancelled.
    pub request_id: u32,
}

/// Finds the parts of a CancelRequest, which every version has alike.
#[tactic(auto, unfolding(crate::specs::Messages::message_of, crate::specs::Rows::row, crate::specs::Content::content))]
pub(crate) fn find_cancel(
    order: Order,
    octets: &[u8],
    parts: &mut Parts,
) -> Result<(), MessageFault>
    ensures { FindsParts V10 kind.CancelRequest order octets.now result parts.new }
{
    let mut finder = Finder::new(octets, order);
    let request_id = finder.ulong()?;
    *parts = Parts::Cancel(request_id);
    Ok(())
}

/// A CancelRequest (GIOP 9.4.4).
pub fn cancel_octets(version: Version, order: Order, request_id: u32) -> [u8; 16]
    ensures { result ≡ message_octets version kind.CancelRequest order (behind_header version kind.CancelRequest order (cancel_fields request_id) no_values) }
{
    let header = Header {
        version,
        order,
        more: false,
        kind: MessageKind::CancelRequest,
        size: 4,
    };
    let mut octets = [0; Header::LEN + 4];
    octets[..Header::LEN].copy_from_slice(&header.octets());
    order.put_ulong(request_id, &mut octets[Header::LEN..]);
    octets
}

/// Appends a CancelRequest (GIOP 9.4.4). Where an allocation fails `out` is as it was.
pub fn write_cancel(
    version: Version,
    order: Order,
    request_id: u32,
    out: &mut Vec<u8>,
) -> Result<(), AllocError>
    ensures { MatchResult result
        (λ _. out.new.items ≡ out.old.items ++ message_octets version kind.CancelRequest order (behind_header version kind.CancelRequest order (cancel_fields request_id) no_values))
        (λ _. out.new.items ≡ out.old.items) }
{
    out.extend_from_slice(&cancel_octets(version, order, request_id))
}
