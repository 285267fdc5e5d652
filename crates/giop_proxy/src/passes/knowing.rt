//! What is known of a message by its first octets, also where it does not read.

ghost use Rattle.std.specs.Prelude.{◌≡◌};
ghost use Rattle.giop_proxy.specs.PassingMessages.{id_place, known_id, may_wish};

use crate::passes::cutting::ID_LEN;
use giop_core::{Header, MessageKind};

/// Where the request id stands among the octets after a header: first, or in a Request and a Reply of 1.0 and 1.1 behind
/// service contexts, of which there are to be none (own rule).
fn id_place(header: &Header, octets: &[u8]) -> Option<usize>
    ensures { result ≡ id_place header.now octets.now }
{
    match header.kind {
        MessageKind::CancelRequest | MessageKind::LocateRequest | MessageKind::LocateReply => {
            Some(0)
        }
        MessageKind::Request | MessageKind::Reply => {
            if header.version.has_id_first() {
                return Some(0);
            }
            if octets.len() < ID_LEN || header.order.ulong_of(octets) != 0 {
                return None;
            }
            Some(ID_LEN)
        }
        MessageKind::Fragment => {
            if header.version.has_id_first() {
                return Some(0);
            }
            None
        }
        MessageKind::CloseConnection | MessageKind::MessageError => None,
    }
}

/// The request id of a message, where it is known.
pub(crate) fn known_id(header: &Header, octets: &[u8]) -> Option<u32>
    ensures { result ≡ known_id header.now octets.now }
{
    let place = id_place(header, octets)?;
    if octets.len() < place + ID_LEN {
        return None;
    }
    let (_, rest) = octets.split_at(place);
    Some(header.order.ulong_of(rest))
}

/// Whether a message may wish for a reply: one that is no Request may be a part of one.
pub(crate) fn may_wish(header: &Header, octets: &[u8]) -> bool
    ensures { result ≡ may_wish header.now octets.now }
{
    if !matches!(header.kind, MessageKind::Request) {
        return true;
    }
    let Some(place) = id_place(header, octets) else {
        return true;
    };
    if octets.len() <= place + ID_LEN {
        return true;
    }
    octets[place + ID_LEN] != 0
}
