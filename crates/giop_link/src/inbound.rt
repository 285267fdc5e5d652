//! What a link lends.

ghost use Rattle.std.specs.Prelude.{◌≡◌, ◌<◌, ◌^◌, IfSome, length};
ghost use Rattle.std.specs.Option.{option_map};
ghost use Rattle.giop_frames.specs.Standing.{frame_of};
ghost use Rattle.giop_link.specs.Hearing.{meaning_of};
ghost use Rattle.giop_link.specs.Linking.{IsNear, meaning_at};
ghost use Rattle.giop_link.specs.Listening.{spoken};

use giop_core::{Reading, Request, Said, Target, Version};

/// What came last on a connection, lent from its link.
#[derive(Debug, Drop)]
pub enum Inbound<'m> {
    /// A Request, and its version.
    Request(Version, Request<'m>),
    /// A LocateRequest: its version, its request id and its target.
    Locate(Version, u32, Target<'m>),
    /// A CancelRequest of the request of this id.
    Cancelled(u32),
    /// The peer has sent CloseConnection: nothing comes after it.
    PeerClosed,
    /// The peer has sent MessageError: nothing that comes after it counts.
    PeerError,
}

/// What is heard in a message, if it is one that a client sends.
#[inline(always)]
pub(crate) fn spoken<'m>(message: &Reading<'m>) -> Option<Inbound<'m>>
    requires { length message.now.octets < 2 ^ 31 }
    ensures told { option_map meaning_at result ≡ spoken (meaning_of (frame_of message.now)) }
    ensures near { IfSome result IsNear }
{
    let version = message.header().version;
    match message.said() {
        Said::Request(request) => Some(Inbound::Request(version, request.lend())),
        Said::LocateRequest(locate) => {
            let locate = locate.lend();
            Some(Inbound::Locate(version, locate.request_id, locate.target))
        }
        Said::Cancel(cancel) => Some(Inbound::Cancelled(cancel.request_id)),
        Said::Reply(_) | Said::LocateReply(_) | Said::Close | Said::Error | Said::Fragment(_) => {
            None
        }
    }
}
