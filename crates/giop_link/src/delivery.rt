//! What a client's link lends.

ghost use Rattle.std.specs.Prelude.{◌≡◌, ◌<◌, ◌^◌, Some, IfSome, IsOk, length};
ghost use Rattle.std.specs.Option.{option_map};
ghost use Rattle.giop_core.specs.Lent.{reply_of, rest_of};
ghost use Rattle.giop_core.specs.Places.{said_by};
ghost use Rattle.giop_frames.specs.Standing.{HasPlace, frame_of};
ghost use Rattle.giop_link.specs.Answering.{answer_in, answer_of};
ghost use Rattle.giop_link.specs.ClientLinking.{IsNearBody, delivered_at};
ghost use Rattle.giop_link.specs.Listening.{spoken};
ghost use Rattle.giop_link.specs.Private.{told_of};

use giop_core::{Body, Reading, Reply, ReplyStatus, Said};

/// What came last for a client, lent from its link.
#[derive(Debug, Drop)]
pub enum Delivery<'m> {
    /// A Reply that returns or raises: the id of its request, its status, a number that `ReplyStatus` names, and
    /// its body.
    Reply(u32, u32, Body<'m>),
    /// A LocateReply: the id of its locate, its status, a number that `LocateStatus` names, and its body.
    Located(u32, u32, Body<'m>),
    /// A Reply that forwards, for now or for good: the id of its request, and the body, which has the reference
    /// to ask.
    Forward(u32, Body<'m>),
    /// A Reply that asks for another addressing of the target: the id of its request.
    NeedsAddressing(u32),
    /// The peer has sent CloseConnection: nothing comes after it.
    Closed,
    /// The peer has sent MessageError: nothing that comes after it counts.
    PeerError,
}

/// What is delivered of a Reply.
fn replied(reply: Reply<'_>) -> Delivery<'_>
    requires { HasPlace (rest_of reply.body) }
    ensures told { Some (delivered_at result) ≡ told_of (spoken (answer_in (reply_of reply.entry))) }
    ensures near { IsNearBody result }
{
    let id = reply.request_id;
    match ReplyStatus::from_number(reply.status) {
        Some(ReplyStatus::LocationForward | ReplyStatus::LocationForwardPerm) => {
            Delivery::Forward(id, reply.body)
        }
        Some(ReplyStatus::NeedsAddressingMode) => Delivery::NeedsAddressing(id),
        Some(ReplyStatus::NoException | ReplyStatus::UserException | ReplyStatus::SystemException)
        | None => Delivery::Reply(id, reply.status, reply.body),
    }
}

/// What is delivered of a message, if it is an answer.
#[inline(always)]
pub(crate) fn delivered<'m>(message: &Reading<'m>) -> Option<Delivery<'m>>
    requires valid { IsOk (said_by message.now) }
    requires short { length message.now.octets < 2 ^ 31 }
    ensures told { option_map delivered_at result ≡ told_of (spoken (answer_of (frame_of message.now))) }
    ensures near { IfSome result IsNearBody }
{
    match message.said() {
        Said::Reply(reply) => Some(replied(reply.lend())),
        Said::LocateReply(reply) => {
            let reply = reply.lend();
            Some(Delivery::Located(reply.request_id, reply.status, reply.body))
        }
        Said::Request(_)
        | Said::Cancel(_)
        | Said::LocateRequest(_)
        | Said::Close
        | Said::Error
        | Said::Fragment(_) => None,
    }
}
