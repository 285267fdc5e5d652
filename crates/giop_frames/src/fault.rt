//! Why a stream is refused.

ghost use Rattle.std.specs.Prelude.{◌≡◌};
ghost use Rattle.giop_frames.specs.declared.fault.StreamFault.TheVariants.{Body, Header as BadHeader, Memory};

use giop_core::{HeaderFault, MessageFault};
use std::alloc::AllocError;
use thiserror::Error;

/// The first fault of a stream.
///
/// When each is reported is an own rule. At the twelfth octet of a frame: `Header`, `TooLarge` of a
/// frame, and `UnalignedFragment`. At the last octet of a frame: the others, and `TooLarge` of a message that
/// is joined.
#[derive(Clone, Copy, Debug, PartialEq, Eq, Error)]
pub enum StreamFault {
    /// The twelve octets at the head of a frame are no header.
    #[error("{0}")]
    Header(HeaderFault),
    /// A frame, or a message joined from its fragments, would have more octets than the limit, the twelve
    /// of its header among them.
    #[error("too large")]
    TooLarge,
    /// More fragments follow a frame whose length is, in 1.2, not divisible by 8 (GIOP 9.4.9), or in 1.1 not 4 modulo
    /// 8, where the limits ask for that (own rule).
    #[error("unaligned fragment")]
    UnalignedFragment,
    /// A Fragment of 1.2 whose request id is that of no partial message, or one of 1.1 where no message of 1.1
    /// is partial.
    #[error("stray fragment")]
    StrayFragment,
    /// A message of 1.2 with the request id of one whose fragments are still to come; or, while a message of
    /// 1.1 is partial, any frame but its Fragments and CancelRequests (own rule).
    #[error("twice started")]
    TwiceStarted,
    /// As many messages are partial as the limits allow, and one more starts.
    #[error("too many partial")]
    TooManyPartial,
    /// The octets after a header are no message. Places count in the message whose fragments are joined.
    #[error("body: {0}")]
    Body(MessageFault),
    /// A Fragment in another byte order than the first frame of its message (own rule).
    #[error("mixed order")]
    MixedOrder,
    /// An allocation failed. This is no fault of the stream.
    #[error("memory")]
    Memory,
    /// There was a fault before. This is no fault of the stream.
    #[error("failed")]
    Failed,
}

/// An allocation failed.
impl From<AllocError> for StreamFault {
    ghost from_gives = { λ e f. f ≡ Memory };

    fn from(_error: AllocError) -> StreamFault {
        StreamFault::Memory
    }
}

/// The head of a frame is no header.
impl From<HeaderFault> for StreamFault {
    ghost from_gives = { λ e f. f ≡ BadHeader e };

    fn from(fault: HeaderFault) -> StreamFault {
        StreamFault::Header(fault)
    }
}

/// The octets after a header are no message.
impl From<MessageFault> for StreamFault {
    ghost from_gives = { λ e f. f ≡ Body e };

    fn from(fault: MessageFault) -> StreamFault {
        StreamFault::Body(fault)
    }
}
