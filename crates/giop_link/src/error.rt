//! Why a link is closed, and why a client's sends nothing.

ghost use Rattle.std.specs.Prelude.{◌≡◌, ◌↔◌, true};
ghost use Rattle.giop_frames.specs.declared.fault.StreamFault.TheVariants.{Memory};
ghost use Rattle.giop_link.specs.Private.{send_error_of};
ghost use Rattle.giop_link.specs.declared.error.LinkFault.TheVariants.{Stream};
ghost use Rattle.giop_link.specs.declared.error.SendError.TheVariants as send;

use giop_core::WriteError;
use giop_frames::StreamFault;
use std::alloc::AllocError;
use thiserror::Error;

/// Why a link was closed by what came, or by an allocation that failed.
#[derive(Clone, Copy, Debug, PartialEq, Eq, Error)]
pub enum LinkFault {
    /// The stream has a fault, or an allocation failed.
    #[error("{0}")]
    Stream(StreamFault),
    /// A message that its reader sends and never hears: to a server a Reply or a LocateReply, to a client a Request, a
    /// LocateRequest or a CancelRequest (GIOP 9.4).
    #[error("wrong direction")]
    WrongDirection,
}

/// Why a request or a locate was not sent: the first of these that holds, or `Memory` in place of `TooLong`.
/// The link and the output are as they were.
#[derive(Clone, Copy, Debug, PartialEq, Eq, Error)]
pub enum SendError {
    /// The link has ended.
    #[error("link closed")]
    LinkClosed,
    /// An answer is wanted, and as many ids are outstanding as the link allows.
    #[error("too many outstanding")]
    TooManyOutstanding,
    /// All request ids were given, 4,294,967,295.
    #[error("ids used")]
    IdsUsed,
    /// More octets would stand after the header than a message size can count, 4,294,967,295.
    #[error("too long")]
    TooLong,
    /// An allocation failed.
    #[error("memory")]
    Memory,
}

/// The message is too long, or an allocation failed.
impl From<WriteError> for SendError {
    ghost from_gives = { λ e f. f ≡ send_error_of e };

    fn from(error: WriteError) -> SendError {
        match error {
            WriteError::TooLong => SendError::TooLong,
            WriteError::Memory => SendError::Memory,
        }
    }
}

/// An allocation failed.
impl From<AllocError> for SendError {
    ghost from_gives = { λ e f. f ≡ send.Memory };

    fn from(_error: AllocError) -> SendError {
        SendError::Memory
    }
}

impl LinkFault {
    /// Tells whether it is that an allocation failed, which is no fault of the stream.
    pub fn is_memory(&self) -> bool
        ensures { (result ≡ true) ↔ (self.now ≡ Stream Memory) }
    {
        matches!(self, LinkFault::Stream(StreamFault::Memory))
    }
}

/// The stream has a fault, or an allocation failed.
impl From<StreamFault> for LinkFault {
    ghost from_gives = { λ e f. f ≡ Stream e };

    fn from(fault: StreamFault) -> LinkFault {
        LinkFault::Stream(fault)
    }
}
