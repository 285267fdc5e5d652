//! Why octets are not a message, and why a message is not written.

ghost use Rattle.std.specs.Prelude.{◌≡◌};
ghost use Rattle.giop_core.specs.declared.error.MessageFault.TheVariants.{Cdr};
ghost use Rattle.giop_core.specs.declared.error.WriteError.TheVariants.{Memory};

use cdr_core::Fault;
use std::alloc::AllocError;
use thiserror::Error;

/// The first fault in the octets after a header. Places count from the beginning of the message, its
/// header included.
#[derive(Clone, Copy, Debug, PartialEq, Eq, Error)]
pub enum MessageFault {
    /// A field is no value of its type.
    #[error("{0}")]
    Cdr(Fault),
    /// The discriminator of a target, at this place, is neither 0, 1 nor 2.
    #[error("bad addressing at {0}")]
    BadAddressing(u64),
}

/// The fault of a field.
impl From<Fault> for MessageFault {
    ghost from_gives = { λ f e. e ≡ Cdr f };

    fn from(fault: Fault) -> MessageFault {
        MessageFault::Cdr(fault)
    }
}

/// Why a message is not written. The output is as it was.
#[derive(Clone, Copy, Debug, PartialEq, Eq, Error)]
pub enum WriteError {
    /// More octets would stand after the header than a message size can count, 4,294,967,295.
    #[error("too long")]
    TooLong,
    /// An allocation failed.
    #[error("memory")]
    Memory,
}

/// An allocation failed.
impl From<AllocError> for WriteError {
    ghost from_gives = { λ f e. e ≡ Memory };

    fn from(_: AllocError) -> WriteError {
        WriteError::Memory
    }
}
