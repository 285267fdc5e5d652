//! What an error of a call says: that memory ran out, or that something is wrong.

use giop_core::WriteError;
use trials::{Miss, Wrong};

/// Out of memory, or a message that is too long where that is not wanted.
pub(crate) fn message_miss(error: WriteError) -> Miss {
    match error {
        WriteError::TooLong => Miss::Wrong(Wrong::Fault),
        WriteError::Memory => Miss::Memory,
    }
}
