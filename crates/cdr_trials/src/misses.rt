//! What an error of a call says: that memory ran out, or that something is wrong.

use ior_core::IorError;
use trials::{Miss, Wrong};

/// Out of memory, or another error where none is wanted.
pub(crate) fn reference_miss(error: IorError) -> Miss {
    match error {
        IorError::Memory => Miss::Memory,
        _ => Miss::Wrong(Wrong::Fault),
    }
}
