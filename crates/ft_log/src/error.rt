//! Why no room is made in a log.

ghost use Rattle.std.specs.Prelude.{◌≡◌};
ghost use Rattle.ft_log.specs.declared.error.LogError.TheVariants.{Memory};

use std::alloc::AllocError;
use thiserror::Error;

/// Why no room is made. The entries are as they were.
#[derive(Clone, Copy, Debug, PartialEq, Eq, Error)]
pub enum LogError {
    /// The log keeps as many outcomes as it may.
    #[error("full")]
    Full,
    /// The log has room, but keeps as many outcomes of this client as it may.
    #[error("share full")]
    ShareFull,
    /// An allocation failed.
    #[error("memory")]
    Memory,
}

/// An allocation failed.
impl From<AllocError> for LogError {
    ghost from_gives = { λ _ e. e ≡ Memory };

    fn from(_: AllocError) -> LogError {
        LogError::Memory
    }
}
