//! What an error of a call says: that memory ran out, or that something is wrong.

use ft_log::LogError;
use ft_orb::{ConnectError, ServeError};
use trials::{Miss, Wrong};

/// Out of memory, or a log that is full where none is to be.
pub(crate) fn log_miss(error: LogError) -> Miss {
    match error {
        LogError::Full | LogError::ShareFull => Miss::Wrong(Wrong::Fault),
        LogError::Memory => Miss::Memory,
    }
}

/// Out of memory, or a number that was used where a new one is wanted.
pub(crate) fn connect_miss(error: ConnectError) -> Miss {
    match error {
        ConnectError::NotNew => Miss::Wrong(Wrong::Inputs),
        ConnectError::Memory => Miss::Memory,
    }
}

/// Out of memory, or no connection where there is to be one.
pub(crate) fn serve_miss(error: ServeError) -> Miss {
    match error {
        ServeError::NoConnection => Miss::Wrong(Wrong::Inputs),
        ServeError::Memory { .. } => Miss::Memory,
    }
}
