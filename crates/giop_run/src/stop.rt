//! Why the program ends before its work is done.

use crate::script::ScriptError;
use corbaloc::LocationError;
use ft_orb::PlayError;
use ior_core::IorError;
use std::alloc::{AllocError, AllocFailed};
use std::io;
use std::io::ErrorKind;
use thiserror::Error;

/// Why the program stops before its work is done, in the words that it prints.
#[derive(Debug, Drop, Error)]
pub enum Stop {
    /// An allocation failed.
    #[error("memory")]
    Memory,
    /// The input can't be read, isn't UTF-8, or hasn't ended.
    #[error("input: unreadable")]
    Unreadable,
    /// The file of that name can't be read.
    #[error("input: {0}: {1}")]
    File(String, io::Error),
    /// The share of a play is 0 or greater than the capacity.
    #[error("play: bad share")]
    BadShare,
    /// That of a service is.
    #[error("serve: bad share")]
    BadServiceShare,
    /// The line of the script with that number is no event.
    #[error("line {0}: bad event")]
    BadLine(u64),
    /// Nothing is parked under the number in the line of the script with that number.
    #[error("line {0}: not parked")]
    NotParked(u64),
    /// The text is no reference.
    #[error("ior: {0}")]
    BadText(IorError),
    /// The text is no URL of a location.
    #[error("ior: {0}")]
    BadUrl(LocationError),
    /// The URL has more addresses than are shown.
    #[error("ior: more than 64 addresses")]
    ManyAddresses,
    /// The input has an odd number of digits.
    #[error("input: odd digits")]
    OddDigits,
    /// The input has something that is no digit, in the line of that number and there in that place, both from 1.
    #[error("input: bad digit, line {0}, place {1}")]
    BadDigit(u64, u64),
    /// The output can't be written.
    #[error("output: {0}")]
    Unwritable(io::Error),
    /// The port can't be listened on.
    #[error("serve: cannot listen")]
    CannotListen,
    /// A connection can't be accepted.
    #[error("serve: cannot accept")]
    CannotAccept,
}

impl Stop {
    /// Whether the one who reads the output has gone away.
    pub(crate) fn is_reader_gone(&self) -> bool {
        match self {
            Stop::Unwritable(error) => error.kind() == ErrorKind::BrokenPipe,
            _ => false,
        }
    }
}

impl From<AllocError> for Stop {
    fn from(_e: AllocError) -> Stop {
        Stop::Memory
    }
}

impl From<ScriptError> for Stop {
    fn from(error: ScriptError) -> Stop {
        match error {
            ScriptError::BadLine(line) => Stop::BadLine(line),
            ScriptError::Memory => Stop::Memory,
        }
    }
}

/// A play stops early only where an allocation fails.
impl From<PlayError> for Stop {
    fn from(_e: PlayError) -> Stop {
        Stop::Memory
    }
}

/// A text isn't bad where an allocation failed.
impl From<IorError> for Stop {
    fn from(error: IorError) -> Stop {
        match error {
            IorError::Memory => Stop::Memory,
            error => Stop::BadText(error),
        }
    }
}

/// A URL isn't bad where an allocation failed.
impl From<LocationError> for Stop {
    fn from(error: LocationError) -> Stop {
        match error {
            LocationError::Memory => Stop::Memory,
            error => Stop::BadUrl(error),
        }
    }
}

/// The error of a writer; its buffer may have failed to grow.
impl From<io::Error> for Stop {
    fn from(error: io::Error) -> Stop {
        match error.kind() {
            ErrorKind::OutOfMemory => Stop::Memory,
            _ => Stop::Unwritable(error),
        }
    }
}
