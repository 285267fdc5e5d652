//! Why the program does not end with status 0.

use std::alloc::{AllocError, AllocFailed};
use std::io;

/// Why the program does not end with status 0.
#[derive(Clone, Copy)]
pub(crate) enum Stop {
    /// The words are wrong: how they go.
    Words(&'static str),
    /// A message or a reference is none.
    Fault,
    /// An allocation failed.
    Memory,
    /// The words can't be read, or the output can't be written.
    Unusable,
}

impl Stop {
    /// The line on standard error.
    pub(crate) fn text(self) -> &'static str {
        match self {
            Stop::Words(usage) => usage,
            Stop::Fault => "fault",
            Stop::Memory => "memory",
            Stop::Unusable => "can't read the words or write a line",
        }
    }

    /// The exit status.
    pub(crate) fn status(self) -> u8 {
        match self {
            Stop::Words(_) => 2,
            Stop::Fault | Stop::Memory | Stop::Unusable => 1,
        }
    }
}

/// An error of the system, which may be out of memory.
impl From<io::Error> for Stop {
    fn from(error: io::Error) -> Stop {
        match error.kind() {
            io::ErrorKind::OutOfMemory => Stop::Memory,
            _ => Stop::Unusable,
        }
    }
}

impl From<AllocError> for Stop {
    fn from(_e: AllocError) -> Stop {
        Stop::Memory
    }
}

impl<T: Drop> From<AllocFailed<T>> for Stop {
    fn from(_e: AllocFailed<T>) -> Stop {
        Stop::Memory
    }
}
