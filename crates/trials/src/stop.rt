//! How a program ends: its status, and why that is not 0.

ghost use Rattle.std.specs.Prelude.{◌≤◌};

use crate::trial::{Miss, Wrong};
use hex::FromHexError;
use std::alloc::{AllocError, AllocFailed};
use std::io;
use std::io::Write;
use std::process::ExitCode;

/// Why a program does not end with status 0.
#[derive(Clone, Copy, PartialEq, Eq)]
pub enum Stop {
    /// Memory ran out before the call.
    Memory,
    /// Something is wrong with the call.
    Wrong(Wrong),
    /// No case has that name.
    Unknown,
    /// A line of the input asks for no call.
    BadLine,
    /// The input can't be read, or the output can't be written.
    Unusable,
}

/// Why a case did not end well.
impl From<Miss> for Stop {
    fn from(miss: Miss) -> Stop {
        match miss {
            Miss::Memory => Stop::Memory,
            Miss::Wrong(wrong) => Stop::Wrong(wrong),
        }
    }
}

/// An error of a reader or of a writer, which may be out of memory.
impl From<io::Error> for Stop {
    fn from(error: io::Error) -> Stop {
        match error.kind() {
            io::ErrorKind::OutOfMemory => Stop::Memory,
            _ => Stop::Unusable,
        }
    }
}

/// Out of memory.
impl From<AllocError> for Stop {
    fn from(_e: AllocError) -> Stop {
        Stop::Memory
    }
}

/// Out of memory; the element that was not stored is dropped.
impl<T: Drop> From<AllocFailed<T>> for Stop {
    fn from(_e: AllocFailed<T>) -> Stop {
        Stop::Memory
    }
}

/// Digits that are no octets, or out of memory.
impl From<FromHexError> for Stop {
    fn from(error: FromHexError) -> Stop {
        match error {
            FromHexError::OutOfMemory => Stop::Memory,
            _ => Stop::BadLine,
        }
    }
}

/// Prints why a program does not end with status 0.
fn report<E: Write>(stop: Stop, usage: &str, err: &mut E) -> io::Result<()> {
    match stop {
        Stop::Memory => writeln!(err, "memory"),
        Stop::Wrong(wrong) => writeln!(err, "wrong: {wrong}"),
        Stop::Unknown => writeln!(err, "usage: {usage}"),
        Stop::BadLine => writeln!(err, "bad line"),
        Stop::Unusable => Ok(()),
    }
}

/// The exit status of a program that has answered a word: 0; or 1 where the call is wrong, memory ran out
/// before it, a line of the input asks for no call, the input can't be read or the output can't be written;
/// or 2 where no case has that name. The reason goes to `err`.
pub fn status_of<E: Write>(answer: Result<(), Stop>, usage: &str, err: &mut E) -> u8
    ensures { result ≤ 2 }
{
    match answer {
        Ok(()) => 0,
        Err(stop) => {
            let _ = report(stop, usage, err);
            if stop == Stop::Unknown { 2 } else { 1 }
        }
    }
}

/// The exit code of a program with that status, or of one that ended before it could answer.
pub fn exit_code(rt: &impl Eprint, status: io::Result<u8>) -> ExitCode {
    match status {
        Ok(status) => ExitCode::from(status),
        Err(error) => {
            if error.kind() == io::ErrorKind::OutOfMemory {
                let _ = eprintln!(rt; "memory");
            }
            ExitCode::from(1)
        }
    }
}
