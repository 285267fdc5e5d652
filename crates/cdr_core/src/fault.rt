//! Why no value was read.

ghost use Rattle.std.specs.Prelude.{◌≡◌};
ghost use Rattle.cdr_core.specs.declared.fault.CdrError.TheVariants.{Memory};

use std::alloc::{AllocError, AllocFailed};
use thiserror::Error;

/// What is wrong with octets. The strings are the texts that are printed.
#[derive(Clone, Copy, Debug, PartialEq, Eq, Error)]
pub enum Kind {
    /// Fewer octets are left than the part needs.
    #[error("short")]
    Short,
    /// A boolean is neither 0 nor 1.
    #[error("bad boolean")]
    BadBoolean,
    /// The last octet of a string is not a NUL.
    #[error("no terminator")]
    NoTerminator,
    /// A NUL stands before the last octet of a string.
    #[error("interior nul")]
    InteriorNul,
    /// The ordinal of an enumeration is not below the number of its names.
    #[error("bad enum")]
    BadEnum,
    /// The length of a string or of octets, or the count of a sequence, is over its bound.
    #[error("over bound")]
    OverBound,
}

/// The first fault in octets that are read from left to right, and its place.
///
/// The place is where the faulty part begins after its padding, even if that lies past the last
/// octet; at a NUL or a missing terminator it is that octet's. It counts from the beginning of the
/// message or encapsulation. The standard doesn't say which fault is reported: this
/// is an own rule.
#[derive(Clone, Copy, Debug, PartialEq, Eq, Error)]
#[error("{kind} at {at}")]
pub struct Fault {
    pub kind: Kind,
    pub at: u64,
}

/// Why no value was read.
#[derive(Debug, Drop, Error)]
pub enum CdrError {
    /// No front of the octets is a value of the type: the first fault.
    #[error("{0}")]
    Bad(Fault),
    /// Out of memory: an allocation failed.
    #[error("memory")]
    Memory,
}

/// `Bad`, with the fault.
impl From<Fault> for CdrError {
    ghost use Rattle.cdr_core.specs.declared.fault.CdrError.TheVariants.{Bad};

    ghost from_gives = { λ f e. e ≡ Bad f };

    fn from(fault: Fault) -> CdrError {
        CdrError::Bad(fault)
    }
}

/// Out of memory.
impl From<AllocError> for CdrError {
    ghost from_gives = { λ _ e. e ≡ Memory };

    fn from(_e: AllocError) -> CdrError {
        CdrError::Memory
    }
}

/// Out of memory; the element that was not stored is dropped.
impl<T: Drop> From<AllocFailed<T>> for CdrError {
    ghost from_gives = { λ _ e. e ≡ Memory };

    fn from(_e: AllocFailed<T>) -> CdrError {
        CdrError::Memory
    }
}
