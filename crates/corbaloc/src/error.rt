//! Why a text is no location.

ghost use Rattle.std.specs.Prelude.{◌≡◌};
ghost use Rattle.corbaloc.specs.declared.error.LocationError.TheVariants.{Memory};

use std::alloc::{AllocError, AllocFailed};
use thiserror::Error;

/// Why a text is no location, or why there is no reference of a location. A place counts the octets
/// of the text from 1. Where several reasons apply it is the first from the left, which is an own
/// rule; `Memory` comes as soon as an allocation fails.
#[derive(Clone, Copy, Debug, PartialEq, Eq, Error)]
pub enum LocationError {
    /// The text does not begin with `corbaloc:`, whose letters may be in either case.
    #[error("no prefix")]
    NoPrefix,
    /// The address at this place is `rir:`, which names an object of the program that asks.
    #[error("rir at {0}")]
    Rir(usize),
    /// The address at this place begins with neither `iiop:` nor `:`.
    #[error("unknown protocol at {0}")]
    UnknownProtocol(usize),
    /// What stands at this place, before an `@`, is none of the versions 1.0 to 1.255.
    #[error("bad version at {0}")]
    BadVersion(usize),
    /// No host stands at this place: no name, no IPv4 address, and no IPv6 address in brackets.
    #[error("bad host at {0}")]
    BadHost(usize),
    /// What stands at this place, behind a host, is no `:` and number of 1 to 65535.
    #[error("bad port at {0}")]
    BadPort(usize),
    /// The octet of the key at this place has to be written as `%` and two digits.
    #[error("unescaped octet at {0}")]
    Unescaped(usize),
    /// No two hexadecimal digits follow the `%` at this place.
    #[error("bad escape at {0}")]
    BadEscape(usize),
    /// No profile can hold a host or the key: its length fits no unsigned long, or the host has a NUL.
    #[error("not writable")]
    NotWritable,
    /// Out of memory: an allocation failed.
    #[error("memory")]
    Memory,
}

/// Out of memory.
impl From<AllocError> for LocationError {
    ghost from_gives = { λ _ e. e ≡ Memory };

    fn from(_e: AllocError) -> LocationError {
        LocationError::Memory
    }
}

/// Out of memory.
impl<T: Drop> From<AllocFailed<T>> for LocationError {
    ghost from_gives = { λ _ e. e ≡ Memory };

    fn from(_e: AllocFailed<T>) -> LocationError {
        LocationError::Memory
    }
}
