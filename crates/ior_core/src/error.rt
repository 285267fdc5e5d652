//! Why a reference or a profile was not read.

ghost use Rattle.std.specs.Prelude.{◌≡◌};
ghost use Rattle.ior_core.specs.Calls.{ior_error};
ghost use Rattle.ior_core.specs.declared.error.IorError.TheVariants.{Memory};

use cdr_core::{CdrError, Fault};
use hex::FromHexError;
use std::alloc::AllocError;
use thiserror::Error;

/// Why a reference or a profile was not read. Where several apply it is the first in this order,
/// which is own rules; `Memory` comes as soon as an allocation fails.
#[derive(Clone, Copy, Debug, PartialEq, Eq, Error)]
pub enum IorError {
    /// The text does not begin with `IOR:`, whose letters may be in either case.
    #[error("no prefix")]
    NoPrefix,
    /// The number of digits is odd.
    #[error("odd digits")]
    OddDigits,
    /// There is no hexadecimal digit at this place, counted in octets from 0 after the prefix.
    #[error("bad digit at {0}")]
    BadDigit(u64),
    /// The octets are no reference or no profile: their first fault, whose place counts from the
    /// encapsulation's first octet, or for `read_ior` from where its caller says.
    #[error("{0}")]
    Cdr(Fault),
    /// The octets are a whole profile of another major version of IIOP than 1.
    #[error("bad major")]
    BadMajor,
    /// Out of memory: an allocation failed.
    #[error("memory")]
    Memory,
}

/// The same reason: the fault of the octets, or out of memory.
impl From<CdrError> for IorError {
    ghost from_gives = { λ c e. e ≡ ior_error c };

    fn from(e: CdrError) -> IorError {
        match e {
            CdrError::Bad(fault) => IorError::Cdr(fault),
            CdrError::Memory => IorError::Memory,
        }
    }
}

/// What is wrong with the digits: `OddDigits`, `BadDigit`, or out of memory.
impl From<FromHexError> for IorError {
    ghost use Rattle.ior_core.specs.Text.{hex_error};

    ghost from_gives = { λ h e. e ≡ hex_error h };

    fn from(e: FromHexError) -> IorError {
        match e {
            FromHexError::OddLength => IorError::OddDigits,
            FromHexError::InvalidHexCharacter { index, .. } => IorError::BadDigit(index as u64),
            FromHexError::InvalidStringLength | FromHexError::OutOfMemory => IorError::Memory,
        }
    }
}

/// Out of memory.
impl From<AllocError> for IorError {
    ghost from_gives = { λ _ e. e ≡ Memory };

    fn from(_e: AllocError) -> IorError {
        IorError::Memory
    }
}

/// The fault of the octets.
impl From<Fault> for IorError {
    ghost use Rattle.ior_core.specs.declared.error.IorError.TheVariants.{Cdr};

    ghost from_gives = { λ f e. e ≡ Cdr f };

    fn from(fault: Fault) -> IorError {
        IorError::Cdr(fault)
    }
}
