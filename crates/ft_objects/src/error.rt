//! Why a call on a catalogue failed.

use thiserror::Error;

/// Why something was not added to a catalogue. Nothing has changed.
#[derive(Clone, Copy, Debug, PartialEq, Eq, Error)]
pub enum InterfacesError {
    /// A type is not valid, or a NUL stands in an operation's name or in a repository id.
    #[error("not valid")]
    NotValid,
    /// The key names no object.
    #[error("no object")]
    NoObject,
    /// Every operation of the object is raw.
    #[error("raw object")]
    RawObject,
    /// The key names an object already, or the name an operation of it.
    #[error("taken")]
    Taken,
    /// An allocation failed.
    #[error("memory")]
    Memory,
}
