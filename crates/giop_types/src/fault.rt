//! Why a table of types is refused.

use std::alloc::{AllocError, AllocFailed};
use thiserror::Error;

/// What is wrong with a line of a table.
#[derive(Clone, Copy, Debug, Error)]
pub enum Why {
    /// It is the first, and not the head of a table of this version.
    #[error("no table of types: it begins with `giop-types 1`")]
    Head,
    /// It has other characters.
    #[error("characters that are not of ASCII, or do not print")]
    Characters,
    /// Its first word is none of a table.
    #[error("a line that no table has")]
    Word,
    /// It belongs to something else than what was begun.
    #[error("a line that does not belong to what was begun")]
    Place,
    /// A name has other characters than letters, digits and underscores.
    #[error("a bad name")]
    Name,
    /// A bound, a size or a label is none.
    #[error("a bad number")]
    Number,
    /// A type is none, or is declared further below.
    #[error("no type that stands before")]
    Type,
    /// Its repository id was declared before.
    #[error("declared twice")]
    Twice,
    /// It begins a struct, an enum or a union in which nothing is.
    #[error("nothing is in it")]
    Empty,
    /// It begins a union whose discriminator can't be one, or whose labels are not distinct values of it.
    #[error("a union without distinct labels of its discriminator")]
    Labels,
    /// Its type is nested too deep.
    #[error("a type that is nested more than 64 deep")]
    Deep,
    /// With it the types have too many parts.
    #[error("more than 262144 parts of types")]
    Large,
}

/// Why a table of types is not read.
#[derive(Clone, Copy, Debug, Error)]
pub enum TypesError {
    /// An allocation failed.
    #[error("memory")]
    Memory,
    /// The line of that number, from 1, is refused.
    #[error("line {0}: {1}")]
    Line(u64, Why),
}

/// Why a line is not taken.
#[derive(Clone, Copy)]
pub(crate) enum Refusal {
    Memory,
    Bad(Why),
}

impl Refusal {
    /// Of the line of a number.
    pub fn at(self, line: u64) -> TypesError {
        match self {
            Refusal::Memory => TypesError::Memory,
            Refusal::Bad(why) => TypesError::Line(line, why),
        }
    }
}

impl From<AllocError> for Refusal {
    fn from(_e: AllocError) -> Refusal {
        Refusal::Memory
    }
}

impl<T> From<AllocFailed<T>> for Refusal
where
    T: Drop,
{
    fn from(_e: AllocFailed<T>) -> Refusal {
        Refusal::Memory
    }
}
