//! The types of the samples.

use cdr_core::{Case, Ty};
use std::alloc::{AllocError, Global};

/// A type of the samples. All its bounds are 8.
#[derive(Clone, Copy)]
pub enum Shape {
    /// A string.
    Str,
    /// Octets.
    Octets,
    /// A sequence of longs.
    Longs,
    /// A sequence of strings.
    Strings,
    /// An array of two strings.
    Array,
    /// A struct of a string, a short and a sequence of strings.
    Struct,
    /// A union by a long: octets at 1, a string at 2, and else nothing.
    Labelled,
    /// A union by a boolean: a long at true, and else octets.
    Defaulted,
    /// A struct of a sequence of structs, and a union by an unsigned short of an array at 1.
    Nested,
}

/// A sequence of such elements.
fn sequence(alloc: Global, element: Ty) -> Result<Ty, AllocError> {
    Ok(Ty::Seq(8, Box::new(alloc, element)?))
}

/// An array of two such elements.
fn pair(alloc: Global, element: Ty) -> Result<Ty, AllocError> {
    Ok(Ty::Array(2, Box::new(alloc, element)?))
}

/// A struct of a string, a short and a sequence of strings.
fn plain(alloc: Global) -> Result<Ty, AllocError> {
    let strings = sequence(alloc, Ty::Str(8))?;
    let members = vec![in alloc; Ty::Str(8), Ty::Short, strings]?;
    Ok(Ty::Struct(members))
}

/// A union by a long: octets at 1, a string at 2, and else nothing.
fn labelled(alloc: Global) -> Result<Ty, AllocError> {
    let first = Case {
        label: 1,
        member: Ty::Octets(8),
    };
    let second = Case {
        label: 2,
        member: Ty::Str(8),
    };
    let cases = vec![in alloc; first, second]?;
    Ok(Ty::Union(Box::new(alloc, Ty::Long)?, cases, None))
}

/// A union by a boolean: a long at true, and else octets.
fn defaulted(alloc: Global) -> Result<Ty, AllocError> {
    let case = Case {
        label: 1,
        member: Ty::Long,
    };
    let cases = vec![in alloc; case]?;
    let default = Box::new(alloc, Ty::Octets(8))?;
    let discriminator = Box::new(alloc, Ty::Boolean)?;
    Ok(Ty::Union(discriminator, cases, Some(default)))
}

/// A sequence of structs of a character and a string.
fn entries(alloc: Global) -> Result<Ty, AllocError> {
    let members = vec![in alloc; Ty::Char, Ty::Str(8)]?;
    sequence(alloc, Ty::Struct(members))
}

/// A union by an unsigned short: an array of two octets at 1, and else nothing.
fn choice(alloc: Global) -> Result<Ty, AllocError> {
    let case = Case {
        label: 1,
        member: pair(alloc, Ty::Octets(8))?,
    };
    let cases = vec![in alloc; case]?;
    Ok(Ty::Union(Box::new(alloc, Ty::UShort)?, cases, None))
}

/// A struct of a sequence of structs and a union.
fn nested(alloc: Global) -> Result<Ty, AllocError> {
    let entries = entries(alloc)?;
    let choice = choice(alloc)?;
    let members = vec![in alloc; entries, choice]?;
    Ok(Ty::Struct(members))
}

impl Shape {
    /// The type of this shape.
    pub fn ty(self, alloc: Global) -> Result<Ty, AllocError> {
        match self {
            Shape::Str => Ok(Ty::Str(8)),
            Shape::Octets => Ok(Ty::Octets(8)),
            Shape::Longs => sequence(alloc, Ty::Long),
            Shape::Strings => sequence(alloc, Ty::Str(8)),
            Shape::Array => pair(alloc, Ty::Str(8)),
            Shape::Struct => plain(alloc),
            Shape::Labelled => labelled(alloc),
            Shape::Defaulted => defaulted(alloc),
            Shape::Nested => nested(alloc),
        }
    }
}
