//! What performing a request gave.

ghost use Rattle.std.specs.Prelude.{◌≡◌, IfOk};
ghost use Rattle.cdr_core.specs.View.{values_of};
ghost use Rattle.ft_log.specs.Statuses.{status_number};
ghost use Rattle.ft_log.specs.View.{performed_in};

use crate::system_exception::{Completion, SystemName};
use cdr_core::{Order, Val};
use std::alloc::{AllocError, Global};

/// The status of a Reply whose body comes as octets: those that every version has (GIOP 9.4.3).
#[derive(Clone, Copy, Debug, PartialEq, Eq)]
pub enum RawStatus {
    /// The body holds the results.
    NoException,
    /// The body holds an exception that the operation declares.
    UserException,
    /// The body holds a system exception.
    SystemException,
    /// The body holds a reference to ask in place of this one.
    LocationForward,
}

impl RawStatus {
    /// The ordinal of the standard's enumeration: 0 for NoException to 3 for LocationForward.
    pub fn number(self) -> u32
        ensures { result ≡ status_number self }
    {
        match self {
            RawStatus::NoException => 0,
            RawStatus::UserException => 1,
            RawStatus::SystemException => 2,
            RawStatus::LocationForward => 3,
        }
    }
}

/// What performing a request gave (GIOP 9.4.3).
#[derive(Debug, Drop)]
pub enum Outcome {
    /// The results: the return value, and then the out and inout parameters in order.
    Returned(Vec<Val>),
    /// The results where there is one, the return value or one parameter: as `Returned` of it alone, without a vector.
    One(Val),
    /// An exception that the operation declares: its repository id without its NUL, and its members.
    Raised(Vec<u8>, Vec<Val>),
    /// A system exception: its name, its minor code, and whether the operation was completed.
    System(SystemName, u32, Completion),
    /// The body of the Reply as octets, with its status and its byte order. It is written for a place divisible
    /// by 8.
    Raw(RawStatus, Order, Vec<u8>),
}

impl Outcome {
    /// An equal outcome in memory of its own; an error if an allocation failed.
    pub fn copy(&self, alloc: Global) -> Result<Outcome, AllocError>
        ensures { IfOk result (λ o. performed_in o ≡ performed_in self.now) }
    {
        match self {
            Outcome::Returned(results) => Ok(Outcome::Returned(copied(alloc, results)?)),
            Outcome::One(result) => Ok(Outcome::One(result.copy(alloc)?)),
            Outcome::Raised(id, members) => {
                let id = Vec::from_slice(alloc, id)?;
                Ok(Outcome::Raised(id, copied(alloc, members)?))
            }
            Outcome::System(name, minor, completion) => {
                Ok(Outcome::System(*name, *minor, *completion))
            }
            Outcome::Raw(status, order, body) => {
                Ok(Outcome::Raw(*status, *order, Vec::from_slice(alloc, body)?))
            }
        }
    }
}

/// Equal values in memory of their own.
fn copied(alloc: Global, all: &[Val]) -> Result<Vec<Val>, AllocError>
    ensures { IfOk result (λ v. values_of v.items ≡ values_of all.now) }
{
    let mut copies = Vec::with_capacity(alloc, all.len())?;
    for value in all {
        copies.push(value.copy(alloc)?)?;
    }
    Ok(copies)
}
