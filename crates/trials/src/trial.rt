//! One call, and the same call again where an allocation of it was refused.

ghost use Rattle.std.specs.Prelude.{OnOk};

use cdr_core::CdrError;
use std::alloc::{AllocError, AllocFailed, Global};
use std::fmt;
use thiserror::Error;

/// What is wrong with a call.
#[derive(Clone, Copy, Debug, PartialEq, Eq, Error)]
pub enum Wrong {
    /// The call can't be made on its inputs.
    #[error("inputs")]
    Inputs,
    /// It gives another value.
    #[error("value")]
    Value,
    /// It gives another fault, a fault in place of a value, or a value in place of a fault.
    #[error("fault")]
    Fault,
    /// It reads another number of octets.
    #[error("length")]
    Length,
    /// It holds more octets than it may.
    #[error("held")]
    Held,
    /// It leaves other octets in the vector.
    #[error("octets")]
    Octets,
    /// Something changed though an allocation was refused.
    #[error("changed")]
    Changed,
    /// It is out of memory once more where no allocation is refused.
    #[error("refused again")]
    RefusedAgain,
}

/// Why a call did not end well.
#[derive(Clone, Copy, PartialEq, Eq)]
pub enum Miss {
    /// An allocation was refused.
    Memory,
    /// Something is wrong.
    Wrong(Wrong),
}

/// Something wrong.
impl From<Wrong> for Miss {
    fn from(wrong: Wrong) -> Miss {
        Miss::Wrong(wrong)
    }
}

/// Out of memory.
impl From<AllocError> for Miss {
    fn from(_e: AllocError) -> Miss {
        Miss::Memory
    }
}

/// Out of memory; the element that was not stored is dropped.
impl<T: Drop> From<AllocFailed<T>> for Miss {
    fn from(_e: AllocFailed<T>) -> Miss {
        Miss::Memory
    }
}

/// Out of memory, or a fault where none is wanted.
impl From<CdrError> for Miss {
    fn from(error: CdrError) -> Miss {
        match error {
            CdrError::Bad(_) => Miss::Wrong(Wrong::Fault),
            CdrError::Memory => Miss::Memory,
        }
    }
}

/// How a call ended that is right. A program prints it so.
#[derive(Clone, Copy)]
pub enum Ending {
    /// It was right at once.
    Done,
    /// An allocation of it was refused, and the same call was right after that.
    Refused,
}

impl fmt::Display for Ending {
    fn fmt<W: fmt::Write>(&self, f: &mut fmt::Formatter<W>) -> fmt::Result {
        match self {
            Ending::Done => f.write_str("done"),
            Ending::Refused => f.write_str("refused"),
        }
    }
}

/// A call with its inputs and what it is to give.
pub trait Trial {
    /// What holds after a call that was right.
    ghost is_right: { Self → Type 0 } = { λ _. Unit {0} };

    /// Makes the call, and compares what it gives with what it is to give.
    fn call(&mut self, alloc: Global) -> Result<(), Miss>
        ensures { OnOk result (is_right self.new) };

    /// Whether the inputs of the call are as they were before it.
    fn is_unchanged(&self) -> bool;
}

/// Makes a call, and makes it again where an allocation of it was refused and nothing changed.
fn tried<T: Trial>(alloc: Global, trial: &mut T) -> Result<Ending, Wrong>
    ensures { OnOk result (T.is_right trial.new) }
{
    match trial.call(alloc) {
        Ok(()) => return Ok(Ending::Done),
        Err(Miss::Wrong(wrong)) => return Err(wrong),
        Err(Miss::Memory) => {}
    }
    if !trial.is_unchanged() {
        return Err(Wrong::Changed);
    }
    match trial.call(alloc) {
        Ok(()) => Ok(Ending::Refused),
        Err(Miss::Wrong(wrong)) => Err(wrong),
        Err(Miss::Memory) => Err(Wrong::RefusedAgain),
    }
}

/// Makes a call on these inputs, and makes it again where an allocation of it was refused. At `Memory` the
/// call was not made, since an allocation for its inputs was refused.
pub fn ended<T: Trial + Drop>(alloc: Global, inputs: Result<T, Miss>) -> Result<Ending, Miss> {
    Ok(tried(alloc, &mut inputs?)?)
}
