//! The owner of an engine: it performs what the engine asks for by a counter, or does not.

use cdr_core::Val;
use counter::Counter;
use ft_log::{Completion, Outcome, SystemName};
use ft_objects::Servant;
use ft_orb::Asked;
use std::alloc::{AllocError, Global};

/// How the owner answers.
#[derive(Clone, Copy)]
pub(crate) enum Manner {
    /// By what its counter does.
    Performs,
    /// Not at all.
    GivesUp,
    /// By a system exception, which leaves open whether the operation was completed.
    System(SystemName, u32),
    /// By a result that is of no operation's type.
    Mistypes,
    /// By TRANSIENT, COMPLETED_NO, of which nothing is kept.
    Declines,
    /// Not at all, and it closes the connection.
    Leaves,
}

/// The owner of an engine, with its counter.
#[derive(Drop)]
pub(crate) struct Owner {
    pub(crate) alloc: Global,
    pub(crate) counter: Counter,
    pub(crate) manner: Manner,
}

/// The counter's object key.
const OBJECT_KEY: &[u8] = b"c";

/// An unsigned long long, which no operation of the counter returns.
fn mistyped(alloc: Global) -> Result<Outcome, AllocError> {
    Ok(Outcome::Returned(vec![in alloc; Val::ULongLong(7)]?))
}

impl Owner {
    /// What the counter does. An engine asks for nothing but these two operations, with arguments of their types.
    fn count(&mut self, asked: &Asked<'_>) -> Option<Outcome> {
        let (operation, arguments) = (asked.operation, asked.arguments);
        match arguments {
            [] if operation == b"get".as_slice() => {
                self.counter
                    .perform(self.alloc, OBJECT_KEY, b"get", arguments)
                    .ok()
            }
            [Val::Long(n)] if operation == b"add".as_slice() => {
                let own = [Val::Long(*n)];
                self.counter
                    .perform(self.alloc, OBJECT_KEY, b"add", &own)
                    .ok()
            }
            _ => None,
        }
    }

    /// The outcome of a call; none where it is not performed, and then nothing is done.
    pub(crate) fn perform(&mut self, asked: &Asked<'_>) -> Option<Outcome> {
        match self.manner {
            Manner::Performs => self.count(asked),
            Manner::GivesUp | Manner::Declines | Manner::Leaves => None,
            Manner::System(name, minor) => Some(Outcome::System(name, minor, Completion::Maybe)),
            Manner::Mistypes => mistyped(self.alloc).ok(),
        }
    }
}
