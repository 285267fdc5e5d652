//! Requests that are parked, whose outcomes come later, and who waits for these.

ghost use Rattle.std.specs.Prelude.{◌≡◌, ◌≤◌, length, option_map};
ghost use Rattle.ft_log.specs.View.{performed_in};
ghost use Rattle.ft_orb.specs.facts.Outcomes.{renderable_if_prop};
ghost use Rattle.ft_orb.specs.Sendable.{IsRenderableIf};

use crate::answering::Asker;
use crate::pausing::Pending;
use ft_log::Outcome;
use std::collections::VecDeque;

/// How many requests may be parked at a time, in all and of those that came on one connection, and how many may wait for the outcome
/// of one beside the last who came: one more than that in all, with who asked first.
#[derive(Clone, Copy, Debug, PartialEq, Eq)]
pub struct Places {
    pub parked: u32,
    pub of_one: u32,
    pub joined: u32,
}

impl Places {
    /// None: each request is answered before the engine goes on.
    pub fn none() -> Places
        ensures { result ≡ record { parked = 0; of_one = 0; joined = 0 } }
    {
        Places {
            parked: 0,
            of_one: 0,
            joined: 0,
        }
    }
}

/// Who waits for the outcome of a parked request: the connection that it came on, and how it is answered.
#[derive(Clone, Copy)]
pub(crate) struct Waiter {
    pub(crate) connection: u64,
    pub(crate) asker: Asker,
}

/// A request that is parked; who waits for its outcome, in the order in which they came, those of connections that have ended
/// among them; and the outcome, once it is there and is told.
#[derive(Drop)]
pub(crate) struct Parked {
    pub(crate) pending: Pending,
    pub(crate) waiters: VecDeque<Waiter>,
    pub(crate) outcome: Option<Outcome>,
    ghost short: { length waiters.items ≤ 4294967296 },
    ghost renderable: { IsRenderableIf (option_map performed_in outcome) } by { renderable_if_prop (option_map performed_in outcome) },
}
