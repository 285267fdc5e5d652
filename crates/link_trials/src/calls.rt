//! The calls that take memory. A new one is a variant of `Call`, its trial in `Call::run`, and its rows in
//! `suites`.

use crate::attending::Attending;
use crate::calling::{Act, Calling, Completing};
use crate::closing::Closing;
use crate::hearing::Hearing;
use crate::sending::{Sending, Sent};
use std::alloc::Global;
use trials::{Ending, Miss, Room, Sample, ended};

/// A call that takes memory.
#[derive(Clone, Copy)]
pub enum Call {
    /// A link that is fed in pieces of as many octets.
    Hear(usize),
    /// `ServerLink::close` into a vector with such room.
    CloseLink(Room),
    /// A call by which a client's link sends, into a vector with such room.
    Send(Sent, Room),
    /// A client's link that is fed in pieces of as many octets.
    Attend(usize),
    /// A call of `FtClient`, into a vector with such room.
    Act(Act, Room),
    /// A client that calls, and is fed in pieces of as many octets.
    Complete(usize),
}

impl trials::Call<()> for Call {
    fn run(self, alloc: Global, _given: (), sample: &'static Sample) -> Result<Ending, Miss> {
        match self {
            Call::Hear(size) => ended(alloc, Ok(Hearing::new(alloc, sample, size))),
            Call::CloseLink(room) => ended(alloc, Closing::new(alloc, sample, room)),
            Call::Send(sent, room) => ended(alloc, Sending::new(alloc, sample, sent, room)),
            Call::Attend(size) => ended(alloc, Ok(Attending::new(alloc, sample, size))),
            Call::Act(act, room) => ended(alloc, Calling::new(alloc, sample, act, room)),
            Call::Complete(size) => ended(alloc, Completing::new(alloc, sample, size)),
        }
    }
}
