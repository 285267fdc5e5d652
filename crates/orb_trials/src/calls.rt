//! The calls that take memory. A new one is a variant of `Call`, its trial in `Call::run`, and its rows in
//! `suites`.

use crate::asking::Asking;
use crate::keeping::Keeping;
use crate::keys::{KeyCopying, KeyMaking};
use crate::outcomes::{OutcomeCopying, Performed};
use crate::servers::{Idling, ServerClosing};
use std::alloc::Global;
use std::hash::RandomState;
use trials::{Ending, Miss, Room, Sample, ended};

/// A call that takes memory.
#[derive(Clone, Copy)]
pub enum Call {
    /// `Key::new`.
    NewKey,
    /// `Key::copy`.
    CopyKey,
    /// `Outcome::copy` of such an outcome.
    CopyOutcome(Performed),
    /// `Log::make_room` and `keep`, in a log that keeps so many outcomes.
    Keep(i32),
    /// `Server::connect` and `feed` of a request.
    Ask,
    /// The same of a request that was served before.
    AskAgain,
    /// `Server::close` into a vector with such room.
    CloseServer(Room),
    /// `Server::feed` of pieces for which it takes no memory.
    Idle,
}

impl trials::Call<RandomState> for Call {
    fn run(
        self,
        alloc: Global,
        hasher: RandomState,
        sample: &'static Sample,
    ) -> Result<Ending, Miss> {
        match self {
            Call::NewKey => ended(alloc, Ok(KeyMaking { sample })),
            Call::CopyKey => ended(alloc, KeyCopying::new(alloc, sample)),
            Call::CopyOutcome(performed) => {
                ended(alloc, OutcomeCopying::new(alloc, sample, performed))
            }
            Call::Keep(count) => ended(alloc, Keeping::new(alloc, hasher, sample, count)),
            Call::Ask => ended(alloc, Asking::new(alloc, hasher, sample)),
            Call::AskAgain => ended(alloc, Asking::again(alloc, hasher, sample)),
            Call::CloseServer(room) => {
                ended(alloc, ServerClosing::new(alloc, hasher, sample, room))
            }
            Call::Idle => ended(alloc, Idling::new(alloc, hasher, sample)),
        }
    }
}
