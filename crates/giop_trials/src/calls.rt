//! The calls that take memory. A new one is a variant of `Call`, its trial in `Call::run`, and its rows in
//! `suites`.

use crate::clients::ClientWriting;
use crate::cutting::Cutting;
use crate::feeding::Feeding;
use crate::messages::{By, MessageWriting};
use std::alloc::Global;
use trials::{Ending, Miss, Room, Sample, ended};

/// A call that takes memory.
#[derive(Clone, Copy)]
pub enum Call {
    /// The writer of a message into a vector with such room.
    WriteMessage(Room),
    /// `write_exception` into a vector with such room.
    WriteException(Room),
    /// `write_ft` into a vector with such room.
    WriteClient(Room),
    /// An assembler that is fed so many times, in pieces of as many octets.
    Feed(u32, usize),
    /// `fragments` into a vector with such room.
    Cut(Room),
}

impl trials::Call<()> for Call {
    fn run(self, alloc: Global, _given: (), sample: &'static Sample) -> Result<Ending, Miss> {
        match self {
            Call::WriteMessage(room) => {
                ended(alloc, MessageWriting::new(alloc, sample, By::Kind, room))
            }
            Call::WriteException(room) => ended(
                alloc,
                MessageWriting::new(alloc, sample, By::Exception, room),
            ),
            Call::WriteClient(room) => ended(alloc, ClientWriting::new(alloc, sample, room)),
            Call::Feed(times, size) => ended(alloc, Ok(Feeding::new(alloc, sample, times, size))),
            Call::Cut(room) => ended(alloc, Cutting::new(alloc, sample, room)),
        }
    }
}
