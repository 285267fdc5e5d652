//! The calls that take memory. A new one is a variant of `Call`, its trial in `Call::run`, and its rows in
//! `suites`.

use crate::copying::Copying;
use crate::profiles::{ProfileReading, ProfileWriting};
use crate::reading::{ListReading, Reading};
use crate::references::{Parsing, Printing, ReferenceReading, ReferenceWriting};
use crate::writing::{ListWriting, Writing};
use std::alloc::Global;
use trials::{Ending, Miss, Room, Sample, ended};

/// A call that takes memory.
#[derive(Clone, Copy)]
pub enum Call {
    /// `read`.
    Read,
    /// `read_list`.
    ReadList,
    /// `write` into a vector with such room.
    Write(Room),
    /// `write_list` into a vector with such room.
    WriteList(Room),
    /// `Val::copy`.
    Copy,
    /// `read_ior`.
    ReadReference,
    /// `write_ior` into a vector with such room.
    WriteReference(Room),
    /// `read_iiop`.
    ReadProfile,
    /// `write_iiop` into a vector with such room.
    WriteProfile(Room),
    /// `parse_text`.
    Parse,
    /// `print_text`.
    Print,
}

impl trials::Call<()> for Call {
    fn run(self, alloc: Global, _given: (), sample: &'static Sample) -> Result<Ending, Miss> {
        match self {
            Call::Read => ended(alloc, Reading::new(alloc, sample)),
            Call::ReadList => ended(alloc, ListReading::new(alloc, sample)),
            Call::Write(room) => ended(alloc, Writing::new(alloc, sample, room)),
            Call::WriteList(room) => ended(alloc, ListWriting::new(alloc, sample, room)),
            Call::Copy => ended(alloc, Copying::new(alloc, sample)),
            Call::ReadReference => ended(alloc, Ok(ReferenceReading { sample })),
            Call::WriteReference(room) => ended(alloc, ReferenceWriting::new(alloc, sample, room)),
            Call::ReadProfile => ended(alloc, Ok(ProfileReading { sample })),
            Call::WriteProfile(room) => ended(alloc, ProfileWriting::new(alloc, sample, room)),
            Call::Parse => ended(alloc, Ok(Parsing { sample })),
            Call::Print => ended(alloc, Printing::new(alloc, sample)),
        }
    }
}
