//! `write` and `write_list` of the values of samples.

ghost use Rattle.std.specs.Prelude.{◌≡◌, ◌++◌};

use crate::reading::value;
use cdr_core::{Val, writable, write, write_list};
use std::alloc::Global;
use trials::{Miss, Output, Room, Sample, Trial, Wrong};

/// `write` of the value of a sample.
#[derive(Drop)]
pub struct Writing {
    sample: &'static Sample,
    value: Val,
    output: Output,
}

impl Writing {
    /// The inputs.
    pub(crate) fn new(alloc: Global, sample: &'static Sample, room: Room) -> Result<Writing, Miss> {
        Ok(Writing {
            sample,
            value: value(alloc, sample)?,
            output: Output::new(alloc, room)?,
        })
    }
}

impl Trial for Writing {
    // The sample's octets stand after those from before.
    ghost is_right = { λ w. w.output.out.items ≡ w.output.before.now ++ w.sample.now.octets.now };

    fn call(&mut self, _alloc: Global) -> Result<(), Miss> {
        let sample = self.sample;
        if !writable(&self.value) {
            return Err(Wrong::Inputs.into());
        }
        let out = &mut self.output.out;
        write(sample.order, u64::from(sample.at), &self.value, out)?;
        if !self.output.has_gained(sample.octets) {
            return Err(Wrong::Octets.into());
        }
        Ok(())
    }

    fn is_unchanged(&self) -> bool {
        self.output.has_gained(&[])
    }
}

/// `write_list` of the members of a sample that is a struct.
#[derive(Drop)]
pub struct ListWriting {
    sample: &'static Sample,
    value: Val,
    output: Output,
}

impl ListWriting {
    /// The inputs.
    pub(crate) fn new(
        alloc: Global,
        sample: &'static Sample,
        room: Room,
    ) -> Result<ListWriting, Miss> {
        Ok(ListWriting {
            sample,
            value: value(alloc, sample)?,
            output: Output::new(alloc, room)?,
        })
    }
}

impl Trial for ListWriting {
    // The sample's octets stand after those from before.
    ghost is_right = { λ w. w.output.out.items ≡ w.output.before.now ++ w.sample.now.octets.now };

    fn call(&mut self, _alloc: Global) -> Result<(), Miss> {
        let sample = self.sample;
        if !writable(&self.value) {
            return Err(Wrong::Inputs.into());
        }
        let Val::Struct(values) = &self.value else {
            return Err(Wrong::Inputs.into());
        };
        let out = &mut self.output.out;
        write_list(sample.order, u64::from(sample.at), values, out)?;
        if !self.output.has_gained(sample.octets) {
            return Err(Wrong::Octets.into());
        }
        Ok(())
    }

    fn is_unchanged(&self) -> bool {
        self.output.has_gained(&[])
    }
}
