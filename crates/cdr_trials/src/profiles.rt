//! `read_iiop` and `write_iiop` of samples.

ghost use Rattle.std.specs.Prelude.{◌≡◌, ◌++◌};

use crate::misses::reference_miss;
use crate::references::check_error;
use ior_core::{IiopProfile, read_iiop, write_iiop};
use std::alloc::Global;
use trials::{Miss, Output, Room, Sample, Trial, Wrong, check_printed};

/// `read_iiop` of a sample.
#[derive(Drop)]
pub struct ProfileReading {
    pub sample: &'static Sample,
}

impl Trial for ProfileReading {
    fn call(&mut self, alloc: Global) -> Result<(), Miss> {
        let sample = self.sample;
        match read_iiop(alloc, sample.octets) {
            Ok(profile) => Ok(check_printed(sample, &profile)?),
            Err(error) => check_error(sample, error),
        }
    }

    /// The octets are lent, and can't change.
    fn is_unchanged(&self) -> bool {
        true
    }
}

/// `write_iiop` of the profile of a sample.
#[derive(Drop)]
pub struct ProfileWriting {
    sample: &'static Sample,
    profile: IiopProfile,
    output: Output,
}

impl ProfileWriting {
    /// The inputs.
    pub(crate) fn new(
        alloc: Global,
        sample: &'static Sample,
        room: Room,
    ) -> Result<ProfileWriting, Miss> {
        Ok(ProfileWriting {
            sample,
            profile: read_iiop(alloc, sample.octets).map_err(reference_miss)?,
            output: Output::new(alloc, room)?,
        })
    }
}

impl Trial for ProfileWriting {
    // The sample's octets stand after those from before.
    ghost is_right = { λ w. w.output.out.items ≡ w.output.before.now ++ w.sample.now.octets.now };

    fn call(&mut self, _alloc: Global) -> Result<(), Miss> {
        if !self.profile.is_writable() {
            return Err(Wrong::Inputs.into());
        }
        write_iiop(&self.profile, &mut self.output.out)?;
        if !self.output.has_gained(self.sample.octets) {
            return Err(Wrong::Octets.into());
        }
        Ok(())
    }

    fn is_unchanged(&self) -> bool {
        self.output.has_gained(&[])
    }
}
