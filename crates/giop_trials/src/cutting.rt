//! `fragments` and `fragments_11` of the messages of samples.

ghost use Rattle.std.specs.Prelude.{◌≡◌, ◌++◌};

use giop_frames::{fragments, fragments_11, is_cuttable, is_cuttable_11};
use std::alloc::Global;
use trials::{Gives, Miss, Output, Room, Sample, Trial, Wrong};

/// How many octets a frame of 1.2 may have, and one of 1.1.
const SIZE: u32 = 32;

const SIZE_11: u32 = 28;

/// `fragments` or `fragments_11` of the message of a sample.
#[derive(Drop)]
pub struct Cutting {
    message: &'static [u8],
    /// The octets of its frames.
    frames: &'static [u8],
    output: Output,
}

impl Cutting {
    /// The inputs.
    pub(crate) fn new(alloc: Global, sample: &'static Sample, room: Room) -> Result<Cutting, Miss> {
        let Gives::Frames(frames) = sample.gives else {
            return Err(Wrong::Inputs.into());
        };
        Ok(Cutting {
            message: sample.octets,
            frames,
            output: Output::new(alloc, room)?,
        })
    }
}

impl Trial for Cutting {
    // The octets of the frames stand after those from before.
    ghost is_right = { λ c. c.output.out.items ≡ c.output.before.now ++ c.frames.now };

    fn call(&mut self, _alloc: Global) -> Result<(), Miss> {
        let out = &mut self.output.out;
        if is_cuttable(self.message) {
            fragments(self.message, SIZE, out)?;
        } else if is_cuttable_11(self.message) {
            fragments_11(self.message, SIZE_11, out)?;
        } else {
            return Err(Wrong::Inputs.into());
        }
        if !self.output.has_gained(self.frames) {
            return Err(Wrong::Octets.into());
        }
        Ok(())
    }

    fn is_unchanged(&self) -> bool {
        self.output.has_gained(&[])
    }
}
