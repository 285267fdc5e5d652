//! `read_ior`, `write_ior`, `parse_text` and `print_text` of samples.

ghost use Rattle.std.specs.Prelude.{◌≡◌, ◌++◌};

use crate::misses::reference_miss;
use crate::reading::check_value;
use ior_core::{Ior, IorError, parse_text, print_text, read_ior, write_ior};
use std::alloc::Global;
use trials::{Gives, Miss, Output, Room, Sample, Trial, Wrong, check_printed};

/// Compares why nothing was read with the fault of a sample.
pub(crate) fn check_error(sample: &Sample, error: IorError) -> Result<(), Miss> {
    match (error, sample.gives) {
        (IorError::Cdr(fault), Gives::Fault(wanted)) if fault == wanted => Ok(()),
        (error, _) => Err(reference_miss(error)),
    }
}

/// The text of a sample.
fn text_of(sample: &Sample) -> Result<&'static str, Wrong> {
    std::str::from_utf8(sample.octets).map_err(|_| Wrong::Inputs)
}

/// `read_ior` of a sample.
#[derive(Drop)]
pub struct ReferenceReading {
    pub sample: &'static Sample,
}

impl Trial for ReferenceReading {
    fn call(&mut self, alloc: Global) -> Result<(), Miss> {
        let sample = self.sample;
        match read_ior(alloc, sample.order, u64::from(sample.at), sample.octets) {
            Ok((ior, used)) => Ok(check_value(sample, &ior, used)?),
            Err(error) => check_error(sample, error),
        }
    }

    /// The octets are lent, and can't change.
    fn is_unchanged(&self) -> bool {
        true
    }
}

/// `write_ior` of the reference of a sample.
#[derive(Drop)]
pub struct ReferenceWriting {
    sample: &'static Sample,
    ior: Ior,
    output: Output,
}

impl ReferenceWriting {
    /// The inputs.
    pub(crate) fn new(
        alloc: Global,
        sample: &'static Sample,
        room: Room,
    ) -> Result<ReferenceWriting, Miss> {
        let (ior, _) = read_ior(alloc, sample.order, u64::from(sample.at), sample.octets).map_err(
            reference_miss,
        )?;
        Ok(ReferenceWriting {
            sample,
            ior,
            output: Output::new(alloc, room)?,
        })
    }
}

impl Trial for ReferenceWriting {
    // The sample's octets stand after those from before.
    ghost is_right = { λ w. w.output.out.items ≡ w.output.before.now ++ w.sample.now.octets.now };

    fn call(&mut self, _alloc: Global) -> Result<(), Miss> {
        let sample = self.sample;
        if !self.ior.is_writable() {
            return Err(Wrong::Inputs.into());
        }
        let out = &mut self.output.out;
        write_ior(sample.order, u64::from(sample.at), &self.ior, out)?;
        if !self.output.has_gained(sample.octets) {
            return Err(Wrong::Octets.into());
        }
        Ok(())
    }

    fn is_unchanged(&self) -> bool {
        self.output.has_gained(&[])
    }
}

/// `parse_text` of a sample.
#[derive(Drop)]
pub struct Parsing {
    pub sample: &'static Sample,
}

impl Trial for Parsing {
    fn call(&mut self, alloc: Global) -> Result<(), Miss> {
        let sample = self.sample;
        match parse_text(alloc, text_of(sample)?) {
            Ok(ior) => Ok(check_printed(sample, &ior)?),
            Err(error) => check_error(sample, error),
        }
    }

    /// The text is lent, and can't change.
    fn is_unchanged(&self) -> bool {
        true
    }
}

/// `print_text` of the reference of a sample.
#[derive(Drop)]
pub struct Printing {
    sample: &'static Sample,
    ior: Ior,
}

impl Printing {
    /// The inputs.
    pub(crate) fn new(alloc: Global, sample: &'static Sample) -> Result<Printing, Miss> {
        let ior = parse_text(alloc, text_of(sample)?).map_err(reference_miss)?;
        Ok(Printing { sample, ior })
    }
}

impl Trial for Printing {
    fn call(&mut self, alloc: Global) -> Result<(), Miss> {
        if !self.ior.is_writable() {
            return Err(Wrong::Inputs.into());
        }
        let text = print_text(alloc, &self.ior)?;
        if text.as_bytes() != self.sample.octets {
            return Err(Wrong::Octets.into());
        }
        Ok(())
    }

    fn is_unchanged(&self) -> bool {
        check_printed(self.sample, &self.ior).is_ok()
    }
}
