//! `Val::copy` of the values of samples.

use crate::reading::value;
use cdr_core::Val;
use std::alloc::Global;
use trials::{Miss, Sample, Trial, check_printed};

/// `copy` of the value of a sample.
#[derive(Drop)]
pub struct Copying {
    sample: &'static Sample,
    value: Val,
}

impl Copying {
    /// The inputs.
    pub(crate) fn new(alloc: Global, sample: &'static Sample) -> Result<Copying, Miss> {
        Ok(Copying {
            sample,
            value: value(alloc, sample)?,
        })
    }
}

impl Trial for Copying {
    fn call(&mut self, alloc: Global) -> Result<(), Miss> {
        let copy = self.value.copy(alloc)?;
        Ok(check_printed(self.sample, &copy)?)
    }

    fn is_unchanged(&self) -> bool {
        check_printed(self.sample, &self.value).is_ok()
    }
}
