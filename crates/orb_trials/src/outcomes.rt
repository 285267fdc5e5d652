//! `Outcome::copy` of outcomes with the values of samples.

use cdr_core::{Ty, Val, read_list};
use ft_log::Outcome;
use std::alloc::Global;
use trials::{Miss, Sample, Trial, Wrong, check_printed, ty};

/// What performing a request gave.
#[derive(Clone, Copy)]
pub enum Performed {
    /// Results.
    Returned,
    /// An exception that the operation declares.
    Raised,
}

/// The members of a sample that is a struct.
fn members(alloc: Global, sample: &Sample) -> Result<Vec<Val>, Miss> {
    let ty = ty(alloc, sample)?;
    if !ty.is_valid() {
        return Err(Wrong::Inputs.into());
    }
    let Ty::Struct(types) = &ty else {
        return Err(Wrong::Inputs.into());
    };
    let at = u64::from(sample.at);
    let (values, _) = read_list(alloc, types, sample.order, at, sample.octets)?;
    Ok(values)
}

/// `copy` of an outcome.
#[derive(Drop)]
pub struct OutcomeCopying {
    sample: &'static Sample,
    outcome: Outcome,
}

impl OutcomeCopying {
    /// An outcome with these members.
    pub(crate) fn new(
        alloc: Global,
        sample: &'static Sample,
        performed: Performed,
    ) -> Result<OutcomeCopying, Miss> {
        let values = members(alloc, sample)?;
        let outcome = match performed {
            Performed::Returned => Outcome::Returned(values),
            Performed::Raised => Outcome::Raised(Vec::from_slice(alloc, b"X")?, values),
        };
        Ok(OutcomeCopying { sample, outcome })
    }
}

impl Trial for OutcomeCopying {
    fn call(&mut self, alloc: Global) -> Result<(), Miss> {
        let copy = self.outcome.copy(alloc)?;
        Ok(check_printed(self.sample, &copy)?)
    }

    fn is_unchanged(&self) -> bool {
        check_printed(self.sample, &self.outcome).is_ok()
    }
}
