//! `read` and `read_list` of samples.

ghost use Rattle.std.specs.Prelude.{◌≡◌, length, OnOk};

use cdr_core::{CdrError, Ty, Val, read, read_list};
use std::alloc::Global;
use std::fmt::Debug;
use trials::{Gives, Miss, Sample, Trial, Wrong, check_printed, ty};

/// Compares a value with that of a sample, and how many octets were used with how many it has.
pub(crate) fn check_value<T: Debug>(sample: &Sample, value: &T, used: usize) -> Result<(), Wrong>
    ensures { OnOk result (used ≡ length sample.now.octets.now) }
{
    check_printed(sample, value)?;
    if used != sample.octets.len() {
        return Err(Wrong::Length);
    }
    Ok(())
}

/// Compares why nothing was read with the fault of a sample.
fn check_error(sample: &Sample, error: CdrError) -> Result<(), Miss> {
    match (error, sample.gives) {
        (CdrError::Bad(fault), Gives::Fault(wanted)) if fault == wanted => Ok(()),
        (error, _) => Err(error.into()),
    }
}

/// `read` of a sample.
#[derive(Drop)]
pub struct Reading {
    sample: &'static Sample,
    ty: Ty,
}

impl Reading {
    /// The inputs.
    pub(crate) fn new(alloc: Global, sample: &'static Sample) -> Result<Reading, Miss> {
        Ok(Reading {
            sample,
            ty: ty(alloc, sample)?,
        })
    }
}

impl Trial for Reading {
    fn call(&mut self, alloc: Global) -> Result<(), Miss> {
        let sample = self.sample;
        if !self.ty.is_valid() {
            return Err(Wrong::Inputs.into());
        }
        let at = u64::from(sample.at);
        match read(alloc, &self.ty, sample.order, at, sample.octets) {
            Ok((value, used)) => Ok(check_value(sample, &value, used)?),
            Err(error) => check_error(sample, error),
        }
    }

    /// The type and the octets are lent, and can't change.
    fn is_unchanged(&self) -> bool {
        true
    }
}

/// `read_list` of the members of a sample that is a struct.
#[derive(Drop)]
pub struct ListReading {
    sample: &'static Sample,
    ty: Ty,
}

impl ListReading {
    /// The inputs.
    pub(crate) fn new(alloc: Global, sample: &'static Sample) -> Result<ListReading, Miss> {
        Ok(ListReading {
            sample,
            ty: ty(alloc, sample)?,
        })
    }
}

impl Trial for ListReading {
    fn call(&mut self, alloc: Global) -> Result<(), Miss> {
        let sample = self.sample;
        if !self.ty.is_valid() {
            return Err(Wrong::Inputs.into());
        }
        let Ty::Struct(types) = &self.ty else {
            return Err(Wrong::Inputs.into());
        };
        let at = u64::from(sample.at);
        match read_list(alloc, types, sample.order, at, sample.octets) {
            Ok((values, used)) => Ok(check_value(sample, &Val::Struct(values), used)?),
            Err(error) => check_error(sample, error),
        }
    }

    /// The types and the octets are lent, and can't change.
    fn is_unchanged(&self) -> bool {
        true
    }
}

/// The value of a sample of that type.
fn value_of(alloc: Global, sample: &Sample, ty: &Ty) -> Result<Val, Miss> {
    if !ty.is_valid() {
        return Err(Wrong::Inputs.into());
    }
    let at = u64::from(sample.at);
    let (value, used) = read(alloc, ty, sample.order, at, sample.octets)?;
    check_value(sample, &value, used)?;
    Ok(value)
}

/// The value of a sample.
pub(crate) fn value(alloc: Global, sample: &Sample) -> Result<Val, Miss> {
    let ty = ty(alloc, sample)?;
    value_of(alloc, sample, &ty)
}
