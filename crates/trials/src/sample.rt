//! What a call reads or writes, and what it is to give.

use crate::shapes::Shape;
use crate::text::is_printed_as;
use crate::trial::{Miss, Wrong};
use cdr_core::{Fault, Order, Ty};
use std::alloc::Global;
use std::fmt::Debug;

/// Octets at a place, and what reading them gives.
pub struct Sample {
    /// The second part of the names of its cases.
    pub name: &'static str,
    /// The type, where the call takes one.
    pub shape: Option<Shape>,
    /// The order of the octets of a number.
    pub order: Order,
    /// The place of the first octet.
    pub at: u32,
    /// The octets, the gap before the value included.
    pub octets: &'static [u8],
    /// What reading them gives.
    pub gives: Gives,
}

/// What reading octets gives.
#[derive(Clone, Copy)]
pub enum Gives {
    /// The value that `{:?}` prints so.
    Value(&'static str),
    /// A fault after a part for which memory was taken.
    Fault(Fault),
    /// The octets of the frames that a message is cut into.
    Frames(&'static [u8]),
    /// The octets that a server writes.
    Answer(&'static [u8]),
}

/// The type of a sample.
pub fn ty(alloc: Global, sample: &Sample) -> Result<Ty, Miss> {
    let shape = sample.shape.ok_or(Wrong::Inputs)?;
    Ok(shape.ty(alloc)?)
}

/// Compares a value with that of a sample.
pub fn check_printed<T: Debug>(sample: &Sample, value: &T) -> Result<(), Wrong> {
    let Gives::Value(text) = sample.gives else {
        return Err(Wrong::Fault);
    };
    if !is_printed_as(value, text) {
        return Err(Wrong::Value);
    }
    Ok(())
}

/// A header alone.
const CLOSING: Sample = Sample {
    name: "one",
    shape: None,
    order: Order::Big,
    at: 0,
    octets: &[0x47, 0x49, 0x4f, 0x50, 1, 0, 0, 5, 0, 0, 0, 0],
    gives: Gives::Value("Struct([])"),
};

/// CloseConnection.
pub static CLOSINGS: [Sample; 1] = [CLOSING];
