//! Values that are written. What is printed is the values, the octets of the output, in which 7 stood before, and
//! the place where they end.

use crate::values::{value_in, values_in};
use cdr_core::{Order, Val, are_writable, end_of, end_of_list, writable, write, write_list};
use std::alloc::Global;
use std::fmt::Debug;
use std::io::Write;
use trials::{Stop, place_in};

/// Prints what was written, the octets of the output, and where they end.
fn print<T: Debug, W: Write>(
    alloc: Global,
    written: &T,
    octets: &[u8],
    end: Option<u64>,
    out: &mut W,
) -> Result<(), Stop> {
    let digits = hex::encode(alloc, octets)?;
    Ok(writeln!(out, "{written:?} {digits} {end:?}")?)
}

/// Writes a value, and prints that.
fn show<W: Write>(
    alloc: Global,
    order: Order,
    at: u32,
    value: &Val,
    out: &mut W,
) -> Result<(), Stop> {
    let at = u64::from(at);
    if !writable(value) {
        return Err(Stop::BadLine);
    }
    let mut octets = [7].to_vec(alloc)?;
    write(order, at, value, &mut octets)?;
    print(alloc, value, &octets, end_of(at, value), out)
}

/// `write ORDER AT VALUE`.
pub(crate) fn write_one<W: Write>(alloc: Global, words: &str, out: &mut W) -> Result<(), Stop> {
    let (order, at, word) = place_in(words)?;
    let value = value_in(alloc, word)?;
    show(alloc, order, at, &value, out)
}

/// `write_copy ORDER AT VALUE`: the same of the value's copy.
pub(crate) fn write_copy<W: Write>(alloc: Global, words: &str, out: &mut W) -> Result<(), Stop> {
    let (order, at, word) = place_in(words)?;
    let copy = value_in(alloc, word)?.copy(alloc)?;
    show(alloc, order, at, &copy, out)
}

/// `write_list ORDER AT VALUES`.
pub(crate) fn write_all<W: Write>(alloc: Global, words: &str, out: &mut W) -> Result<(), Stop> {
    let (order, at, word) = place_in(words)?;
    let values = values_in(alloc, word)?;
    let at = u64::from(at);
    if !are_writable(&values) {
        return Err(Stop::BadLine);
    }
    let mut octets = [7].to_vec(alloc)?;
    write_list(order, at, &values, &mut octets)?;
    print(alloc, &values, &octets, end_of_list(at, &values), out)
}
