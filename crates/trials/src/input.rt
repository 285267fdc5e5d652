//! The words of a line, and what is printed for it.

use crate::stop::Stop;
use cdr_core::Order;
use std::alloc::Global;
use std::fmt::{Debug, Display};
use std::io::Write;

/// The first word of a text, and what stands after its space.
pub fn parted(text: &str) -> Result<(&str, &str), Stop> {
    text.split_once(' ').ok_or(Stop::BadLine)
}

/// An unsigned long.
pub fn ulong(word: &str) -> Result<u32, Stop> {
    word.parse().map_err(|_| Stop::BadLine)
}

/// The order of that name.
fn order_named(name: &str) -> Result<Order, Stop> {
    match name {
        "big" => Ok(Order::Big),
        "little" => Ok(Order::Little),
        _ => Err(Stop::BadLine),
    }
}

/// The order and the place of `ORDER AT`, and what stands after it.
pub fn place_in(words: &str) -> Result<(Order, u32, &str), Stop> {
    let (order, words) = parted(words)?;
    let (at, words) = parted(words)?;
    Ok((order_named(order)?, ulong(at)?, words))
}

/// Octets that are read, their order, and the place of the first.
#[derive(Drop)]
pub struct Input {
    /// The byte order.
    pub order: Order,
    /// The place of the first octet.
    pub at: u32,
    /// The octets.
    pub octets: Vec<u8>,
}

/// The octets of `ORDER AT HEX`.
pub fn input_in(alloc: Global, words: &str) -> Result<Input, Stop> {
    let (order, at, digits) = place_in(words)?;
    let octets = hex::decode(alloc, digits)?;
    Ok(Input { order, at, octets })
}

/// Prints what was read, or why nothing was.
pub fn print_given<T: Debug + Drop, E: Display + Drop, W: Write>(
    given: Result<T, E>,
    out: &mut W,
) -> Result<(), Stop> {
    match given {
        Ok(value) => writeln!(out, "{value:?}")?,
        Err(error) => writeln!(out, "{error}")?,
    }
    Ok(())
}

/// Prints what was found.
pub fn print_found<T: Debug + Drop, W: Write>(found: T, out: &mut W) -> Result<(), Stop> {
    Ok(writeln!(out, "{found:?}")?)
}
