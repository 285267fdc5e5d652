//! Locations: one is the octets of its text, as HEX.

use corbaloc::{Location, LocationError, parse_location, reference_of};
use std::alloc::Global;
use std::io::Write;
use trials::{Stop, print_given};

/// The location that a text spells, given by its octets.
fn location_in(alloc: Global, digits: &str) -> Result<Result<Location, LocationError>, Stop> {
    let octets = hex::decode(alloc, digits)?;
    let text = std::str::from_utf8(&octets).map_err(|_| Stop::BadLine)?;
    Ok(parse_location(alloc, text))
}

/// `parse_location HEX`.
pub(crate) fn parse<W: Write>(alloc: Global, digits: &str, out: &mut W) -> Result<(), Stop> {
    print_given(location_in(alloc, digits)?, out)
}

/// `reference_of HEX`: the reference of the location that the text spells.
pub(crate) fn reference<W: Write>(alloc: Global, digits: &str, out: &mut W) -> Result<(), Stop> {
    match location_in(alloc, digits)? {
        Ok(location) => print_given(reference_of(alloc, &location), out),
        Err(_) => Err(Stop::BadLine),
    }
}
