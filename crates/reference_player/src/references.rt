//! References: one is `HEX LIST`, its type and its profiles.

use crate::tagged::list_in;
use ior_core::{Ior, object_key, parse_text, print_text, read_ior, write_ior};
use std::alloc::Global;
use std::io::Write;
use trials::{Stop, input_in, parted, place_in, print_found, print_given, ulong};

/// The reference of `HEX LIST`.
fn reference_in(alloc: Global, words: &str) -> Result<Ior, Stop> {
    let (digits, list) = parted(words)?;
    Ok(Ior {
        type_id: hex::decode(alloc, digits)?,
        profiles: list_in(alloc, list)?,
    })
}

/// `read_ior ORDER AT HEX`: the reference, and how many octets it takes.
pub(crate) fn read<W: Write>(alloc: Global, words: &str, out: &mut W) -> Result<(), Stop> {
    let input = input_in(alloc, words)?;
    let at = u64::from(input.at);
    print_given(read_ior(alloc, input.order, at, &input.octets), out)
}

/// `write_ior ORDER AT HEX LIST`: the octets of the output, in which 7 stood before.
pub(crate) fn write<W: Write>(alloc: Global, words: &str, out: &mut W) -> Result<(), Stop> {
    let (order, at, words) = place_in(words)?;
    let ior = reference_in(alloc, words)?;
    if !ior.is_writable() {
        return Err(Stop::BadLine);
    }
    let mut octets = [7].to_vec(alloc)?;
    write_ior(order, u64::from(at), &ior, &mut octets)?;
    Ok(writeln!(out, "{}", hex::encode(alloc, &octets)?)?)
}

/// `is_writable_ior HEX LIST`.
pub(crate) fn judge<W: Write>(alloc: Global, words: &str, out: &mut W) -> Result<(), Stop> {
    print_found(reference_in(alloc, words)?.is_writable(), out)
}

/// `parse_text TEXT`.
pub(crate) fn parse<W: Write>(alloc: Global, text: &str, out: &mut W) -> Result<(), Stop> {
    print_given(parse_text(alloc, text), out)
}

/// `print_text HEX LIST`.
pub(crate) fn print<W: Write>(alloc: Global, words: &str, out: &mut W) -> Result<(), Stop> {
    let ior = reference_in(alloc, words)?;
    if !ior.is_writable() {
        return Err(Stop::BadLine);
    }
    Ok(writeln!(out, "{}", print_text(alloc, &ior)?)?)
}

/// `object_key INDEX HEX LIST`.
pub(crate) fn find_key<W: Write>(alloc: Global, words: &str, out: &mut W) -> Result<(), Stop> {
    let (index, words) = parted(words)?;
    let ior = reference_in(alloc, words)?;
    print_found(object_key(&ior, ulong(index)?), out)
}
