//! Tags with their octets: a LIST is of `TAG:HEX`, with `/` between them, and may be empty.

use cdr_core::Cursor;
use ior_core::{Tagged, read_tagged};
use std::alloc::Global;
use std::io::Write;
use trials::{Stop, input_in, print_given, ulong};

/// A tag with its octets.
fn tagged_in(alloc: Global, word: &str) -> Result<Tagged, Stop> {
    let (tag, digits) = word.split_once(':').ok_or(Stop::BadLine)?;
    Ok(Tagged {
        tag: ulong(tag)?,
        octets: hex::decode(alloc, digits)?,
    })
}

/// The tags with their octets of a list.
pub(crate) fn list_in(alloc: Global, list: &str) -> Result<Vec<Tagged>, Stop> {
    let mut all = Vec::new(alloc);
    for word in list.split('/').filter(|word| !word.is_empty()) {
        all.push(tagged_in(alloc, word)?)?;
    }
    Ok(all)
}

/// `read_tagged ORDER AT HEX`: a tag, its octets, and after them the place and the octets that are left.
pub(crate) fn read<W: Write>(alloc: Global, words: &str, out: &mut W) -> Result<(), Stop> {
    let input = input_in(alloc, words)?;
    let mut cursor = Cursor::new(&input.octets, input.order, u64::from(input.at));
    let given = read_tagged(&mut cursor);
    let (place, rest) = (cursor.place(), cursor.rest());
    print_given(given.map(|(tag, octets)| (tag, octets, place, rest)), out)
}
