//! Rows of tables: texts beside what is printed so, and octets as digits.

use crate::stop::Stop;
use crate::text::is_shown_as;
use std::alloc::Global;
use std::fmt::Display;

/// The first of these texts that `{}` does not print of the value beside it.
pub fn misprinted<'r, T: Display>(rows: &'r [(T, &'r str)]) -> Option<&'r str> {
    for (value, text) in rows {
        if !is_shown_as(value, text) {
            return Some(text);
        }
    }
    None
}

/// The octets of words of hexadecimal digits, two for each octet.
pub fn octets_in(alloc: Global, words: &str) -> Result<Vec<u8>, Stop> {
    let mut octets = Vec::new(alloc);
    for word in words.split(' ') {
        octets.extend_from_slice(&hex::decode(alloc, word)?)?;
    }
    Ok(octets)
}
