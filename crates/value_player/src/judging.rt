//! Which types are valid, which values fit a type, and which can be written: `true` or `false`.

use crate::values::{value_in, values_in};
use cdr_core::{are_valid, are_writable, fits, has_no_nul, writable};
use std::alloc::Global;
use std::io::Write;
use trials::{Stop, parted, print_found, type_in, types_in};

/// `is_valid TYPE`.
pub(crate) fn is_type<W: Write>(alloc: Global, word: &str, out: &mut W) -> Result<(), Stop> {
    print_found(type_in(alloc, word)?.is_valid(), out)
}

/// `are_valid TYPES`.
pub(crate) fn are_types<W: Write>(alloc: Global, word: &str, out: &mut W) -> Result<(), Stop> {
    print_found(are_valid(&types_in(alloc, word)?), out)
}

/// `fits TYPE VALUE`.
pub(crate) fn is_fitting<W: Write>(alloc: Global, words: &str, out: &mut W) -> Result<(), Stop> {
    let (word, words) = parted(words)?;
    let ty = type_in(alloc, word)?;
    let value = value_in(alloc, words)?;
    if !ty.is_valid() {
        return Err(Stop::BadLine);
    }
    print_found(fits(&ty, &value), out)
}

/// `writable VALUE`.
pub(crate) fn is_writable<W: Write>(alloc: Global, word: &str, out: &mut W) -> Result<(), Stop> {
    print_found(writable(&value_in(alloc, word)?), out)
}

/// `are_writable VALUES`.
pub(crate) fn are_all_writable<W: Write>(
    alloc: Global,
    word: &str,
    out: &mut W,
) -> Result<(), Stop> {
    print_found(are_writable(&values_in(alloc, word)?), out)
}

/// `has_no_nul HEX`.
pub(crate) fn is_clean<W: Write>(alloc: Global, digits: &str, out: &mut W) -> Result<(), Stop> {
    print_found(has_no_nul(&hex::decode(alloc, digits)?), out)
}
