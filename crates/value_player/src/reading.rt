//! Values that are read by types.

use cdr_core::{are_valid, read, read_list};
use std::alloc::Global;
use std::io::Write;
use trials::{Stop, input_in, parted, print_given, type_in, types_in};

/// `read TYPE ORDER AT HEX`: the value, and how many octets it takes.
pub(crate) fn read_one<W: Write>(alloc: Global, words: &str, out: &mut W) -> Result<(), Stop> {
    let (word, words) = parted(words)?;
    let ty = type_in(alloc, word)?;
    let input = input_in(alloc, words)?;
    if !ty.is_valid() {
        return Err(Stop::BadLine);
    }
    let at = u64::from(input.at);
    print_given(read(alloc, &ty, input.order, at, &input.octets), out)
}

/// `read_list TYPES ORDER AT HEX`: the values, and how many octets they take.
pub(crate) fn read_all<W: Write>(alloc: Global, words: &str, out: &mut W) -> Result<(), Stop> {
    let (word, words) = parted(words)?;
    let types = types_in(alloc, word)?;
    let input = input_in(alloc, words)?;
    if !are_valid(&types) {
        return Err(Stop::BadLine);
    }
    let at = u64::from(input.at);
    let given = read_list(alloc, &types, input.order, at, &input.octets);
    print_given(given, out)
}
