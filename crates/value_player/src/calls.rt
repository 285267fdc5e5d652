//! The calls of `cdr_core` by their names, each with what it takes at its function. TYPES and VALUES are words as
//! `trials` and `values` say, ORDER is `big` or `little`, AT the place of the first octet, in decimal digits, and HEX are
//! octets in hexadecimal digits, which may be none.

use crate::{judging, reading, writing};
use std::alloc::Global;
use std::io::Write;
use trials::{Calls, Stop};

/// The calls of `cdr_core`.
pub(crate) struct OfValues;

impl Calls for OfValues {
    fn make<W: Write>(
        &self,
        alloc: Global,
        call: &str,
        words: &str,
        out: &mut W,
    ) -> Result<(), Stop> {
        match call {
            "read" => reading::read_one(alloc, words, out),
            "read_list" => reading::read_all(alloc, words, out),
            "write" => writing::write_one(alloc, words, out),
            "write_copy" => writing::write_copy(alloc, words, out),
            "write_list" => writing::write_all(alloc, words, out),
            "is_valid" => judging::is_type(alloc, words, out),
            "are_valid" => judging::are_types(alloc, words, out),
            "fits" => judging::is_fitting(alloc, words, out),
            "writable" => judging::is_writable(alloc, words, out),
            "are_writable" => judging::are_all_writable(alloc, words, out),
            "has_no_nul" => judging::is_clean(alloc, words, out),
            _ => Err(Stop::BadLine),
        }
    }
}
