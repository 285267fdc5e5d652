//! The calls of `ior_core`, `corbaloc` and `giop_core` by their names, each with what it takes at its function. TYPES are words as
//! `trials` says, ORDER is `big` or `little`, AT the place of the first octet, in decimal digits, and HEX are octets in
//! hexadecimal digits, which may be none.

use crate::{locations, messages, profiles, references, tagged};
use std::alloc::Global;
use std::io::Write;
use trials::{Calls, Stop};

/// Makes a call of `giop_core`.
fn message_call<W: Write>(alloc: Global, call: &str, words: &str, out: &mut W) -> Result<(), Stop> {
    match call {
        "body" => messages::read_body(alloc, words, out),
        "arguments" => messages::read_arguments(alloc, words, out),
        "target" => messages::show_target(alloc, words, out),
        "profiles" => messages::show_profiles(alloc, words, out),
        _ => Err(Stop::BadLine),
    }
}

/// The calls of `ior_core`, `corbaloc` and `giop_core`.
pub(crate) struct OfReferences;

impl Calls for OfReferences {
    fn make<W: Write>(
        &self,
        alloc: Global,
        call: &str,
        words: &str,
        out: &mut W,
    ) -> Result<(), Stop> {
        match call {
            "read_ior" => references::read(alloc, words, out),
            "write_ior" => references::write(alloc, words, out),
            "is_writable_ior" => references::judge(alloc, words, out),
            "parse_text" => references::parse(alloc, words, out),
            "print_text" => references::print(alloc, words, out),
            "object_key" => references::find_key(alloc, words, out),
            "read_iiop" => profiles::read(alloc, words, out),
            "write_iiop" => profiles::write(alloc, words, out),
            "is_writable_iiop" => profiles::judge(alloc, words, out),
            "iiop_key" => profiles::find_key(alloc, words, out),
            "profile_key" => profiles::find_tagged_key(alloc, words, out),
            "read_tagged" => tagged::read(alloc, words, out),
            "parse_location" => locations::parse(alloc, words, out),
            "reference_of" => locations::reference(alloc, words, out),
            _ => message_call(alloc, call, words, out),
        }
    }
}
