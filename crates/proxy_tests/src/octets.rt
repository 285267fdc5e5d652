//! Octets as digits.

use std::process::Abort;

/// The octets that words of hexadecimal digits stand for.
pub(crate) fn octets_in(rt: &(impl Abort + AllocGlobal), text: &str) -> Vec<u8> {
    match trials::octets_in(rt.alloc(), text) {
        Ok(octets) => octets,
        Err(_) => rt.abort(),
    }
}
