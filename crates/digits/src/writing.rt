//! The hexadecimal digits of octets.

ghost use Rattle.std.specs.Prelude.{◌≡◌, ◌*◌, ◌≤◌, length, string_bytes, IfOk};
ghost use Rattle.hex.specs.Hex.{encode_lower};

use crate::lanes::{OCTETS, write_block};
use std::alloc::{AllocError, Global};

/// Writes the digits of octets by blocks, of which the last may lie over a part of the one before it.
#[inline(always)]
fn write_blocks(octets: &[u8], digits: &mut [u8])
    requires some { 16 ≤ length octets.now }
    requires room { length digits.old ≡ 2 * length octets.now }
    ensures { digits.new ≡ encode_lower octets.now }
{
    let last = octets.len() - OCTETS;
    let mut at = 0;
    while at < last {
        write_block(octets, at, digits);
        at += OCTETS;
    }
    write_block(octets, last, digits);
}

/// The digits of octets in lower case, two for each.
pub fn encode(alloc: Global, octets: &[u8]) -> Result<String, AllocError>
    ensures { IfOk result (λ text. string_bytes text ≡ encode_lower octets.now) }
{
    if octets.len() < OCTETS {
        return hex::encode(alloc, octets);
    }
    let mut digits = vec![in alloc; 0u8; octets.len() * 2]?;
    write_blocks(octets, &mut digits);
    // digits are ASCII, so nothing is refused here
    String::from_utf8(digits).map_err(|_| AllocError)
}
