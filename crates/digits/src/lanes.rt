//! A block of digits, which are read or written all at once.

ghost use Rattle.std.specs.Prelude.{◌≡◌, ◌+◌, ◌*◌, ◌/◌, ◌%◌, ◌≤◌, ◌++◌, length, map, slice_index, take, drop, IfSome, Ok};
ghost use Rattle.hex.specs.Hex.{decode_of, encode_lower, lower_digits};

use std::simd::prelude::*;

/// How many digits are in a block.
pub(crate) const DIGITS: usize = 32;

/// How many octets a block of digits is of.
pub(crate) const OCTETS: usize = 16;

/// The digit of each value below 16.
const LOWER: [u8; 16] = [
    48, 49, 50, 51, 52, 53, 54, 55, 56, 57, 97, 98, 99, 100, 101, 102,
];

/// The octets of the block of digits at a place of a text, unless one of them is no digit.
#[inline(always)]
pub(crate) fn octets_at(text: &[u8], at: usize) -> Option<[u8; 16]>
    requires { at + 32 ≤ length text.now }
    ensures { IfSome result (λ octets. decode_of (take 32 (drop at text.now)) ≡ Ok octets) }
{
    let given = u8x32::from_slice(&text[at..]);
    let decimal = given - u8x32::splat(b'0');
    let letter = (given | u8x32::splat(0x20)) - u8x32::splat(b'a');
    let is_bad = decimal.simd_ge(u8x32::splat(10)) & letter.simd_ge(u8x32::splat(6));
    if is_bad.to_bitmask() != 0 {
        return None;
    }
    // the first is less for a decimal digit, the second for a letter
    let values = decimal.simd_min(letter + u8x32::splat(10));
    let high = values.swizzle::<16>([0, 2, 4, 6, 8, 10, 12, 14, 16, 18, 20, 22, 24, 26, 28, 30]);
    let low = values.swizzle::<16>([1, 3, 5, 7, 9, 11, 13, 15, 17, 19, 21, 23, 25, 27, 29, 31]);
    Some((high * u8x16::splat(16) + low).to_array())
}

/// The digits of the high halves of octets.
#[inline(always)]
fn high_digits(octets: u8x16) -> u8x16
    ensures { result ≡ map (λ octet. slice_index lower_digits (octet / 16)) octets }
{
    u8x16::from_array(LOWER).swizzle_dyn(octets >> u8x16::splat(4))
}

/// The digits of the low halves of octets.
#[inline(always)]
fn low_digits(octets: u8x16) -> u8x16
    ensures { result ≡ map (λ octet. slice_index lower_digits (octet % 16)) octets }
{
    u8x16::from_array(LOWER).swizzle_dyn(octets & u8x16::splat(15))
}

/// Writes the digits of the block of octets at a place, at the place of theirs.
#[inline(always)]
pub(crate) fn write_block(octets: &[u8], at: usize, digits: &mut [u8])
    requires within { at + 16 ≤ length octets.now }
    requires room { 2 * (at + 16) ≤ length digits.old }
    ensures written { take (2 * (at + 16)) digits.new ≡ take (2 * at) digits.old ++ encode_lower (take 16 (drop at octets.now)) }
    ensures long { length digits.new ≡ length digits.old }
{
    let block = u8x16::from_slice(&octets[at..]);
    let both = high_digits(block).shuffle::<32>(
        low_digits(block),
        [
            0, 16, 1, 17, 2, 18, 3, 19, 4, 20, 5, 21, 6, 22, 7, 23, 8, 24, 9, 25, 10, 26, 11, 27,
            12, 28, 13, 29, 14, 30, 15, 31,
        ],
    );
    both.copy_to_slice(&mut digits[2 * at..]);
}
