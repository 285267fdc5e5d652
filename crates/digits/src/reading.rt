//! The octets that a text of hexadecimal digits gives.

ghost use Rattle.std.specs.Prelude.{◌≡◌, ◌⊎◌, ◌≤◌, ◌<◌, ◌*◌, ◌/◌, length, vec_capacity, drop, slice_index, unwrap_or, false, Ok, Err, IfErr, IfOk};
ghost use Rattle.std.specs.Vec.{vec_len};
ghost use Rattle.hex.specs.Hex.{decode_of, hex_digit_value};
ghost use Rattle.hex.specs.declared.error.FromHexError.TheVariants.{OutOfMemory};
ghost use Rattle.digits.specs.declared.reading.DigitError.TheVariants as digit;
ghost use Rattle.digits.specs.Digits.{octets_in};
ghost use Rattle.digits.specs.Digits as digits;
ghost use Rattle.digits.specs.Private.{IsRead, odd_or_bad, without_blanks};

use crate::lanes::{DIGITS, octets_at};
use hex::FromHexError;
use std::alloc::{AllocError, Global};

/// Why digits are no octets.
#[derive(Clone, Copy, Debug, PartialEq, Eq)]
pub enum DigitError {
    /// There is an odd number of them.
    Odd,
    /// One is no digit.
    Bad,
    /// An allocation failed.
    Memory,
}

impl From<AllocError> for DigitError {
    ghost use Rattle.std.specs.Prelude.{◌≡◌};
    ghost use Rattle.digits.specs.declared.reading.DigitError.TheVariants.{Memory};

    ghost from_gives = { λ _ e. e ≡ Memory };

    fn from(_e: AllocError) -> DigitError {
        DigitError::Memory
    }
}

/// Whether an octet may stand between digits and means nothing: a space, a tab, a CR or an LF.
fn is_blank(octet: u8) -> bool
    ensures { result ≡ digits.is_blank octet }
{
    matches!(octet, b' ' | b'\t' | b'\r' | b'\n')
}

/// What stands in `VALUES` for an octet that is no digit.
const NO: u8 = 255;

/// The value of each hexadecimal digit, of either case, at its octet.
const VALUES: [u8; 256] = [
    NO, NO, NO, NO, NO, NO, NO, NO, NO, NO, NO, NO, NO, NO, NO, NO, NO, NO, NO, NO, NO, NO, NO, NO,
    NO, NO, NO, NO, NO, NO, NO, NO, NO, NO, NO, NO, NO, NO, NO, NO, NO, NO, NO, NO, NO, NO, NO, NO,
    0, 1, 2, 3, 4, 5, 6, 7, 8, 9, NO, NO, NO, NO, NO, NO, NO, 10, 11, 12, 13, 14, 15, NO, NO, NO,
    NO, NO, NO, NO, NO, NO, NO, NO, NO, NO, NO, NO, NO, NO, NO, NO, NO, NO, NO, NO, NO, NO, NO, 10,
    11, 12, 13, 14, 15, NO, NO, NO, NO, NO, NO, NO, NO, NO, NO, NO, NO, NO, NO, NO, NO, NO, NO, NO,
    NO, NO, NO, NO, NO, NO, NO, NO, NO, NO, NO, NO, NO, NO, NO, NO, NO, NO, NO, NO, NO, NO, NO, NO,
    NO, NO, NO, NO, NO, NO, NO, NO, NO, NO, NO, NO, NO, NO, NO, NO, NO, NO, NO, NO, NO, NO, NO, NO,
    NO, NO, NO, NO, NO, NO, NO, NO, NO, NO, NO, NO, NO, NO, NO, NO, NO, NO, NO, NO, NO, NO, NO, NO,
    NO, NO, NO, NO, NO, NO, NO, NO, NO, NO, NO, NO, NO, NO, NO, NO, NO, NO, NO, NO, NO, NO, NO, NO,
    NO, NO, NO, NO, NO, NO, NO, NO, NO, NO, NO, NO, NO, NO, NO, NO, NO, NO, NO, NO, NO, NO, NO, NO,
    NO, NO, NO, NO, NO, NO, NO, NO, NO, NO, NO, NO, NO, NO,
];

/// The value of a digit of either case, or `NO`.
#[inline(always)]
fn value_of(octet: u8) -> u8
    ensures { result ≡ unwrap_or (hex_digit_value octet) 255 }
{
    VALUES[octet as usize]
}

/// The place from which on the next octet stands that is no blank, or the text's end.
#[inline(always)]
fn after_blanks(text: &[u8], from: usize) -> usize
    requires { from ≤ length text.now }
    ensures from { from ≤ result }
    ensures within { result ≤ length text.now }
    ensures stands { result < length text.now → digits.is_blank (slice_index text.now result) ≡ false }
    ensures passed { without_blanks (drop from text.now) ≡ without_blanks (drop result text.now) }
{
    let mut at = from;
    while at < text.len() && is_blank(text[at]) {
        at += 1;
    }
    at
}

/// Reads blocks of digits that stand together, from a place on, and appends their octets while there is memory for them.
/// Returns the place after them.
#[inline(always)]
fn read_blocks(text: &[u8], from: usize, octets: &mut Vec<u8>) -> usize
    requires from { from ≤ length text.now }
    requires few { 2 * vec_len octets.old ≤ from }
    ensures within { (from ≤ result) × (result ≤ length text.now) }
    ensures few { 2 * vec_len octets.new ≤ result }
    ensures room { vec_capacity octets.old ≤ vec_capacity octets.new }
    ensures read { IsRead text.now from result octets.old.items octets.new.items }
{
    let mut at = from;
    while DIGITS <= text.len() - at {
        let Some(block) = octets_at(text, at) else {
            return at;
        };
        if octets.extend_from_slice(&block).is_err() {
            return at;
        }
        at += DIGITS;
    }
    at
}

/// Reads pairs of digits that stand together, from a place on, and appends their octets, for which there is room.
/// Returns the place after them.
#[inline(always)]
fn read_pairs(text: &[u8], from: usize, octets: &mut Vec<u8>) -> usize
    requires from { from ≤ length text.now }
    requires few { 2 * vec_len octets.old ≤ from }
    requires room { length text.now / 2 ≤ vec_capacity octets.old }
    ensures from { from ≤ result }
    ensures within { result ≤ length text.now }
    ensures few { 2 * vec_len octets.new ≤ result }
    ensures room { length text.now / 2 ≤ vec_capacity octets.new }
    ensures read { IsRead text.now from result octets.old.items octets.new.items }
{
    let mut at = read_blocks(text, from, octets);
    while at + 1 < text.len() {
        let high = value_of(text[at]);
        let low = value_of(text[at + 1]);
        if high == NO || low == NO {
            return at;
        }
        octets.push_reserved(high * 16 + low);
        at += 2;
    }
    at
}

/// Why digits are no octets of which one is no digit: there is an odd number of them, or else that one.
#[inline(never)]
fn refusal(text: &[u8]) -> DigitError
    ensures { result ≡ odd_or_bad (length (without_blanks text.now)) }
{
    let mut count = 0usize;
    for octet in text {
        if !is_blank(*octet) {
            count += 1;
        }
    }
    if count % 2 == 1 {
        return DigitError::Odd;
    }
    DigitError::Bad
}

/// The line and the place in it, both from 1, of the first octet of a text that is no digit and no blank.
pub fn place_of_bad(text: &str) -> (u64, u64) {
    let mut line = 1u64;
    let mut place = 0u64;
    for octet in text.as_bytes() {
        place = place.saturating_add(1);
        if !is_blank(*octet) && value_of(*octet) == NO {
            return (line, place);
        }
        if *octet == b'\n' {
            line = line.saturating_add(1);
            place = 0;
        }
    }
    (line, place)
}

/// The octets that the digits of a text give, two digits of either case for each. Blanks may stand
/// anywhere between them.
pub fn octets_of(alloc: Global, text: &str) -> Result<Vec<u8>, DigitError>
    ensures read { IfOk result (λ octets. octets_in text.now ≡ Ok octets.items) }
    ensures refused { IfErr result (λ e. (e ≡ digit.Memory) ⊎ (octets_in text.now ≡ Err e)) }
{
    let text = text.as_bytes();
    let mut octets = Vec::with_capacity(alloc, text.len() / 2)?;
    let mut at = after_blanks(text, 0);
    while at < text.len() {
        let second = after_blanks(text, at + 1);
        if second == text.len() {
            return Err(DigitError::Odd);
        }
        let high = value_of(text[at]);
        let low = value_of(text[second]);
        if high == NO || low == NO {
            return Err(refusal(&text[at..]));
        }
        octets.push_reserved(high * 16 + low);
        at = after_blanks(text, read_pairs(text, second + 1, &mut octets));
    }
    Ok(octets)
}

/// The octets of digits with nothing between them.
pub fn decode(alloc: Global, digits: &[u8]) -> Result<Vec<u8>, FromHexError>
    ensures read { IfOk result (λ octets. decode_of digits.now ≡ Ok octets.items) }
    ensures refused { IfErr result (λ e. (e ≡ OutOfMemory) ⊎ (decode_of digits.now ≡ Err e)) }
{
    let mut octets = Vec::with_capacity(alloc, digits.len() / 2)?;
    if read_pairs(digits, 0, &mut octets) < digits.len() {
        return hex::decode(alloc, digits);
    }
    Ok(octets)
}
