//! Octets of a known length, and the text of a string.

ghost use Rattle.std.specs.Prelude.{◌≡◌, ◌≤◌, ◌<◌, ◌+◌, ◌^◌, ◌++◌, ◌↔◌, IsTrue, length, [], ◌∷◌, IfOk, IsOk, MatchResult, OnErr, OnOk, position, vec_capacity};
ghost use Rattle.cdr_core.specs.Numbers.{padding};
ghost use Rattle.cdr_core.specs.Reading.{is_nul, taken, text_at, to_nul};
ghost use Rattle.cdr_core.specs.Spelling.{IsClean};
ghost use Rattle.cdr_core.specs.Writing.{number_octets};

use crate::fault::{Fault, Kind};
use crate::numbers::{gap, put_number, put_octets};
use crate::order::Order;
use std::alloc::AllocError;

/// Whether a text holds no NUL, as each string that is written has to.
pub fn has_no_nul(text: &[u8]) -> bool
    ensures { IsTrue result ↔ IsClean text.now }
{
    for octet in text {
        if *octet == 0 {
            return false;
        }
    }
    true
}

/// The next `size` octets, the place after them, and the octets from there on.
#[inline(always)]
pub(crate) fn split(place: u64, rest: &[u8], size: usize) -> Result<(&[u8], u64, &[u8]), Fault>
    requires { place + length rest.now ≤ 2 ^ 63 + 2 ^ 32 }
    ensures given { MatchResult result (λ x. taken size place rest.now ≡ Ok (x.0.now, x.1, x.2.now)) (λ f. taken size place rest.now ≡ Err f) }
    ensures bound { IfOk result (λ x. x.1 + length x.2.now ≤ 2 ^ 63 + 2 ^ 32) }
    ensures long { IfOk result (λ x. length x.0.now ≡ size) }
{
    if rest.len() < size {
        return Err(Fault {
            kind: Kind::Short,
            at: place,
        });
    }
    Ok((&rest[..size], place + size as u64, &rest[size..]))
}

/// The index of the first NUL.
#[inline]
fn first_nul(octets: &[u8]) -> Option<usize>
    ensures { result ≡ position is_nul octets.now }
{
    octets.iter().position(|x| *x == 0)
}

/// The index of the first NUL, or the length if there is none.
#[inline(always)]
#[tactic(auto, using(crate::proofs::Nul::none_found, crate::proofs::Nul::within))]
fn to_nul(octets: &[u8]) -> usize
    ensures at { result ≡ to_nul octets.now }
    ensures within { result ≤ length octets.now }
{
    match first_nul(octets) {
        Some(i) => i,
        None => octets.len(),
    }
}

/// The text in the next `size` octets, of which only the last may be a NUL, and has to be; the place
/// after them, and the octets from there on. No octets are the empty text.
#[inline(always)]
#[tactic(auto, unfolding(crate::specs::Reading::text_at))]
pub(crate) fn text_of(place: u64, rest: &[u8], size: usize) -> Result<(&[u8], u64, &[u8]), Fault>
    requires { place + length rest.now ≤ 2 ^ 63 + 2 ^ 32 }
    ensures given { MatchResult result (λ x. text_at size place rest.now ≡ Ok (x.0.now, x.1, x.2.now)) (λ f. text_at size place rest.now ≡ Err f) }
    ensures bound { IfOk result (λ x. x.1 + length x.2.now ≤ 2 ^ 63 + 2 ^ 32) }
{
    if size == 0 {
        return Ok((&rest[..0], place, rest));
    }
    let (octets, after, others) = split(place, rest, size)?;
    let nul = to_nul(octets);
    if nul < size - 1 {
        return Err(Fault {
            kind: Kind::InteriorNul,
            at: place + nul as u64,
        });
    }
    if nul == size {
        return Err(Fault {
            kind: Kind::NoTerminator,
            at: place + (size as u64 - 1),
        });
    }
    Ok((&octets[..size - 1], after, others))
}

/// Appends a string at a place, or nothing: its length with the NUL, its octets, and the NUL.
#[inline]
pub(crate) fn add_string(
    order: Order,
    place: u64,
    text: &[u8],
    out: &mut Vec<u8>,
) -> Result<(), AllocError>
    requires { length text.now + 1 < 2 ^ 32 }
    ensures ok { OnOk result (out.new.items ≡ out.old.items ++ (number_octets order 4 place (length text.now + 1) ++ text.now ++ 0 ∷ [])) }
    ensures err { OnErr result (out.new.items ≡ out.old.items) }
    ensures succeeds { length out.old.items + (padding place 4 + 4 + length text.now + 1) ≤ vec_capacity out.old → IsOk result }
    ensures capacity { vec_capacity out.old ≤ vec_capacity out.new }
{
    out.reserve(gap(place, 4) as usize + text.len() + 5)?;
    put_number(place, order.ulong_octets(text.len() as u32 + 1), out);
    put_octets(text, out);
    out.push_reserved(0);
    Ok(())
}

/// Appends a sequence of octets at a place, or nothing: its length and its octets.
#[inline]
pub(crate) fn add_raw(
    order: Order,
    place: u64,
    all: &[u8],
    out: &mut Vec<u8>,
) -> Result<(), AllocError>
    requires { length all.now < 2 ^ 32 }
    ensures ok { OnOk result (out.new.items ≡ out.old.items ++ (number_octets order 4 place (length all.now) ++ all.now)) }
    ensures err { OnErr result (out.new.items ≡ out.old.items) }
    ensures succeeds { length out.old.items + (padding place 4 + 4 + length all.now) ≤ vec_capacity out.old → IsOk result }
    ensures capacity { vec_capacity out.old ≤ vec_capacity out.new }
{
    out.reserve(gap(place, 4) as usize + all.len() + 4)?;
    put_number(place, order.ulong_octets(all.len() as u32), out);
    put_octets(all, out);
    Ok(())
}
