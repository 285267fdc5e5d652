//! Alignment, and numbers that are appended to an output.

ghost use Rattle.std.specs.Prelude.{◌≡◌, ◌≤◌, ◌<◌, ◌+◌, ◌^◌, ◌++◌, ◌⊎◌, [], ◌∷◌, length, replicate, drop, IsOk, OnErr, OnOk, vec_capacity};
ghost use Rattle.cdr_core.specs.Numbers.{padding};

use std::alloc::AllocError;

/// How many octets of padding stand between a place and the next place divisible by `size`.
#[inline(always)]
pub(crate) fn gap(place: u64, size: u64) -> u64
    requires { (size ≡ 1) ⊎ ((size ≡ 2) ⊎ ((size ≡ 4) ⊎ (size ≡ 8))) }
    ensures is { result ≡ padding place size }
    ensures small { result < size }
{
    place.wrapping_neg() % size
}

/// The next place divisible by `size`, and the octets from there on.
#[inline(always)]
pub(crate) fn aligned(place: u64, rest: &[u8], size: u64) -> (u64, &[u8])
    requires size { (size ≡ 1) ⊎ ((size ≡ 2) ⊎ ((size ≡ 4) ⊎ (size ≡ 8))) }
    requires bound { place + length rest.now ≤ 2 ^ 63 + 2 ^ 32 }
    ensures place { result.0 ≡ place + padding place size }
    ensures rest { result.1.now ≡ drop (padding place size) rest.now }
    ensures bound { result.0 + length result.1.now ≤ 2 ^ 63 + 2 ^ 32 }
{
    let step = gap(place, size);
    let passed = (step as usize).min(rest.len());
    (place + step, &rest[passed..])
}

/// Appends zeros, for which `out` has room.
pub(crate) fn put_zeros(count: u64, out: &mut Vec<u8>)
    requires { length out.old.items + count ≤ vec_capacity out.old }
    ensures items { out.new.items ≡ out.old.items ++ replicate count 0 }
    ensures capacity { vec_capacity out.old ≤ vec_capacity out.new }
{
    for _ in 0..count {
        out.push_reserved(0);
    }
}

/// Appends octets, for which `out` has room.
#[inline(always)]
pub(crate) fn put_octets(octets: &[u8], out: &mut Vec<u8>)
    requires { length out.old.items + length octets.now ≤ vec_capacity out.old }
    ensures items { out.new.items ≡ out.old.items ++ octets.now }
    ensures capacity { vec_capacity out.old ≤ vec_capacity out.new }
{
    out.extend_from_slice(octets).unwrap();
}

/// Appends an octet, or nothing.
#[inline(always)]
pub(crate) fn add_one(octet: u8, out: &mut Vec<u8>) -> Result<(), AllocError>
    ensures ok { OnOk result (out.new.items ≡ out.old.items ++ octet ∷ []) }
    ensures err { OnErr result (out.new.items ≡ out.old.items) }
    ensures succeeds { length out.old.items + 1 ≤ vec_capacity out.old → IsOk result }
    ensures capacity { vec_capacity out.old ≤ vec_capacity out.new }
{
    out.reserve(1)?;
    out.push_reserved(octet);
    Ok(())
}

/// Appends the octets of a number at a place, after their padding. `out` has room for both.
#[inline(always)]
pub(crate) fn put_number<const N: usize>(place: u64, number: [u8; N], out: &mut Vec<u8>)
    requires size { (N ≡ 1) ⊎ ((N ≡ 2) ⊎ ((N ≡ 4) ⊎ (N ≡ 8))) }
    requires room { length out.old.items + (padding place N + N) ≤ vec_capacity out.old }
    ensures items { out.new.items ≡ out.old.items ++ (replicate (padding place N) 0 ++ number.entry) }
    ensures capacity { vec_capacity out.old ≤ vec_capacity out.new }
{
    put_zeros(gap(place, N as u64), out);
    put_octets(&number, out);
}

/// Appends the octets of a number at a place, after their padding, or nothing.
#[inline(always)]
pub(crate) fn add_number<const N: usize>(
    place: u64,
    number: [u8; N],
    out: &mut Vec<u8>,
) -> Result<(), AllocError>
    requires { (N ≡ 1) ⊎ ((N ≡ 2) ⊎ ((N ≡ 4) ⊎ (N ≡ 8))) }
    ensures ok { OnOk result (out.new.items ≡ out.old.items ++ (replicate (padding place N) 0 ++ number.entry)) }
    ensures err { OnErr result (out.new.items ≡ out.old.items) }
    ensures succeeds { length out.old.items + (padding place N + N) ≤ vec_capacity out.old → IsOk result }
    ensures capacity { vec_capacity out.old ≤ vec_capacity out.new }
{
    out.reserve(gap(place, N as u64) as usize + N)?;
    put_number(place, number, out);
    Ok(())
}
