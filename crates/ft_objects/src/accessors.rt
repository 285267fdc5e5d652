//! The arguments of an operation, each by its index, which counts from 0.
//!
//! Each answers None where there are fewer arguments, or the one at the index is of another type. Where `perform`
//! is given arguments of its operation's types, that the i-th is there and in its range follows from the i-th type
//! (`specs/facts/Accessors.antt`). They take no memory.

ghost use Rattle.std.specs.Prelude.{◌≡◌, option_map};
ghost use Rattle.cdr_core.specs.View.{value_of, values_of};
ghost use Rattle.ft_objects.specs.Accessors.{argument_at, boolean_of, char_of, long_of, longlong_of, octet_of, octets_in, ordinal_of, read_at, short_of, string_of, ulong_of, ulonglong_of, ushort_of};

use cdr_core::Val;

/// The argument at an index.
fn argument_at(arguments: &[Val], index: usize) -> Option<&Val>
    ensures { option_map (λ v. value_of v.now) result ≡ argument_at index (values_of arguments.now) }
{
    arguments.get(index)
}

/// The boolean at an index.
#[tactic(auto, using(crate::proofs::BasicValues::of_boolean, crate::proofs::BasicValues::no_boolean))]
pub fn boolean_at(arguments: &[Val], index: usize) -> Option<bool>
    ensures { result ≡ read_at boolean_of index (values_of arguments.now) }
{
    match argument_at(arguments, index) {
        Some(Val::Boolean(b)) => Some(*b),
        _ => None,
    }
}

/// The char at an index, as its octet.
#[tactic(auto, using(crate::proofs::BasicValues::of_char, crate::proofs::BasicValues::no_char))]
pub fn char_at(arguments: &[Val], index: usize) -> Option<u8>
    ensures { result ≡ read_at char_of index (values_of arguments.now) }
{
    match argument_at(arguments, index) {
        Some(Val::Char(c)) => Some(*c),
        _ => None,
    }
}

/// The octet at an index.
#[tactic(auto, using(crate::proofs::BasicValues::of_octet, crate::proofs::BasicValues::no_octet))]
pub fn octet_at(arguments: &[Val], index: usize) -> Option<u8>
    ensures { result ≡ read_at octet_of index (values_of arguments.now) }
{
    match argument_at(arguments, index) {
        Some(Val::Octet(n)) => Some(*n),
        _ => None,
    }
}

/// The short at an index.
#[tactic(auto, using(crate::proofs::BasicValues::of_short, crate::proofs::BasicValues::no_short))]
pub fn short_at(arguments: &[Val], index: usize) -> Option<i16>
    ensures { result ≡ read_at short_of index (values_of arguments.now) }
{
    match argument_at(arguments, index) {
        Some(Val::Short(n)) => Some(*n),
        _ => None,
    }
}

/// The unsigned short at an index.
#[tactic(auto, using(crate::proofs::BasicValues::of_ushort, crate::proofs::BasicValues::no_ushort))]
pub fn ushort_at(arguments: &[Val], index: usize) -> Option<u16>
    ensures { result ≡ read_at ushort_of index (values_of arguments.now) }
{
    match argument_at(arguments, index) {
        Some(Val::UShort(n)) => Some(*n),
        _ => None,
    }
}

/// The long at an index.
#[tactic(auto, using(crate::proofs::BasicValues::of_long, crate::proofs::BasicValues::no_long))]
pub fn long_at(arguments: &[Val], index: usize) -> Option<i32>
    ensures { result ≡ read_at long_of index (values_of arguments.now) }
{
    match argument_at(arguments, index) {
        Some(Val::Long(n)) => Some(*n),
        _ => None,
    }
}

/// The unsigned long at an index.
#[tactic(auto, using(crate::proofs::BasicValues::of_ulong, crate::proofs::BasicValues::no_ulong))]
pub fn ulong_at(arguments: &[Val], index: usize) -> Option<u32>
    ensures { result ≡ read_at ulong_of index (values_of arguments.now) }
{
    match argument_at(arguments, index) {
        Some(Val::ULong(n)) => Some(*n),
        _ => None,
    }
}

/// The long long at an index.
#[tactic(auto, using(crate::proofs::BasicValues::of_longlong, crate::proofs::BasicValues::no_longlong))]
pub fn longlong_at(arguments: &[Val], index: usize) -> Option<i64>
    ensures { result ≡ read_at longlong_of index (values_of arguments.now) }
{
    match argument_at(arguments, index) {
        Some(Val::LongLong(n)) => Some(*n),
        _ => None,
    }
}

/// The unsigned long long at an index.
#[tactic(auto, using(crate::proofs::BasicValues::of_ulonglong, crate::proofs::BasicValues::no_ulonglong))]
pub fn ulonglong_at(arguments: &[Val], index: usize) -> Option<u64>
    ensures { result ≡ read_at ulonglong_of index (values_of arguments.now) }
{
    match argument_at(arguments, index) {
        Some(Val::ULongLong(n)) => Some(*n),
        _ => None,
    }
}

/// The string at an index, without its NUL. It is lent.
#[tactic(auto, using(crate::proofs::BasicValues::of_string, crate::proofs::BasicValues::no_string))]
pub fn string_at(arguments: &[Val], index: usize) -> Option<&[u8]>
    ensures { option_map (λ text. text.now) result ≡ read_at string_of index (values_of arguments.now) }
{
    match argument_at(arguments, index) {
        Some(Val::Str(text)) => Some(text),
        _ => None,
    }
}

/// The octets at an index, a sequence of octet. They are lent.
#[tactic(auto, using(crate::proofs::BasicValues::of_octets, crate::proofs::BasicValues::no_octets))]
pub fn octets_at(arguments: &[Val], index: usize) -> Option<&[u8]>
    ensures { option_map (λ all. all.now) result ≡ read_at octets_in index (values_of arguments.now) }
{
    match argument_at(arguments, index) {
        Some(Val::Octets(all)) => Some(all),
        _ => None,
    }
}

/// The ordinal of the enumeration at an index, from 0.
#[tactic(auto, using(crate::proofs::BasicValues::of_ordinal, crate::proofs::BasicValues::no_ordinal))]
pub fn ordinal_at(arguments: &[Val], index: usize) -> Option<u32>
    ensures { result ≡ read_at ordinal_of index (values_of arguments.now) }
{
    match argument_at(arguments, index) {
        Some(Val::Enum(n)) => Some(*n),
        _ => None,
    }
}
