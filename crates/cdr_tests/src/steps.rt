//! Steps of a cursor: the calls of it, what each gives, and where it goes.

use cdr_core::{Cursor, Fault, Kind};
use std::process::Abort;

/// A call that reads.
#[derive(Clone, Copy)]
pub(crate) enum Call {
    Octet,
    Character,
    Boolean,
    Short,
    UShort,
    Long,
    ULong,
    LongLong,
    ULongLong,
    /// The ordinal of an enumeration of so many names.
    Ordinal(u32),
    Count,
    Octets,
    Text,
}

/// What a call gives.
#[derive(Clone, Copy, PartialEq)]
pub(crate) enum Part<'a> {
    Truth(bool),
    Number(i128),
    Octets(&'a [u8]),
}

/// A step of a cursor.
pub(crate) enum Step {
    /// The call gives this part.
    Gives(Call, Part<'static>),
    /// The call stops with a fault of this kind at this place.
    Stops(Call, Kind, u64),
    /// The cursor stands at this place, before these octets.
    At(u64, &'static [u8]),
    /// The cursor goes to the next place that this number divides: 1, 2, 4 or 8.
    Align(u64),
}

use Part::{Number, Octets, Truth};
use Step::{Align, At, Gives, Stops};

/// The number that is found.
fn number<'a, N: Into<i128>>(found: Result<N, Fault>) -> Result<Part<'a>, Fault> {
    Ok(Number(found?.into()))
}

/// What the call gives.
fn made<'a>(cursor: &mut Cursor<'a>, call: Call) -> Result<Part<'a>, Fault> {
    match call {
        Call::Octet => number(cursor.octet()),
        Call::Character => number(cursor.character()),
        Call::Boolean => Ok(Truth(cursor.boolean()?)),
        Call::Short => number(cursor.short()),
        Call::UShort => number(cursor.ushort()),
        Call::Long => number(cursor.long()),
        Call::ULong => number(cursor.ulong()),
        Call::LongLong => number(cursor.longlong()),
        Call::ULongLong => number(cursor.ulonglong()),
        Call::Ordinal(names) => number(cursor.ordinal(names)),
        Call::Count => number(cursor.count()),
        Call::Octets => Ok(Octets(cursor.octets()?)),
        Call::Text => Ok(Octets(cursor.string()?)),
    }
}

/// Goes to the next place that the number divides, where that is 1, 2, 4 or 8, and returns whether there is one.
fn align(cursor: &mut Cursor, size: u64) -> bool {
    match size {
        1 => cursor.align(1),
        2 => cursor.align(2),
        4 => cursor.align(4),
        8 => cursor.align(8),
        _ => return false,
    }
    true
}

/// Whether the call gives this part, or stops with this fault.
fn is_found(cursor: &mut Cursor, call: Call, wanted: Result<Part, Fault>) -> bool {
    made(cursor, call) == wanted
}

/// Whether the cursor stands at the place, before these octets.
fn is_at(cursor: &Cursor, place: u64, rest: &[u8]) -> bool {
    cursor.place() == place && cursor.rest() == rest
}

/// Makes a step, and returns whether it does what it says.
fn is_made(cursor: &mut Cursor, step: &Step) -> bool {
    match step {
        Gives(call, part) => is_found(cursor, *call, Ok(*part)),
        Stops(call, kind, at) => {
            let (kind, at) = (*kind, *at);
            is_found(cursor, *call, Err(Fault { kind, at }))
        }
        At(place, rest) => is_at(cursor, *place, rest),
        Align(size) => align(cursor, *size),
    }
}

/// Makes the steps one after another.
pub(crate) fn assert_steps(rt: &impl Abort, cursor: &mut Cursor, name: &str, steps: &[Step]) {
    for (index, step) in steps.iter().enumerate() {
        assert!(rt; is_made(cursor, step), "{name} at {index}");
    }
}
