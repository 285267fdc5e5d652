//! Each call of a cursor: what it gives, where it goes, and that it stays where there is a fault.

use crate::steps::Part::{Number, Octets, Truth};
use crate::steps::Step::{Align, At, Gives, Stops};
use crate::steps::{Call, Step, assert_steps};
use cdr_core::Kind::{BadBoolean, BadEnum, InteriorNul, NoTerminator, Short};
use cdr_core::Order::{Big, Little};
use cdr_core::{Cursor, Fault, Kind, Order};
use std::process::Abort;

/// What is read, the octets, the order of numbers, the place of the first octet, and the steps.
type Row = (&'static str, &'static [u8], Order, u32, &'static [Step]);

/// Octets, characters and booleans, and numbers in either order.
static NUMBERS: &[Row] = &[
    (
        "octets, characters and booleans",
        &[7, b'c', 1, 0, 2],
        Big,
        5,
        &[
            At(5, &[7, b'c', 1, 0, 2]),
            Gives(Call::Octet, Number(7)),
            Gives(Call::Character, Number(0x63)),
            Gives(Call::Boolean, Truth(true)),
            Gives(Call::Boolean, Truth(false)),
            Stops(Call::Boolean, BadBoolean, 9),
            At(9, &[2]),
            Gives(Call::Octet, Number(2)),
            Stops(Call::Octet, Short, 10),
            Stops(Call::Character, Short, 10),
            Stops(Call::Boolean, Short, 10),
            At(10, &[]),
        ],
    ),
    (
        "shorts in big order",
        &[9, 0xff, 0xfe, 0x12, 0x34, 5],
        Big,
        1,
        &[
            Gives(Call::Short, Number(-2)),
            At(4, &[0x12, 0x34, 5]),
            Gives(Call::UShort, Number(0x1234)),
            Stops(Call::Short, Short, 6),
            Stops(Call::UShort, Short, 6),
            At(6, &[5]),
        ],
    ),
    (
        "shorts in little order",
        &[9, 0xff, 0xfe, 0x12, 0x34, 5],
        Little,
        1,
        &[
            Gives(Call::UShort, Number(0xfeff)),
            Gives(Call::Short, Number(0x3412)),
            Gives(Call::Octet, Number(5)),
            Stops(Call::Short, Short, 8),
            At(7, &[]),
        ],
    ),
    (
        "longs in big order",
        LONGS,
        Big,
        2,
        &[
            Gives(Call::Long, Number(-2)),
            At(8, &[1, 2, 3, 4, 5]),
            Gives(Call::ULong, Number(0x0102_0304)),
            Stops(Call::Long, Short, 12),
            Stops(Call::ULong, Short, 12),
            At(12, &[5]),
        ],
    ),
    (
        "longs in little order",
        LONGS,
        Little,
        2,
        &[
            Gives(Call::ULong, Number(0xfeff_ffff)),
            Gives(Call::Long, Number(0x0403_0201)),
            Gives(Call::Octet, Number(5)),
            Stops(Call::ULong, Short, 16),
            At(13, &[]),
        ],
    ),
    (
        "long longs in big order",
        LONG_LONGS,
        Big,
        8,
        &[
            Gives(Call::LongLong, Number(-2)),
            At(16, &[1, 2, 3, 4, 5, 6, 7, 8, 9]),
            Gives(Call::ULongLong, Number(0x0102_0304_0506_0708)),
            Stops(Call::LongLong, Short, 24),
            Stops(Call::ULongLong, Short, 24),
            At(24, &[9]),
        ],
    ),
    (
        "long longs in little order",
        LONG_LONGS,
        Little,
        8,
        &[
            Gives(Call::ULongLong, Number(0xfeff_ffff_ffff_ffff)),
            Gives(Call::LongLong, Number(0x0807_0605_0403_0201)),
            Gives(Call::Octet, Number(9)),
            Stops(Call::LongLong, Short, 32),
            At(25, &[]),
        ],
    ),
    (
        "ordinals and counts",
        &[9, 9, 0, 0, 0, 2, 0xff, 0xff, 0xff, 0xff, 5],
        Big,
        2,
        &[
            Stops(Call::Ordinal(2), BadEnum, 4),
            At(2, &[9, 9, 0, 0, 0, 2, 0xff, 0xff, 0xff, 0xff, 5]),
            Gives(Call::Ordinal(3), Number(2)),
            Gives(Call::Count, Number(0xffff_ffff)),
            Stops(Call::Ordinal(3), Short, 12),
            Stops(Call::Count, Short, 12),
            At(12, &[5]),
        ],
    ),
];

/// A gap of two octets, two longs, and an octet.
const LONGS: &[u8] = &[9, 9, 0xff, 0xff, 0xff, 0xfe, 1, 2, 3, 4, 5];

/// Two long longs and an octet.
const LONG_LONGS: &[u8] = &[
    255, 255, 255, 255, 255, 255, 255, 254, 1, 2, 3, 4, 5, 6, 7, 8, 9,
];

/// Octets and strings, which are lent, a string without its NUL. A length of more octets than are
/// left is short at the first of them.
static LENT: &[Row] = &[
    (
        "octets",
        &[9, 9, 9, 2, 0, 0, 0, b'h', 0, 7],
        Little,
        1,
        &[
            Gives(Call::Octets, Octets(&[b'h', 0])),
            At(10, &[7]),
            Stops(Call::Octets, Short, 12),
            At(10, &[7]),
        ],
    ),
    (
        "octets that are cut",
        &[0, 0, 0, 2, b'h'],
        Big,
        12,
        &[
            Stops(Call::Octets, Short, 16),
            At(12, &[0, 0, 0, 2, b'h']),
            Gives(Call::ULong, Number(2)),
        ],
    ),
    (
        "strings",
        &[0, 0, 0, 3, b'h', b'i', 0, 9, 0, 0, 0, 0, 0, 0, 0, 1, 0],
        Big,
        0,
        &[
            Gives(Call::Text, Octets(b"hi")),
            At(7, &[9, 0, 0, 0, 0, 0, 0, 0, 1, 0]),
            Gives(Call::Text, Octets(b"")),
            At(12, &[0, 0, 0, 1, 0]),
            Gives(Call::Text, Octets(b"")),
            At(17, &[]),
            Stops(Call::Text, Short, 20),
        ],
    ),
    (
        "a string with a NUL inside",
        &[9, 0, 0, 0, 3, b'h', 0, 0],
        Big,
        3,
        &[
            Stops(Call::Text, InteriorNul, 9),
            At(3, &[9, 0, 0, 0, 3, b'h', 0, 0]),
        ],
    ),
    (
        "a string without its NUL",
        &[9, 0, 0, 0, 3, b'h', b'i', b'x'],
        Big,
        3,
        &[
            Stops(Call::Text, NoTerminator, 10),
            At(3, &[9, 0, 0, 0, 3, b'h', b'i', b'x']),
        ],
    ),
    (
        "a string that is cut",
        &[9, 0, 0, 0, 3, b'h', b'i'],
        Big,
        3,
        &[
            Stops(Call::Text, Short, 8),
            At(3, &[9, 0, 0, 0, 3, b'h', b'i']),
        ],
    ),
];

/// Places past the end, and `align`.
static PLACES: &[Row] = &[
    (
        "a place past the end",
        &[1],
        Big,
        0,
        &[
            Gives(Call::Octet, Number(1)),
            Stops(Call::Short, Short, 2),
            Stops(Call::ULong, Short, 4),
            Stops(Call::ULongLong, Short, 8),
            At(1, &[]),
            Align(8),
            At(8, &[]),
            Stops(Call::Octet, Short, 8),
        ],
    ),
    (
        "the next place",
        &[1, 2, 3, 4, 5, 6],
        Big,
        3,
        &[
            Align(1),
            At(3, &[1, 2, 3, 4, 5, 6]),
            Align(2),
            At(4, &[2, 3, 4, 5, 6]),
            Align(4),
            At(4, &[2, 3, 4, 5, 6]),
            Gives(Call::Octet, Number(2)),
            Align(8),
            At(8, &[6]),
            Align(8),
            At(8, &[6]),
        ],
    ),
];

/// Makes the steps of each row.
fn assert_rows(rt: &impl Abort, rows: &[Row]) {
    for (name, octets, order, at, steps) in rows {
        let mut cursor = Cursor::new(octets, *order, u64::from(*at));
        assert_steps(rt, &mut cursor, name, steps);
    }
}

#[test]
fn parts_are_read_one_after_another(rt: HostRuntime) {
    assert_rows(&rt, NUMBERS);
    assert_rows(&rt, LENT);
    assert_rows(&rt, PLACES);
}

/// What is read, an encapsulation, and the steps in it.
type Encapsulated = (&'static str, &'static [u8], &'static [Step]);

/// An encapsulation in either order.
static ENCAPSULATED: &[Encapsulated] = &[
    (
        "an encapsulation in little order",
        &[1, 9, 2, 0, 3, 0, 0, 0, 0],
        &[
            At(1, &[9, 2, 0, 3, 0, 0, 0, 0]),
            Gives(Call::UShort, Number(2)),
            Gives(Call::ULong, Number(3)),
        ],
    ),
    (
        "an encapsulation in big order",
        &[0, 9, 0, 2],
        &[Gives(Call::UShort, Number(2)), Stops(Call::Octet, Short, 4)],
    ),
];

/// Makes the steps of each row in its encapsulation.
fn assert_encapsulated(rt: &impl Abort, rows: &[Encapsulated]) {
    for (name, octets, steps) in rows {
        let Ok(mut cursor) = Cursor::encapsulated(octets) else {
            rt.abort()
        };
        assert_steps(rt, &mut cursor, name, steps);
    }
}

/// Whether the octets are no encapsulation, by a fault of this kind at the first.
fn is_none(octets: &[u8], kind: Kind) -> bool {
    Cursor::encapsulated(octets).err() == Some(Fault { kind, at: 0 })
}

#[test]
fn an_encapsulation_has_its_order(rt: HostRuntime) {
    assert_encapsulated(&rt, ENCAPSULATED);
    assert!(rt; is_none(&[2, 0], BadBoolean));
    assert!(rt; is_none(&[], Short));
}

/// The steps of the cursor that is forked, up to there.
static BEFORE: &[Step] = &[Gives(Call::Octet, Number(1))];

/// The steps behind two octets.
static SKIPPED: &[Step] = &[At(14, &[2, 0]), Gives(Call::Short, Number(2)), At(16, &[])];

/// The steps of the fork.
static FORKED: &[Step] = &[At(1, &[9, 2, 0]), Gives(Call::Short, Number(2)), At(4, &[])];

/// The steps of the cursor from there on.
static AFTER: &[Step] = &[At(1, &[9, 2, 0]), Gives(Call::Octet, Number(9))];

#[test]
fn a_cursor_skips(rt: HostRuntime) {
    let mut cursor = Cursor::new(&[1, 9, 2, 0], Little, 12);
    cursor.skip(2);
    assert_steps(&rt, &mut cursor, "behind two octets", SKIPPED);
}

#[test]
fn a_fork_reads_on_alone(rt: HostRuntime) {
    let mut cursor = Cursor::new(&[1, 9, 2, 0], Little, 0);
    assert_steps(&rt, &mut cursor, "before the fork", BEFORE);
    let mut other = cursor.fork();
    assert_steps(&rt, &mut other, "the fork", FORKED);
    assert_steps(&rt, &mut cursor, "after the fork", AFTER);
}
