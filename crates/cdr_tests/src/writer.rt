//! Each call of a writer: the octets that it appends, after which gap.

ghost use Rattle.std.specs.Prelude.{◌≡◌, ◌≤◌, length};

use cdr_core::Order::{Big, Little};
use cdr_core::{Order, Val, Writer, are_writable, writable};
use std::alloc::AllocError;
use std::process::Abort;

/// A call of a writer.
enum Call {
    Octet(u8),
    Boolean(bool),
    Short(i16),
    UShort(u16),
    Long(i32),
    ULong(u32),
    ULongLong(u64),
    Text(&'static [u8]),
    Octets(&'static [u8]),
    /// Values: an octet, and an unsigned long.
    Values(u8, u32),
    /// Zeros up to the next place that the number divides: 1, 2, 4 or 8.
    Align(u64),
    /// The next octet stands at this place, and these octets stand before it.
    At(u64, &'static [u8]),
}

use Call::{
    Align, At, Boolean, Long, Octet, Octets, Short, Text, ULong, ULongLong, UShort, Values,
};

/// What is written, the order of numbers, the place of the first octet, if it isn't the first of an
/// encapsulation, the octets that stand before it, and the calls.
type Row = (
    &'static str,
    Order,
    Option<u32>,
    &'static [u8],
    &'static [Call],
);

static ROWS: &[Row] = &[
    (
        "shorts in big order",
        Big,
        Some(3),
        &[7],
        &[
            At(3, &[7]),
            Octet(9),
            At(4, &[7, 9]),
            Short(-2),
            Octet(8),
            UShort(0x1234),
            At(10, &[7, 9, 0xff, 0xfe, 8, 0, 0x12, 0x34]),
        ],
    ),
    (
        "shorts in little order",
        Little,
        Some(1),
        &[],
        &[
            Short(-2),
            UShort(0x1234),
            At(6, &[0, 0xfe, 0xff, 0x34, 0x12]),
        ],
    ),
    (
        "an unsigned long in big order",
        Big,
        Some(2),
        &[],
        &[ULong(0x1234_5678), At(8, &[0, 0, 0x12, 0x34, 0x56, 0x78])],
    ),
    (
        "an unsigned long in little order",
        Little,
        Some(7),
        &[],
        &[ULong(0x1234_5678), At(12, &[0, 0x78, 0x56, 0x34, 0x12])],
    ),
    (
        "a long",
        Big,
        Some(2),
        &[],
        &[Long(-2), At(8, &[0, 0, 0xff, 0xff, 0xff, 0xfe])],
    ),
    (
        "booleans",
        Big,
        Some(3),
        &[],
        &[Boolean(true), Boolean(false), At(5, &[1, 0])],
    ),
    (
        "values",
        Big,
        Some(12),
        &[7],
        &[Octet(9), Values(1, 2), At(20, &[7, 9, 1, 0, 0, 0, 0, 0, 2])],
    ),
    (
        "an unsigned long long in big order",
        Big,
        Some(13),
        &[],
        &[
            ULongLong(0x0102_0304_0506_0708),
            At(24, &[0, 0, 0, 1, 2, 3, 4, 5, 6, 7, 8]),
        ],
    ),
    (
        "an unsigned long long in little order",
        Little,
        Some(0),
        &[],
        &[
            ULongLong(0x0102_0304_0506_0708),
            At(8, &[8, 7, 6, 5, 4, 3, 2, 1]),
        ],
    ),
    (
        "a string in big order",
        Big,
        Some(3),
        &[],
        &[Text(b"hi"), At(11, &[0, 0, 0, 0, 3, b'h', b'i', 0])],
    ),
    (
        "an empty string in little order",
        Little,
        Some(0),
        &[],
        &[Text(b""), At(5, &[1, 0, 0, 0, 0])],
    ),
    (
        "octets in big order",
        Big,
        Some(2),
        &[],
        &[Octets(&[7, 0, 9]), At(11, &[0, 0, 0, 0, 0, 3, 7, 0, 9])],
    ),
    (
        "octets in little order",
        Little,
        Some(4),
        &[],
        &[Octets(&[7, 0, 9]), At(11, &[3, 0, 0, 0, 7, 0, 9])],
    ),
    (
        "zeros up to a place",
        Big,
        Some(3),
        &[7],
        &[
            Align(1),
            At(3, &[7]),
            Align(2),
            At(4, &[7, 0]),
            Align(4),
            At(4, &[7, 0]),
            Align(8),
            At(8, &[7, 0, 0, 0, 0, 0]),
        ],
    ),
    (
        "an encapsulation in big order",
        Big,
        None,
        &[7, 7],
        &[
            At(1, &[7, 7, 0]),
            ULong(2),
            At(8, &[7, 7, 0, 0, 0, 0, 0, 0, 0, 2]),
        ],
    ),
    (
        "an encapsulation in little order",
        Little,
        None,
        &[],
        &[UShort(2), At(4, &[1, 0, 2, 0])],
    ),
];

/// Appends zeros up to the next place that the number divides.
fn align(rt: &impl Abort, writer: &Writer, size: u64, out: &mut Vec<u8>) -> Result<(), AllocError>
    requires { writer.now.start ≤ length out.old.items }
{
    match size {
        1 => writer.align(1, out),
        2 => writer.align(2, out),
        4 => writer.align(4, out),
        8 => writer.align(8, out),
        _ => rt.abort(),
    }
}

/// Appends a string, which has no NUL.
fn text(
    rt: &(impl Abort + AllocGlobal),
    writer: &Writer,
    text: &[u8],
    out: &mut Vec<u8>,
) -> Result<(), AllocError>
    requires { writer.now.start ≤ length out.old.items }
{
    let value = Val::Str(Vec::from_slice(rt.alloc(), text)?);
    assert!(rt; writable(&value));
    writer.string(text, out)
}

/// Appends values.
fn values(
    rt: &impl Abort,
    writer: &Writer,
    all: &[Val],
    out: &mut Vec<u8>,
) -> Result<(), AllocError>
    requires { writer.now.start ≤ length out.old.items }
{
    assert!(rt; are_writable(all));
    writer.values(all, out)
}

/// Appends octets.
fn octets(rt: &impl Abort, writer: &Writer, all: &[u8], out: &mut Vec<u8>) -> Result<(), AllocError>
    requires { writer.now.start ≤ length out.old.items }
{
    assert!(rt; all.len() <= u32::MAX as usize);
    writer.octets(all, out)
}

/// Whether the next octet stands at that place, after these octets.
fn is_at(place: u64, out: &[u8], wanted: u64, octets: &[u8]) -> bool {
    place == wanted && out == octets
}

/// Makes a call, or asserts where the writer stands.
fn append(
    rt: &(impl Abort + AllocGlobal),
    name: &str,
    writer: &Writer,
    call: &Call,
    out: &mut Vec<u8>,
) -> Result<(), AllocError>
    requires { writer.now.start ≤ length out.old.items }
{
    match call {
        Octet(n) => writer.octet(*n, out),
        Boolean(b) => writer.boolean(*b, out),
        Short(n) => writer.short(*n, out),
        UShort(n) => writer.ushort(*n, out),
        Long(n) => writer.long(*n, out),
        ULong(n) => writer.ulong(*n, out),
        ULongLong(n) => writer.ulonglong(*n, out),
        Text(all) => text(rt, writer, all, out),
        Octets(all) => octets(rt, writer, all, out),
        Values(first, second) => {
            values(rt, writer, &[Val::Octet(*first), Val::ULong(*second)], out)
        }
        Align(size) => align(rt, writer, *size, out),
        At(place, all) => {
            assert!(rt;
                is_at(writer.place(out), out, *place, all),
                "{name} at {place}"
            );
            Ok(())
        }
    }
}

/// A writer after what the output has, or after the byte order of an encapsulation.
fn started(rt: &impl Abort, order: Order, at: Option<u32>, out: &mut Vec<u8>) -> Writer
    ensures { result.start ≡ length out.new.items }
{
    match at {
        Some(at) => Writer::new(order, u64::from(at), out),
        None => Writer::encapsulated(order, out).expect(rt, "memory"),
    }
}

/// Makes the calls one after another, after what the output has.
fn append_all(
    rt: &(impl Abort + AllocGlobal),
    (name, order, at, _, calls): &Row,
    out: &mut Vec<u8>,
) {
    let writer = started(rt, *order, *at, out);
    let start = out.len();
    for call in *calls {
        assert!(rt; start <= out.len());
        let result = append(rt, name, &writer, call, out);
        assert!(rt; result.is_ok(), "{name}");
    }
}

#[test]
fn parts_are_appended_one_after_another(rt: HostRuntime) {
    for row in ROWS {
        let (_, _, _, before, _) = row;
        let mut out = Vec::from_slice(rt.alloc(), before).expect(&rt, "memory");
        append_all(&rt, row, &mut out);
    }
}
