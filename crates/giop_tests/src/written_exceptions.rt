//! Replies that carry an exception as they are written: octets laid out by hand from GIOP 9.4.3.

use crate::said::assert_octets;
use cdr_core::{Order, Val, has_no_nul};
use giop_core::{Version, write_exception};
use std::process::Abort;

/// The repository id of a system exception.
const MARSHAL: &[u8] = b"IDL:omg.org/CORBA/MARSHAL:1.0";

/// A context of one octet, whose end leaves a gap of seven before a body of 1.2.
const CONTEXT: [(u32, &[u8]); 1] = [(9, &[5])];

/// A version, an order, contexts, and the octets of the Reply of id 5 and status 2 that carries
/// MARSHAL with the minor code 0 and the completion NO.
type Row = (
    Version,
    Order,
    &'static [(u32, &'static [u8])],
    &'static str,
);

static ROWS: [Row; 3] = [
    (
        Version::V12,
        Order::Big,
        &[],
        "47494f50 01020001 00000038 00000005 00000002 00000000 0000001e 49444c3a6f6d672e6f72672f434f5242412f4d41525348414c3a312e3000 0000 00000000 00000001",
    ),
    (
        Version::V10,
        Order::Big,
        &[],
        "47494f50 01000001 00000038 00000000 00000005 00000002 0000001e 49444c3a6f6d672e6f72672f434f5242412f4d41525348414c3a312e3000 0000 00000000 00000001",
    ),
    (
        Version::V12,
        Order::Little,
        &CONTEXT,
        "47494f50 01020101 48000000 05000000 02000000 01000000 09000000 01000000 05 00000000000000 1e000000 49444c3a6f6d672e6f72672f434f5242412f4d41525348414c3a312e3000 0000 00000000 01000000",
    ),
];

/// Asserts that the exception is written so.
fn assert_row(rt: &(impl Abort + AllocGlobal), row: &Row) {
    let (version, order, contexts, octets) = row;
    let members = [Val::ULong(0), Val::ULong(1)];
    assert!(rt; version.has_reply_status(2) && has_no_nul(MARSHAL));
    let mut out = Vec::new(rt.alloc());
    let written = write_exception(
        *version, *order, 5, 2, contexts, MARSHAL, &members, &mut out,
    );
    assert!(rt; written.is_ok());
    assert_octets(rt, &out, octets);
}

#[test]
fn exceptions_are_written(rt: HostRuntime) {
    for row in &ROWS {
        assert_row(&rt, row);
    }
}
