//! Replies as they are written in each version and both orders, and that they read again.

use crate::put::{Values, assert_sent};
use crate::said::{Row, Said};
use cdr_core::Order;
use giop_core::Version;

// A context of one octet before the id and the status, and after them the body directly: an octet
// and an unsigned short.
static EARLY: [Row; 4] = [
    (
        Version::V10,
        Order::Big,
        "47494f50 01000001 0000001c 00000001 00000009 00000001 05 000000 01020304 00000002 \
         0a 00 0b0b",
        EARLY_SAID,
    ),
    (
        Version::V10,
        Order::Little,
        "47494f50 01000101 1c000000 01000000 09000000 01000000 05 000000 04030201 02000000 \
         0a 00 0b0b",
        EARLY_SAID,
    ),
    (
        Version::V11,
        Order::Big,
        "47494f50 01010001 0000001c 00000001 00000009 00000001 05 000000 01020304 00000002 \
         0a 00 0b0b",
        EARLY_SAID,
    ),
    (
        Version::V11,
        Order::Little,
        "47494f50 01010101 1c000000 01000000 09000000 01000000 05 000000 04030201 02000000 \
         0a 00 0b0b",
        EARLY_SAID,
    ),
];

const EARLY_SAID: Said = Said::Reply(0x0102_0304, 2, CONTEXTS, (36, &[10, 0, 11, 11]));

// The same context after the id and the status, and seven octets before the body.
static LATE: [Row; 2] = [
    (
        Version::V12,
        Order::Big,
        "47494f50 01020001 00000020 01020304 00000002 00000001 00000009 00000001 05 \
         00000000000000 0a 00 0b0b",
        LATE_SAID,
    ),
    (
        Version::V12,
        Order::Little,
        "47494f50 01020101 20000000 04030201 02000000 01000000 09000000 01000000 05 \
         00000000000000 0a 00 0b0b",
        LATE_SAID,
    ),
];

const LATE_SAID: Said = Said::Reply(0x0102_0304, 2, CONTEXTS, (40, &[10, 0, 11, 11]));

const CONTEXTS: &[(u32, &[u8])] = &[(9, &[5])];

// The result 7, a long long: at 24 in each version.
static RESULTS: [Row; 4] = [
    (
        Version::V10,
        Order::Big,
        "47494f50 01000001 00000014 00000000 00000006 00000000 0000000000000007",
        Said::Reply(6, 0, &[], (24, &[0, 0, 0, 0, 0, 0, 0, 7])),
    ),
    (
        Version::V11,
        Order::Big,
        "47494f50 01010001 00000014 00000000 00000006 00000000 0000000000000007",
        Said::Reply(6, 0, &[], (24, &[0, 0, 0, 0, 0, 0, 0, 7])),
    ),
    (
        Version::V12,
        Order::Big,
        "47494f50 01020001 00000014 00000006 00000000 00000000 0000000000000007",
        Said::Reply(6, 0, &[], (24, &[0, 0, 0, 0, 0, 0, 0, 7])),
    ),
    (
        Version::V12,
        Order::Little,
        "47494f50 01020101 14000000 06000000 00000000 00000000 0700000000000000",
        Said::Reply(6, 0, &[], (24, &[7, 0, 0, 0, 0, 0, 0, 0])),
    ),
];

// The fields end at 36 and at 33, and there is no gap after them.
static BARE: [Row; 3] = [
    (
        Version::V10,
        Order::Big,
        "47494f50 01000001 00000018 00000001 00000009 00000001 05 000000 00000001 00000000",
        Said::Reply(1, 0, CONTEXTS, (36, &[])),
    ),
    (
        Version::V12,
        Order::Big,
        "47494f50 01020001 00000015 00000001 00000000 00000001 00000009 00000001 05",
        Said::Reply(1, 0, CONTEXTS, (40, &[])),
    ),
    (
        Version::V12,
        Order::Little,
        "47494f50 01020101 15000000 01000000 00000000 01000000 09000000 01000000 05",
        Said::Reply(1, 0, CONTEXTS, (40, &[])),
    ),
];

// Each status of each version.
static STATUSES: [Row; 14] = [
    (
        Version::V10,
        Order::Big,
        "47494f50 01000001 0000000c 00000000 00000001 00000000",
        Said::Reply(1, 0, &[], (24, &[])),
    ),
    (
        Version::V10,
        Order::Big,
        "47494f50 01000001 0000000c 00000000 00000001 00000001",
        Said::Reply(1, 1, &[], (24, &[])),
    ),
    (
        Version::V10,
        Order::Big,
        "47494f50 01000001 0000000c 00000000 00000001 00000002",
        Said::Reply(1, 2, &[], (24, &[])),
    ),
    (
        Version::V10,
        Order::Big,
        "47494f50 01000001 0000000c 00000000 00000001 00000003",
        Said::Reply(1, 3, &[], (24, &[])),
    ),
    (
        Version::V11,
        Order::Little,
        "47494f50 01010101 0c000000 00000000 01000000 00000000",
        Said::Reply(1, 0, &[], (24, &[])),
    ),
    (
        Version::V11,
        Order::Little,
        "47494f50 01010101 0c000000 00000000 01000000 01000000",
        Said::Reply(1, 1, &[], (24, &[])),
    ),
    (
        Version::V11,
        Order::Little,
        "47494f50 01010101 0c000000 00000000 01000000 02000000",
        Said::Reply(1, 2, &[], (24, &[])),
    ),
    (
        Version::V11,
        Order::Little,
        "47494f50 01010101 0c000000 00000000 01000000 03000000",
        Said::Reply(1, 3, &[], (24, &[])),
    ),
    (
        Version::V12,
        Order::Big,
        "47494f50 01020001 0000000c 00000001 00000000 00000000",
        Said::Reply(1, 0, &[], (24, &[])),
    ),
    (
        Version::V12,
        Order::Big,
        "47494f50 01020001 0000000c 00000001 00000001 00000000",
        Said::Reply(1, 1, &[], (24, &[])),
    ),
    (
        Version::V12,
        Order::Big,
        "47494f50 01020001 0000000c 00000001 00000002 00000000",
        Said::Reply(1, 2, &[], (24, &[])),
    ),
    (
        Version::V12,
        Order::Big,
        "47494f50 01020001 0000000c 00000001 00000003 00000000",
        Said::Reply(1, 3, &[], (24, &[])),
    ),
    (
        Version::V12,
        Order::Big,
        "47494f50 01020001 0000000c 00000001 00000004 00000000",
        Said::Reply(1, 4, &[], (24, &[])),
    ),
    (
        Version::V12,
        Order::Big,
        "47494f50 01020001 0000000c 00000001 00000005 00000000",
        Said::Reply(1, 5, &[], (24, &[])),
    ),
];

// The minor code 0 and the completion NO stand after the name.
static MARSHAL: [Row; 1] = [(
    Version::V12,
    Order::Big,
    "47494f50 01020001 00000038 00000005 00000002 00000000 0000001e \
     49444c3a6f6d672e6f72672f434f5242412f4d41525348414c3a312e3000 0000 00000000 00000001",
    Said::Reply(
        5,
        2,
        &[],
        (
            24,
            b"\0\0\0\x1eIDL:omg.org/CORBA/MARSHAL:1.0\0\0\0\0\0\0\0\0\0\0\x01",
        ),
    ),
)];

// A struct without members has no octets, so no gap stands before it.
#[test]
fn replies_are_written(rt: HostRuntime) {
    assert_sent(&rt, Values::Pair, &EARLY);
    assert_sent(&rt, Values::Pair, &LATE);
    assert_sent(&rt, Values::LongLong(7), &RESULTS);
    assert_sent(&rt, Values::Nothing, &BARE);
    assert_sent(&rt, Values::Empty, &BARE);
    assert_sent(&rt, Values::Nothing, &STATUSES);
    let name = b"IDL:omg.org/CORBA/MARSHAL:1.0";
    assert_sent(&rt, Values::Exception(name), &MARSHAL);
}
