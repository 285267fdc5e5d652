//! LocateRequests and LocateReplies as they are written in each version and both orders, and that
//! they read again.

use crate::put::{Turned, Values, assert_sent, assert_turned};
use crate::said::{Aim, COUNTER, PAIR, Row, Said};
use cdr_core::Order;
use giop_core::Version;

const ASKED: Said = Said::LocateRequest(0x0102_0304, Aim::Key(b"key"));

static REQUESTS: [Row; 6] = [
    (
        Version::V10,
        Order::Big,
        "47494f50 01000003 0000000b 01020304 00000003 6b6579",
        ASKED,
    ),
    (
        Version::V10,
        Order::Little,
        "47494f50 01000103 0b000000 04030201 03000000 6b6579",
        ASKED,
    ),
    (
        Version::V11,
        Order::Big,
        "47494f50 01010003 0000000b 01020304 00000003 6b6579",
        ASKED,
    ),
    (
        Version::V11,
        Order::Little,
        "47494f50 01010103 0b000000 04030201 03000000 6b6579",
        ASKED,
    ),
    (
        Version::V12,
        Order::Big,
        "47494f50 01020003 0000000f 01020304 0000 0000 00000003 6b6579",
        ASKED,
    ),
    (
        Version::V12,
        Order::Little,
        "47494f50 01020103 0f000000 04030201 0000 0000 03000000 6b6579",
        ASKED,
    ),
];

// The profile's own octets stand as they are in both orders.
static BY_PROFILE: [Row; 2] = [
    (
        Version::V12,
        Order::Big,
        "47494f50 01020003 00000030 00000002 0001 0000 00000000 00000020 00010200 0000000a \
         3132372e302e302e3100 0af9 00000001 63000000 00000000",
        Said::LocateRequest(2, Aim::Profile(0, COUNTER)),
    ),
    (
        Version::V12,
        Order::Little,
        "47494f50 01020103 30000000 02000000 0100 0000 00000000 20000000 00010200 0000000a \
         3132372e302e302e3100 0af9 00000001 63000000 00000000",
        Said::LocateRequest(2, Aim::Profile(0, COUNTER)),
    ),
];

#[test]
fn locate_requests_are_written(rt: HostRuntime) {
    assert_sent(&rt, Values::Nothing, &REQUESTS);
    assert_sent(&rt, Values::Nothing, &BY_PROFILE);
}

// Gaps that are not 0, and an empty string without its NUL, are not written again.
static BY_REFERENCE: [Turned; 2] = [
    (
        "47494f50 01020103 3f000000 02000000 0200eeee 01000000 02000000 5800 eeee 02000000 01000000 \
         02000000 aabb eeee 00000000 13000000 01010000 02000000 6800 0100 03000000 6b6579",
        (
            Version::V12,
            Order::Big,
            "47494f50 01020003 0000003f 00000002 0002 0000 00000001 00000002 5800 0000 00000002 00000001 \
             00000002 aabb 0000 00000000 00000013 01010000 02000000 6800 0100 03000000 6b6579",
            Said::LocateRequest(2, Aim::Reference(1, b"X", PAIR)),
        ),
    ),
    (
        "47494f50 01020003 00000014 00000002 0002eeee 00000003 00000000 00000000",
        (
            Version::V12,
            Order::Little,
            "47494f50 01020103 18000000 02000000 0200 0000 03000000 01000000 00 000000 00000000",
            Said::LocateRequest(2, Aim::Reference(3, b"", &[])),
        ),
    ),
];

#[test]
fn locate_requests_by_reference_are_written(rt: HostRuntime) {
    assert_turned(&rt, Values::Nothing, &BY_REFERENCE);
}

// In 1.2 too the body stands directly after the status.
static REPLIES: [Row; 6] = [
    (
        Version::V10,
        Order::Big,
        "47494f50 01000004 0000000c 01020304 00000002 0a 00 0b0b",
        ANSWERED,
    ),
    (
        Version::V10,
        Order::Little,
        "47494f50 01000104 0c000000 04030201 02000000 0a 00 0b0b",
        ANSWERED,
    ),
    (
        Version::V11,
        Order::Big,
        "47494f50 01010004 0000000c 01020304 00000002 0a 00 0b0b",
        ANSWERED,
    ),
    (
        Version::V11,
        Order::Little,
        "47494f50 01010104 0c000000 04030201 02000000 0a 00 0b0b",
        ANSWERED,
    ),
    (
        Version::V12,
        Order::Big,
        "47494f50 01020004 0000000c 01020304 00000002 0a 00 0b0b",
        ANSWERED,
    ),
    (
        Version::V12,
        Order::Little,
        "47494f50 01020104 0c000000 04030201 02000000 0a 00 0b0b",
        ANSWERED,
    ),
];

const ANSWERED: Said = Said::LocateReply(0x0102_0304, 2, (20, &[10, 0, 11, 11]));

// Each status of each version.
static STATUSES: [Row; 12] = [
    (
        Version::V10,
        Order::Big,
        "47494f50 01000004 00000008 00000001 00000000",
        Said::LocateReply(1, 0, (20, &[])),
    ),
    (
        Version::V10,
        Order::Big,
        "47494f50 01000004 00000008 00000001 00000001",
        Said::LocateReply(1, 1, (20, &[])),
    ),
    (
        Version::V10,
        Order::Big,
        "47494f50 01000004 00000008 00000001 00000002",
        Said::LocateReply(1, 2, (20, &[])),
    ),
    (
        Version::V11,
        Order::Little,
        "47494f50 01010104 08000000 01000000 00000000",
        Said::LocateReply(1, 0, (20, &[])),
    ),
    (
        Version::V11,
        Order::Little,
        "47494f50 01010104 08000000 01000000 01000000",
        Said::LocateReply(1, 1, (20, &[])),
    ),
    (
        Version::V11,
        Order::Little,
        "47494f50 01010104 08000000 01000000 02000000",
        Said::LocateReply(1, 2, (20, &[])),
    ),
    (
        Version::V12,
        Order::Big,
        "47494f50 01020004 00000008 00000001 00000000",
        Said::LocateReply(1, 0, (20, &[])),
    ),
    (
        Version::V12,
        Order::Big,
        "47494f50 01020004 00000008 00000001 00000001",
        Said::LocateReply(1, 1, (20, &[])),
    ),
    (
        Version::V12,
        Order::Big,
        "47494f50 01020004 00000008 00000001 00000002",
        Said::LocateReply(1, 2, (20, &[])),
    ),
    (
        Version::V12,
        Order::Big,
        "47494f50 01020004 00000008 00000001 00000003",
        Said::LocateReply(1, 3, (20, &[])),
    ),
    (
        Version::V12,
        Order::Big,
        "47494f50 01020004 00000008 00000001 00000004",
        Said::LocateReply(1, 4, (20, &[])),
    ),
    (
        Version::V12,
        Order::Big,
        "47494f50 01020004 00000008 00000001 00000005",
        Said::LocateReply(1, 5, (20, &[])),
    ),
];

#[test]
fn locate_replies_are_written(rt: HostRuntime) {
    assert_sent(&rt, Values::Pair, &REPLIES);
    assert_sent(&rt, Values::Nothing, &STATUSES);
}
