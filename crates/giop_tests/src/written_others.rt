//! CancelRequest, CloseConnection, MessageError and the context FT_REQUEST as they are written, and
//! messages after other octets.

use crate::put::{Client, Values, assert_client, assert_sent};
use crate::said::{Aim, Asked, Row, Said};
use cdr_core::Order;
use giop_core::{ReplyWish, Version};

const CANCELLED: Said = Said::Cancel(0x0102_0304);

static CANCELS: [Row; 6] = [
    (
        Version::V10,
        Order::Big,
        "47494f50 01000002 00000004 01020304",
        CANCELLED,
    ),
    (
        Version::V10,
        Order::Little,
        "47494f50 01000102 04000000 04030201",
        CANCELLED,
    ),
    (
        Version::V11,
        Order::Big,
        "47494f50 01010002 00000004 01020304",
        CANCELLED,
    ),
    (
        Version::V11,
        Order::Little,
        "47494f50 01010102 04000000 04030201",
        CANCELLED,
    ),
    (
        Version::V12,
        Order::Big,
        "47494f50 01020002 00000004 01020304",
        CANCELLED,
    ),
    (
        Version::V12,
        Order::Little,
        "47494f50 01020102 04000000 04030201",
        CANCELLED,
    ),
];

static BARE: [Row; 2] = [
    (
        Version::V10,
        Order::Big,
        "47494f50 01000005 00000000",
        Said::Close,
    ),
    (
        Version::V10,
        Order::Big,
        "47494f50 01000006 00000000",
        Said::Error,
    ),
];

#[test]
fn messages_without_bodies_are_written(rt: HostRuntime) {
    assert_sent(&rt, Values::Nothing, &CANCELS);
    assert_sent(&rt, Values::Nothing, &BARE);
}

// Client `A`, after whose name there is a gap of two octets; client `ABCD`, with gaps of three and
// four; and the client without a name. Each stands after an octet, from which no place counts.
static CLIENTS: [Client; 6] = [
    (
        Order::Big,
        b"A",
        1,
        100,
        "ca 00 000000 00000002 4100 0000 00000001 0000000000000064",
    ),
    (
        Order::Little,
        b"A",
        1,
        100,
        "ca 01 000000 02000000 4100 0000 01000000 6400000000000000",
    ),
    (
        Order::Big,
        b"ABCD",
        -2,
        0x0123_4567_89ab_cdef,
        "ca 00 000000 00000005 4142434400 000000 fffffffe 00000000 0123456789abcdef",
    ),
    (
        Order::Little,
        b"ABCD",
        -2,
        0x0123_4567_89ab_cdef,
        "ca 01 000000 05000000 4142434400 000000 feffffff 00000000 efcdab8967452301",
    ),
    (
        Order::Big,
        b"",
        i32::MIN,
        u64::MAX,
        "ca 00 000000 00000001 00 000000 80000000 ffffffffffffffff",
    ),
    (
        Order::Little,
        b"",
        i32::MIN,
        u64::MAX,
        "ca 01 000000 01000000 00 000000 00000080 ffffffffffffffff",
    ),
];

#[test]
fn clients_are_written(rt: HostRuntime) {
    for row in &CLIENTS {
        assert_client(&rt, row);
    }
}

// Messages of each kind, each after a number of octets that no 4 divides. Its places count from its
// own beginning.
static CHAIN: [Row; 5] = [
    (
        Version::V12,
        Order::Big,
        "47494f50 01020003 0000000f 00000001 0000 0000 00000003 6b6579",
        Said::LocateRequest(1, Aim::Key(b"key")),
    ),
    (
        Version::V11,
        Order::Little,
        "47494f50 01010102 04000000 02000000",
        Said::Cancel(2),
    ),
    (
        Version::V12,
        Order::Little,
        "47494f50 01020104 09000000 01000000 03000000 0a",
        Said::LocateReply(1, 3, (20, &[10])),
    ),
    (
        Version::V10,
        Order::Big,
        "47494f50 01000005 00000000",
        Said::Close,
    ),
    (
        Version::V10,
        Order::Big,
        "47494f50 01000006 00000000",
        Said::Error,
    ),
];

// Bodies that stand at eights in their own message.
static ALIGNED: [Row; 3] = [
    (
        Version::V12,
        Order::Big,
        "47494f50 01020000 0000002c 00000014 03 000000 0000 0000 00000001 63 000000 00000004 67657400 \
         00000000 00000000 0000000000000007",
        Said::Request(Asked {
            id: 20,
            wish: ReplyWish::Full,
            target: Aim::Key(b"c"),
            operation: b"get",
            contexts: &[],
            body: (48, &[0, 0, 0, 0, 0, 0, 0, 7]),
        }),
    ),
    (
        Version::V12,
        Order::Little,
        "47494f50 01020101 24000000 14000000 00000000 01000000 09000000 01000000 05 00000000000000 \
         0700000000000000",
        Said::Reply(20, 0, &[(9, &[5])], (40, &[7, 0, 0, 0, 0, 0, 0, 0])),
    ),
    (
        Version::V10,
        Order::Big,
        "47494f50 01000001 00000024 00000001 00000009 00000001 05 000000 00000014 00000000 00000000 \
         0000000000000007",
        Said::Reply(
            20,
            0,
            &[(9, &[5])],
            (36, &[0, 0, 0, 0, 0, 0, 0, 0, 0, 0, 0, 7]),
        ),
    ),
];

#[test]
fn messages_are_written_one_after_another(rt: HostRuntime) {
    assert_sent(&rt, Values::Octet(10), &CHAIN);
    assert_sent(&rt, Values::LongLong(7), &ALIGNED);
}
