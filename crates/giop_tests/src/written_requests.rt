//! Requests as they are written in each version and both orders, and that they read again.

use crate::put::{Turned, Values, assert_sent, assert_turned};
use crate::said::{Aim, Asked, LITTLE, PAIR, Row, Said};
use cdr_core::Order;
use giop_core::{ReplyWish, Version};

// Two contexts, of which the second is empty; a key of five octets; and an octet and an unsigned
// short as the body, directly after the empty principal.
static EARLY: [Row; 4] = [
    (
        Version::V10,
        Order::Big,
        "47494f50 01000000 0000003c 00000002 00000001 00000003 00abcd 00 00000007 00000000 \
         01020304 01 000000 00000005 6b65797321 000000 00000003 676f00 00 00000000 0a 00 0b0b",
        EARLY_SAID,
    ),
    (
        Version::V10,
        Order::Little,
        "47494f50 01000100 3c000000 02000000 01000000 03000000 00abcd 00 07000000 00000000 \
         04030201 01 000000 05000000 6b65797321 000000 03000000 676f00 00 00000000 0a 00 0b0b",
        EARLY_SAID,
    ),
    (
        Version::V11,
        Order::Big,
        "47494f50 01010000 0000003c 00000002 00000001 00000003 00abcd 00 00000007 00000000 \
         01020304 01 000000 00000005 6b65797321 000000 00000003 676f00 00 00000000 0a 00 0b0b",
        EARLY_SAID,
    ),
    (
        Version::V11,
        Order::Little,
        "47494f50 01010100 3c000000 02000000 01000000 03000000 00abcd 00 07000000 00000000 \
         04030201 01 000000 05000000 6b65797321 000000 03000000 676f00 00 00000000 0a 00 0b0b",
        EARLY_SAID,
    ),
];

const EARLY_SAID: Said = Said::Request(Asked {
    id: 0x0102_0304,
    wish: ReplyWish::Full,
    target: Aim::Key(b"keys!"),
    operation: b"go",
    contexts: CONTEXTS,
    body: (68, &[10, 0, 11, 11]),
});

// The same in 1.2, whose contexts stand last; four octets lie between them and the body.
static LATE: [Row; 2] = [
    (
        Version::V12,
        Order::Big,
        "47494f50 01020000 00000040 01020304 03 000000 0000 0000 00000005 6b65797321 000000 \
         00000003 676f00 00 00000002 00000001 00000003 00abcd 00 00000007 00000000 00000000 \
         0a 00 0b0b",
        LATE_SAID,
    ),
    (
        Version::V12,
        Order::Little,
        "47494f50 01020100 40000000 04030201 03 000000 0000 0000 05000000 6b65797321 000000 \
         03000000 676f00 00 02000000 01000000 03000000 00abcd 00 07000000 00000000 00000000 \
         0a 00 0b0b",
        LATE_SAID,
    ),
];

const LATE_SAID: Said = Said::Request(Asked {
    id: 0x0102_0304,
    wish: ReplyWish::Full,
    target: Aim::Key(b"keys!"),
    operation: b"go",
    contexts: CONTEXTS,
    body: (72, &[10, 0, 11, 11]),
});

const CONTEXTS: &[(u32, &[u8])] = &[(1, &[0, 0xab, 0xcd]), (7, &[])];

// A request without a reply whose fields end at 44, and no gap after them.
static BARE: [Row; 4] = [
    (
        Version::V10,
        Order::Big,
        "47494f50 01000000 00000020 00000000 00000014 00 000000 00000001 63 000000 00000004 \
         67657400 00000000",
        EARLY_BARE,
    ),
    (
        Version::V11,
        Order::Little,
        "47494f50 01010100 20000000 00000000 14000000 00 000000 01000000 63 000000 04000000 \
         67657400 00000000",
        EARLY_BARE,
    ),
    (
        Version::V12,
        Order::Big,
        "47494f50 01020000 00000020 00000014 00 000000 0000 0000 00000001 63 000000 00000004 \
         67657400 00000000",
        LATE_BARE,
    ),
    (
        Version::V12,
        Order::Little,
        "47494f50 01020100 20000000 14000000 00 000000 0000 0000 01000000 63 000000 04000000 \
         67657400 00000000",
        LATE_BARE,
    ),
];

const EARLY_BARE: Said = Said::Request(Asked {
    id: 20,
    wish: ReplyWish::None,
    target: Aim::Key(b"c"),
    operation: b"get",
    contexts: &[],
    body: (44, &[]),
});

const LATE_BARE: Said = Said::Request(Asked {
    id: 20,
    wish: ReplyWish::None,
    target: Aim::Key(b"c"),
    operation: b"get",
    contexts: &[],
    body: (48, &[]),
});

// A wish for an empty reply; and fields that end at 48, after which the body stands directly.
static WITHOUT_RESULT: [Row; 1] = [(
    Version::V12,
    Order::Big,
    "47494f50 01020000 00000025 00000014 01 000000 0000 0000 00000001 63 000000 00000006 \
     666f7572 2100 0000 00000000 0a",
    Said::Request(Asked {
        id: 20,
        wish: ReplyWish::Empty,
        target: Aim::Key(b"c"),
        operation: b"four!",
        contexts: &[],
        body: (48, &[10]),
    }),
)];

// The operation stands after a target of any length, with three octets between them.
static BY_PROFILE: [Row; 2] = [
    (
        Version::V12,
        Order::Big,
        "47494f50 01020000 00000035 00000007 03 000000 0001 0000 00000000 00000013 01010000 \
         02000000 6800 0100 03000000 6b6579 00 00000003 676f00 00 00000000 ff",
        PROFILE_SAID,
    ),
    (
        Version::V12,
        Order::Little,
        "47494f50 01020100 35000000 07000000 03 000000 0100 0000 00000000 13000000 01010000 \
         02000000 6800 0100 03000000 6b6579 00 03000000 676f00 00 00000000 ff",
        PROFILE_SAID,
    ),
];

const PROFILE_SAID: Said = Said::Request(Asked {
    id: 7,
    wish: ReplyWish::Full,
    target: Aim::Profile(0, LITTLE),
    operation: b"go",
    contexts: &[],
    body: (64, &[0xff]),
});

// One request, that may be sent again, of 1.2, 1.0 and 1.1.
static RETRIED: [Row; 3] = [
    (
        Version::V12,
        Order::Big,
        "47494f50 01020000 00000048 00000005 03000000 00000000 00000001 63000000 00000004 61646400 \
         00000001 0000000d 00000018 00000000 00000002 41000000 00000001 00000000 00000064 \
         00000000 00000007",
        Said::Request(Asked {
            id: 5,
            wish: ReplyWish::Full,
            target: Aim::Key(b"c"),
            operation: b"add",
            contexts: RETRIED_CONTEXTS,
            body: (80, &[0, 0, 0, 7]),
        }),
    ),
    (
        Version::V10,
        Order::Big,
        "47494f50 01000000 00000044 00000001 0000000d 00000018 00000000 00000002 41000000 00000001 \
         00000000 00000064 00000006 01000000 00000001 63000000 00000004 61646400 00000000 00000007",
        Said::Request(Asked {
            id: 6,
            wish: ReplyWish::Full,
            target: Aim::Key(b"c"),
            operation: b"add",
            contexts: RETRIED_CONTEXTS,
            body: (76, &[0, 0, 0, 7]),
        }),
    ),
    (
        Version::V11,
        Order::Big,
        "47494f50 01010000 00000044 00000001 0000000d 00000018 00000000 00000002 41000000 00000001 \
         00000000 00000064 00000006 01000000 00000001 63000000 00000004 61646400 00000000 00000007",
        Said::Request(Asked {
            id: 6,
            wish: ReplyWish::Full,
            target: Aim::Key(b"c"),
            operation: b"add",
            contexts: RETRIED_CONTEXTS,
            body: (76, &[0, 0, 0, 7]),
        }),
    ),
];

const RETRIED_CONTEXTS: &[(u32, &[u8])] = &[(
    13,
    &[
        0, 0, 0, 0, 0, 0, 0, 2, 0x41, 0, 0, 0, 0, 0, 0, 1, 0, 0, 0, 0, 0, 0, 0, 0x64,
    ],
)];

// A struct without members has no octets, so no gap stands before it.
#[test]
fn requests_are_written(rt: HostRuntime) {
    assert_sent(&rt, Values::Pair, &EARLY);
    assert_sent(&rt, Values::Pair, &LATE);
    assert_sent(&rt, Values::Nothing, &BARE);
    assert_sent(&rt, Values::Empty, &BARE);
    assert_sent(&rt, Values::Octet(10), &WITHOUT_RESULT);
    assert_sent(&rt, Values::Octet(0xff), &BY_PROFILE);
    assert_sent(&rt, Values::Long(7), &RETRIED);
}

// The reference of a message of the other order, whose gaps are not 0.
static BY_REFERENCE: [Turned; 2] = [
    (
        "47494f50 01020103 3f000000 02000000 0200eeee 01000000 02000000 5800 eeee 02000000 01000000 \
         02000000 aabb eeee 00000000 13000000 01010000 02000000 6800 0100 03000000 6b6579",
        (
            Version::V12,
            Order::Big,
            "47494f50 01020000 00000055 00000007 03 000000 0002 0000 00000001 00000002 5800 0000 \
             00000002 00000001 00000002 aabb 0000 00000000 00000013 01010000 02000000 6800 0100 \
             03000000 6b6579 00 00000003 676f00 00 00000000 00000000 ff",
            REFERENCE_SAID,
        ),
    ),
    (
        "47494f50 01020003 0000003f 00000002 0002eeee 00000001 00000002 5800 eeee 00000002 00000001 \
         00000002 aabb eeee 00000000 00000013 01010000 02000000 6800 0100 03000000 6b6579",
        (
            Version::V12,
            Order::Little,
            "47494f50 01020100 55000000 07000000 03 000000 0200 0000 01000000 02000000 5800 0000 \
             02000000 01000000 02000000 aabb 0000 00000000 13000000 01010000 02000000 6800 0100 \
             03000000 6b6579 00 03000000 676f00 00 00000000 00000000 ff",
            REFERENCE_SAID,
        ),
    ),
];

const REFERENCE_SAID: Said = Said::Request(Asked {
    id: 7,
    wish: ReplyWish::Full,
    target: Aim::Reference(1, b"X", PAIR),
    operation: b"go",
    contexts: &[],
    body: (96, &[0xff]),
});

#[test]
fn requests_by_reference_are_written(rt: HostRuntime) {
    assert_turned(&rt, Values::Octet(0xff), &BY_REFERENCE);
}
