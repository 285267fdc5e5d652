//! Messages as they are read: one of each kind, and each Fragment, which no stream shows by itself.

use crate::said::{Aim, Asked, Row, Said, assert_rows, octets_in, request_in};
use cdr_core::Order;
use giop_core::{ReplyWish, Target, Version};
use std::process::Abort;

// IIOP 1.2, host 127.0.0.1, port 48495, key `c`, no components.
const COUNTER: &[u8] = &[
    0, 1, 2, 0, 0, 0, 0, 10, b'1', b'2', b'7', b'.', b'0', b'.', b'0', b'.', b'1', 0, 0xbd, 0x6f,
    0, 0, 0, 1, b'c', 0, 0, 0, 0, 0, 0, 0,
];

// What omniORB 4.2.5 sent: a Request whose target is a profile.
const BY_PROFILE: &str = "47494f50 01020100 48000000 02000000 03000000 01000000 00000000 20000000 \
     00010200 0000000a 3132372e 302e302e 3100bd6f 00000001 63000000 00000000 04000000 61646400 \
     00000000 00000000 07000000";

static ONE_OF_EACH: [Row; 7] = [
    (
        Version::V12,
        Order::Little,
        BY_PROFILE,
        Said::Request(Asked {
            id: 2,
            wish: ReplyWish::Full,
            target: Aim::Profile(0, COUNTER),
            operation: b"add",
            contexts: &[],
            body: (80, &[7, 0, 0, 0]),
        }),
    ),
    (
        Version::V12,
        Order::Big,
        "47494f50 01020001 0000001f 01020304 00000005 00000001 00000009 00000001 05 \
         eeeeeeeeeeeeee 0a0b0c",
        Said::Reply(0x0102_0304, 5, &[(9, &[5])], (40, &[10, 11, 12])),
    ),
    (
        Version::V12,
        Order::Little,
        "47494f50 01020102 09000000 04030201 ffffffffff",
        Said::Cancel(0x0102_0304),
    ),
    (
        Version::V12,
        Order::Little,
        "47494f50 01020103 11000000 04030201 0000 eeee 03000000 6b6579 ffff",
        Said::LocateRequest(0x0102_0304, Aim::Key(b"key")),
    ),
    (
        Version::V11,
        Order::Little,
        "47494f50 01010104 0b000000 04030201 01000000 0a0b0c",
        Said::LocateReply(0x0102_0304, 1, (20, &[10, 11, 12])),
    ),
    (
        Version::V12,
        Order::Big,
        "47494f50 01020005 00000002 ffff",
        Said::Close,
    ),
    (
        Version::V11,
        Order::Little,
        "47494f50 01010106 01000000 ff",
        Said::Error,
    ),
];

static FRAGMENTS: [Row; 7] = [
    (
        Version::V11,
        Order::Big,
        "47494f50 01010007 00000007 01020304 0a0b0c",
        Said::Fragment(None, &[1, 2, 3, 4, 10, 11, 12]),
    ),
    (
        Version::V11,
        Order::Little,
        "47494f50 01010107 02000000 0a0b",
        Said::Fragment(None, &[10, 11]),
    ),
    (
        Version::V11,
        Order::Big,
        "47494f50 01010007 00000000",
        Said::Fragment(None, &[]),
    ),
    (
        Version::V12,
        Order::Big,
        "47494f50 01020007 00000007 01020304 0a0b0c",
        Said::Fragment(Some(0x0102_0304), &[10, 11, 12]),
    ),
    (
        Version::V12,
        Order::Little,
        "47494f50 01020107 07000000 04030201 0a0b0c",
        Said::Fragment(Some(0x0102_0304), &[10, 11, 12]),
    ),
    (
        Version::V12,
        Order::Big,
        "47494f50 01020007 00000004 01020304",
        Said::Fragment(Some(0x0102_0304), &[]),
    ),
    (
        Version::V12,
        Order::Little,
        "47494f50 01020107 04000000 ffffffff",
        Said::Fragment(Some(u32::MAX), &[]),
    ),
];

#[test]
fn each_kind_is_read(rt: HostRuntime) {
    assert_rows(&rt, &ONE_OF_EACH);
    assert_rows(&rt, &FRAGMENTS);
}

/// Whether a target names that key.
fn names(target: &Target, key: &[u8]) -> bool {
    target.object_key() == Some(key)
}

#[test]
fn the_profile_names_the_key(rt: HostRuntime) {
    let octets = octets_in(&rt, BY_PROFILE);
    let request = request_in(&rt, &octets);
    assert!(rt; names(&request.target, b"c"));
}
