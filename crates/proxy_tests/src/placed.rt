//! Requests and Replies whose body stands at a place.

use crate::octets::octets_in;
use cdr_core::Order;
use giop_core::{ReplyWish, Version};
use giop_proxy::{LONGEST, PlacingError, write_reply, write_request};
use std::process::Abort;

/// An unsigned long 7 as a body in big order.
const SEVEN: &[u8] = &[0, 0, 0, 7];

/// Service contexts: a code set of five octets.
const SETS: &[(u32, &[u8])] = &[(1, b"12345")];

/// A version, an order, a wish, the place of a body, the body, and the digits of a Request of id 5 for `k`, to be called `add`.
type Asked = (Version, Order, ReplyWish, u64, &'static [u8], &'static str);

// The fields end at 44 in 1.0 and 1.1, and in 1.2 too, where four octets of padding follow. A context that says nothing has
// twelve octets.
static ASKED: [Asked; 11] = [
    (
        Version::V12,
        Order::Big,
        ReplyWish::Full,
        8,
        SEVEN,
        "47494f50 01020000 00000028 00000005 03 000000 0000 0000 00000001 6b 000000 00000004 61646400 \
         00000000 00000000 00000007",
    ),
    (
        Version::V12,
        Order::Big,
        ReplyWish::Empty,
        5,
        &[],
        "47494f50 01020000 00000020 00000005 01 000000 0000 0000 00000001 6b 000000 00000004 61646400 \
         00000000",
    ),
    (
        Version::V10,
        Order::Big,
        ReplyWish::Full,
        4,
        SEVEN,
        "47494f50 01000000 00000024 00000000 00000005 01 000000 00000001 6b 000000 00000004 61646400 \
         00000000 00000007",
    ),
    (
        Version::V10,
        Order::Big,
        ReplyWish::Full,
        0,
        SEVEN,
        "47494f50 01000000 00000030 00000001 4c520000 00000004 00000000 00000005 01 000000 00000001 6b 000000 \
         00000004 61646400 00000000 00000007",
    ),
    (
        Version::V10,
        Order::Big,
        ReplyWish::Empty,
        30,
        SEVEN,
        "47494f50 01000000 00000026 00000000 00000005 01 000000 00000001 6b 000000 00000004 61646400 \
         00000002 0000 00000007",
    ),
    (
        Version::V10,
        Order::Big,
        ReplyWish::None,
        3,
        SEVEN,
        "47494f50 01000000 00000033 00000001 4c520000 00000004 00000000 00000005 00 000000 00000001 6b 000000 \
         00000004 61646400 00000003 000000 00000007",
    ),
    (
        Version::V10,
        Order::Big,
        ReplyWish::Full,
        3,
        &[],
        "47494f50 01000000 00000020 00000000 00000005 01 000000 00000001 6b 000000 00000004 61646400 00000000",
    ),
    (
        Version::V11,
        Order::Little,
        ReplyWish::Full,
        44,
        &[7, 0, 0, 0],
        "47494f50 01010100 24000000 00000000 05000000 01 000000 01000000 6b 000000 04000000 61646400 \
         00000000 07000000",
    ),
    (
        Version::V11,
        Order::Little,
        ReplyWish::Full,
        7,
        &[9],
        "47494f50 01010100 24000000 00000000 05000000 01 000000 01000000 6b 000000 04000000 61646400 \
         03000000 000000 09",
    ),
    (
        Version::V11,
        Order::Little,
        ReplyWish::Full,
        49,
        &[9],
        "47494f50 01010100 2e000000 01000000 0000524c 04000000 00000000 05000000 01 000000 01000000 6b 000000 \
         04000000 61646400 01000000 00 09",
    ),
    (
        Version::V12,
        Order::Little,
        ReplyWish::None,
        48,
        &[9],
        "47494f50 01020100 25000000 05000000 00 000000 0000 0000 01000000 6b 000000 04000000 61646400 \
         00000000 00000000 09",
    ),
];

#[test]
fn a_request_has_its_body_at_its_place(rt: HostRuntime) {
    for (version, order, wish, place, body, words) in &ASKED {
        let mut out = Vec::new(rt.alloc());
        let written = write_request(
            *version,
            *order,
            5,
            *wish,
            b"k",
            b"add",
            &[],
            *place,
            body,
            LONGEST,
            &mut out,
        );
        assert!(rt; written.is_ok());
        assert_eq!(rt; out, octets_in(&rt, words), "{words}");
    }
}

/// A version, an order, service contexts, the place of a body of one octet, and the digits of a Reply of status 0 to the request 7.
type Told = (
    Version,
    Order,
    &'static [(u32, &'static [u8])],
    u64,
    &'static str,
);

// Without contexts the fields end at 24, and behind one of five octets at 40.
static TOLD: [Told; 8] = [
    (
        Version::V12,
        Order::Big,
        &[],
        8,
        "47494f50 01020001 0000000d 00000007 00000000 00000000 09",
    ),
    (
        Version::V12,
        Order::Little,
        SETS,
        0,
        "47494f50 01020101 1d000000 07000000 00000000 01000000 01000000 05000000 3132333435 000000 09",
    ),
    (
        Version::V10,
        Order::Big,
        &[],
        0,
        "47494f50 01000001 0000000d 00000000 00000007 00000000 09",
    ),
    (
        Version::V10,
        Order::Big,
        &[],
        4,
        "47494f50 01000001 00000019 00000001 4c520000 00000004 00000000 00000007 00000000 09",
    ),
    (
        Version::V11,
        Order::Little,
        SETS,
        24,
        "47494f50 01010101 1d000000 01000000 01000000 05000000 3132333435 000000 07000000 00000000 09",
    ),
    (
        Version::V11,
        Order::Little,
        SETS,
        28,
        "47494f50 01010101 29000000 02000000 01000000 05000000 3132333435 000000 0000524c 04000000 00000000 \
         07000000 00000000 09",
    ),
    (
        Version::V11,
        Order::Big,
        &[(1, b"1234")],
        4,
        "47494f50 01010001 00000019 00000001 00000001 00000004 31323334 00000007 00000000 09",
    ),
    (
        Version::V11,
        Order::Big,
        &[(1, b"1234")],
        0,
        "47494f50 01010001 00000025 00000002 00000001 00000004 31323334 4c520000 00000004 00000000 \
         00000007 00000000 09",
    ),
];

#[test]
fn a_reply_has_its_body_at_its_place(rt: HostRuntime) {
    for (version, order, contexts, place, words) in &TOLD {
        let mut out = Vec::new(rt.alloc());
        let written = write_reply(
            *version,
            *order,
            7,
            0,
            contexts,
            *place,
            &[9],
            LONGEST,
            &mut out,
        );
        assert!(rt; written.is_ok());
        assert_eq!(rt; out, octets_in(&rt, words), "{words}");
    }
}

/// What comes of a Reply of this status, with these octets at a place, behind three other octets, which stay.
fn told(
    rt: &(impl Abort + AllocGlobal),
    version: Version,
    status: u32,
    place: u64,
    body: &[u8],
    limit: u32,
) -> Result<(), PlacingError> {
    let Ok(mut out) = Vec::from_slice(rt.alloc(), b"abc") else {
        rt.abort()
    };
    let written = write_reply(
        version,
        Order::Big,
        7,
        status,
        &[],
        place,
        body,
        limit,
        &mut out,
    );
    let is_kept = out.starts_with(b"abc") && (written.is_ok() || out.len() == 3);
    if !is_kept {
        rt.abort();
    }
    written
}

#[test]
fn a_reply_is_refused(rt: HostRuntime) {
    assert_eq!(rt;
        told(&rt, Version::V12, 0, 4, &[9], LONGEST),
        Err(PlacingError::Place)
    );
    assert_eq!(rt; told(&rt, Version::V12, 0, 4, &[], LONGEST), Ok(()));
    assert_eq!(rt;
        told(&rt, Version::V10, 0, 6, &[9], LONGEST),
        Err(PlacingError::Place)
    );
    assert_eq!(rt; told(&rt, Version::V10, 0, 6, &[], LONGEST), Ok(()));
    assert_eq!(rt;
        told(&rt, Version::V11, 4, 0, &[9], LONGEST),
        Err(PlacingError::Status)
    );
    assert_eq!(rt; told(&rt, Version::V12, 5, 0, &[9], LONGEST), Ok(()));
    assert_eq!(rt;
        told(&rt, Version::V12, 6, 0, &[9], LONGEST),
        Err(PlacingError::Status)
    );
}

#[test]
fn a_reply_is_within_the_limit(rt: HostRuntime) {
    assert_eq!(rt; told(&rt, Version::V12, 0, 0, &[9], 25), Ok(()));
    assert_eq!(rt;
        told(&rt, Version::V12, 0, 0, &[9], 24),
        Err(PlacingError::TooLong)
    );
    assert_eq!(rt; told(&rt, Version::V10, 0, 0, &[], 24), Ok(()));
    assert_eq!(rt;
        told(&rt, Version::V10, 0, 0, &[], 23),
        Err(PlacingError::TooLong)
    );
    assert_eq!(rt; told(&rt, Version::V10, 0, 4, &[9], 37), Ok(()));
    assert_eq!(rt;
        told(&rt, Version::V10, 0, 4, &[9], 36),
        Err(PlacingError::TooLong)
    );
}

#[test]
fn a_message_has_sixteen_mebibytes_at_most(rt: HostRuntime) {
    let Ok(body) = vec![in rt.alloc(); 1; (16 << 20) - 23] else {
        rt.abort()
    };
    assert_eq!(rt; told(&rt, Version::V12, 0, 0, &body[1..], LONGEST), Ok(()));
    assert_eq!(rt;
        told(&rt, Version::V12, 0, 0, &body, LONGEST),
        Err(PlacingError::TooLong)
    );
}

#[test]
fn an_operation_has_no_nul(rt: HostRuntime) {
    let mut out = Vec::new(rt.alloc());
    let written = write_request(
        Version::V12,
        Order::Big,
        5,
        ReplyWish::Full,
        b"k",
        b"a\0d",
        &[],
        0,
        &[],
        LONGEST,
        &mut out,
    );
    assert_eq!(rt; written, Err(PlacingError::Operation));
    assert!(rt; out.is_empty());
}
