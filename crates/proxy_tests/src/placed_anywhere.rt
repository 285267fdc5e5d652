//! Each version, order and place of a body, and keys of each length modulo 8: what is written is read as it was.

use cdr_core::Order;
use giop_core::{Content, Contexts, Header, ReplyWish, Version, read_message};
use giop_proxy::{LONGEST, PADDING, PlacingError, write_reply, write_request};
use std::process::Abort;

const VERSIONS: [Version; 3] = [Version::V10, Version::V11, Version::V12];

const ORDERS: [Order; 2] = [Order::Big, Order::Little];

const KEYS: &[u8] = b"kkkkkkkk";

const BODY: &[u8] = b"abcdefg";

const GIVEN: &[(u32, &[u8])] = &[(1, b"\x07\x07"), (13, b"123")];

/// Whether service contexts are those given, with one that says nothing behind them or none.
fn are_given(contexts: Contexts<'_>) -> bool {
    let mut count = 0;
    for (id, octets) in contexts {
        let is_given = match GIVEN.get(count) {
            Some(given) => id == given.0 && octets == given.1,
            None => id == PADDING && count == 2,
        };
        if !is_given {
            return false;
        }
        count += 1;
    }
    count >= 2
}

/// Whether a message is one of the request 9, with the contexts, and its body at a place modulo 8.
fn is_read(octets: &[u8], place: u64) -> bool {
    let Some(head) = octets.first_chunk::<{ Header::LEN }>() else {
        return false;
    };
    let Ok(header) = Header::read(head) else {
        return false;
    };
    let Ok(message) = read_message(&header, &octets[Header::LEN..]) else {
        return false;
    };
    let (request_id, contexts, body) = match message.content {
        Content::Request(request) => (request.request_id, request.contexts, request.body),
        Content::Reply(reply) => (reply.request_id, reply.contexts, reply.body),
        _ => return false,
    };
    let is_placed = body.octets == BODY && body.at % 8 == place % 8;
    let is_whole = header.size as usize + Header::LEN == octets.len();
    request_id == 9 && is_placed && is_whole && are_given(contexts)
}

/// Asserts that a Request for a key has its body at a place, in 1.2 at 0 alone.
fn assert_asked(
    rt: &(impl Abort + AllocGlobal),
    version: Version,
    order: Order,
    key: &[u8],
    place: u64,
) {
    let mut out = Vec::new(rt.alloc());
    let written = write_request(
        version,
        order,
        9,
        ReplyWish::Full,
        key,
        b"add",
        GIVEN,
        place,
        BODY,
        LONGEST,
        &mut out,
    );
    if matches!(version, Version::V12) && place != 0 {
        assert_eq!(rt; written, Err(PlacingError::Place));
    } else {
        assert!(rt; written.is_ok() && is_read(&out, place));
    }
}

#[test]
fn a_request_is_read_again(rt: HostRuntime) {
    for version in VERSIONS {
        for order in ORDERS {
            for length in 0..8 {
                for place in 0..8 {
                    assert_asked(&rt, version, order, &KEYS[..length], place);
                }
            }
        }
    }
}

#[test]
fn a_reply_is_read_again(rt: HostRuntime) {
    for version in VERSIONS {
        for order in ORDERS {
            for place in 0..8 {
                let mut out = Vec::new(rt.alloc());
                let written = write_reply(
                    version, order, 9, 0, GIVEN, place, BODY, LONGEST, &mut out,
                );
                let step = if matches!(version, Version::V12) {
                    8
                } else {
                    4
                };
                if place % step == 0 {
                    assert!(rt; written.is_ok() && is_read(&out, place));
                } else {
                    assert_eq!(rt; written, Err(PlacingError::Place));
                }
            }
        }
    }
}
