//! Headers as they are read and written.

use cdr_core::Order;
use giop_core::{FT_REQUEST, Header, MessageKind, Version};
use std::process::Abort;

// Each kind, the flags that its version lets it have, and sizes whose octets show their order.
static HEADERS: [([u8; 12], Header); 12] = [
    (
        [0x47, 0x49, 0x4f, 0x50, 1, 0, 0, 0, 0, 0, 0, 0x2c],
        Header {
            version: Version::V10,
            order: Order::Big,
            more: false,
            kind: MessageKind::Request,
            size: 44,
        },
    ),
    (
        [0x47, 0x49, 0x4f, 0x50, 1, 0, 1, 1, 0x2c, 0, 0, 0],
        Header {
            version: Version::V10,
            order: Order::Little,
            more: false,
            kind: MessageKind::Reply,
            size: 44,
        },
    ),
    (
        [0x47, 0x49, 0x4f, 0x50, 1, 0, 1, 6, 0, 0, 0, 0],
        Header {
            version: Version::V10,
            order: Order::Little,
            more: false,
            kind: MessageKind::MessageError,
            size: 0,
        },
    ),
    (
        [0x47, 0x49, 0x4f, 0x50, 1, 1, 0, 3, 1, 2, 3, 4],
        Header {
            version: Version::V11,
            order: Order::Big,
            more: false,
            kind: MessageKind::LocateRequest,
            size: 0x0102_0304,
        },
    ),
    (
        [0x47, 0x49, 0x4f, 0x50, 1, 1, 1, 4, 1, 2, 3, 4],
        Header {
            version: Version::V11,
            order: Order::Little,
            more: false,
            kind: MessageKind::LocateReply,
            size: 0x0403_0201,
        },
    ),
    (
        [0x47, 0x49, 0x4f, 0x50, 1, 1, 2, 0, 0xff, 0xff, 0xff, 0xff],
        Header {
            version: Version::V11,
            order: Order::Big,
            more: true,
            kind: MessageKind::Request,
            size: u32::MAX,
        },
    ),
    (
        [0x47, 0x49, 0x4f, 0x50, 1, 1, 3, 7, 0, 1, 0, 0],
        Header {
            version: Version::V11,
            order: Order::Little,
            more: true,
            kind: MessageKind::Fragment,
            size: 256,
        },
    ),
    (
        [0x47, 0x49, 0x4f, 0x50, 1, 2, 0, 5, 0, 0, 0, 0],
        Header {
            version: Version::V12,
            order: Order::Big,
            more: false,
            kind: MessageKind::CloseConnection,
            size: 0,
        },
    ),
    (
        [0x47, 0x49, 0x4f, 0x50, 1, 2, 0, 7, 0x80, 0, 0, 0],
        Header {
            version: Version::V12,
            order: Order::Big,
            more: false,
            kind: MessageKind::Fragment,
            size: 0x8000_0000,
        },
    ),
    (
        [0x47, 0x49, 0x4f, 0x50, 1, 2, 1, 2, 4, 0, 0, 0],
        Header {
            version: Version::V12,
            order: Order::Little,
            more: false,
            kind: MessageKind::CancelRequest,
            size: 4,
        },
    ),
    (
        [0x47, 0x49, 0x4f, 0x50, 1, 2, 2, 1, 0, 0, 0, 0x0c],
        Header {
            version: Version::V12,
            order: Order::Big,
            more: true,
            kind: MessageKind::Reply,
            size: 12,
        },
    ),
    (
        [0x47, 0x49, 0x4f, 0x50, 1, 2, 3, 3, 0xff, 0xff, 0xff, 0xff],
        Header {
            version: Version::V12,
            order: Order::Little,
            more: true,
            kind: MessageKind::LocateRequest,
            size: u32::MAX,
        },
    ),
];

/// Whether octets are the header, and it is written so.
fn is_header(octets: &[u8; 12], header: &Header) -> bool {
    Header::read(octets) == Ok(*header) && header.is_possible() && header.write() == *octets
}

#[test]
fn headers_are_read_and_written(rt: HostRuntime) {
    for (octets, header) in &HEADERS {
        assert!(rt; is_header(octets, header), "{header:?}");
    }
}

#[test]
fn numbers_of_the_standard(rt: HostRuntime) {
    assert!(rt; Header::LEN == 12 && FT_REQUEST == 13);
}
