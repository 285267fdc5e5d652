//! A call that is handed on.

use cdr_core::Order;
use ft_client::{FtClient, RawCallError};
use giop_core::{Body, Version};
use giop_frames::Limits;
use std::test::Fail;
use uses::hand_on;

/// The Request of 1.2 with the id 1 for `put` at the key `c`, in little order, of the client `A`, its call 1, until the
/// moment 100,000,050 (05f5e132 in hexadecimal), with the code sets ISO 8859-1 and UTF-16, and the short 7 in its body.
const HANDED: &[u8] = b"GIOP\x01\x02\x01\x00\x56\x00\x00\x00\
    \x01\x00\x00\x00\x03\x00\x00\x00\x00\x00\x00\x00\x01\x00\x00\x00c\x00\x00\x00\
    \x04\x00\x00\x00put\x00\x02\x00\x00\x00\x0d\x00\x00\x00\x18\x00\x00\x00\
    \x00\x00\x00\x00\x00\x00\x00\x02A\x00\x00\x00\x00\x00\x00\x01\x00\x00\x00\x00\x05\xf5\xe1\x32\
    \x01\x00\x00\x00\x0c\x00\x00\x00\x01\x00\x00\x00\x01\x00\x01\x00\x09\x01\x01\x00\
    \x07\x00";

#[test]
fn a_call_is_handed_on_with_its_code_sets(rt: HostRuntime) -> Result<(), Fail> {
    let limits = Limits::default();
    let mut client = FtClient::new(rt.alloc(), b"A", Version::V12, limits)?;
    let mut out = Vec::new(rt.alloc());
    client.connected(50, &mut out)?;
    let body = Body {
        order: Order::Little,
        at: 32,
        octets: b"\x07\x00",
    };
    let code_sets = b"\x01\x00\x00\x00\x01\x00\x01\x00\x09\x01\x01\x00";
    let number = hand_on(&mut client, 50, b"c", b"put", code_sets, body, &mut out);
    assert_eq!(rt; number, Ok(1));
    assert_eq!(rt; out.as_slice(), HANDED);
    let elsewhere = Body { at: 30, ..body };
    let refused = hand_on(
        &mut client,
        50,
        b"c",
        b"put",
        code_sets,
        elsewhere,
        &mut out,
    );
    assert_eq!(rt; refused, Err(RawCallError::Misplaced));
    Ok(())
}
