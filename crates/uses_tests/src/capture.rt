//! A captured stream.

use crate::octets::PUBLISH;
use giop_frames::Limits;
use std::alloc::{AllocError, Global};
use std::test::Fail;
use uses::read_capture;

/// A Request of 1.2 for `add` with the id 6, cut into a first frame of 32 octets and a Fragment.
const CUT: &[u8] = b"GIOP\x01\x02\x02\x00\x00\x00\x00\x14\
    \x00\x00\x00\x06\x03\x00\x00\x00\x00\x00\x00\x00\x00\x00\x00\x01c\x00\x00\x00\
    GIOP\x01\x02\x00\x07\x00\x00\x00\x18\
    \x00\x00\x00\x06\x00\x00\x00\x04add\x00\x00\x00\x00\x00\x00\x00\x00\x00\x00\x00\x00\x07";

/// A CancelRequest of 1.2 with the id 5.
const CANCEL: &[u8] = b"GIOP\x01\x02\x00\x02\x00\x00\x00\x04\x00\x00\x00\x05";

/// Messages, one after another.
fn joined(alloc: Global, messages: &[&[u8]]) -> Result<Vec<u8>, AllocError> {
    let mut octets = Vec::new(alloc);
    for message in messages {
        octets.extend_from_slice(message)?;
    }
    Ok(octets)
}

/// Whether these are the operations.
fn are_named(operations: &[Vec<u8>], names: [&[u8]; 2]) -> bool {
    match operations {
        [first, second] => first.as_slice() == names[0] && second.as_slice() == names[1],
        _ => false,
    }
}

#[test]
fn messages_are_counted_and_operations_named(rt: HostRuntime) -> Result<(), Fail> {
    let octets = joined(rt.alloc(), &[PUBLISH, CUT, CANCEL])?;
    let capture = read_capture(rt.alloc(), Limits::default(), octets.as_slice())?;
    assert_eq!(rt; capture.messages, 3);
    assert!(rt; are_named(&capture.operations, [b"publish", b"add"]));
    Ok(())
}
