//! Locate requests that are answered.

use giop_core::{Header, Message, WriteError, read_message};
use std::alloc::Global;
use std::process::Abort;
use std::test::Fail;
use uses::answer_locate;

/// The message that the octets are.
fn message_in<'m>(rt: &impl Abort, octets: &'m [u8]) -> Message<'m> {
    let (head, rest) = octets.split_first_chunk::<12>().expect(rt, "a header");
    let header = Header::read(head).expect(rt, "a header");
    read_message(&header, rest).expect(rt, "a message")
}

/// A LocateRequest of 1.2 in little order for the key `c`, with the id 1.
const LOCATE: &[u8] = b"GIOP\x01\x02\x01\x03\x0d\x00\x00\x00\
    \x01\x00\x00\x00\x00\x00\x00\x00\x01\x00\x00\x00c";

/// The LocateReply to it where the object is here, and where there is none.
const HERE: &[u8] = b"GIOP\x01\x02\x01\x04\x08\x00\x00\x00\x01\x00\x00\x00\x01\x00\x00\x00";

const UNKNOWN: &[u8] = b"GIOP\x01\x02\x01\x04\x08\x00\x00\x00\x01\x00\x00\x00\x00\x00\x00\x00";

/// Whether a message is answered, where that key names an object, and by which octets.
fn answers(
    alloc: Global,
    message: &Message,
    key: &[u8],
    wanted: (bool, &[u8]),
) -> Result<bool, WriteError> {
    let mut out = Vec::new(alloc);
    let is_answered = answer_locate(message, key, &mut out)?;
    Ok(is_answered == wanted.0 && out.as_slice() == wanted.1)
}

#[test]
fn a_locate_request_is_answered_in_its_version_and_order(rt: HostRuntime) -> Result<(), Fail> {
    let message = message_in(&rt, LOCATE);
    assert!(rt; answers(rt.alloc(), &message, b"c", (true, HERE))?);
    assert!(rt; answers(rt.alloc(), &message, b"d", (true, UNKNOWN))?);
    Ok(())
}

#[test]
fn another_message_is_not_answered(rt: HostRuntime) -> Result<(), Fail> {
    let close = message_in(&rt, b"GIOP\x01\x02\x00\x05\x00\x00\x00\x00");
    assert!(rt; answers(rt.alloc(), &close, b"c", (false, b""))?);
    Ok(())
}
