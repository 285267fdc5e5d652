//! Requests that are heard on a connection.

use crate::octets::PUBLISH;
use giop_frames::Limits;
use giop_link::LinkFault;
use std::test::Fail;
use uses::requests_heard;

/// A CancelRequest of 1.2 with the id 5.
const CANCEL: &[u8] = b"GIOP\x01\x02\x00\x02\x00\x00\x00\x04\x00\x00\x00\x05";

/// CloseConnection of 1.2.
const CLOSE: &[u8] = b"GIOP\x01\x02\x00\x05\x00\x00\x00\x00";

/// A Reply of 1.2 with the id 5: no exception, no contexts, no body.
const REPLY: &[u8] = b"GIOP\x01\x02\x00\x01\x00\x00\x00\x0c\
    \x00\x00\x00\x05\x00\x00\x00\x00\x00\x00\x00\x00";

#[test]
fn requests_are_counted_to_the_close(rt: HostRuntime) -> Result<(), Fail> {
    let mut octets = Vec::new(rt.alloc());
    for message in [PUBLISH, CANCEL, PUBLISH, CLOSE, PUBLISH] {
        octets.extend_from_slice(message)?;
    }
    let requests = requests_heard(rt.alloc(), Limits::default(), octets.as_slice())?;
    assert_eq!(rt; requests, 2);
    Ok(())
}

#[test]
fn a_reply_is_no_clients(rt: HostRuntime) {
    let heard = requests_heard(rt.alloc(), Limits::default(), REPLY);
    assert!(rt; heard == Err(LinkFault::WrongDirection));
}
