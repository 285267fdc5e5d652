//! A bank whose outcomes come later.

use crate::bank::{deposit, returned};
use crate::octets::FIFTEEN;
use ft_orb::Event;
use giop_frames::Limits;
use std::alloc::{AllocError, Global};
use std::hash::RandomState;
use std::test::Fail;
use uses::{Turn, serve_later};

/// CloseConnection of 1.0.
const CLOSE: &[u8] = b"GIOP\x01\x00\x00\x05\x00\x00\x00\x00";

/// A request and its repeat.
fn twice(alloc: Global) -> Result<Vec<u8>, AllocError> {
    let mut octets = deposit(alloc, 1, 10)?;
    octets.extend_from_slice(&deposit(alloc, 1, 10)?)?;
    Ok(octets)
}

/// Whether these octets were sent on connection 1.
fn is_sent((connection, octets): &(u64, Vec<u8>), wanted: &[u8]) -> bool {
    *connection == 1 && octets.as_slice() == wanted
}

/// Whether the outcome was told twice, and then the connection closed.
fn are_told(sent: &[(u64, Vec<u8>)]) -> bool {
    match sent {
        [first, second, last] => {
            is_sent(first, FIFTEEN) && is_sent(second, FIFTEEN) && is_sent(last, CLOSE)
        }
        _ => false,
    }
}

#[test]
fn a_repeat_waits_for_the_outcome(rt: HostRuntime) -> Result<(), Fail> {
    let alloc = rt.alloc();
    let turns = vec![in alloc;
        Turn::Happens(Event::Opened(1)),
        Turn::Happens(Event::Piece(1, 50, twice(alloc)?)),
        Turn::Settles(0, returned(alloc, 15)?),
        Turn::Happens(Event::Close(1)),
    ]?;
    let hasher = RandomState::new(&rt)?;
    let mut sent = Vec::new(alloc);
    serve_later(alloc, hasher, Limits::default(), turns, &mut sent)?;
    assert!(rt; are_told(&sent));
    Ok(())
}
