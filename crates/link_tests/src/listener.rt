//! Where the frame of a fault begins, as a server's end hears it.

use crate::server::{REPLY, REQUEST};
use giop_frames::{Cuts, Limits};
use giop_link::{Listener, Server};
use std::alloc::{AllocError, Global};
use std::process::Abort;

const LIMITS: Limits = Limits {
    message: 1_048_576,
    partials: 8,
    cuts: Cuts::Aligned,
};

/// A Request, and a message of the wrong direction.
fn octets(alloc: Global) -> Result<Vec<u8>, AllocError> {
    let mut all = Vec::new(alloc);
    all.extend_from_slice(REQUEST)?;
    all.extend_from_slice(REPLY)?;
    Ok(all)
}

/// Gives a listener octets as it needs them, up to a fault, and returns where its frame begins.
fn place_of_fault(listener: &mut Listener<Server>, octets: &[u8]) -> Option<usize> {
    let mut given: usize = 0;
    for _ in 0..octets.len() {
        let left = octets.get(given..)?;
        let begins = given.saturating_sub(listener.pending());
        let (piece, _) = left.split_at(listener.needed()?.min(left.len()));
        match listener.feed(piece) {
            Ok(taken) => given = given.saturating_add(taken),
            Err(_) => return Some(begins),
        }
    }
    None
}

#[test]
fn a_fault_is_of_the_frame_that_has_begun(rt: HostRuntime) -> Result<(), AllocError> {
    let octets = octets(rt.alloc())?;
    let mut listener = Listener::new(rt.alloc(), LIMITS);
    assert!(rt; place_of_fault(&mut listener, octets.as_slice()) == Some(52));
    assert!(rt; listener.needed().is_none() && listener.pending() == 0);
    Ok(())
}
