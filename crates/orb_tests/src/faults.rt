//! Each call of a wire failing in turn: what was performed stands, and comes again on the next connection.

use crate::messages::{ADD, AGAIN, SEVEN, SEVEN_AGAIN};
use crate::visits::{Wanted, comes, new_server};
use ft_orb::StreamEnd;
use memory_wire::Terms;
use std::alloc::Global;
use std::hash::RandomState;
use std::test::Fail;

/// A wire that brings the request in one piece, takes one octet of its answer at a time, and whose call fails.
fn failing(fails: u32) -> Terms<'static> {
    Terms {
        sends: &[ADD],
        takes: 1,
        fails,
    }
}

/// How a connection ends whose call of this number fails, and how many octets of the answer are sent: a read, a write
/// of each of 32 octets, and a read that finds the peer's end.
fn failed_at(fails: u32) -> (StreamEnd, usize) {
    match fails {
        1 => (StreamEnd::ReadFault, 0),
        2..=33 => (StreamEnd::WriteFault, fails as usize - 2),
        34 => (StreamEnd::ReadFault, 32),
        _ => (StreamEnd::PeerEnded, 32),
    }
}

/// A wire that brings the request again, and takes its answer at once.
const AGAIN_WHOLE: Terms<'static> = Terms {
    sends: &[AGAIN],
    takes: 64,
    fails: 0,
};

/// Whether a request acts once where the call of this number fails, and its client asks again.
fn acts_once(alloc: Global, hasher: RandomState, fails: u32) -> Result<bool, Fail> {
    let mut server = new_server(alloc, hasher)?;
    let (end, sent) = failed_at(fails);
    let first = Wanted {
        end,
        acts: None,
        taken: SEVEN.get(..sent).unwrap_or(SEVEN),
        total: if fails == 1 { 0 } else { 7 },
    };
    let second = Wanted {
        end: StreamEnd::PeerEnded,
        acts: Some(b"GTg".as_slice()),
        taken: SEVEN_AGAIN,
        total: 7,
    };
    let is_first = comes(alloc, &mut server, 1, (failing(fails), 9), first)?;
    Ok(is_first && comes(alloc, &mut server, 2, (AGAIN_WHOLE, 9), second)?)
}

#[test]
fn a_request_acts_once_whichever_call_fails(rt: HostRuntime) -> Result<(), Fail> {
    let hasher = RandomState::new(&rt)?;
    for fails in 1..=35 {
        assert!(rt; acts_once(rt.alloc(), hasher, fails)?, "call {fails}");
    }
    Ok(())
}
