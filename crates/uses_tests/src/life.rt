//! The life of a bank's engine, from a list of deeds.

use crate::bank::{deposit, returned};
use crate::octets::FIFTEEN;
use ft_orb::{Deed, Event, Written};
use giop_frames::Limits;
use std::hash::RandomState;
use std::test::Fail;
use uses::live_as_bank;

/// Whether the outcome was told in the third of three entries.
fn is_told(written: &[Written]) -> bool {
    match written {
        [_, _, told] => told.connection == 1 && told.octets.as_slice() == FIFTEEN,
        _ => false,
    }
}

#[test]
fn a_request_is_parked_and_settled(rt: HostRuntime) -> Result<(), Fail> {
    let alloc = rt.alloc();
    let deeds = vec![in alloc;
        Deed::Event(Event::Opened(1)),
        Deed::Event(Event::Piece(1, 50, deposit(alloc, 1, 10)?)),
        Deed::Park,
        Deed::Settle(0, returned(alloc, 15)?),
    ]?;
    let hasher = RandomState::new(&rt)?;
    let mut written = Vec::new(alloc);
    live_as_bank(alloc, hasher, Limits::default(), &deeds, &mut written)?;
    assert!(rt; is_told(&written));
    Ok(())
}
