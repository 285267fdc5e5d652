//! Outcomes that are kept beyond an engine's life.

use crate::octets::{GONE, NEXT, NO_OPERATION, OVER, TICKET};
use ft_lives::MemoryStore;
use std::alloc::Global;
use std::hash::RandomState;
use std::test::Fail;
use uses::{Tickets, live_durably};

#[test]
fn a_ticket_is_given_once_over_three_lives(rt: HostRuntime) -> Result<(), Fail> {
    let alloc = rt.alloc();
    let mut store = MemoryStore::new(alloc, Tickets::new(alloc)?);
    let offered = Tickets::new(alloc)?;
    let mut first = Vec::new(alloc);
    live_durably(
        alloc,
        RandomState::new(&rt)?,
        offered,
        &mut store,
        50,
        NEXT,
        &mut first,
    )?;
    assert_eq!(rt; first.as_slice(), TICKET);
    let offered = Tickets::new(alloc)?;
    let mut second = Vec::new(alloc);
    live_durably(
        alloc,
        RandomState::new(&rt)?,
        offered,
        &mut store,
        60,
        NEXT,
        &mut second,
    )?;
    assert_eq!(rt; second.as_slice(), TICKET);
    // its row is taken out, and the clock of a later life goes back
    store.purge(101);
    let offered = Tickets::new(alloc)?;
    let mut third = Vec::new(alloc);
    live_durably(
        alloc,
        RandomState::new(&rt)?,
        offered,
        &mut store,
        40,
        NEXT,
        &mut third,
    )?;
    assert_eq!(rt; third.as_slice(), OVER);
    assert_eq!(rt; store.servant().given(), 1);
    Ok(())
}

/// What a life that begins now answers to octets.
fn answered(
    rt: &HostRuntime,
    store: &mut MemoryStore<Tickets>,
    octets: &[u8],
) -> Result<Vec<u8>, Fail> {
    let alloc = rt.alloc();
    let offered = Tickets::new(alloc)?;
    let mut out = Vec::new(alloc);
    live_durably(
        alloc,
        RandomState::new(rt)?,
        offered,
        store,
        50,
        octets,
        &mut out,
    )?;
    Ok(out)
}

/// The request for what is not there, with this number.
fn gone(alloc: Global, number: u8) -> Result<Vec<u8>, Fail> {
    let (front, rest) = GONE;
    let mut octets = Vec::from_slice(alloc, front)?;
    octets.extend_from_slice(&[0, 0, 0, number])?;
    octets.extend_from_slice(rest)?;
    Ok(octets)
}

#[test]
fn what_is_stored_is_answered_before_it_is_refused(rt: HostRuntime) -> Result<(), Fail> {
    let alloc = rt.alloc();
    let mut store = MemoryStore::new(alloc, Tickets::new(alloc)?);
    let ticket = answered(&rt, &mut store, NEXT)?;
    assert_eq!(rt; ticket.as_slice(), TICKET);
    let again = answered(&rt, &mut store, &gone(alloc, 1)?)?;
    assert_eq!(rt; again.as_slice(), TICKET);
    let other = answered(&rt, &mut store, &gone(alloc, 2)?)?;
    assert_eq!(rt; other.as_slice(), NO_OPERATION);
    assert_eq!(rt; store.servant().given(), 1);
    Ok(())
}
