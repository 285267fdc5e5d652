//! Savings that a server performs.

use crate::octets::{RETURNED, SAVE, SAVINGS_OVERDRAWN};
use ft_log::Retention;
use ft_orb::Server;
use giop_frames::Limits;
use std::alloc::{AllocError, Global};
use std::hash::RandomState;
use std::test::Fail;
use uses::Savings;

/// The octets, and after them an amount.
fn with_cents(alloc: Global, before: &[u8], cents: i64) -> Result<Vec<u8>, AllocError> {
    let mut octets = Vec::from_slice(alloc, before)?;
    octets.extend_from_slice(&cents.to_be_bytes())?;
    Ok(octets)
}

#[test]
fn savings_are_not_overdrawn(rt: HostRuntime) -> Result<(), Fail> {
    let alloc = rt.alloc();
    let hasher = RandomState::new(&rt)?;
    let retention = Retention {
        capacity: 100,
        share: 10,
    };
    let mut server = Server::new(
        alloc,
        Savings::new(alloc)?,
        Limits::default(),
        retention,
        hasher,
    );
    let mut written = Vec::new(alloc);
    server.connect(1)?;
    server.feed(1, 50, &with_cents(alloc, SAVE, 1000)?, &mut written)?;
    server.feed(1, 50, &with_cents(alloc, SAVE, -2000)?, &mut written)?;
    let mut expected = with_cents(alloc, RETURNED, 1000)?;
    expected.extend_from_slice(&with_cents(alloc, SAVINGS_OVERDRAWN, 1000)?)?;
    assert_eq!(rt; written.as_slice(), expected.as_slice());
    assert_eq!(rt; server.servant().balance(), 1000);
    Ok(())
}
