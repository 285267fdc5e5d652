//! A ledger that a server performs.

use crate::octets::{ENTRIES, ONE_ENTRY, POST, REFUSED, RETURNED, SETTLE, TOTAL, TWO_ENTRIES};
use ft_log::Retention;
use ft_orb::Server;
use giop_frames::Limits;
use std::alloc::{AllocError, Global};
use std::hash::RandomState;
use std::test::Fail;
use uses::Ledger;

/// A request, the numbers that stand after it, and its reply with those after it.
type Step = (&'static [u8], &'static [i64], &'static [u8], &'static [i64]);

static STEPS: [Step; 8] = [
    (POST, &[1000], RETURNED, &[1000]),
    (POST, &[-400], RETURNED, &[600]),
    (POST, &[-700], REFUSED, &[600]),
    (POST, &[i64::MAX], REFUSED, &[600]),
    (ENTRIES, &[], TWO_ENTRIES, &[1000, -400]),
    (SETTLE, &[], RETURNED, &[600]),
    (ENTRIES, &[], ONE_ENTRY, &[600]),
    (TOTAL, &[], RETURNED, &[600]),
];

/// The octets, and after them numbers.
fn with_numbers(alloc: Global, before: &[u8], numbers: &[i64]) -> Result<Vec<u8>, AllocError> {
    let mut octets = Vec::from_slice(alloc, before)?;
    for number in numbers {
        octets.extend_from_slice(&number.to_be_bytes())?;
    }
    Ok(octets)
}

#[test]
fn a_ledger_tells_its_entries(rt: HostRuntime) -> Result<(), Fail> {
    let alloc = rt.alloc();
    let hasher = RandomState::new(&rt)?;
    let retention = Retention {
        capacity: 100,
        share: 10,
    };
    let mut server = Server::new(
        alloc,
        Ledger::new(alloc)?,
        Limits::default(),
        retention,
        hasher,
    );
    server.connect(1)?;
    for (request, sent, reply, told) in &STEPS {
        let mut written = Vec::new(alloc);
        let octets = with_numbers(alloc, request, sent)?;
        server.feed(1, 50, &octets, &mut written)?;
        let expected = with_numbers(alloc, reply, told)?;
        assert!(rt; written.as_slice() == expected.as_slice());
    }
    assert!(rt; server.servant().entries() == [600_i64].as_slice());
    Ok(())
}
