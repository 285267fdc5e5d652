//! Many long clients.

use crate::minors::{keep_minor, minor_of};
use ft_log::{Log, LogError, Retention};
use std::alloc::Global;
use std::hash::RandomState;

/// A client of 256 octets whose first four are a number.
fn client(alloc: Global, number: u32) -> Result<Vec<u8>, LogError> {
    let mut octets = Vec::new(alloc);
    for octet in number.to_be_bytes() {
        if octets.push(octet).is_err() {
            return Err(LogError::Memory);
        }
    }
    octets.resize(256, b'c')?;
    Ok(octets)
}

/// Keeps an outcome for a client, which is its number. It expires after those of lesser numbers.
fn keep_client(alloc: Global, log: &mut Log, number: u32) -> Result<bool, LogError> {
    let client_id = client(alloc, number)?;
    let expiration = u64::from(number).saturating_add(30);
    keep_minor(alloc, log, &client_id, 1, expiration, number)
}

/// Keeps the outcome of another request of a client, which is its number, for long.
fn keep_later(
    alloc: Global,
    log: &mut Log,
    number: u32,
    retention_id: i32,
) -> Result<bool, LogError> {
    let client_id = client(alloc, number)?;
    keep_minor(alloc, log, &client_id, retention_id, 9000, number)
}

/// Whether the outcome of a client is found.
fn is_client_found(alloc: Global, log: &Log, number: u32) -> Result<bool, LogError> {
    let client_id = client(alloc, number)?;
    Ok(minor_of(alloc, log, &client_id, 1)? == Some(number))
}

/// Whether the outcomes of so many clients are kept, one after another.
fn are_kept(alloc: Global, log: &mut Log, clients: u32) -> Result<bool, LogError> {
    for number in 0..clients {
        if !keep_client(alloc, log, number)? {
            return Ok(false);
        }
    }
    Ok(true)
}

/// Whether the outcomes of 1,000 clients are found.
fn are_found(alloc: Global, log: &Log) -> Result<bool, LogError> {
    for number in 0..1000 {
        if !is_client_found(alloc, log, number)? {
            return Ok(false);
        }
    }
    Ok(true)
}

#[test]
fn a_thousand_long_clients_are_kept(rt: HostRuntime) {
    let hasher = RandomState::new(&rt).expect(&rt, "random");
    let retention = Retention {
        capacity: 1000,
        share: 1,
    };
    let mut log = Log::new(rt.alloc(), retention, hasher);
    assert!(rt; are_kept(rt.alloc(), &mut log, 1000).unwrap_or(false));
    assert!(rt; keep_client(rt.alloc(), &mut log, 1000) == Err(LogError::Full));
    assert!(rt; are_found(rt.alloc(), &log).unwrap_or(false));
    assert!(rt; log.len() == 1000);
}

#[test]
fn the_last_of_many_that_expired_has_its_share(rt: HostRuntime) {
    let hasher = RandomState::new(&rt).expect(&rt, "random");
    let retention = Retention {
        capacity: 2000,
        share: 1,
    };
    let mut log = Log::new(rt.alloc(), retention, hasher);
    assert!(rt; are_kept(rt.alloc(), &mut log, 1600).unwrap_or(false));
    assert!(rt; keep_later(rt.alloc(), &mut log, 1599, 2) == Err(LogError::ShareFull));
    log.forget(5000);
    assert!(rt; log.len() == 0);
    assert!(rt; keep_later(rt.alloc(), &mut log, 1599, 2) == Ok(true));
    assert!(rt; keep_later(rt.alloc(), &mut log, 1599, 3) == Err(LogError::ShareFull));
    assert!(rt; log.len() == 1);
    assert!(rt; keep_later(rt.alloc(), &mut log, 1598, 2) == Ok(true));
    assert!(rt; log.len() == 2);
}
