//! Outcomes that are told apart by their minor codes.

use ft_log::{Completion, Held, Key, Log, LogError, Outcome, SystemName};
use std::alloc::{AllocError, Global};

/// A system exception with this minor code.
pub(crate) fn outcome_of(minor: u32) -> Outcome {
    Outcome::System(SystemName::Transient, minor, Completion::Maybe)
}

/// The minor code of an outcome that `outcome_of` made.
pub(crate) fn minor_in(outcome: Option<&Outcome>) -> Option<u32> {
    match outcome {
        Some(Outcome::System(_, minor, _)) => Some(*minor),
        _ => None,
    }
}

/// The minor code of the outcome that is held, if it is there.
pub(crate) fn minor_held(held: Option<&Held>) -> Option<u32> {
    match held {
        Some(held) => minor_in(held.outcome()),
        None => None,
    }
}

/// Keeps a system exception of this minor code for a request, and says whether it had none before.
pub(crate) fn keep_minor(
    alloc: Global,
    log: &mut Log,
    client_id: &[u8],
    retention_id: i32,
    expiration: u64,
    minor: u32,
) -> Result<bool, LogError> {
    let key = Key::new(alloc, client_id, retention_id)?;
    if log.find(&key).is_some() {
        return Ok(false);
    }
    log.make_room(&key)?;
    log.keep(key, expiration, outcome_of(minor));
    Ok(true)
}

/// Keeps the place of an outcome, for a call of this number, and says whether the request had none before.
pub(crate) fn park(
    alloc: Global,
    log: &mut Log,
    client_id: &[u8],
    retention_id: i32,
    expiration: u64,
    number: u64,
) -> Result<bool, LogError> {
    let key = Key::new(alloc, client_id, retention_id)?;
    if log.find(&key).is_some() {
        return Ok(false);
    }
    log.make_room(&key)?;
    log.keep_parked(key, expiration, number);
    Ok(true)
}

/// The minor code of the system exception that is kept for a request.
pub(crate) fn minor_of(
    alloc: Global,
    log: &Log,
    client_id: &[u8],
    retention_id: i32,
) -> Result<Option<u32>, AllocError> {
    let key = Key::new(alloc, client_id, retention_id)?;
    Ok(minor_held(log.find(&key)))
}
