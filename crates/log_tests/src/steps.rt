//! Calls of a log, one after another, and what each gives.

use crate::minors::{keep_minor, minor_of, park};
use ft_log::{Key, Log, LogError, Retention};
use std::alloc::Global;
use std::hash::RandomState;
use std::process::Abort;

/// A call of a log, and what it gives.
pub(crate) enum Step {
    /// A system exception is kept: its client and retention id, its expiration, and its minor code.
    Keeps(&'static [u8], i32, u64, u32),
    /// The place of an outcome is kept: its client and retention id, its expiration, and the number of the call.
    Parks(&'static [u8], i32, u64, u64),
    /// The call that is parked under a number is withdrawn: its client and retention id, and the number.
    Withdraws(&'static [u8], i32, u64),
    /// Room for a request is made, and not used.
    MakesRoom(&'static [u8], i32),
    /// Room for a request is refused.
    Refuses(&'static [u8], i32, LogError),
    /// What expires before a moment is forgotten.
    Forgets(u64),
    /// The minor code that is kept for a request, if one is.
    Finds(&'static [u8], i32, Option<u32>),
    /// The least expiration.
    Expires(Option<u64>),
    /// How many outcomes are kept.
    Holds(usize),
    /// How many outcomes of a client are kept.
    HoldsOf(&'static [u8], u32),
}

/// Makes room for a request, and says whether it has no outcome.
fn make_room(
    alloc: Global,
    log: &mut Log,
    client_id: &[u8],
    retention_id: i32,
) -> Result<bool, LogError> {
    let key = Key::new(alloc, client_id, retention_id)?;
    if log.find(&key).is_some() {
        return Ok(false);
    }
    log.make_room(&key)?;
    Ok(true)
}

/// Makes a call, and says whether it gives what it should.
fn is_given(alloc: Global, log: &mut Log, step: &Step) -> Result<bool, LogError> {
    match step {
        Step::Keeps(client, id, expiration, minor) => {
            keep_minor(alloc, log, client, *id, *expiration, *minor)
        }
        Step::Parks(client, id, expiration, number) => {
            park(alloc, log, client, *id, *expiration, *number)
        }
        Step::Withdraws(client, id, number) => {
            log.withdraw(&Key::new(alloc, client, *id)?, *number);
            Ok(true)
        }
        Step::MakesRoom(client, id) => make_room(alloc, log, client, *id),
        Step::Refuses(client, id, why) => Ok(make_room(alloc, log, client, *id) == Err(*why)),
        Step::Forgets(now) => {
            log.forget(*now);
            Ok(true)
        }
        Step::Finds(client, id, minor) => Ok(minor_of(alloc, log, client, *id)? == *minor),
        Step::Expires(moment) => Ok(log.next_expiry() == *moment),
        Step::Holds(number) => Ok(log.len() == *number),
        Step::HoldsOf(client, number) => Ok(log.held_by(client) == *number),
    }
}

/// Asserts what each of these calls gives on a new log of that capacity and share.
pub(crate) fn assert_given(
    rt: &(impl Abort + AllocGlobal),
    hasher: RandomState,
    (capacity, share): (u32, u32),
    steps: &[Step],
) {
    let mut log = Log::new(rt.alloc(), Retention { capacity, share }, hasher);
    for (index, step) in steps.iter().enumerate() {
        let holds = is_given(rt.alloc(), &mut log, step).unwrap_or(false);
        assert!(rt; holds, "step {index}");
    }
}
