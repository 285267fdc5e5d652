//! Outcomes that are kept.

use ft_log::{Completion, Held, Key, Log, LogError, Outcome, Retention, SystemName};
use std::alloc::Global;
use std::hash::RandomState;
use std::test::Fail;
use uses::keep_once;

/// Keeps a system exception of this minor code for a request of the client `A`.
fn keep_minor(
    alloc: Global,
    log: &mut Log,
    (retention_id, minor): (i32, u32),
    (now, expiration): (u64, u64),
) -> Result<(), LogError> {
    let key = Key::new(alloc, b"A", retention_id)?;
    let outcome = Outcome::System(SystemName::Transient, minor, Completion::Maybe);
    keep_once(log, key, now, expiration, outcome)
}

/// The minor code of the system exception that is kept for a request of the client `A`.
fn minor_of(alloc: Global, log: &Log, retention_id: i32) -> Result<Option<u32>, LogError> {
    let key = Key::new(alloc, b"A", retention_id)?;
    match log.find(&key) {
        Some(Held::Known(Outcome::System(_, minor, _))) => Ok(Some(*minor)),
        _ => Ok(None),
    }
}

/// An outcome that is offered: the number of its request, its minor code, the moment and its expiration; and the
/// minor code that is found then, or why it was refused.
type Offer = (i32, u32, (u64, u64), Result<Option<u32>, LogError>);

static OFFERS: [Offer; 5] = [
    (1, 7, (0, 20), Ok(Some(7))),
    (1, 8, (20, 30), Ok(Some(7))),
    (1, 9, (21, 30), Ok(Some(9))),
    (2, 10, (21, 30), Ok(Some(10))),
    (3, 11, (21, 30), Err(LogError::Full)),
];

/// What is found after an outcome was offered.
fn found_after(
    alloc: Global,
    log: &mut Log,
    (retention_id, minor): (i32, u32),
    moments: (u64, u64),
) -> Result<Option<u32>, LogError> {
    keep_minor(alloc, log, (retention_id, minor), moments)?;
    minor_of(alloc, log, retention_id)
}

#[test]
fn the_first_outcome_is_kept_until_it_expires(rt: HostRuntime) -> Result<(), Fail> {
    let retention = Retention {
        capacity: 2,
        share: 2,
    };
    let mut log = Log::new(rt.alloc(), retention, RandomState::new(&rt)?);
    for (retention_id, minor, moments, wanted) in &OFFERS {
        let found = found_after(rt.alloc(), &mut log, (*retention_id, *minor), *moments);
        assert!(rt; found == *wanted, "{minor}");
    }
    Ok(())
}
