//! Logs: what is kept, found, forgotten and refused.

use crate::minors::keep_minor;
use crate::steps::Step::{
    Expires, Finds, Forgets, Holds, HoldsOf, Keeps, MakesRoom, Parks, Refuses, Withdraws,
};
use crate::steps::{Step, assert_given};
use ft_log::{Log, LogError, Retention};
use std::alloc::{AllocError, Global};
use std::hash::RandomState;

/// Exactly what is expired is forgotten.
static EXPIRED: [Step; 9] = [
    Keeps(b"A", 1, 30, 7),
    Keeps(b"A", 2, 10, 8),
    Keeps(b"B", 1, 20, 9),
    Forgets(10),
    Holds(3),
    Forgets(21),
    Finds(b"A", 1, Some(7)),
    Finds(b"A", 2, None),
    Finds(b"B", 1, None),
];

#[test]
fn what_is_expired_is_forgotten(rt: HostRuntime) {
    let hasher = RandomState::new(&rt).expect(&rt, "random");
    assert_given(&rt, hasher, (8, 8), &EXPIRED);
}

/// The next expiry is the least of those that are kept.
static LEAST: [Step; 12] = [
    Expires(None),
    Keeps(b"A", 1, 30, 7),
    Keeps(b"A", 2, 10, 8),
    Keeps(b"B", 1, 20, 9),
    Expires(Some(10)),
    Forgets(10),
    Holds(3),
    Expires(Some(10)),
    Forgets(21),
    Expires(Some(30)),
    HoldsOf(b"A", 1),
    HoldsOf(b"B", 0),
];

#[test]
fn the_next_expiry_is_the_least(rt: HostRuntime) {
    let hasher = RandomState::new(&rt).expect(&rt, "random");
    assert_given(&rt, hasher, (8, 8), &LEAST);
}

/// A full log refuses, keeps what it has, and takes another once one is forgotten.
static FULL: [Step; 8] = [
    Keeps(b"A", 1, 30, 7),
    Keeps(b"A", 2, 10, 8),
    Refuses(b"B", 1, LogError::Full),
    Finds(b"A", 1, Some(7)),
    Forgets(11),
    Keeps(b"B", 1, 40, 9),
    Finds(b"B", 1, Some(9)),
    Holds(2),
];

#[test]
fn a_full_log_refuses(rt: HostRuntime) {
    let hasher = RandomState::new(&rt).expect(&rt, "random");
    assert_given(&rt, hasher, (2, 2), &FULL);
}

/// A client that has its share is refused, and another is not.
static SHARES: [Step; 6] = [
    Keeps(b"A", 1, 30, 7),
    Refuses(b"A", 2, LogError::ShareFull),
    Keeps(b"B", 2, 30, 9),
    HoldsOf(b"A", 1),
    HoldsOf(b"B", 1),
    HoldsOf(b"C", 0),
];

#[test]
fn a_client_has_its_share(rt: HostRuntime) {
    let hasher = RandomState::new(&rt).expect(&rt, "random");
    assert_given(&rt, hasher, (4, 1), &SHARES);
}

/// Room that is made shows nowhere, and gives way to the room of another key.
static UNSEEN: [Step; 10] = [
    Finds(b"A", 1, None),
    MakesRoom(b"A", 1),
    Finds(b"A", 1, None),
    HoldsOf(b"A", 0),
    Holds(0),
    Expires(None),
    Keeps(b"B", 2, 30, 7),
    Finds(b"B", 2, Some(7)),
    Finds(b"A", 1, None),
    HoldsOf(b"A", 0),
];

#[test]
fn room_is_unseen(rt: HostRuntime) {
    let hasher = RandomState::new(&rt).expect(&rt, "random");
    assert_given(&rt, hasher, (1, 1), &UNSEEN);
}

/// What is withdrawn gives its room back, and its expiration is nobody's: what is kept anew has its own.
static WITHDRAWN: [Step; 29] = [
    Parks(b"A", 1, 30, 7),
    Keeps(b"B", 1, 40, 9),
    Refuses(b"A", 2, LogError::ShareFull),
    Withdraws(b"A", 1, 8),
    Withdraws(b"A", 2, 7),
    Withdraws(b"B", 1, 9),
    Holds(2),
    Expires(Some(30)),
    Withdraws(b"A", 1, 7),
    Holds(1),
    HoldsOf(b"A", 0),
    HoldsOf(b"B", 1),
    Finds(b"A", 1, None),
    Expires(Some(40)),
    Withdraws(b"A", 1, 7),
    Keeps(b"A", 1, 50, 6),
    Forgets(31),
    Finds(b"A", 1, Some(6)),
    Forgets(41),
    Finds(b"B", 1, None),
    Expires(Some(50)),
    Parks(b"B", 2, 60, 5),
    Withdraws(b"B", 2, 5),
    Parks(b"B", 2, 45, 5),
    Expires(Some(45)),
    Forgets(51),
    Holds(0),
    Expires(None),
    HoldsOf(b"B", 0),
];

#[test]
fn what_is_withdrawn_gives_its_room_back(rt: HostRuntime) {
    let hasher = RandomState::new(&rt).expect(&rt, "random");
    assert_given(&rt, hasher, (4, 1), &WITHDRAWN);
}

/// Twelve that expire at once are gone at once: their keys and their places are free. What is kept for less long than what
/// went is there all the same.
static LEAP: [Step; 33] = [
    Keeps(b"A", 1, 10, 1),
    Keeps(b"A", 2, 11, 2),
    Keeps(b"A", 3, 12, 3),
    Keeps(b"A", 4, 13, 4),
    Keeps(b"A", 5, 14, 5),
    Keeps(b"A", 6, 15, 6),
    Keeps(b"B", 1, 16, 7),
    Keeps(b"B", 2, 17, 8),
    Keeps(b"B", 3, 18, 9),
    Keeps(b"B", 4, 19, 10),
    Keeps(b"B", 5, 20, 11),
    Keeps(b"B", 6, 21, 12),
    Keeps(b"C", 1, 200, 13),
    Refuses(b"C", 2, LogError::Full),
    Forgets(100),
    Holds(1),
    HoldsOf(b"A", 0),
    HoldsOf(b"B", 0),
    HoldsOf(b"C", 1),
    Finds(b"B", 6, None),
    Finds(b"C", 1, Some(13)),
    Expires(Some(200)),
    MakesRoom(b"B", 6),
    Keeps(b"B", 6, 150, 14),
    Finds(b"B", 6, Some(14)),
    Holds(2),
    Expires(Some(150)),
    Keeps(b"B", 5, 50, 15),
    Finds(b"B", 5, Some(15)),
    HoldsOf(b"B", 2),
    Expires(Some(50)),
    Forgets(101),
    Expires(Some(150)),
];

#[test]
fn many_expire_at_once(rt: HostRuntime) {
    let hasher = RandomState::new(&rt).expect(&rt, "random");
    assert_given(&rt, hasher, (13, 6), &LEAP);
}

/// A client whose share expired behind twenty of others has room again, for as many as its share.
static BEHIND: [Step; 37] = [
    Keeps(b"A", 1, 10, 1),
    Keeps(b"A", 2, 11, 2),
    Keeps(b"A", 3, 12, 3),
    Keeps(b"A", 4, 13, 4),
    Keeps(b"B", 1, 14, 5),
    Keeps(b"B", 2, 15, 6),
    Keeps(b"B", 3, 16, 7),
    Keeps(b"B", 4, 17, 8),
    Keeps(b"C", 1, 18, 9),
    Keeps(b"C", 2, 19, 10),
    Keeps(b"C", 3, 20, 11),
    Keeps(b"C", 4, 21, 12),
    Keeps(b"D", 1, 22, 13),
    Keeps(b"D", 2, 23, 14),
    Keeps(b"D", 3, 24, 15),
    Keeps(b"D", 4, 25, 16),
    Keeps(b"E", 1, 26, 17),
    Keeps(b"E", 2, 27, 18),
    Keeps(b"E", 3, 28, 19),
    Keeps(b"E", 4, 29, 20),
    Keeps(b"F", 1, 30, 21),
    Keeps(b"F", 2, 31, 22),
    Keeps(b"F", 3, 32, 23),
    Keeps(b"F", 4, 33, 24),
    Refuses(b"F", 5, LogError::ShareFull),
    Forgets(100),
    Holds(0),
    HoldsOf(b"F", 0),
    Keeps(b"F", 5, 150, 25),
    HoldsOf(b"F", 1),
    Keeps(b"F", 4, 151, 26),
    Keeps(b"F", 1, 152, 27),
    Keeps(b"F", 6, 153, 28),
    Refuses(b"F", 7, LogError::ShareFull),
    Finds(b"F", 4, Some(26)),
    Expires(Some(150)),
    Holds(4),
];

#[test]
fn a_share_that_expired_is_free(rt: HostRuntime) {
    let hasher = RandomState::new(&rt).expect(&rt, "random");
    assert_given(&rt, hasher, (26, 4), &BEHIND);
}

/// Whether a log prints so.
fn is_shown(alloc: Global, log: &Log, wanted: &str) -> Result<bool, AllocError> {
    let text = format!(in alloc; "{log:?}")?;
    Ok(text.as_str() == wanted)
}

#[test]
fn a_log_is_printed_without_its_outcomes(rt: HostRuntime) {
    let hasher = RandomState::new(&rt).expect(&rt, "random");
    let retention = Retention {
        capacity: 4,
        share: 1,
    };
    let mut log = Log::new(rt.alloc(), retention, hasher);
    assert!(rt; keep_minor(rt.alloc(), &mut log, b"A", 1, 30, 7) == Ok(true));
    assert!(rt; keep_minor(rt.alloc(), &mut log, b"B", 2, 30, 9) == Ok(true));
    let text = "Log { capacity: 4, share: 1, len: 2, .. }";
    assert!(rt; is_shown(rt.alloc(), &log, text).unwrap_or(false));
}
