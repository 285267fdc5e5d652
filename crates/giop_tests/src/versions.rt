//! What each version can ask and address, and which statuses it has.

use giop_core::{LocateStatus, ReplyStatus, ReplyWish, Target, Version};
use std::process::Abort;

/// A wish for a reply, and whether 1.0, 1.1 and 1.2 can express it.
static WISHES: [(ReplyWish, [bool; 3]); 3] = [
    (ReplyWish::None, [true, true, true]),
    (ReplyWish::Empty, [false, false, true]),
    (ReplyWish::Full, [true, true, true]),
];

#[test]
fn empty_replies_are_of_1_2(rt: HostRuntime) {
    for (wish, [old, middle, new]) in &WISHES {
        assert!(rt; Version::V10.can_ask(*wish) == *old);
        assert!(rt; Version::V11.can_ask(*wish) == *middle);
        assert!(rt; Version::V12.can_ask(*wish) == *new);
    }
}

#[test]
fn profiles_are_targets_of_1_2(rt: HostRuntime) {
    let key = Target::Key(b"c");
    let profile = Target::Profile(0, &[0, 1, 0, 0]);
    assert!(rt; Version::V10.can_address(&key));
    assert!(rt; Version::V11.can_address(&key));
    assert!(rt; Version::V12.can_address(&key));
    assert!(rt; !Version::V10.can_address(&profile));
    assert!(rt; !Version::V11.can_address(&profile));
    assert!(rt; Version::V12.can_address(&profile));
}

/// A version, how many statuses its Replies have, and how many its LocateReplies.
static COUNTS: [(Version, u32, u32); 3] = [
    (Version::V10, 4, 3),
    (Version::V11, 4, 3),
    (Version::V12, 6, 6),
];

#[test]
fn statuses_of_each_version(rt: HostRuntime) {
    for (version, replies, locates) in &COUNTS {
        for status in 0..8 {
            assert!(rt; version.has_reply_status(status) == (status < *replies));
            assert!(rt; version.has_locate_status(status) == (status < *locates));
        }
    }
}

/// The statuses of Replies by their numbers.
static REPLY_STATUSES: [ReplyStatus; 6] = [
    ReplyStatus::NoException,
    ReplyStatus::UserException,
    ReplyStatus::SystemException,
    ReplyStatus::LocationForward,
    ReplyStatus::LocationForwardPerm,
    ReplyStatus::NeedsAddressingMode,
];

/// The statuses of LocateReplies by their numbers.
static LOCATE_STATUSES: [LocateStatus; 6] = [
    LocateStatus::UnknownObject,
    LocateStatus::ObjectHere,
    LocateStatus::ObjectForward,
    LocateStatus::ObjectForwardPerm,
    LocateStatus::SystemException,
    LocateStatus::NeedsAddressingMode,
];

#[test]
fn statuses_have_numbers(rt: HostRuntime) {
    let mut number: u32 = 0;
    for (reply, locate) in REPLY_STATUSES.iter().zip(&LOCATE_STATUSES) {
        assert!(rt; reply.number() == number && locate.number() == number);
        assert!(rt; ReplyStatus::from_number(number) == Some(*reply));
        assert!(rt; LocateStatus::from_number(number) == Some(*locate));
        number = number.saturating_add(1);
    }
    assert!(rt; ReplyStatus::from_number(6).is_none() && LocateStatus::from_number(6).is_none());
}
