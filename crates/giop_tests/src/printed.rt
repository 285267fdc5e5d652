//! The texts of versions, kinds, wishes, statuses, faults and errors.

use cdr_core::{Fault, Kind};
use giop_core::{
    HeaderFault, LocateStatus, MessageFault, MessageKind, ReplyStatus, ReplyWish, Version,
    WriteError,
};
use trials::misprinted;

static HEADER_FAULTS: [(HeaderFault, &str); 5] = [
    (HeaderFault::BadMagic, "bad magic"),
    (HeaderFault::BadVersion, "bad version"),
    (HeaderFault::BadFlags, "bad flags"),
    (HeaderFault::BadType, "bad type"),
    (HeaderFault::BadCut, "bad cut"),
];

static MESSAGE_FAULTS: [(MessageFault, &str); 2] = [
    (
        MessageFault::Cdr(Fault {
            kind: Kind::BadEnum,
            at: 16,
        }),
        "bad enum at 16",
    ),
    (MessageFault::BadAddressing(16), "bad addressing at 16"),
];

static WRITE_ERRORS: [(WriteError, &str); 2] = [
    (WriteError::TooLong, "too long"),
    (WriteError::Memory, "memory"),
];

#[test]
fn faults_and_errors_are_printed(rt: HostRuntime) {
    assert_eq!(rt; misprinted(&HEADER_FAULTS), None);
    assert_eq!(rt; misprinted(&MESSAGE_FAULTS), None);
    assert_eq!(rt; misprinted(&WRITE_ERRORS), None);
}

static VERSIONS: [(Version, &str); 3] = [
    (Version::V10, "1.0"),
    (Version::V11, "1.1"),
    (Version::V12, "1.2"),
];

static KINDS: [(MessageKind, &str); 8] = [
    (MessageKind::Request, "Request"),
    (MessageKind::Reply, "Reply"),
    (MessageKind::CancelRequest, "CancelRequest"),
    (MessageKind::LocateRequest, "LocateRequest"),
    (MessageKind::LocateReply, "LocateReply"),
    (MessageKind::CloseConnection, "CloseConnection"),
    (MessageKind::MessageError, "MessageError"),
    (MessageKind::Fragment, "Fragment"),
];

static WISHES: [(ReplyWish, &str); 3] = [
    (ReplyWish::None, "none"),
    (ReplyWish::Empty, "empty"),
    (ReplyWish::Full, "full"),
];

#[test]
fn versions_kinds_and_wishes_are_printed(rt: HostRuntime) {
    assert_eq!(rt; misprinted(&VERSIONS), None);
    assert_eq!(rt; misprinted(&KINDS), None);
    assert_eq!(rt; misprinted(&WISHES), None);
}

static REPLY_STATUSES: [(ReplyStatus, &str); 6] = [
    (ReplyStatus::NoException, "NO_EXCEPTION"),
    (ReplyStatus::UserException, "USER_EXCEPTION"),
    (ReplyStatus::SystemException, "SYSTEM_EXCEPTION"),
    (ReplyStatus::LocationForward, "LOCATION_FORWARD"),
    (ReplyStatus::LocationForwardPerm, "LOCATION_FORWARD_PERM"),
    (ReplyStatus::NeedsAddressingMode, "NEEDS_ADDRESSING_MODE"),
];

static LOCATE_STATUSES: [(LocateStatus, &str); 6] = [
    (LocateStatus::UnknownObject, "UNKNOWN_OBJECT"),
    (LocateStatus::ObjectHere, "OBJECT_HERE"),
    (LocateStatus::ObjectForward, "OBJECT_FORWARD"),
    (LocateStatus::ObjectForwardPerm, "OBJECT_FORWARD_PERM"),
    (LocateStatus::SystemException, "LOC_SYSTEM_EXCEPTION"),
    (
        LocateStatus::NeedsAddressingMode,
        "LOC_NEEDS_ADDRESSING_MODE",
    ),
];

#[test]
fn statuses_are_printed(rt: HostRuntime) {
    assert_eq!(rt; misprinted(&REPLY_STATUSES), None);
    assert_eq!(rt; misprinted(&LOCATE_STATUSES), None);
}
