//! Octets of a client's connection, written out by hand, and what a client's end lends of those that come.

use giop_core::HeaderFault;
use giop_frames::StreamFault;
use giop_link::LinkFault;

/// A Request of 1.2 and of id 1: all of the reply, key `c`, operation `add`, no contexts, the octets 0 0 0 7.
pub(crate) const REQUEST_1: &[u8] =
    b"GIOP\x01\x02\x00\x00\x00\x00\x00\x28\x00\x00\x00\x01\x03\x00\x00\x00\x00\x00\x00\x00\x00\x00\x00\x01c\x00\x00\x00\x00\x00\x00\x04add\x00\x00\x00\x00\x00\x00\x00\x00\x00\x00\x00\x00\x07";

/// The same of id 3, for which no reply is wanted.
pub(crate) const ONEWAY_3: &[u8] =
    b"GIOP\x01\x02\x00\x00\x00\x00\x00\x28\x00\x00\x00\x03\x00\x00\x00\x00\x00\x00\x00\x00\x00\x00\x00\x01c\x00\x00\x00\x00\x00\x00\x04add\x00\x00\x00\x00\x00\x00\x00\x00\x00\x00\x00\x00\x07";

/// A LocateRequest of 1.2 and of id 1: key `c`.
pub(crate) const LOCATE_1: &[u8] =
    b"GIOP\x01\x02\x00\x03\x00\x00\x00\x0d\x00\x00\x00\x01\x00\x00\x00\x00\x00\x00\x00\x01c";

/// A CancelRequest of 1.2 and of id 1.
pub(crate) const CANCEL_1: &[u8] = b"GIOP\x01\x02\x00\x02\x00\x00\x00\x04\x00\x00\x00\x01";

/// A Reply of 1.2 and of id 1: no exception, no contexts, the octets 0 0 0 7 at 24.
pub(crate) const REPLY_1: &[u8] =
    b"GIOP\x01\x02\x00\x01\x00\x00\x00\x10\x00\x00\x00\x01\x00\x00\x00\x00\x00\x00\x00\x00\x00\x00\x00\x07";

/// A Reply of 1.0 and of id 1, in little order: no contexts, no exception, the octets 7 0 0 0 at 24.
pub(crate) const REPLY_1_LITTLE: &[u8] =
    b"GIOP\x01\x00\x01\x01\x10\x00\x00\x00\x00\x00\x00\x00\x01\x00\x00\x00\x00\x00\x00\x00\x07\x00\x00\x00";

/// The first frame of the Reply of 1.2 and of id 1, without its body.
pub(crate) const REPLY_1_FIRST: &[u8] =
    b"GIOP\x01\x02\x02\x01\x00\x00\x00\x0c\x00\x00\x00\x01\x00\x00\x00\x00\x00\x00\x00\x00";

/// Its body, after the request id.
pub(crate) const REPLY_1_LAST: &[u8] =
    b"GIOP\x01\x02\x00\x07\x00\x00\x00\x08\x00\x00\x00\x01\x00\x00\x00\x07";

/// A Reply of 1.2 and of id 2, which is that of a locate.
pub(crate) const REPLY_2: &[u8] =
    b"GIOP\x01\x02\x00\x01\x00\x00\x00\x0c\x00\x00\x00\x02\x00\x00\x00\x00\x00\x00\x00\x00";

/// A Reply of 1.2 and of id 3, which nobody wants.
pub(crate) const REPLY_3: &[u8] =
    b"GIOP\x01\x02\x00\x01\x00\x00\x00\x0c\x00\x00\x00\x03\x00\x00\x00\x00\x00\x00\x00\x00";

/// A Reply of 1.2 and of id 4: a user exception, and no body.
pub(crate) const RAISED_4: &[u8] =
    b"GIOP\x01\x02\x00\x01\x00\x00\x00\x0c\x00\x00\x00\x04\x00\x00\x00\x01\x00\x00\x00\x00";

/// A Reply of 1.2 and of id 1: LOCATION_FORWARD, and the octets 1 2 3 4.
pub(crate) const FORWARD_1: &[u8] =
    b"GIOP\x01\x02\x00\x01\x00\x00\x00\x10\x00\x00\x00\x01\x00\x00\x00\x03\x00\x00\x00\x00\x01\x02\x03\x04";

/// A Reply of 1.2 and of id 4: LOCATION_FORWARD, and no body.
pub(crate) const FORWARD_4: &[u8] =
    b"GIOP\x01\x02\x00\x01\x00\x00\x00\x0c\x00\x00\x00\x04\x00\x00\x00\x03\x00\x00\x00\x00";

/// A Reply of 1.2 and of id 1: LOCATION_FORWARD_PERM, and the octets 1 2 3 4.
pub(crate) const FORWARD_PERM_1: &[u8] =
    b"GIOP\x01\x02\x00\x01\x00\x00\x00\x10\x00\x00\x00\x01\x00\x00\x00\x04\x00\x00\x00\x00\x01\x02\x03\x04";

/// A Reply of 1.2 and of id 4: LOCATION_FORWARD_PERM, and no body.
pub(crate) const FORWARD_PERM_4: &[u8] =
    b"GIOP\x01\x02\x00\x01\x00\x00\x00\x0c\x00\x00\x00\x04\x00\x00\x00\x04\x00\x00\x00\x00";

/// A Reply of 1.2 and of id 1: NEEDS_ADDRESSING_MODE, and the short 2.
pub(crate) const ADDRESSING_1: &[u8] =
    b"GIOP\x01\x02\x00\x01\x00\x00\x00\x0e\x00\x00\x00\x01\x00\x00\x00\x05\x00\x00\x00\x00\x00\x02";

/// A Reply of 1.2 and of id 4: NEEDS_ADDRESSING_MODE, and no body.
pub(crate) const ADDRESSING_4: &[u8] =
    b"GIOP\x01\x02\x00\x01\x00\x00\x00\x0c\x00\x00\x00\x04\x00\x00\x00\x05\x00\x00\x00\x00";

/// A LocateReply of 1.2 and of id 1: the object is here.
pub(crate) const LOCATED_1: &[u8] =
    b"GIOP\x01\x02\x00\x04\x00\x00\x00\x08\x00\x00\x00\x01\x00\x00\x00\x01";

/// The same of id 2.
pub(crate) const LOCATED_2: &[u8] =
    b"GIOP\x01\x02\x00\x04\x00\x00\x00\x08\x00\x00\x00\x02\x00\x00\x00\x01";

/// A LocateReply of 1.2 and of id 2: OBJECT_FORWARD, and the octets 1 2.
pub(crate) const LOCATED_2_FORWARD: &[u8] =
    b"GIOP\x01\x02\x00\x04\x00\x00\x00\x0a\x00\x00\x00\x02\x00\x00\x00\x02\x01\x02";

/// CloseConnection of 1.0.
pub(crate) const CLOSE: &[u8] = b"GIOP\x01\x00\x00\x05\x00\x00\x00\x00";

/// MessageError of 1.2.
pub(crate) const ERROR: &[u8] = b"GIOP\x01\x02\x00\x06\x00\x00\x00\x00";

/// The Reply of id 1, and twelve octets that are no header, in one piece.
pub(crate) const REPLY_1_AND_NO_HEADER: &[u8] =
    b"GIOP\x01\x02\x00\x01\x00\x00\x00\x10\x00\x00\x00\x01\x00\x00\x00\x00\x00\x00\x00\x00\x00\x00\x00\x07GIOQ\x01\x02\x00\x00\x00\x00\x00\x00";

/// What is lent.
#[derive(Clone, Copy)]
pub(crate) enum Came {
    /// A reply: its id, its status and its body.
    Reply(u32, u32, &'static [u8]),
    /// The answer to a locate: its id, its status and its body.
    Located(u32, u32, &'static [u8]),
    /// Where a reply of this id forwards to.
    Forward(u32, &'static [u8]),
    NeedsAddressing(u32),
    Closed,
    PeerError,
}

/// Messages that come where ids 1 and 4 wait for a reply and 2 for a locate's: what is lent of them in turn, how
/// many ids are outstanding then, whether the link is closed, and why.
pub(crate) struct Row {
    pub name: &'static str,
    pub messages: &'static [&'static [u8]],
    pub came: &'static [Came],
    pub outstanding: usize,
    pub is_closed: bool,
    pub fault: Option<LinkFault>,
}

pub(crate) static ROWS: [Row; 15] = [
    Row {
        name: "a reply, and its octets again",
        messages: &[REPLY_1, REPLY_1],
        came: &[Came::Reply(1, 0, b"\x00\x00\x00\x07")],
        outstanding: 2,
        is_closed: false,
        fault: None,
    },
    Row {
        name: "a reply of 1.0 in little order",
        messages: &[REPLY_1_LITTLE],
        came: &[Came::Reply(1, 0, b"\x07\x00\x00\x00")],
        outstanding: 2,
        is_closed: false,
        fault: None,
    },
    Row {
        name: "replies in another order",
        messages: &[RAISED_4, LOCATED_2, REPLY_1],
        came: &[
            Came::Reply(4, 1, b""),
            Came::Located(2, 1, b""),
            Came::Reply(1, 0, b"\x00\x00\x00\x07"),
        ],
        outstanding: 0,
        is_closed: false,
        fault: None,
    },
    Row {
        name: "two frames of a reply, and a locate's answer between them",
        messages: &[REPLY_1_FIRST, LOCATED_2, REPLY_1_LAST],
        came: &[
            Came::Located(2, 1, b""),
            Came::Reply(1, 0, b"\x00\x00\x00\x07"),
        ],
        outstanding: 1,
        is_closed: false,
        fault: None,
    },
    Row {
        name: "answers of the other kind, and one that nobody wants",
        messages: &[LOCATED_1, REPLY_2, REPLY_3],
        came: &[],
        outstanding: 3,
        is_closed: false,
        fault: None,
    },
    Row {
        name: "a locate's answer that forwards",
        messages: &[LOCATED_2_FORWARD, LOCATED_2],
        came: &[Came::Located(2, 2, b"\x01\x02")],
        outstanding: 2,
        is_closed: false,
        fault: None,
    },
    Row {
        name: "replies that forward",
        messages: &[FORWARD_1, FORWARD_4],
        came: &[Came::Forward(1, b"\x01\x02\x03\x04"), Came::Forward(4, b"")],
        outstanding: 1,
        is_closed: false,
        fault: None,
    },
    Row {
        name: "replies that forward for good",
        messages: &[FORWARD_PERM_4, FORWARD_PERM_1],
        came: &[Came::Forward(4, b""), Came::Forward(1, b"\x01\x02\x03\x04")],
        outstanding: 1,
        is_closed: false,
        fault: None,
    },
    Row {
        name: "replies that ask for another addressing",
        messages: &[ADDRESSING_1, ADDRESSING_4],
        came: &[Came::NeedsAddressing(1), Came::NeedsAddressing(4)],
        outstanding: 1,
        is_closed: false,
        fault: None,
    },
    Row {
        name: "a close, and a reply after it",
        messages: &[RAISED_4, CLOSE, REPLY_1],
        came: &[Came::Reply(4, 1, b""), Came::Closed],
        outstanding: 0,
        is_closed: true,
        fault: None,
    },
    Row {
        name: "an error, and a close after it",
        messages: &[ERROR, CLOSE],
        came: &[Came::PeerError],
        outstanding: 0,
        is_closed: true,
        fault: None,
    },
    Row {
        name: "a request",
        messages: &[REPLY_1, REQUEST_1],
        came: &[Came::Reply(1, 0, b"\x00\x00\x00\x07")],
        outstanding: 0,
        is_closed: true,
        fault: Some(LinkFault::WrongDirection),
    },
    Row {
        name: "a locate",
        messages: &[LOCATE_1],
        came: &[],
        outstanding: 0,
        is_closed: true,
        fault: Some(LinkFault::WrongDirection),
    },
    Row {
        name: "a cancel",
        messages: &[CANCEL_1],
        came: &[],
        outstanding: 0,
        is_closed: true,
        fault: Some(LinkFault::WrongDirection),
    },
    Row {
        name: "a fault after a reply",
        messages: &[REPLY_1_AND_NO_HEADER],
        came: &[Came::Reply(1, 0, b"\x00\x00\x00\x07")],
        outstanding: 0,
        is_closed: true,
        fault: Some(LinkFault::Stream(StreamFault::Header(HeaderFault::BadMagic))),
    },
];
