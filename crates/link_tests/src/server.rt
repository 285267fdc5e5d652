//! Links: what a server's end lends of a client's octets, and how it is closed.

use giop_core::{HeaderFault, ReplyWish, Target, Version};
use giop_frames::{Limits, StreamFault};
use giop_link::{Inbound, LinkFault, ServerLink};
use std::alloc::Global;
use std::process::Abort;
use std::test::Fail;
use trials::misprinted;

/// How many octets a piece has.
static SIZES: [usize; 3] = [1, 13, 4096];

/// A Request of 1.2 and of id 5: all of the reply, key `c`, operation `add`, no contexts, the octets 0 0 0 7.
pub(crate) const REQUEST: &[u8] =
    b"GIOP\x01\x02\x00\x00\x00\x00\x00\x28\x00\x00\x00\x05\x03\x00\x00\x00\x00\x00\x00\x00\x00\x00\x00\x01c\x00\x00\x00\x00\x00\x00\x04add\x00\x00\x00\x00\x00\x00\x00\x00\x00\x00\x00\x00\x07";

/// A LocateRequest of 1.0 and of id 6, in little order: key `cd`.
const LOCATE: &[u8] = b"GIOP\x01\x00\x01\x03\x0a\x00\x00\x00\x06\x00\x00\x00\x02\x00\x00\x00cd";

/// A CancelRequest of 1.1 and of id 5.
const CANCEL: &[u8] = b"GIOP\x01\x01\x00\x02\x00\x00\x00\x04\x00\x00\x00\x05";

/// CloseConnection of 1.2.
const CLOSE: &[u8] = b"GIOP\x01\x02\x00\x05\x00\x00\x00\x00";

/// MessageError of 1.0.
const ERROR: &[u8] = b"GIOP\x01\x00\x00\x06\x00\x00\x00\x00";

/// A Reply of 1.0 and of id 5, without contexts, status or body.
pub(crate) const REPLY: &[u8] =
    b"GIOP\x01\x00\x00\x01\x00\x00\x00\x0c\x00\x00\x00\x00\x00\x00\x00\x05\x00\x00\x00\x00";

/// A LocateReply of 1.2 and of id 6: the object is unknown.
const LOCATE_REPLY: &[u8] = b"GIOP\x01\x02\x00\x04\x00\x00\x00\x08\x00\x00\x00\x06\x00\x00\x00\x00";

/// The first frame of a Reply of 1.2 and of id 5, of 24 octets: no exception, and no contexts.
const REPLY_FIRST: &[u8] =
    b"GIOP\x01\x02\x02\x01\x00\x00\x00\x0c\x00\x00\x00\x05\x00\x00\x00\x00\x00\x00\x00\x00";

/// Its last four octets, after the request id.
const REPLY_LAST: &[u8] = b"GIOP\x01\x02\x00\x07\x00\x00\x00\x08\x00\x00\x00\x05\x00\x00\x00\x07";

/// What is lent.
#[derive(Clone, Copy)]
enum Came {
    /// The Request above.
    Add,
    /// The LocateRequest above.
    Located,
    /// A CancelRequest of the request of this id.
    Cancelled(u32),
    PeerClosed,
    PeerError,
}

/// Messages, what is lent of them in turn, whether the link is closed then, and why.
struct Row {
    name: &'static str,
    messages: &'static [&'static [u8]],
    came: &'static [Came],
    is_closed: bool,
    fault: Option<LinkFault>,
}

static ROWS: [Row; 9] = [
    Row {
        name: "a request, a locate and a cancel",
        messages: &[REQUEST, LOCATE, CANCEL, REQUEST],
        came: &[Came::Add, Came::Located, Came::Cancelled(5), Came::Add],
        is_closed: false,
        fault: None,
    },
    Row {
        name: "a close, and a request after it",
        messages: &[LOCATE, CLOSE, REQUEST],
        came: &[Came::Located, Came::PeerClosed],
        is_closed: true,
        fault: None,
    },
    Row {
        name: "an error",
        messages: &[ERROR, REQUEST],
        came: &[Came::PeerError],
        is_closed: true,
        fault: None,
    },
    Row {
        name: "a reply",
        messages: &[REQUEST, REPLY],
        came: &[Came::Add],
        is_closed: true,
        fault: Some(LinkFault::WrongDirection),
    },
    Row {
        name: "a locate's reply",
        messages: &[LOCATE_REPLY, REQUEST],
        came: &[],
        is_closed: true,
        fault: Some(LinkFault::WrongDirection),
    },
    Row {
        name: "the first frame of a reply",
        messages: &[REPLY_FIRST, LOCATE],
        came: &[Came::Located],
        is_closed: false,
        fault: None,
    },
    Row {
        name: "both frames of a reply",
        messages: &[REPLY_FIRST, LOCATE, REPLY_LAST],
        came: &[Came::Located],
        is_closed: true,
        fault: Some(LinkFault::WrongDirection),
    },
    Row {
        name: "no header",
        messages: &[CANCEL, b"GIOQ\x01\x02\x00\x00\x00\x00\x00\x00"],
        came: &[Came::Cancelled(5)],
        is_closed: true,
        fault: Some(LinkFault::Stream(StreamFault::Header(HeaderFault::BadMagic))),
    },
    Row {
        name: "a part of a request",
        messages: &[b"GIOP\x01\x02\x00\x00\x00\x00\x00\x28\x00\x00"],
        came: &[],
        is_closed: false,
        fault: None,
    },
];

/// Whether that is lent.
fn is_lent(inbound: &Inbound, came: Came) -> bool {
    match (inbound, came) {
        (Inbound::Request(version, request), Came::Add) => {
            *version == Version::V12
                && request.request_id == 5
                && request.reply == ReplyWish::Full
                && request.target.object_key() == Some(b"c".as_slice())
                && request.operation == b"add".as_slice()
                && request.body.octets == b"\x00\x00\x00\x07".as_slice()
        }
        (Inbound::Locate(version, id, Target::Key(key)), Came::Located) => {
            *version == Version::V10 && *id == 6 && *key == b"cd".as_slice()
        }
        (Inbound::Cancelled(id), Came::Cancelled(wanted)) => *id == wanted,
        (Inbound::PeerClosed, Came::PeerClosed) | (Inbound::PeerError, Came::PeerError) => true,
        _ => false,
    }
}

/// Feeds a piece, and takes what is lent off those that are to come. An error is why the link was closed, if
/// that came in turn, or none where something else was lent.
fn feed_piece<'r>(
    link: &mut ServerLink,
    piece: &[u8],
    to_come: &'r [Came],
) -> Result<&'r [Came], Option<LinkFault>> {
    let mut left = piece;
    let mut to_come = to_come;
    for _ in 0..piece.len() {
        let taken = match link.feed(left) {
            Ok(taken) => taken,
            Err(fault) => return Err(to_come.is_empty().then_some(fault)),
        };
        if let Some(inbound) = link.inbound() {
            match to_come.split_first() {
                Some((came, later)) if is_lent(&inbound, *came) => to_come = later,
                _ => return Err(None),
            }
        }
        left = left.split_at(taken).1;
        if left.is_empty() {
            break;
        }
    }
    Ok(to_come)
}

/// Feeds messages in pieces of as many octets. What is still to come, or why the link was closed.
fn feed_all(link: &mut ServerLink, row: &Row, size: usize) -> Result<usize, Option<LinkFault>> {
    let mut to_come = row.came;
    for message in row.messages {
        for piece in message.chunks(size.max(1)) {
            to_come = feed_piece(link, piece, to_come)?;
        }
    }
    Ok(to_come.len())
}

/// Whether messages give that, in pieces of as many octets.
fn gives(alloc: Global, row: &Row, size: usize) -> bool {
    let mut link = ServerLink::new(alloc, Limits::default());
    let is_given = match feed_all(&mut link, row, size) {
        Ok(to_come) => to_come == 0 && row.fault.is_none(),
        Err(fault) => fault.is_some() && fault == row.fault,
    };
    is_given && link.is_closed() == row.is_closed
}

/// Asserts what each row gives in pieces of as many octets.
fn assert_rows(rt: &(impl Abort + AllocGlobal), size: usize) {
    for row in &ROWS {
        assert!(rt; gives(rt.alloc(), row, size), "{}", row.name);
    }
}

#[test]
fn links_lend_the_same_in_pieces_of_any_size(rt: HostRuntime) {
    for size in &SIZES {
        assert_rows(&rt, *size);
    }
}

#[test]
fn a_link_is_closed_once(rt: HostRuntime) -> Result<(), Fail> {
    let mut link = ServerLink::new(rt.alloc(), Limits::default());
    let mut out = Vec::new(rt.alloc());
    assert!(rt; !link.is_closed());
    link.close(&mut out)?;
    let closing = b"GIOP\x01\x00\x00\x05\x00\x00\x00\x00";
    assert_eq!(rt; out.as_slice(), closing.as_slice());
    link.close(&mut out)?;
    assert_eq!(rt; out.as_slice(), closing.as_slice());
    assert!(rt; link.is_closed());
    assert!(rt; link.feed(REQUEST) == Ok(REQUEST.len()));
    assert!(rt; link.inbound().is_none());
    Ok(())
}

#[test]
fn faults_are_memory_or_not(rt: HostRuntime) {
    assert!(rt; LinkFault::Stream(StreamFault::Memory).is_memory());
    assert!(rt; !LinkFault::Stream(StreamFault::TooLarge).is_memory());
    assert!(rt; !LinkFault::WrongDirection.is_memory());
}

/// Pieces in turn, and how many octets are held once each is taken.
static HELD: [(&[u8], usize); 6] = [
    (REPLY_FIRST, 24),
    (b"GIOP\x01\x00\x01\x03\x0a\x00\x00\x00\x06\x00", 24 + 14),
    (b"\x00\x00\x02\x00\x00\x00cd", 24 + 22),
    (b"", 24),
    (ERROR, 0),
    (REQUEST, 0),
];

#[test]
fn a_link_holds_what_is_not_whole(rt: HostRuntime) {
    let mut link = ServerLink::new(rt.alloc(), Limits::default());
    assert_eq!(rt; link.held(), 0);
    for (piece, held) in &HELD {
        assert!(rt; link.feed(piece) == Ok(piece.len()));
        assert_eq!(rt; link.held(), *held);
    }
}

static TEXTS: [(LinkFault, &str); 4] = [
    (LinkFault::WrongDirection, "wrong direction"),
    (LinkFault::Stream(StreamFault::Memory), "memory"),
    (LinkFault::Stream(StreamFault::TooLarge), "too large"),
    (
        LinkFault::Stream(StreamFault::Header(HeaderFault::BadMagic)),
        "bad magic",
    ),
];

#[test]
fn faults_of_links_are_printed(rt: HostRuntime) {
    assert_eq!(rt; misprinted(&TEXTS), None);
}
